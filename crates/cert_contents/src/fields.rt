// The fields of a certificate's procedures and rows, by their numbers. Each is None if no procedure or row has the
// number.

ghost use Rattle.std.specs.Prelude.{◌≡◌, ◌<◌, ◌≤◌, ℕ, Some, length, option_copied, option_map, slice_get};
ghost use Rattle.cert_lines.specs.declared.row.Row.{Row};
ghost use Rattle.cert_form.specs.Form.{place_number};

use crate::value::{Certificate, RowId};
use abs_state::{AbsState, FlagFact, Mode, Pairs};
use call_graph::ProcId;
use cert_fields::Facts;
use cert_lines::ProcKind;
use loop_bounds::Linear;
use stack_shape::Shape;

impl Certificate {
    /// The kind of a procedure.
    pub fn kind(&self, id: ProcId) -> Option<ProcKind>
        ensures { result ≡ option_map (λ proc. proc.kind) (slice_get self.now.procs id) }
    {
        Some(self.proc(id)?.kind)
    }

    /// The address of a procedure's entry.
    pub fn entry(&self, id: ProcId) -> Option<u16>
        ensures { result ≡ option_map (λ proc. proc.entry) (slice_get self.now.procs id) }
    {
        Some(self.proc(id)?.entry)
    }

    /// The rank of a procedure, 0 to 65,535; the rules want it above those of its callees.
    pub fn rank(&self, id: ProcId) -> Option<u16>
        ensures { result ≡ option_map (λ proc. proc.rank) (slice_get self.now.procs id) }
    {
        Some(self.proc(id)?.rank)
    }

    /// The bytes of stack that a procedure and its callees need, 0 to 65,535; for all but main the return word is
    /// included.
    pub fn depth(&self, id: ProcId) -> Option<u16>
        ensures { result ≡ option_map (λ proc. proc.depth) (slice_get self.now.procs id) }
    {
        Some(self.proc(id)?.depth)
    }

    /// The T-states that a procedure may take, 0 to 1,000,000,000; `Some(None)` if it has no time.
    pub fn time(&self, id: ProcId) -> Option<Option<u32>>
        ensures { result ≡ option_map (λ proc. proc.time) (slice_get self.now.procs id) }
    {
        Some(self.proc(id)?.time)
    }

    /// The number of the procedure to which a row belongs.
    pub fn proc_of(&self, id: RowId) -> Option<ProcId>
        ensures { result ≡ option_map (λ row. row.proc) (slice_get self.now.rows id) }
    {
        Some(self.row(id)?.proc)
    }

    /// The address of a row's instruction.
    pub fn address(&self, id: RowId) -> Option<u16>
        ensures { result ≡ option_map (λ row. row.address) (slice_get self.now.rows id) }
    {
        Some(self.row(id)?.address)
    }

    /// The mode of a row: whether SP is set, and whether an NMI may come.
    pub fn mode(&self, id: RowId) -> Option<Mode>
        ensures { result ≡ option_map (λ row. row.state.mode) (slice_get self.now.rows id) }
    {
        Some(self.row(id)?.mode)
    }

    /// How many of the kept cells, from the first on, are armed at a row, 0 to 256.
    pub fn armed(&self, id: RowId) -> Option<u16>
        ensures { result ≡ option_map (λ row. row.state.armed) (slice_get self.now.rows id) }
    {
        Some(self.row(id)?.armed)
    }

    /// What is known of the ten pairs at a row.
    pub fn pairs(&self, id: RowId) -> Option<&Pairs>
        ensures { option_copied result
            ≡ option_map (λ row. row.state.pairs) (slice_get self.now.rows id) }
    {
        Some(self.row(id)?.pairs)
    }

    /// The flag fact of a row; `Some(None)` if it has none, as each row of version 3. The flag parts are in `row`.
    pub fn flag(&self, id: RowId) -> Option<Option<FlagFact>>
        ensures { result ≡ option_map (λ row. row.state.flag) (slice_get self.now.rows id) }
    {
        Some(self.row(id)?.flag)
    }

    /// The facts of a row, at most four.
    pub fn facts(&self, id: RowId) -> Option<&Facts>
        ensures { option_copied result
            ≡ option_map (λ row. row.facts) (slice_get self.now.rows id) }
    {
        Some(self.row(id)?.facts)
    }

    /// What is known of the words on the stack at a row, first pushed first.
    pub fn shape(&self, id: RowId) -> Option<&Shape>
        ensures { option_copied result
            ≡ option_map (λ row. row.state.shape) (slice_get self.now.rows id) }
    {
        Some(self.row(id)?.shape)
    }

    /// The potential of a row, an upper bound for the T-states that are left; `Some(None)` if it has none.
    pub fn potential(&self, id: RowId) -> Option<Option<Linear>>
        ensures { result ≡ option_map (λ row. row.potential) (slice_get self.now.rows id) }
    {
        Some(self.row(id)?.potential)
    }

    /// The state of a row, as a value of its own. No memory is taken.
    pub fn state(&self, id: RowId) -> Option<AbsState>
        ensures { result ≡ option_map (λ row. row.state) (slice_get self.now.rows id) }
    {
        Some(self.row(id)?.state())
    }

    /// The number of the first row that is not before this place; the number of rows if all are. Rows are ordered by
    /// procedure and then address, so it is found by binary search.
    pub fn rows_from(&self, proc: ProcId, address: u16) -> RowId
        ensures within { result ≤ length self.now.rows }
        ensures below { (k : ℕ) (row : Row) → slice_get self.now.rows k ≡ Some row → k < result
            → place_number row.proc row.address < place_number proc address }
        ensures from { (k : ℕ) (row : Row) → slice_get self.now.rows k ≡ Some row → result ≤ k
            → place_number proc address ≤ place_number row.proc row.address }
    {
        // By the form, the rows rise by place.
        self.is_in_form();
        self.draft.rows.before(proc, address) as u32
    }
}
