// The rows of a certificate. Shapes and flag parts are stored by number.

ghost use Rattle.std.specs.Prelude.{◌≡◌, ◌<◌, ◌≤◌, ◌∷◌, [], ◌++◌, ℕ, List, Some, MatchOption, OnOk, OnErr, length, map, slice_get};
ghost use Rattle.cert_lines.specs.declared.row.Row.{Row};
ghost use Rattle.cert_form.specs.Form.{RisePlaces, place_number};
ghost use Rattle.cert_form.specs.Migrated.{row_with_parts};
ghost use Rattle.cert_form.specs.Rows.{HasNumbers, HaveNumbers, KeepsNumbers, as_told, changed_at, told_row, with_potential};
ghost use Rattle.stack_shape.specs.declared.slot.Slot.{Slot};

use crate::shape_numbers::ShapeNumbers;
use crate::shapes::Shapes;
use crate::stored_parts::StoredParts;
use abs_state::{AbsState, FlagFact, Mode, Pairs};
use call_graph::ProcId;
use cert_fields::Facts;
use cert_flags::parts_of_fact;
use cert_lines::{Row, RowRef};
use flag_letters::FlagParts;
use loop_bounds::Linear;
use stack_shape::Shape;
use std::alloc::{AllocError, Global};
use std::marker::Model;

/// A row with the numbers of its shape and of its flag parts in place of these.
#[derive(Drop)]
pub struct NumberedRow {
    proc: ProcId,
    address: u16,
    mode: Mode,
    armed: u16,
    pairs: Pairs,
    flag: Option<FlagFact>,
    parts: usize,
    facts: Facts,
    potential: Option<Linear>,
    shape: usize,
}

impl NumberedRow {
    /// The row with its shape and its flag parts, borrowed.
    fn with<'a>(&'a self, shape: &'a Shape, parts: &'a FlagParts) -> RowRef<'a>
        ensures { result ≡ told_row self.now shape.now parts.now }
    {
        RowRef {
            proc: self.proc,
            address: self.address,
            mode: self.mode,
            armed: self.armed,
            pairs: &self.pairs,
            flag: self.flag,
            parts,
            facts: &self.facts,
            shape,
            potential: self.potential,
        }
    }

    /// Says by flag parts what the row said by a flag fact. Where memory is refused, the row stays as it was.
    fn use_flag_parts(&mut self, stored: &mut StoredParts) -> Result<(), AllocError>
        ensures kept { KeepsNumbers stored.old stored.new }
        ensures numbered { (shapes : List (List Slot)) → HasNumbers shapes stored.old self.old
            → HasNumbers shapes stored.new self.new }
        ensures changed { OnOk result ((shapes : List (List Slot)) → HasNumbers shapes stored.old self.old
            → as_told shapes stored.new self.new ≡ row_with_parts (as_told shapes stored.old self.old)) }
    {
        if let Some(fact) = self.flag {
            self.parts = stored.number_of(parts_of_fact(fact))?;
            self.flag = None;
        }
        Ok(())
    }
}

/// Says by flag parts what each row said by a flag fact. Where memory is refused, only some rows are changed.
fn use_flag_parts(rows: &mut [NumberedRow], stored: &mut StoredParts) -> Result<(), AllocError>
    ensures numbered { (shapes : List (List Slot)) → HaveNumbers shapes stored.old rows.old
        → HaveNumbers shapes stored.new rows.new }
    ensures changed { OnOk result ((shapes : List (List Slot)) → HaveNumbers shapes stored.old rows.old
        → map (as_told shapes stored.new) rows.new ≡ map row_with_parts (map (as_told shapes stored.old) rows.old)) }
{
    for row in rows.iter_mut() {
        row.use_flag_parts(stored)?;
    }
    Ok(())
}

/// Rows, their shapes, each stored once, and their flag parts.
#[derive(Drop)]
pub struct Rows {
    rows: Vec<NumberedRow>,
    shapes: Shapes,
    parts: StoredParts,
}

impl Model for Rows {
    ghost use Rattle.std.specs.Prelude.{List, map};
    ghost use Rattle.cert_lines.specs.declared.row.Row.{Row};
    ghost use Rattle.cert_form.specs.Rows.{HaveNumbers, as_told};

    ghost Value = { List Row };

    ghost view = { λ r. map (as_told r.shapes r.parts) r.rows.items };

    ghost invariant = { λ r. HaveNumbers r.shapes r.parts r.rows.items };
}

impl Rows {
    /// No rows. Those that are added take their memory from this allocator.
    pub fn new(alloc: Global) -> Rows
        ensures { result ≡ [] }
    {
        Rows {
            rows: Vec::new(alloc),
            shapes: Shapes::new(alloc),
            parts: StoredParts::new(alloc),
        }
    }

    /// The number of rows.
    pub fn len(&self) -> usize
        ensures { result ≡ length self.now }
    {
        self.rows.len()
    }

    /// The number of the last row's shape.
    fn last_shape(&self) -> Option<usize> {
        let last = self.rows.last()?;
        Some(last.shape)
    }

    /// Appends a row. The numbers are those of the shapes of the rows before it; others cost memory alone. Where memory
    /// is refused, the rows stay as they were.
    pub fn push(&mut self, numbers: &mut ShapeNumbers, row: Row) -> Result<(), AllocError>
        ensures pushed { OnOk result (self.new ≡ self.old ++ row ∷ []) }
        ensures err { OnErr result (self.new ≡ self.old) }
    {
        let Row {
            proc,
            address,
            state,
            parts,
            facts,
            potential,
        } = row;
        let AbsState {
            mode,
            armed,
            pairs,
            flag,
            shape,
        } = state;
        let last = self.last_shape();
        let shape_number = self.shapes.number_of(numbers, last, shape)?;
        let parts_number = self.parts.number_of(parts)?;
        self.rows.push(NumberedRow {
            proc,
            address,
            mode,
            armed,
            pairs,
            flag,
            parts: parts_number,
            facts,
            potential,
            shape: shape_number,
        })?;
        Ok(())
    }

    /// Sets the potential of the row with this number. If there is none, the rows stay as they were.
    pub fn set_potential(&mut self, number: usize, potential: Linear)
        ensures { self.new ≡ changed_at (with_potential potential) number self.old }
    {
        if number < self.rows.len() {
            self.rows[number].potential = Some(potential);
        }
    }

    /// Says by flag parts what each row said by a flag fact. Where memory is refused, only some rows are changed.
    pub fn use_flag_parts(&mut self) -> Result<(), AllocError>
        ensures { OnOk result (self.new ≡ map row_with_parts self.old) }
    {
        use_flag_parts(self.rows.as_mut_slice(), &mut self.parts)
    }

    /// The row with this number, borrowed; None if there is none.
    pub fn row(&self, number: usize) -> Option<RowRef>
        ensures { result ≡ slice_get self.now number }
    {
        let row = self.rows.get(number)?;
        let shape = self.shapes.shape(row.shape)?;
        let parts = self.parts.parts(row.parts)?;
        Some(row.with(shape, parts))
    }

    /// The procedure and the address of the last row; None if there are no rows.
    pub fn last_place(&self) -> Option<(ProcId, u16)>
        ensures { MatchOption result (self.now ≡ []) (λ p. (before : List Row) × (last : Row)
            × (self.now ≡ before ++ last ∷ []) × (p.0 ≡ last.proc) × (p.1 ≡ last.address)) }
    {
        let last = self.rows.last()?;
        Some((last.proc, last.address))
    }

    /// How many rows are before a place. Rows are ordered by place, so these are the first ones.
    pub fn before(&self, proc: ProcId, address: u16) -> usize
        requires { RisePlaces self.now }
        ensures within { result ≤ length self.now }
        ensures below { (k : ℕ) (row : Row) → slice_get self.now k ≡ Some row → k < result
            → place_number row.proc row.address < place_number proc address }
        ensures from { (k : ℕ) (row : Row) → slice_get self.now k ≡ Some row → result ≤ k
            → place_number proc address ≤ place_number row.proc row.address }
    {
        let number = place_number(proc, address);
        self.rows
            .as_slice()
            .partition_point(|row| place_number(row.proc, row.address) < number)
    }
}

/// A place as one number: places are ordered by procedure and then address.
pub fn place_number(proc: ProcId, address: u16) -> u32
    ensures { result ≡ place_number proc address }
{
    u32::from(proc) * 0x1_0000 + u32::from(address)
}
