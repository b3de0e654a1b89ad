// States at entries and after a call.
ghost use Rattle.std.specs.Prelude.{◌≡◌, List, [], length};
ghost use Rattle.intervals.specs.Domain.{Entry};
ghost use Rattle.abs_state.specs.Cell.{HoldsCells};
ghost use Rattle.abs_state.specs.Entries.{main_entry, nmi_entry, callee_entry, returned_pair, returned_pairs, after_call};
ghost use Rattle.abs_state.specs.Holds.{Holds, IsQuiet};
ghost use Rattle.abs_state.specs.Pairs.{entry_of};
ghost use Rattle.abs_state.specs.Seen.{Seen};
ghost use Rattle.abs_state.specs.declared.cell.KeptCell.{KeptCell};
ghost use Rattle.z80_draft.specs.Registers.{IsRegs};

use crate::mode::Mode;
use crate::pairs::Pairs;
use crate::state::AbsState;
use intervals::Pair;
use stack_shape::Shape;

impl AbsState {
    /// The state at the entry of main code: nothing is known, and no NMI comes.
    pub fn of_main() -> AbsState
        ensures exact { result ≡ main_entry }
        ensures holds { (cells : List KeptCell) (entry : Entry) (m : Seen) → IsRegs m.regs
            → IsQuiet m.enable m.line m.latched → m.words ≡ []
            → Holds result cells entry m }
    {
        AbsState {
            mode: Mode::Unset,
            armed: 0,
            pairs: Pairs::full(),
            flag: None,
            shape: Shape::empty(),
        }
    }

    /// The state at the entry of the NMI routine with `cells` kept cells, 0 to 256: each pair is its own origin, and
    /// each cell is armed.
    pub fn of_nmi(cells: u16) -> AbsState
        ensures exact { result ≡ nmi_entry cells }
        ensures holds { (kept : List KeptCell) (m : Seen) → IsRegs m.regs → m.words ≡ []
            → HoldsCells cells kept m.cells
            → Holds result kept (entry_of m.regs) m }
    {
        AbsState {
            mode: Mode::Nmi,
            armed: cells,
            pairs: Pairs::full().own(),
            flag: None,
            shape: Shape::empty(),
        }
    }

    /// The state at the entry of a callee, from the caller's state at the call: the caller's mode, cells and ranges,
    /// each pair its own origin, and an empty shape.
    pub fn callee(&self) -> AbsState
        ensures exact { result ≡ callee_entry self.now }
        ensures holds { (cells : List KeptCell) (entry : Entry) (m : Seen)
            → Holds self.now cells entry m
            → Holds result cells (entry_of m.regs) (record m { words = [] }) }
    {
        AbsState {
            mode: self.mode,
            armed: self.armed,
            pairs: self.pairs.own(),
            flag: None,
            shape: Shape::empty(),
        }
    }

    /// The state after a call, from the caller's state at the call and an exit of the callee. A pair with an origin at
    /// the exit is the caller's pair of that name; any other has the exit's ranges. Mode and cells are the exit's, the
    /// shape is the caller's.
    pub fn after_call(&self, exit: &AbsState) -> AbsState
        ensures exact { result ≡ after_call self.now exit.now }
        ensures holds { (cells : List KeptCell) (entry : Entry) (caller m : Seen)
            → Holds self.now cells entry caller
            → Holds exit.now cells (entry_of caller.regs) m
            → Holds result cells entry (record m { words = caller.words }) }
    {
        AbsState {
            mode: exit.mode,
            armed: exit.armed,
            pairs: self.pairs.returned(&exit.pairs),
            flag: None,
            shape: self.shape.copied(),
        }
    }
}

impl Pairs {
    fn returned_pair(&self, exit: Pair) -> Pair
        ensures { result ≡ returned_pair self.now exit }
    {
        match exit.origin {
            Some(origin) => self.pair(origin),
            None => exit,
        }
    }

    fn returned(&self, exit: &Pairs) -> Pairs
        ensures { result ≡ returned_pairs self.now exit.now }
    {
        Pairs {
            af: self.returned_pair(exit.af),
            bc: self.returned_pair(exit.bc),
            de: self.returned_pair(exit.de),
            hl: self.returned_pair(exit.hl),
            ix: self.returned_pair(exit.ix),
            iy: self.returned_pair(exit.iy),
            alternate_af: self.returned_pair(exit.alternate_af),
            alternate_bc: self.returned_pair(exit.alternate_bc),
            alternate_de: self.returned_pair(exit.alternate_de),
            alternate_hl: self.returned_pair(exit.alternate_hl),
        }
    }
}
