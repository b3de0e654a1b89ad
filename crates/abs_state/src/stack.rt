// Pushes and pops of pairs.
ghost use Rattle.std.specs.Prelude.{◌≡◌, ◌<◌, ◌↔◌, ℕ, List, length, IsOk, IfOk, IfErr, OnOk, OnErr};
ghost use Rattle.intervals.specs.Domain.{Entry};
ghost use Rattle.intervals.specs.Pair.{HoldsPair};
ghost use Rattle.intervals.specs.declared.pair.Pair.{Pair};
ghost use Rattle.abs_state.specs.Holds.{Holds};
ghost use Rattle.abs_state.specs.Seen.{Seen};
ghost use Rattle.abs_state.specs.Stack.{pushed, with_pushed};
ghost use Rattle.abs_state.specs.declared.cell.KeptCell.{KeptCell};
ghost use Rattle.abs_state.specs.declared.state.AbsState.{AbsState as State};

use crate::state::AbsState;
use intervals::Pair;
use stack_shape::{ShapeFault, Slot};

impl AbsState {
    /// Pushes a pair. Err(Full) at 64 slots, with the state unchanged.
    pub fn push(&mut self, pair: Pair) -> Result<(), ShapeFault>
        ensures ok { IsOk result ↔ (length self.old.shape < 64) }
        ensures pushed { OnOk result (self.new ≡ pushed pair self.old) }
        ensures full { IfErr result (λ fault. fault ≡ ShapeFault.Full) }
        ensures unchanged { OnErr result (self.new ≡ self.old) }
        ensures holds { (cells : List KeptCell) (entry : Entry) (m : Seen) (word : ℕ)
            → Holds self.old cells entry m
            → HoldsPair pair entry word → OnOk result (Holds self.new cells entry (with_pushed word m)) }
    {
        self.shape.push(Slot { pair })
    }

    /// Pops the pair that was pushed last. Err(Empty) at 0 slots, with the state unchanged.
    pub fn pop(&mut self) -> Result<Pair, ShapeFault>
        ensures ok { IsOk result ↔ (0 < length self.old.shape) }
        ensures popped { IfOk result (λ pair. self.old ≡ pushed pair self.new) }
        ensures empty { IfErr result (λ fault. fault ≡ ShapeFault.Empty) }
        ensures unchanged { OnErr result (self.new ≡ self.old) }
        ensures holds { (cells : List KeptCell) (entry : Entry) (m : Seen) (word : ℕ)
            → Holds self.old cells entry (with_pushed word m)
            → IfOk result (λ pair. HoldsPair pair entry word × Holds self.new cells entry m) }
    {
        Ok(self.shape.pop()?.pair)
    }
}
