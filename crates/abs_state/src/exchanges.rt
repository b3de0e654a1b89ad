// The exchanges of registers.
ghost use Rattle.std.specs.Prelude.{◌≡◌, List};
ghost use Rattle.intervals.specs.Domain.{Entry};
ghost use Rattle.abs_state.specs.Holds.{Holds};
ghost use Rattle.abs_state.specs.Registers.{exchange_de_hl, exchange_af, exchange_sets};
ghost use Rattle.abs_state.specs.Seen.{Seen, with_de_hl_exchanged, with_af_exchanged, with_sets_exchanged};
ghost use Rattle.abs_state.specs.declared.cell.KeptCell.{KeptCell};

use crate::registers::fact_behind;
use crate::state::AbsState;
use intervals::RegPair;
use std::mem::swap;

impl AbsState {
    /// EX DE,HL. Ranges and origins move with the words; flag facts of the four registers end.
    pub fn exchange_de_hl(&mut self)
        ensures exact { self.new ≡ exchange_de_hl self.old }
        ensures holds { (cells : List KeptCell) (entry : Entry) (m : Seen)
            → Holds self.old cells entry m
            → Holds self.new cells entry (record m { regs = with_de_hl_exchanged m.regs }) }
    {
        swap(&mut self.pairs.de, &mut self.pairs.hl);
        self.flag = fact_behind(RegPair::De, fact_behind(RegPair::Hl, self.flag));
    }

    /// EX AF,AF'. It changes the flags, so every flag fact ends.
    pub fn exchange_af(&mut self)
        ensures exact { self.new ≡ exchange_af self.old }
        ensures holds { (cells : List KeptCell) (entry : Entry) (m : Seen)
            → Holds self.old cells entry m
            → Holds self.new cells entry (record m { regs = with_af_exchanged m.regs }) }
    {
        swap(&mut self.pairs.af, &mut self.pairs.alternate_af);
        self.flag = None;
    }

    /// EXX. Ranges and origins move with the words; flag facts of the six registers end.
    pub fn exchange_sets(&mut self)
        ensures exact { self.new ≡ exchange_sets self.old }
        ensures holds { (cells : List KeptCell) (entry : Entry) (m : Seen)
            → Holds self.old cells entry m
            → Holds self.new cells entry (record m { regs = with_sets_exchanged m.regs }) }
    {
        let pairs = &mut self.pairs;
        swap(&mut pairs.bc, &mut pairs.alternate_bc);
        swap(&mut pairs.de, &mut pairs.alternate_de);
        swap(&mut pairs.hl, &mut pairs.alternate_hl);
        self.flag = fact_behind(
            RegPair::Bc,
            fact_behind(RegPair::De, fact_behind(RegPair::Hl, self.flag)),
        );
    }
}
