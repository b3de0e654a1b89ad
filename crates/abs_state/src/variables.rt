// The variables of linears in a state: their ranges and cuts.
ghost use Rattle.std.specs.Prelude.{◌≡◌, Some, None, Option, IsTrue, MatchBool, List, get_or, pos};
ghost use Rattle.std.specs.Bool.{OnFalse};
ghost use Rattle.intervals.specs.Domain.{Entry};
ghost use Rattle.loop_bounds.specs.Effect.{whole};
ghost use Rattle.loop_bounds.specs.Linear.{value};
ghost use Rattle.loop_bounds.specs.Tighten.{tightened, after_last_cut};
ghost use Rattle.z80_draft.specs.Registers.{IsRegs};
ghost use Rattle.intervals.specs.Range.{intersection};
ghost use Rattle.abs_state.specs.Holds.{Holds};
ghost use Rattle.abs_state.specs.Restricting.{cut_byte, to_range};
ghost use Rattle.abs_state.specs.Seen.{Seen};
ghost use Rattle.abs_state.specs.Variables.{range_of, part_range, cut_to, cut_part, cut_slot, full_slot, value_in, HoldsValues};
ghost use Rattle.abs_state.specs.declared.cell.KeptCell.{KeptCell};

use crate::state::AbsState;
use intervals::{ByteRange, Pair, RegPair, WordRange};
use loop_bounds::{Linear, Part, Ranges, SlotNumber, Tightenable, Variable, tighten};
use stack_shape::Slot;
use z80_decode::Register8;

/// A byte range as a word range.
fn as_words(range: ByteRange) -> WordRange
    ensures { result ≡ range }
{
    WordRange::new(u16::from(range.low()), u16::from(range.high())).unwrap_or(WordRange::full())
}

/// The bytes of a range that lie in a word range, or None if there are none.
fn shared_bytes(range: ByteRange, to: WordRange) -> Option<ByteRange>
    ensures { result ≡ intersection range to }
{
    let low = u16::from(range.low()).max(to.low());
    let high = u16::from(range.high()).min(to.high());
    if low <= high {
        ByteRange::new(low as u8, high as u8)
    } else {
        None
    }
}

fn part_range(pair: Pair, part: Part) -> WordRange
    ensures { result ≡ part_range part pair }
{
    match part {
        Part::Word => pair.word,
        Part::High => as_words(pair.high),
        Part::Low => as_words(pair.low),
    }
}

fn cut_part(pair: Pair, part: Part, to: WordRange) -> Option<Pair>
    ensures { result ≡ cut_part part to pair }
{
    match part {
        Part::Word => pair.cut_word(to),
        Part::High => pair.cut_high(shared_bytes(pair.high, to)?),
        Part::Low => pair.cut_low(shared_bytes(pair.low, to)?),
    }
}

impl AbsState {
    /// The slot with a number; past the shape one about which nothing is known.
    fn slot(&self, number: SlotNumber) -> Slot
        ensures { result ≡ get_or self.now.shape number full_slot }
    {
        match self.shape.slots().get(usize::from(number.number())) {
            Some(slot) => *slot,
            None => Slot::default(),
        }
    }

    fn cut_register(&mut self, register: Register8, to: WordRange) -> bool
        ensures exact { MatchBool result (cut_byte register (to_range to) self.old
            ≡ Some self.new) (cut_byte register (to_range to) self.old ≡ None) }
        ensures unchanged { OnFalse result (self.new ≡ self.old) }
    {
        match shared_bytes(self.byte(register), to) {
            Some(bytes) => self.cut_byte(register, bytes),
            None => false,
        }
    }

    fn cut_slot(&mut self, number: SlotNumber, part: Part, to: WordRange) -> bool
        ensures exact { MatchBool result (cut_slot number part to self.old
            ≡ Some self.new) (cut_slot number part to self.old ≡ None) }
        ensures unchanged { OnFalse result (self.new ≡ self.old) }
    {
        let place = usize::from(number.number());
        if place >= self.shape.len() {
            return true;
        }
        match cut_part(self.slot(number).pair, part, to) {
            Some(pair) => {
                let _before = self.shape.replace(place, Slot { pair });
                true
            }
            None => false,
        }
    }

    /// Tightens the state by a fact: cuts each variable, in the order of the terms, to what the ranges of the others
    /// leave, rounded inwards. Each cut sees the ones before it. Answers whether anything is left. If nothing is, the
    /// state has the cuts made before the one that failed.
    pub fn tighten(&mut self, fact: &Linear) -> bool
        ensures exact { MatchBool result (tightened range_of cut_to fact.now self.old
            ≡ Some self.new) (tightened range_of cut_to fact.now self.old ≡ None) }
        ensures stopped { OnFalse result (self.new
            ≡ after_last_cut range_of cut_to fact.now self.old) }
        ensures holds { (cells : List KeptCell) (entry : Entry) (m : Seen) → IsRegs m.regs
            → Holds self.old cells entry m
            → value (whole (value_in m)) fact.now ≡ pos 0 → IsTrue result × Holds self.new cells entry m }
    {
        fact.terms().is_empty() || tighten(fact, self)
    }
}

impl Ranges for AbsState {
    ghost range_of = { range_of };

    fn range(&self, variable: Variable) -> WordRange {
        match variable {
            Variable::A => as_words(self.byte(Register8::A)),
            Variable::B => as_words(self.byte(Register8::B)),
            Variable::C => as_words(self.byte(Register8::C)),
            Variable::D => as_words(self.byte(Register8::D)),
            Variable::E => as_words(self.byte(Register8::E)),
            Variable::H => as_words(self.byte(Register8::H)),
            Variable::L => as_words(self.byte(Register8::L)),
            Variable::Bc => self.pairs.bc.word,
            Variable::De => self.pairs.de.word,
            Variable::Hl => self.pairs.hl.word,
            Variable::Ix => self.pairs.ix.word,
            Variable::Iy => self.pairs.iy.word,
            Variable::Slot(number, part) => part_range(self.slot(number).pair, part),
        }
    }
}

impl Tightenable for AbsState {
    ghost use Rattle.abs_state.specs.CutLaws.{values_lie_in, cut_keeps_values};

    ghost holds = { HoldsValues };

    ghost cut_to = { cut_to };

    ghost in_ranges = { values_lie_in };

    ghost keeps = { cut_keeps_values };

    /// Cuts a variable. Past the shape there is nothing to cut.
    fn cut(&mut self, variable: Variable, to: WordRange) -> bool {
        match variable {
            Variable::A => self.cut_register(Register8::A, to),
            Variable::B => self.cut_register(Register8::B, to),
            Variable::C => self.cut_register(Register8::C, to),
            Variable::D => self.cut_register(Register8::D, to),
            Variable::E => self.cut_register(Register8::E, to),
            Variable::H => self.cut_register(Register8::H, to),
            Variable::L => self.cut_register(Register8::L, to),
            Variable::Bc => self.cut_word(RegPair::Bc, to),
            Variable::De => self.cut_word(RegPair::De, to),
            Variable::Hl => self.cut_word(RegPair::Hl, to),
            Variable::Ix => self.cut_word(RegPair::Ix, to),
            Variable::Iy => self.cut_word(RegPair::Iy, to),
            Variable::Slot(number, part) => self.cut_slot(number, part, to),
        }
    }
}
