// Restricting: cuts of registers, and what a condition says about them.
ghost use Rattle.std.specs.Prelude.{◌≡◌, ◌≢◌, Some, None, Option, IsTrue, MatchBool, List, ◌==◌, Bool};
ghost use Rattle.std.specs.Bool.{OnFalse};
ghost use Rattle.intervals.specs.Domain.{Entry};
ghost use Rattle.intervals.specs.Range.{Within};
ghost use Rattle.z80_alu.specs.Flags.{flags_of};
ghost use Rattle.z80_draft.specs.Arithmetic.{holds};
ghost use Rattle.z80_draft.specs.Registers.{IsRegs};
ghost use Rattle.abs_state.specs.Fact.{byte_in};
ghost use Rattle.abs_state.specs.Holds.{Holds};
ghost use Rattle.abs_state.specs.Restricting.{to_range, to_all_but, with_cut_pair, cut_byte, cut_word, byte_is, word_is, a_is_below, zero_is, carry_is, condition_is};
ghost use Rattle.abs_state.specs.Pairs.{word_in};
ghost use Rattle.abs_state.specs.Seen.{Seen};
ghost use Rattle.abs_state.specs.declared.cell.KeptCell.{KeptCell};

use crate::fact::FlagFact;
use crate::state::AbsState;
use intervals::{ByteRange, Pair, RegPair, WordRange};
use z80_decode::{Condition, Register8};

/// Each cut answers whether anything is left. If nothing is, the state stays as it was.
impl AbsState {
    fn put_cut(&mut self, of: RegPair, cut: Option<Pair>) -> bool
        ensures exact { MatchBool result (with_cut_pair of cut self.old
            ≡ Some self.new) (with_cut_pair of cut self.old ≡ None) }
        ensures unchanged { OnFalse result (self.new ≡ self.old) }
    {
        match cut {
            Some(pair) => {
                self.pairs.set(of, pair);
                true
            }
            None => false,
        }
    }

    /// Cuts a register to a range. The origin of its pair stays.
    pub fn cut_byte(&mut self, register: Register8, to: ByteRange) -> bool
        ensures exact { MatchBool result (cut_byte register (to_range to) self.old
            ≡ Some self.new) (cut_byte register (to_range to) self.old ≡ None) }
        ensures unchanged { OnFalse result (self.new ≡ self.old) }
        ensures holds { (cells : List KeptCell) (entry : Entry) (m : Seen) → IsRegs m.regs
            → Holds self.old cells entry m
            → Within to (byte_in register m.regs) → IsTrue result × Holds self.new cells entry m }
    {
        match register {
            Register8::A => self.put_cut(RegPair::Af, self.pairs.af.cut_high(to)),
            Register8::B => self.put_cut(RegPair::Bc, self.pairs.bc.cut_high(to)),
            Register8::C => self.put_cut(RegPair::Bc, self.pairs.bc.cut_low(to)),
            Register8::D => self.put_cut(RegPair::De, self.pairs.de.cut_high(to)),
            Register8::E => self.put_cut(RegPair::De, self.pairs.de.cut_low(to)),
            Register8::H => self.put_cut(RegPair::Hl, self.pairs.hl.cut_high(to)),
            Register8::L => self.put_cut(RegPair::Hl, self.pairs.hl.cut_low(to)),
        }
    }

    /// Cuts one byte from the ends of a register's range. The origin of its pair stays.
    fn exclude_byte(&mut self, register: Register8, byte: u8) -> bool
        ensures exact { MatchBool result (cut_byte register (to_all_but byte) self.old
            ≡ Some self.new) (cut_byte register (to_all_but byte) self.old ≡ None) }
        ensures unchanged { OnFalse result (self.new ≡ self.old) }
    {
        match register {
            Register8::A => self.put_cut(RegPair::Af, self.pairs.af.without_high(byte)),
            Register8::B => self.put_cut(RegPair::Bc, self.pairs.bc.without_high(byte)),
            Register8::C => self.put_cut(RegPair::Bc, self.pairs.bc.without_low(byte)),
            Register8::D => self.put_cut(RegPair::De, self.pairs.de.without_high(byte)),
            Register8::E => self.put_cut(RegPair::De, self.pairs.de.without_low(byte)),
            Register8::H => self.put_cut(RegPair::Hl, self.pairs.hl.without_high(byte)),
            Register8::L => self.put_cut(RegPair::Hl, self.pairs.hl.without_low(byte)),
        }
    }

    /// Cuts the word of a pair to a range. The origin stays.
    pub fn cut_word(&mut self, of: RegPair, to: WordRange) -> bool
        ensures exact { MatchBool result (cut_word of (to_range to) self.old
            ≡ Some self.new) (cut_word of (to_range to) self.old ≡ None) }
        ensures unchanged { OnFalse result (self.new ≡ self.old) }
        ensures holds { (cells : List KeptCell) (entry : Entry) (m : Seen)
            → Holds self.old cells entry m
            → Within to (word_in of m.regs) → IsTrue result × Holds self.new cells entry m }
    {
        self.put_cut(of, self.pair(of).cut_word(to))
    }

    /// Restricts a register to one byte if `is`, else to all but that byte.
    pub fn restrict_byte(&mut self, is: bool, register: Register8, byte: u8) -> bool
        ensures exact { MatchBool result (byte_is is register byte self.old
            ≡ Some self.new) (byte_is is register byte self.old ≡ None) }
        ensures unchanged { OnFalse result (self.new ≡ self.old) }
        ensures holds { (cells : List KeptCell) (entry : Entry) (m : Seen) → IsRegs m.regs
            → Holds self.old cells entry m
            → is ≡ (byte_in register m.regs == byte) → IsTrue result × Holds self.new cells entry m }
    {
        if is {
            self.cut_byte(register, ByteRange::single(byte))
        } else {
            self.exclude_byte(register, byte)
        }
    }

    /// Restricts a pair to one word if `is`, else to all but that word.
    pub fn restrict_word(&mut self, is: bool, of: RegPair, word: u16) -> bool
        ensures exact { MatchBool result (word_is is of word self.old
            ≡ Some self.new) (word_is is of word self.old ≡ None) }
        ensures unchanged { OnFalse result (self.new ≡ self.old) }
        ensures holds { (cells : List KeptCell) (entry : Entry) (m : Seen)
            → Holds self.old cells entry m
            → is ≡ (word_in of m.regs == word) → IsTrue result × Holds self.new cells entry m }
    {
        if is {
            self.put_cut(of, self.pair(of).cut_word(WordRange::single(word)))
        } else {
            self.put_cut(of, self.pair(of).without_word(word))
        }
    }

    /// Restricts A to the bytes below `byte` if `is`, else to the others.
    fn restrict_below(&mut self, is: bool, byte: u8) -> bool
        ensures exact { MatchBool result (a_is_below is byte self.old
            ≡ Some self.new) (a_is_below is byte self.old ≡ None) }
        ensures unchanged { OnFalse result (self.new ≡ self.old) }
    {
        if !is {
            self.cut_byte(Register8::A, ByteRange::at_least(byte))
        } else if byte == 0 {
            false
        } else {
            self.cut_byte(Register8::A, ByteRange::at_most(byte - 1))
        }
    }

    fn restrict_zero(&mut self, set: bool) -> bool
        ensures exact { MatchBool result (zero_is set self.old.flag self.old
            ≡ Some self.new) (zero_is set self.old.flag self.old ≡ None) }
        ensures unchanged { OnFalse result (self.new ≡ self.old) }
    {
        match self.flag {
            None => true,
            Some(FlagFact::Zero(register)) => self.restrict_byte(set, register, 0),
            Some(FlagFact::Compared(byte)) => self.restrict_byte(set, Register8::A, byte),
        }
    }

    fn restrict_carry(&mut self, set: bool) -> bool
        ensures exact { MatchBool result (carry_is set self.old.flag self.old
            ≡ Some self.new) (carry_is set self.old.flag self.old ≡ None) }
        ensures unchanged { OnFalse result (self.new ≡ self.old) }
    {
        match self.flag {
            None | Some(FlagFact::Zero(_)) => true,
            Some(FlagFact::Compared(byte)) => self.restrict_below(set, byte),
        }
    }

    /// Restricts the register of the flag fact to where a condition holds if `met`, else to where it does not.
    pub fn restrict(&mut self, met: bool, condition: Condition) -> bool
        ensures exact { MatchBool result (condition_is met condition self.old
            ≡ Some self.new) (condition_is met condition self.old ≡ None) }
        ensures unchanged { OnFalse result (self.new ≡ self.old) }
        ensures holds { (cells : List KeptCell) (entry : Entry) (m : Seen) → IsRegs m.regs
            → Holds self.old cells entry m
            → met ≡ holds condition (flags_of m.regs.main.f) → IsTrue result × Holds self.new cells entry m }
    {
        match condition {
            Condition::Zero => self.restrict_zero(met),
            Condition::NotZero => self.restrict_zero(!met),
            Condition::Carry => self.restrict_carry(met),
            Condition::NotCarry => self.restrict_carry(!met),
            _ => true,
        }
    }
}
