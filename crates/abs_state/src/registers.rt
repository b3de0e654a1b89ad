// Reads and writes of registers.
ghost use Rattle.std.specs.Prelude.{◌≡◌, ℕ, ◌≤◌, List};
ghost use Rattle.intervals.specs.Domain.{Entry};
ghost use Rattle.intervals.specs.Pair.{HoldsPair};
ghost use Rattle.intervals.specs.Range.{Within};
ghost use Rattle.z80_draft.specs.Registers.{IsRegs};
ghost use Rattle.abs_state.specs.Fact.{HoldsFact, byte_in};
ghost use Rattle.abs_state.specs.Holds.{Holds};
ghost use Rattle.abs_state.specs.Pairs.{pair_of, word_in};
ghost use Rattle.abs_state.specs.Registers.{byte_of, with_byte_range, fact_behind, put_byte, put_pair, put_word, put_flags};
ghost use Rattle.abs_state.specs.Seen.{Seen, regs_with_byte, regs_with_flags, regs_with_word};
ghost use Rattle.abs_state.specs.declared.cell.KeptCell.{KeptCell};

use crate::fact::{FlagFact, fact_without};
use crate::pairs::Pairs;
use crate::state::AbsState;
use intervals::{ByteRange, Pair, RegPair, WordRange};
use z80_decode::Register8;

impl Pairs {
    /// The range of a register.
    pub fn byte(&self, register: Register8) -> ByteRange
        ensures { result ≡ byte_of register self.now }
    {
        match register {
            Register8::A => self.af.high,
            Register8::B => self.bc.high,
            Register8::C => self.bc.low,
            Register8::D => self.de.high,
            Register8::E => self.de.low,
            Register8::H => self.hl.high,
            Register8::L => self.hl.low,
        }
    }

    fn set_byte(&mut self, register: Register8, range: ByteRange)
        ensures { self.new ≡ with_byte_range register range self.old }
    {
        match register {
            Register8::A => self.af = self.af.with_high(range),
            Register8::B => self.bc = self.bc.with_high(range),
            Register8::C => self.bc = self.bc.with_low(range),
            Register8::D => self.de = self.de.with_high(range),
            Register8::E => self.de = self.de.with_low(range),
            Register8::H => self.hl = self.hl.with_high(range),
            Register8::L => self.hl = self.hl.with_low(range),
        }
    }
}

/// The flag fact after a write to a pair.
pub(crate) fn fact_behind(pair: RegPair, fact: Option<FlagFact>) -> Option<FlagFact>
    ensures { result ≡ fact_behind pair fact }
{
    match pair {
        RegPair::Af => None,
        RegPair::Bc => fact_without(Register8::B, fact_without(Register8::C, fact)),
        RegPair::De => fact_without(Register8::D, fact_without(Register8::E, fact)),
        RegPair::Hl => fact_without(Register8::H, fact_without(Register8::L, fact)),
        _ => fact,
    }
}

impl AbsState {
    /// The range of a register.
    pub fn byte(&self, register: Register8) -> ByteRange
        ensures exact { result ≡ byte_of register self.now.pairs }
        ensures holds { (cells : List KeptCell) (entry : Entry) (m : Seen) → IsRegs m.regs
            → Holds self.now cells entry m
            → Within result (byte_in register m.regs) }
    {
        self.pairs.byte(register)
    }

    /// What is known of a pair.
    pub fn pair(&self, of: RegPair) -> Pair
        ensures exact { result ≡ pair_of of self.now.pairs }
        ensures holds { (cells : List KeptCell) (entry : Entry) (m : Seen)
            → Holds self.now cells entry m
            → HoldsPair result entry (word_in of m.regs) }
    {
        self.pairs.pair(of)
    }

    /// Writes a byte of a range to a register. Its pair loses its origin, and a flag fact of the register ends.
    pub fn put_byte(&mut self, register: Register8, range: ByteRange)
        ensures exact { self.new ≡ put_byte register range self.old }
        ensures holds { (cells : List KeptCell) (entry : Entry) (m : Seen) (byte : ℕ)
            → IsRegs m.regs → Holds self.old cells entry m
            → Within range byte → Holds self.new cells entry (record m { regs = regs_with_byte register byte m.regs }) }
    {
        self.pairs.set_byte(register, range);
        self.flag = fact_without(register, self.flag);
    }

    /// Replaces a pair, ranges and origin. Flag facts of its registers end; for AF every fact ends.
    pub fn put_pair(&mut self, of: RegPair, pair: Pair)
        ensures exact { self.new ≡ put_pair of pair self.old }
        ensures holds { (cells : List KeptCell) (entry : Entry) (m : Seen) (word : ℕ)
            → Holds self.old cells entry m
            → HoldsPair pair entry word → Holds self.new cells entry (record m { regs = regs_with_word of word m.regs }) }
    {
        self.pairs.set(of, pair);
        self.flag = fact_behind(of, self.flag);
    }

    /// Writes a word of a range to a pair. It loses its origin. Flag facts of its registers end; for AF every fact
    /// ends.
    pub fn put_word(&mut self, of: RegPair, range: WordRange)
        ensures exact { self.new ≡ put_word of range self.old }
        ensures holds { (cells : List KeptCell) (entry : Entry) (m : Seen) (word : ℕ)
            → Holds self.old cells entry m
            → Within range word → Holds self.new cells entry (record m { regs = regs_with_word of word m.regs }) }
    {
        self.put_pair(of, Pair::of_word(range));
    }

    /// Changes the flags: F may be any byte, AF loses its origin, and `fact` replaces the flag fact.
    pub fn put_flags(&mut self, fact: Option<FlagFact>)
        ensures exact { self.new ≡ put_flags fact self.old }
        ensures holds { (cells : List KeptCell) (entry : Entry) (m : Seen) (byte : ℕ)
            → IsRegs m.regs → Holds self.old cells entry m
            → byte ≤ 255 → HoldsFact fact (regs_with_flags byte m.regs)
            → Holds self.new cells entry (record m { regs = regs_with_flags byte m.regs }) }
    {
        self.pairs.af = self.pairs.af.with_low(ByteRange::full());
        self.flag = fact;
    }
}
