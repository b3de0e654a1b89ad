// The registers, and their pairs as words.
ghost use Rattle.std.specs.Prelude.{◌≡◌};
ghost use Rattle.z80_alu.specs.Word.{word_of, high_of, low_of};

use crate::word::Word;

/// One set of the accumulator, the flags and the general registers (UM0080, "CPU Registers").
#[derive(Clone, Copy, PartialEq, Eq, Default)]
pub struct RegisterSet {
    pub a: u8,
    pub f: u8,
    pub b: u8,
    pub c: u8,
    pub d: u8,
    pub e: u8,
    pub h: u8,
    pub l: u8,
}

/// The registers of the Z80 (UM0080, "CPU Registers"): the main set, the alternate set for EX AF,AF' and EXX, the index
/// registers, and the special registers.
#[derive(Clone, Copy, PartialEq, Eq, Default)]
pub struct Regs {
    pub main: RegisterSet,
    pub alternate: RegisterSet,
    pub ix: u16,
    pub iy: u16,
    pub sp: u16,
    pub pc: u16,
    pub i: u8,
    pub r: u8,
    pub iff1: bool,
    pub iff2: bool,
}

impl RegisterSet {
    /// The pair AF.
    pub fn af(&self) -> u16
        ensures { result ≡ word_of self.now.a self.now.f }
    {
        let word = Word {
            high: self.a,
            low: self.f,
        };
        word.value()
    }

    /// The pair BC.
    pub fn bc(&self) -> u16
        ensures { result ≡ word_of self.now.b self.now.c }
    {
        let word = Word {
            high: self.b,
            low: self.c,
        };
        word.value()
    }

    /// The pair DE.
    pub fn de(&self) -> u16
        ensures { result ≡ word_of self.now.d self.now.e }
    {
        let word = Word {
            high: self.d,
            low: self.e,
        };
        word.value()
    }

    /// The pair HL.
    pub fn hl(&self) -> u16
        ensures { result ≡ word_of self.now.h self.now.l }
    {
        let word = Word {
            high: self.h,
            low: self.l,
        };
        word.value()
    }

    /// Sets the pair AF.
    pub fn set_af(&mut self, value: u16)
        ensures { self.new ≡ record self.old { a = high_of value; f = low_of value } }
    {
        let word = Word::of(value);
        self.a = word.high;
        self.f = word.low;
    }

    /// Sets the pair BC.
    pub fn set_bc(&mut self, value: u16)
        ensures { self.new ≡ record self.old { b = high_of value; c = low_of value } }
    {
        let word = Word::of(value);
        self.b = word.high;
        self.c = word.low;
    }

    /// Sets the pair DE.
    pub fn set_de(&mut self, value: u16)
        ensures { self.new ≡ record self.old { d = high_of value; e = low_of value } }
    {
        let word = Word::of(value);
        self.d = word.high;
        self.e = word.low;
    }

    /// Sets the pair HL.
    pub fn set_hl(&mut self, value: u16)
        ensures { self.new ≡ record self.old { h = high_of value; l = low_of value } }
    {
        let word = Word::of(value);
        self.h = word.high;
        self.l = word.low;
    }
}
