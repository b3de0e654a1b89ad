// Lines that are assembled before they are written.

ghost use Rattle.std.specs.Prelude.{ℕ, ◌≡◌, ◌≤◌, ◌<◌, ◌+◌, ◌^◌, [], ◌∷◌, ◌++◌, length, decimal};
ghost use Rattle.texts.specs.Made.{MADE_LEN};
ghost use Rattle.texts.specs.Numbers.{hex2, hex4};

use crate::numbers::{spell_hex2, spell_hex4};
use arrayvec::ArrayVec;
use itoa::Buffer;
use std::marker::Model;

/// The capacity in bytes.
const MADE_LEN: usize = 4096;

// The definitions use the number.
const _: () = prove!(MADE_LEN == 4096);

/// The bytes of one or more lines, assembled so that they are written at once.
#[derive(Drop)]
pub struct MadeLine {
    bytes: ArrayVec<u8, MADE_LEN>,
}

impl Model for MadeLine {
    ghost use Rattle.std.specs.Prelude.{List, ℕ, ◌≤◌, length};
    ghost use Rattle.texts.specs.Made.{MADE_LEN};

    ghost Value = { List ℕ };

    ghost view = { λ m. m.bytes.items };

    ghost invariant = { λ m. length m.bytes.items ≤ MADE_LEN };
}

impl MadeLine {
    /// No bytes yet.
    pub fn new() -> MadeLine
        ensures { result ≡ [] }
    {
        MadeLine {
            bytes: ArrayVec::new(),
        }
    }

    /// Adds bytes. There must be room for them: 4,096 in all.
    pub fn add(&mut self, bytes: &[u8])
        requires { length self.old + length bytes.now ≤ MADE_LEN }
        ensures value { self.new ≡ self.old ++ bytes.now }
        ensures grown { length self.new ≡ length self.old + length bytes.now }
    {
        match self.bytes.try_extend_from_slice(bytes) {
            Ok(()) => {}
            Err(_) => unreachable!(),
        }
    }

    /// Adds one byte, for which there must be room.
    pub fn add_byte(&mut self, byte: u8)
        requires { length self.old < MADE_LEN }
        ensures value { self.new ≡ self.old ++ byte ∷ [] }
        ensures grown { length self.new ≡ length self.old + 1 }
    {
        self.bytes.push(byte);
    }

    /// Adds a number in decimal. There must be room for 39 bytes.
    pub fn add_decimal(&mut self, number: u128)
        requires { length self.old + 39 ≤ MADE_LEN }
        ensures value { self.new ≡ self.old ++ decimal number }
        ensures grown { length self.new ≤ length self.old + 39 }
        ensures digits { (n : ℕ) → 0 < n → number < 10 ^ n → length self.new ≤ length self.old + n }
    {
        let mut buffer = Buffer::new();
        self.add(buffer.format(number).as_bytes());
    }

    /// Adds a byte as two upper-case hexadecimal digits.
    pub fn add_hex2(&mut self, byte: u8)
        requires { length self.old + 2 ≤ MADE_LEN }
        ensures value { self.new ≡ self.old ++ hex2 byte }
        ensures grown { length self.new ≡ length self.old + 2 }
    {
        self.add(&spell_hex2(byte));
    }

    /// Adds a word as four upper-case hexadecimal digits.
    pub fn add_hex4(&mut self, word: u16)
        requires { length self.old + 4 ≤ MADE_LEN }
        ensures value { self.new ≡ self.old ++ hex4 word }
        ensures grown { length self.new ≡ length self.old + 4 }
    {
        self.add(&spell_hex4(word));
    }

    /// The bytes so far.
    pub fn bytes(&self) -> &[u8]
        ensures value { result.now ≡ self.now }
        ensures fits { length result.now ≤ MADE_LEN }
    {
        self.bytes.as_slice()
    }
}
