// The texts of ranges.

use crate::used::Used;
use intervals::{ByteRange, Pair, RegPair, WordRange};
use std::alloc::{AllocError, Global};
use std::fmt;
use z80_decode::Register8;

/// A range of bytes as `05` or `00-1F`.
#[derive(Clone, Copy)]
struct ByteText(ByteRange);

/// A range of words as `4100` or `4100-411F`.
#[derive(Clone, Copy)]
struct WordText(WordRange);

impl fmt::Display for ByteText {
    fn fmt<W: fmt::Write>(&self, f: &mut fmt::Formatter<W>) -> fmt::Result {
        let (low, high) = (self.0.low(), self.0.high());
        if low == high {
            write!(f, "{low:02X}")
        } else {
            write!(f, "{low:02X}-{high:02X}")
        }
    }
}

impl fmt::Display for WordText {
    fn fmt<W: fmt::Write>(&self, f: &mut fmt::Formatter<W>) -> fmt::Result {
        let (low, high) = (self.0.low(), self.0.high());
        if low == high {
            write!(f, "{low:04X}")
        } else {
            write!(f, "{low:04X}-{high:04X}")
        }
    }
}

/// The names of a pair, of its high byte and of its low byte.
fn names_of(pair: RegPair) -> (&'static str, &'static str, &'static str) {
    match pair {
        RegPair::Af => ("AF", "A", "F"),
        RegPair::Bc => ("BC", "B", "C"),
        RegPair::De => ("DE", "D", "E"),
        RegPair::Hl => ("HL", "H", "L"),
        RegPair::Ix => ("IX", "IXh", "IXl"),
        RegPair::Iy => ("IY", "IYh", "IYl"),
        RegPair::AlternateAf => ("AF'", "A'", "F'"),
        RegPair::AlternateBc => ("BC'", "B'", "C'"),
        RegPair::AlternateDe => ("DE'", "D'", "E'"),
        RegPair::AlternateHl => ("HL'", "H'", "L'"),
    }
}

/// What the range of a word says about its bytes: their ranges.
fn bytes_of(word: WordRange) -> (ByteRange, ByteRange) {
    let (least, most) = (word.low(), word.high());
    let high = bytes_between(least / 256, most / 256);
    let low = if least / 256 == most / 256 {
        bytes_between(least % 256, most % 256)
    } else {
        ByteRange::full()
    };
    (high, low)
}

fn bytes_between(low: u16, high: u16) -> ByteRange {
    ByteRange::new((low % 256) as u8, (high % 256) as u8).unwrap_or(ByteRange::full())
}

/// Whether a pair is mostly used as an address. Its word is shown even where its high byte says all.
fn is_address(pair: RegPair) -> bool {
    matches!(pair, RegPair::Hl | RegPair::Ix | RegPair::Iy)
}

/// Adds what is known of a pair to texts, at most three: `HL 4100`, `HL 4100-411F`, `B 01-08` and the like. Nothing is
/// added where nothing is known. Of AF only A is shown.
pub fn add_pair_texts(
    alloc: Global,
    of: RegPair,
    known: Pair,
    texts: &mut Vec<String>,
) -> Result<(), AllocError> {
    let (name, high_name, low_name) = names_of(of);
    let Pair {
        word,
        high,
        low,
        ..
    } = known;
    if matches!(of, RegPair::Af | RegPair::AlternateAf) {
        return add_byte(alloc, high_name, high, texts);
    }
    let (high_said, low_said) = bytes_of(word);
    let is_single = word.low() == word.high();
    let is_closer = word.low() > said_least(high, low) || word.high() < said_most(high, low);
    let says_all = is_single || high == high_said && low == low_said;
    if says_all {
        if word.is_full() {
            return Ok(());
        }
        if !is_single && !is_closer && low.is_full() && !is_address(of) {
            return add_byte(alloc, high_name, high, texts);
        }
        return add_word(alloc, name, word, texts);
    }
    if is_closer {
        add_word(alloc, name, word, texts)?;
    }
    if !(is_closer && high == high_said) {
        add_byte(alloc, high_name, high, texts)?;
    }
    if !(is_closer && low == low_said) {
        add_byte(alloc, low_name, low, texts)?;
    }
    Ok(())
}

/// The least word that these bytes allow.
fn said_least(high: ByteRange, low: ByteRange) -> u16 {
    u16::from(high.low()) * 256 + u16::from(low.low())
}

/// The greatest word that these bytes allow.
fn said_most(high: ByteRange, low: ByteRange) -> u16 {
    u16::from(high.high()) * 256 + u16::from(low.high())
}

fn add_word(
    alloc: Global,
    name: &str,
    word: WordRange,
    texts: &mut Vec<String>,
) -> Result<(), AllocError> {
    texts.push(format!(in alloc; "{name} {}", WordText(word))?)?;
    Ok(())
}

/// Adds a byte, unless it may be any.
fn add_byte(
    alloc: Global,
    name: &str,
    byte: ByteRange,
    texts: &mut Vec<String>,
) -> Result<(), AllocError> {
    if byte.is_full() {
        return Ok(());
    }
    texts.push(format!(in alloc; "{name} {}", ByteText(byte))?)?;
    Ok(())
}

/// Adds what is known of a register or a pair: of a pair at most three texts, of a register at most one.
pub fn add_used_texts(
    alloc: Global,
    used: Used,
    known: Pair,
    texts: &mut Vec<String>,
) -> Result<(), AllocError> {
    match used {
        Used::Pair(pair) => add_pair_texts(alloc, pair, known, texts),
        Used::Register(register) => {
            let (name, is_high) = register_name(register);
            let byte = if is_high { known.high } else { known.low };
            add_byte(alloc, name, byte, texts)
        }
    }
}

/// The name of a register, and whether it is the high byte of its pair.
fn register_name(register: Register8) -> (&'static str, bool) {
    match register {
        Register8::A => ("A", true),
        Register8::B => ("B", true),
        Register8::C => ("C", false),
        Register8::D => ("D", true),
        Register8::E => ("E", false),
        Register8::H => ("H", true),
        Register8::L => ("L", false),
    }
}
