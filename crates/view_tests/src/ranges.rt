// The texts of ranges, facts and flags, by tables.

use crate::instructions::instr_of;
use abs_state::FlagFact;
use flag_letters::{FlagPart, Letter};
use intervals::{ByteRange, Pair, RegPair, WordRange};
use loop_bounds::{Linear, Part, SlotNumber, Term, Variable};
use row_texts::{
    Used, add_pair_texts, add_used_texts, fact_text, flag_text, pair_hull, part_text, shared_flag,
    used_by,
};
use std::alloc::{AllocError, Global};
use std::test::Fail;
use z80_decode::Register8;

/// A pair, the bounds of its word, of its high byte and of its low byte, and its texts.
type Ranges = (RegPair, [u16; 2], [u8; 2], [u8; 2], &'static str);

const RANGES: &[Ranges] = &[
    (RegPair::Hl, [0, 0xFFFF], [0, 0xFF], [0, 0xFF], ""),
    (
        RegPair::Hl,
        [0x4100, 0x4100],
        [0x41, 0x41],
        [0, 0],
        "HL 4100",
    ),
    // The word's range says what is known of both bytes.
    (
        RegPair::Hl,
        [0x4100, 0x411F],
        [0x41, 0x41],
        [0, 0x1F],
        "HL 4100-411F",
    ),
    // The high byte alone is known: of an address the word is shown.
    (RegPair::Bc, [0x0100, 0x08FF], [1, 8], [0, 0xFF], "B 01-08"),
    (
        RegPair::Hl,
        [0x4000, 0x40FF],
        [0x40, 0x40],
        [0, 0xFF],
        "HL 4000-40FF",
    ),
    (
        RegPair::Ix,
        [0x4000, 0x40FF],
        [0x40, 0x40],
        [0, 0xFF],
        "IX 4000-40FF",
    ),
    // The low byte says more than the word.
    (RegPair::Bc, [0, 0xFF0F], [0, 0xFF], [0, 0x0F], "C 00-0F"),
    (
        RegPair::De,
        [0x5002, 0x5301],
        [0x50, 0x53],
        [1, 0x81],
        "DE 5002-5301, E 01-81",
    ),
    (
        RegPair::Iy,
        [0x42B0, 0x4390],
        [0x42, 0x43],
        [0x10, 0xF0],
        "IY 42B0-4390, IYl 10-F0",
    ),
    (
        RegPair::De,
        [0x0605, 0x0905],
        [6, 9],
        [5, 5],
        "D 06-09, E 05",
    ),
    // The word says more than the bytes.
    (
        RegPair::Bc,
        [1, 0xFFFF],
        [0, 0xFF],
        [0, 0xFF],
        "BC 0001-FFFF",
    ),
    // Of AF only A is shown.
    (RegPair::Af, [0x0500, 0x05FF], [5, 5], [0, 0xFF], "A 05"),
    (
        RegPair::AlternateAf,
        [0x0500, 0x07FF],
        [5, 7],
        [0, 0xFF],
        "A' 05-07",
    ),
    (RegPair::Af, [0, 0xFFFF], [0, 0xFF], [0, 0xFF], ""),
    (
        RegPair::AlternateBc,
        [0x0100, 0x08FF],
        [1, 8],
        [0, 0xFF],
        "B' 01-08",
    ),
];

/// A pair of ranges. None if one is empty.
fn pair_of(word: [u16; 2], high: [u8; 2], low: [u8; 2]) -> Option<Pair> {
    Some(Pair {
        word: WordRange::new(word[0], word[1])?,
        high: ByteRange::new(high[0], high[1])?,
        low: ByteRange::new(low[0], low[1])?,
        origin: None,
    })
}

/// Texts with commas between them.
fn joined(alloc: Global, texts: &[String]) -> Result<String, AllocError> {
    let mut line = String::new(alloc);
    for text in texts {
        if !line.is_empty() {
            line.push_str(", ")?;
        }
        line.push_str(text.as_str())?;
    }
    Ok(line)
}

#[test]
fn ranges(rt: HostRuntime) -> Result<(), Fail> {
    for (of, word, high, low, expected) in RANGES {
        let Some(pair) = pair_of(*word, *high, *low) else {
            return Err(Fail::new("an empty range"));
        };
        let mut texts = Vec::new(rt.alloc());
        add_pair_texts(rt.alloc(), *of, pair, &mut texts)?;
        let line = joined(rt.alloc(), &texts)?;
        assert!(rt; line.as_str() == *expected, "{line} for {expected}");
    }
    Ok(())
}

#[test]
fn registers(rt: HostRuntime) -> Result<(), Fail> {
    let Some(pair) = pair_of([0x0102, 0x0305], [1, 3], [2, 5]) else {
        return Err(Fail::new("an empty range"));
    };
    let mut texts = Vec::new(rt.alloc());
    add_used_texts(rt.alloc(), Used::Register(Register8::D), pair, &mut texts)?;
    add_used_texts(rt.alloc(), Used::Register(Register8::E), pair, &mut texts)?;
    add_used_texts(
        rt.alloc(),
        Used::Register(Register8::A),
        Pair::full(),
        &mut texts,
    )?;
    add_used_texts(rt.alloc(), Used::Pair(RegPair::De), pair, &mut texts)?;
    let line = joined(rt.alloc(), &texts)?;
    assert!(rt;
        line.as_str() == "D 01-03, E 02-05, D 01-03, E 02-05",
        "{line}"
    );
    let hull = pair_hull(pair, Pair::of_word(WordRange::single(0x0410)));
    assert!(rt; hull.word.low() == 0x0102 && hull.word.high() == 0x0410);
    assert!(rt; hull.high.high() == 4 && hull.low.low() == 2 && hull.low.high() == 0x10);
    Ok(())
}

/// Coefficients, and the names of their variables.
type Terms = &'static [(i32, &'static str)];

/// The variable of a name. `s12` is a slot, and `s12h` its high byte.
fn variable_of(name: &str) -> Option<Variable> {
    Some(match name {
        "A" => Variable::A,
        "B" => Variable::B,
        "C" => Variable::C,
        "D" => Variable::D,
        "E" => Variable::E,
        "L" => Variable::L,
        "BC" => Variable::Bc,
        "DE" => Variable::De,
        "HL" => Variable::Hl,
        "s12" => Variable::Slot(SlotNumber::new(12)?, Part::Word),
        "s12h" => Variable::Slot(SlotNumber::new(12)?, Part::High),
        _ => return None,
    })
}

/// A linear with these terms. None if they are not in order.
fn linear(constant: i32, terms: Terms) -> Option<Linear> {
    let mut linear = Linear::of_constant(constant)?;
    for (coefficient, name) in terms {
        linear = linear.with_term(Term {
            coefficient: *coefficient,
            variable: variable_of(name)?,
        })?;
    }
    Some(linear)
}

/// The constant and the terms of a fact, and its text.
const FACTS: &[(i32, Terms, &str)] = &[
    // Facts of words.
    (-17328, &[(1, "BC"), (1, "DE")], "BC + DE = 43B0"),
    (-16481, &[(2, "B"), (1, "DE")], "2*B + DE = 4061"),
    (16481, &[(-2, "B"), (-1, "DE")], "2*B + DE = 4061"),
    (-255, &[(1, "HL")], "HL = 255"),
    (-256, &[(1, "HL")], "HL = 0100"),
    (256, &[(1, "HL")], "HL = -256"),
    // Facts of bytes.
    (-300, &[(3, "A"), (1, "L")], "3*A + L = 300"),
    (-3, &[(1, "A"), (-1, "B")], "A - B = 3"),
    (3, &[(-1, "A"), (1, "B")], "B - A = -3"),
    (0, &[(-2, "C"), (1, "D"), (-1, "E")], "D - 2*C - E = 0"),
    (-5, &[], "0 = 5"),
    // Facts of slots.
    (-256, &[(1, "B"), (1, "s12h")], "B + s12h = 256"),
    (-256, &[(1, "s12")], "s12 = 0100"),
];

#[test]
fn facts(rt: HostRuntime) -> Result<(), Fail> {
    for (constant, terms, expected) in FACTS {
        let Some(fact) = linear(*constant, terms) else {
            return Err(Fail::new("no linear"));
        };
        let text = fact_text(rt.alloc(), &fact)?;
        assert!(rt; text.as_str() == *expected, "{text} for {expected}");
    }
    Ok(())
}

#[test]
fn flags(rt: HostRuntime) -> Result<(), Fail> {
    let zero = FlagFact::Zero(Register8::B);
    let compared = FlagFact::Compared(0x0A);
    assert!(rt; flag_text(rt.alloc(), zero)?.as_str() == "Z: B=0");
    assert!(rt; flag_text(rt.alloc(), compared)?.as_str() == "A compared with 0A");
    assert!(rt; shared_flag(Some(zero), Some(zero)).is_some());
    assert!(rt; shared_flag(Some(zero), Some(compared)).is_none());
    assert!(rt; shared_flag(Some(zero), None).is_none());
    assert!(rt; shared_flag(None, Some(zero)).is_none());
    Ok(())
}

/// The letter, the constant and the terms of a flag part, and its text.
const FLAG_PARTS: &[(Letter, i32, Terms, &str)] = &[
    (Letter::CarryIfBelow, -64, &[(1, "L")], "C: L < 40"),
    (Letter::Zero, -64, &[(1, "L")], "Z: L = 40"),
    (Letter::Zero, 0, &[(1, "BC")], "Z: BC = 0"),
    (Letter::Zero, -5, &[(1, "HL")], "Z: HL = 0005"),
    (Letter::ZeroIfBelow, -128, &[(1, "A")], "Z: A < 80"),
    (
        Letter::CarryIfBelow,
        0,
        &[(1, "A"), (-1, "B")],
        "C: A - B < 0",
    ),
    (
        Letter::CarryIfBelow,
        -300,
        &[(2, "A"), (1, "C")],
        "C: 2*A + C < 300",
    ),
    // The sign is turned where no term is positive: 127 - A is below 0 where A is above 127.
    (Letter::SignIfBelow, 127, &[(-1, "A")], "S: A > 7F"),
    (Letter::CarryIfBelow, 191, &[(-1, "A")], "C: A > BF"),
    (Letter::Zero, 3, &[(-1, "B")], "Z: B = 03"),
    // A is never below a negative number. A part without variables says what the flag is.
    (Letter::CarryIfBelow, 5, &[(1, "A")], "C: A < -5"),
    (Letter::CarryIfBelow, 0, &[], "C clear"),
    (Letter::CarryIfBelow, -1, &[], "C set"),
    (Letter::Zero, 0, &[], "Z set"),
    (Letter::Zero, 7, &[], "Z clear"),
    (Letter::SignIfBelow, -1, &[], "S set"),
];

#[test]
fn flag_parts(rt: HostRuntime) -> Result<(), Fail> {
    for (letter, constant, terms, expected) in FLAG_PARTS {
        let Some(linear) = linear(*constant, terms) else {
            return Err(Fail::new("no linear"));
        };
        let part = FlagPart {
            letter: *letter,
            linear,
        };
        let text = part_text(rt.alloc(), &part)?;
        assert!(rt; text.as_str() == *expected, "{text} for {expected}");
    }
    Ok(())
}

/// The bytes of an instruction, and what it uses.
const USES: &str = "\
    41: C\n\
    70: HL B\n\
    36 01: HL\n\
    3E 01: \n\
    DD 7E 01: IX\n\
    0A: BC\n\
    12: DE A\n\
    32 00 40: A\n\
    2A 00 40: \n\
    ED 53 00 40: DE\n\
    FD F9: IY\n\
    C5: BC\n\
    E1: \n\
    EB: DE HL\n\
    08: AF AF'\n\
    D9: \n\
    ED B0: BC DE HL\n\
    ED B1: A HL BC\n\
    ED 6F: A HL\n\
    86: A HL\n\
    A8: A B\n\
    AF: \n\
    97: \n\
    9F: A\n\
    FE 05: A\n\
    34: HL\n\
    0D: C\n\
    27: A\n\
    09: HL BC\n\
    29: HL\n\
    DD 39: IX\n\
    13: DE\n\
    33: \n\
    CB 46: HL\n\
    10 FE: B\n\
    E9: HL\n\
    C8: \n\
    CD 00 00: \n";

#[test]
fn uses(rt: HostRuntime) -> Result<(), Fail> {
    for row in USES.lines() {
        let Some((instr, expected)) = instr_of(row) else {
            return Err(Fail::new("no instruction"));
        };
        let mut line = String::new(rt.alloc());
        for used in used_by(&instr) {
            if let Some(used) = used {
                if !line.is_empty() {
                    line.push_str(" ")?;
                }
                line.push_str(name_of(used))?;
            }
        }
        assert!(rt; line.as_str() == expected, "{line} for {row}");
    }
    Ok(())
}

fn name_of(used: Used) -> &'static str {
    match used {
        Used::Register(Register8::A) => "A",
        Used::Register(Register8::B) => "B",
        Used::Register(Register8::C) => "C",
        Used::Register(Register8::D) => "D",
        Used::Register(Register8::E) => "E",
        Used::Register(Register8::H) => "H",
        Used::Register(Register8::L) => "L",
        Used::Pair(RegPair::Af) => "AF",
        Used::Pair(RegPair::Bc) => "BC",
        Used::Pair(RegPair::De) => "DE",
        Used::Pair(RegPair::Hl) => "HL",
        Used::Pair(RegPair::Ix) => "IX",
        Used::Pair(RegPair::Iy) => "IY",
        Used::Pair(RegPair::AlternateAf) => "AF'",
        Used::Pair(_) => "another",
    }
}
