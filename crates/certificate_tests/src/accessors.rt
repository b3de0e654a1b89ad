// Every accessor of a certificate, called once or twice on `EVERY_FORM`, and the flag parts of `EVERY_PART`.

use crate::samples::{EVERY_FORM, EVERY_PART};
use abs_state::{FlagFact, Mode};
use certificate::{BoardMap, Certificate, ProcKind, Version, read};
use flag_letters::Letter;
use intervals::RegPair;
use std::alloc::Global;
use z80_decode::Register8;

fn has_whole(certificate: &Certificate) -> bool {
    let region = certificate.region();
    certificate.version() == Version::Two
        && certificate.rom_len() == 300
        && certificate.board() == BoardMap::Raised
        && region.low == 0x8380
        && region.top == 0x83FE
        && certificate.budget() == Some(7_000)
        && certificate.row_count() == 5
}

fn has_procs(certificate: &Certificate) -> bool {
    certificate.procs().len() == 4
        && certificate.kind(3) == Some(ProcKind::Sub)
        && certificate.entry(3) == Some(0x100)
        && certificate.rank(1) == Some(1)
        && certificate.depth(1) == Some(24)
        && certificate.time(3) == Some(Some(1_000_000_000))
        && certificate.proc(4).is_none()
}

fn has_split(certificate: &Certificate) -> bool {
    certificate.splits().len() == 3
        && match certificate.splits().get(1) {
            Some(split) => {
                split.proc == 0 && split.address == 0x10 && split.register == Register8::L
            }
            None => false,
        }
}

fn has_cell(certificate: &Certificate) -> bool {
    certificate.cells().len() == 2
        && match certificate.cells().first() {
            Some(cell) => {
                cell.at == 0x8000 && cell.range.low() == 0x12 && cell.range.high() == 0x34
            }
            None => false,
        }
}

fn has_inlines(certificate: &Certificate) -> bool {
    let inlines = certificate.inlines();
    inlines.len() == 2 && inlines.first() == Some(&7)
}

fn has_place(certificate: &Certificate) -> bool {
    certificate.proc_of(4) == Some(3)
        && certificate.address(4) == Some(0x100)
        && certificate.armed(1) == Some(1)
        && certificate.mode(3) == Some(Mode::Nmi)
        && certificate.mode(5).is_none()
}

fn has_copied_state(certificate: &Certificate) -> bool {
    match certificate.state(1) {
        Some(state) => state.armed == 1 && state.shape.len() == 2,
        None => false,
    }
}

fn has_flag(certificate: &Certificate) -> bool {
    match certificate.flag(2) {
        Some(Some(FlagFact::Compared(byte))) => byte == 0x5A,
        _ => false,
    }
}

/// Row 1 has 0012-FFED:01-FE:13-EC@HL for AF.
fn has_pairs(certificate: &Certificate) -> bool {
    match certificate.pairs(1) {
        Some(pairs) => {
            let pair = pairs.pair(RegPair::Af);
            pair.word.low() == 0x12
                && pair.word.high() == 0xFFED
                && pair.high.low() == 0x01
                && pair.high.high() == 0xFE
                && pair.low.low() == 0x13
                && pair.low.high() == 0xEC
                && pair.origin == Some(RegPair::Hl)
        }
        None => false,
    }
}

/// Row 1 has 1234-5678:12-56:34-78@IX for its first slot of two.
fn has_shape(certificate: &Certificate) -> bool {
    match certificate.shape(1) {
        Some(shape) => {
            shape.len() == 2
                && match shape.slots().first() {
                    Some(slot) => {
                        slot.pair.word.low() == 0x1234 && slot.pair.origin == Some(RegPair::Ix)
                    }
                    None => false,
                }
        }
        None => false,
    }
}

/// The second fact of row 2 is 7.
fn has_facts(certificate: &Certificate) -> bool {
    match certificate.facts(2) {
        Some(facts) => match facts.as_slice().get(1) {
            Some(fact) => fact.constant() == 7 && fact.terms().is_empty(),
            None => false,
        },
        None => false,
    }
}

/// The potential of row 4 is 15+13*s0.
fn has_potential(certificate: &Certificate) -> bool {
    match certificate.potential(4) {
        Some(Some(potential)) => potential.constant() == 15 && potential.terms().len() == 1,
        _ => false,
    }
}

fn has_rows(certificate: &Certificate) -> bool {
    let of_nmi = certificate.rows_of(1);
    let at_three = certificate.rows_at(0, 3);
    of_nmi.start == 3
        && of_nmi.end == 4
        && at_three.start == 1
        && at_three.end == 3
        && certificate.rows_from(0, 4) == 3
}

/// Whether the accessors give what `EVERY_FORM` says.
pub fn is_every_form(certificate: &Certificate) -> bool {
    has_whole(certificate)
        && has_procs(certificate)
        && has_split(certificate)
        && has_inlines(certificate)
        && has_cell(certificate)
        && has_place(certificate)
        && has_state(certificate)
        && has_rows(certificate)
}

fn has_state(certificate: &Certificate) -> bool {
    has_copied_state(certificate)
        && has_pairs(certificate)
        && has_flag(certificate)
        && has_facts(certificate)
        && has_shape(certificate)
        && has_potential(certificate)
}

/// Row 2 of `EVERY_PART` has eight flag parts. The second is b-128+1*A.
fn has_parts(certificate: &Certificate) -> bool {
    match certificate.row(2) {
        Some(row) => {
            row.parts.parts().len() == 8
                && match row.parts.parts().get(1) {
                    Some(part) => {
                        part.letter == Letter::ZeroIfBelow && part.linear.constant() == -128
                    }
                    None => false,
                }
        }
        None => false,
    }
}

/// Whether the calls answer right for the certificate of `EVERY_FORM`.
fn are_right(alloc: Global) -> bool {
    match read(alloc, EVERY_FORM.as_bytes()) {
        Ok(certificate) => is_every_form(&certificate),
        Err(_) => false,
    }
}

fn are_parts_right(alloc: Global) -> bool {
    match read(alloc, EVERY_PART.as_bytes()) {
        Ok(certificate) => has_parts(&certificate),
        Err(_) => false,
    }
}

#[test]
fn called(rt: HostRuntime) {
    let is_right = are_right(rt.alloc()) && are_parts_right(rt.alloc());
    assert!(rt; is_right);
}
