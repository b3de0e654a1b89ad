// Memory is refused once, at each growth in turn (`tools/memory.sh note_tests`). The call then answers `NoMemory`, a
// line reports it, and the next call gives the right answer.

use annotations::{AnnotationFault, Annotations};
use source_lines::{ListingFault, Locations, SourceLines};
use source_notes::{NoteFault, SourceNotes};
use std::alloc::Global;
use std::test::Fail;
use symbols::{ResolveFault, SymbolFault, Symbols};

/// A call that grows memory.
#[derive(Clone, Copy)]
enum Call {
    Symbols,
    TwoValues,
    Resolve,
    Notes,
    UnknownName,
    Locations,
    Annotations,
    BadKey,
}

/// Whether a call answers rightly; None if memory is refused.
fn answers(alloc: Global, call: Call) -> Option<bool> {
    match call {
        Call::Symbols => symbols_are_read(alloc),
        Call::TwoValues => two_values_are_refused(alloc),
        Call::Resolve => names_are_resolved(alloc),
        Call::Notes => notes_are_read(alloc),
        Call::UnknownName => an_unknown_name_is_refused(alloc),
        Call::Locations => lines_are_located(alloc),
        Call::Annotations => annotations_are_read(alloc),
        Call::BadKey => a_bad_key_is_refused(alloc),
    }
}

fn symbols_are_read(alloc: Global) -> Option<bool> {
    match Symbols::read(alloc, b"nmi equ 0x66\n?\nsend equ 0x7a\n") {
        Ok(symbols) => Some(
            symbols.value_of("nmi") == Some(0x66)
                && symbols.value_of("send") == Some(0x7A)
                && symbols.names().len() == 2
                && symbols.other_lines() == &[2][..],
        ),
        Err(fault) => if_refused(fault == SymbolFault::NoMemory),
    }
}

/// None if memory was refused; another fault is wrong.
fn if_refused(is_refused: bool) -> Option<bool> {
    if is_refused { None } else { Some(false) }
}

fn two_values_are_refused(alloc: Global) -> Option<bool> {
    match Symbols::read(alloc, b"nmi equ 1\nnmi equ 2\n") {
        Err(
            SymbolFault::TwoValues {
                name,
                first,
                second,
            },
        ) => { Some(name.as_str() == "nmi" && first == 1 && second == 2) }
        Err(SymbolFault::NoMemory) => None,
        _ => Some(false),
    }
}

/// An unknown name is refused with the closest names, and a known one is not.
fn names_are_resolved(alloc: Global) -> Option<bool> {
    let symbols = Symbols::read(alloc, b"nmi equ 0x66").ok()?;
    if symbols.resolve(alloc, "nmi+5") != Ok(0x6B) {
        return Some(false);
    }
    match symbols.resolve(alloc, "nm") {
        Err(ResolveFault::Unknown { name, closest }) => {
            Some(name.as_str() == "nm" && closest.names().len() == 1)
        }
        Err(ResolveFault::NoMemory) => None,
        _ => Some(false),
    }
}

/// Notes of each kind; one waits for its bytes and one is passed over.
const LISTING: &[u8] = b"\
    0000\t\t\t;@ stack 4380..4400 ;@ nmi budget 5 ;@ map raised\n\
    0000\t\t\tstart: ;@ inline\n\
    0000 00\t\t\tnop ;@ loop B ;@ cell 1..2\n\
    0001\t\t\torg 5 ;@ loop C\n\
    0005 00\t\t\tnop ;@ fact A+B = 5 ;@ split A 0..3,5-8 until start\n";

/// The lines of these notes, by their addresses.
const LINES: &[(u16, u32)] = &[(0, 2), (0, 3), (0, 3), (5, 5), (5, 5)];

fn notes_are_read(alloc: Global) -> Option<bool> {
    match SourceNotes::read(alloc, LISTING, None) {
        Ok(found) => Some(
            found.notes.len() == LINES.len()
                && LINES.iter().enumerate().all(|(place, line)| match found.notes.get(place) {
                    Some(note) => (note.at, note.line) == *line,
                    None => false,
                })
                && found.passed_over.as_slice() == &[4][..],
        ),
        Err(fault) => if_refused(fault == NoteFault::NoMemory),
    }
}

/// A listing whose second line is refused for a name.
const UNKNOWN: &[u8] = b"0000 00\t\t\tstart: nop\n0001 00\t\t\tnop ;@ split A 0 until strt\n";

fn an_unknown_name_is_refused(alloc: Global) -> Option<bool> {
    match SourceNotes::read(alloc, UNKNOWN, None) {
        Err(NoteFault::Address { line, .. }) => Some(line == 2),
        Err(fault) => if_refused(fault == NoteFault::NoMemory),
        Ok(_) => Some(false),
    }
}

/// `z80asm --list` of a program with a macro, an included file, a text and many bytes.
pub const PROGRAM: &[u8] = b"\
    # File src/a.asm\n\
    0000\t\t\t; head \n\
    0000\t\t\tstack:  equ 4400h \n\
    0000\t\t\t        org 0 \n\
    0000\t\t\tm1: macro x \n\
    0000\t\t\t        ld a,x \n\
    0000\t\t\t        inc a \n\
    0000\t\t\t        endm \n\
    0000 31 00 44\t\t        ld sp,stack \n\
    0003\t\t\t        m1 3 \n\
    0003 3e 03\t\t        ld a,3 \n\
    0005 3c\t\t\t        inc a \n\
    0006\t\t\t        endm \n\
    # End of macro m1\n\
    0006\t\t\t        include \"b.asm\" \n\
    0006\t\t\t; in b \n\
    0006 0e 01\t\tinb:    ld c,1 \n\
    0008\t\t\t        m1 5 \n\
    0008 3e 05\t\t        ld a,5 \n\
    000a 3c\t\t\t        inc a \n\
    000b\t\t\t        endm \n\
    # End of macro m1\n\
    000b c9\t\t\t        ret \n\
    # End of file b.asm\n\
    000c\t\t\tafter:  m1 4 \n\
    000c 3e 04\t\t        ld a,4 \n\
    000e 3c\t\t\t        inc a \n\
    000f\t\t\t        endm \n\
    # End of macro m1\n\
    000f\t\t\t        if 0 \n\
    000f\t\t\t        include \"none.asm\" \n\
    000f\t\t\t        endif \n\
    000f .. 00\t\t        defb \"text\",0 \n\
    0014 00...\t\t        defs 3 \n\
    0017 01 02 03 04 05 06 07 08 09 0a 0b 0c\t        defb 1,2,3,4,5,6,7,8,9,10,11,12 \n\
    0023 c3 0c 00\t\t        jp after \n\
    # End of file src/a.asm\n\
    0026\n";

fn lines_are_located(alloc: Global) -> Option<bool> {
    let found = match SourceLines::read(alloc, PROGRAM) {
        Ok(lines) => Locations::of(alloc, &lines, "a.lst"),
        Err(fault) => Err(fault),
    };
    match found {
        Ok(locations) => Some(locations.location_at(0x0025).is_some()),
        Err(fault) => if_refused(fault == ListingFault::NoMemory),
    }
}

/// Annotations with every key.
const EVERY_KEY: &[u8] = b"low = 1\ntop = 2\nnmi = true\nbudget = 3\ninline = [{ at = 4 }]\n\
    split = [{ at = 5, register = \"D\", parts = [[6, 7]], until = 8 }]\n\
    fact = [{ at = 9, sum = [[\"B\", 10]], is = 11 }]\nloop = [{ at = 12, counter = \"E\" }]\n\
    cell = [{ at = 0x4003, lo = 13, hi = 14 }]\nmap = \"galaxian\"\n";

fn annotations_are_read(alloc: Global) -> Option<bool> {
    match Annotations::read(alloc, EVERY_KEY) {
        Ok(said) => Some(
            said.budget() == Some(3)
                && said.inlines() == &[4][..]
                && said.splits().len() == 1
                && said.facts().len() == 1
                && said.loops().len() == 1
                && said.cells().len() == 1,
        ),
        Err(fault) => if_refused(fault == AnnotationFault::NoMemory),
    }
}

fn a_bad_key_is_refused(alloc: Global) -> Option<bool> {
    match Annotations::read(alloc, b"low = 1\ntop = 2\nother = []\n") {
        Err(AnnotationFault::Key(name)) => Some(name.as_str() == "other"),
        Err(fault) => if_refused(fault == AnnotationFault::NoMemory),
        Ok(_) => Some(false),
    }
}

/// Calls three times. At most one call is refused, and the others answer rightly.
fn again(rt: &HostRuntime, call: Call) -> Result<(), Fail> {
    let mut refused = 0u8;
    for _ in 0..3 {
        match answers(rt.alloc(), call) {
            Some(true) => {}
            Some(false) => return Err(Fail::new("another answer")),
            None => {
                println!(rt; "refused")?;
                refused = refused.saturating_add(1);
            }
        }
    }
    if refused > 1 {
        return Err(Fail::new("refused again"));
    }
    Ok(())
}

#[test]
fn symbols_again(rt: HostRuntime) -> Result<(), Fail> {
    again(&rt, Call::Symbols)
}

#[test]
fn two_values_again(rt: HostRuntime) -> Result<(), Fail> {
    again(&rt, Call::TwoValues)
}

#[test]
fn resolved_again(rt: HostRuntime) -> Result<(), Fail> {
    again(&rt, Call::Resolve)
}

#[test]
fn notes_again(rt: HostRuntime) -> Result<(), Fail> {
    again(&rt, Call::Notes)
}

#[test]
fn an_unknown_name_again(rt: HostRuntime) -> Result<(), Fail> {
    again(&rt, Call::UnknownName)
}

#[test]
fn locations_again(rt: HostRuntime) -> Result<(), Fail> {
    again(&rt, Call::Locations)
}

#[test]
fn annotations_again(rt: HostRuntime) -> Result<(), Fail> {
    again(&rt, Call::Annotations)
}

#[test]
fn a_bad_key_again(rt: HostRuntime) -> Result<(), Fail> {
    again(&rt, Call::BadKey)
}
