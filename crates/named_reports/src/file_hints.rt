// Hints about files that are not what a command takes (docs/PROGRAM.md, "Hints").

use crate::in_place::numbered;
use crate::program_names::ProgramNames;
use crate::telling::tell_note;
use address_map::ROM_LIMIT;
use annotation_faults::place_of_fault;
use file_devices::{FileSource, Likeness, certified_len};
use std::alloc::Global;
use std::fs;
use std::rt::Files;
use texts::Sink;

/// The most bytes of a ROM.
const MOST_ROM: u64 = ROM_LIMIT as u64;

/// Says what a ROM looks like, if it is none.
pub fn hint_rom<R: Files, N: Sink>(
    files: &R,
    alloc: Global,
    rom: &FileSource<'_, R>,
    notes: &mut N,
) {
    let name = rom.path().escape_debug();
    hint_likeness(
        alloc,
        rom,
        None,
        "ROM is a file of the bytes themselves",
        notes,
    );
    if rom.len() == 0 && rom.failure().is_none() {
        tell_note(
            alloc,
            notes,
            format_args!("galcert: {name} has no bytes; a ROM has 1 to 16,384"),
        );
    } else if rom.len() > MOST_ROM {
        let len = len_of(files, rom).max(rom.len());
        tell_note(
            alloc,
            notes,
            format_args!("galcert: {name} has {len} bytes; a ROM has 1 to 16,384"),
        );
    }
}

/// How many bytes a regular file has, of which not all were read; 0 for another one.
fn len_of<R: Files>(files: &R, file: &FileSource<'_, R>) -> u64 {
    match fs::metadata(files, file.path()) {
        Ok(found) if found.is_file() => found.len(),
        _ => 0,
    }
}

/// Says what a certificate looks like, if it is none, or that it is for a ROM of another length.
pub fn hint_certificate<R: Files, N: Sink>(
    alloc: Global,
    rom: &FileSource<'_, R>,
    cert: &FileSource<'_, R>,
    notes: &mut N,
) {
    hint_no_certificate(alloc, cert, notes);
    if let Some(len) = certified_len(cert.head()) {
        let found = rom.len();
        if u64::from(len) != found && 0 < found && found <= MOST_ROM {
            let name = cert.path().escape_debug();
            tell_note(
                alloc,
                notes,
                format_args!(
                    "galcert: {name} is for a ROM of {len} bytes, and the ROM has {found}"
                ),
            );
        }
    }
}

/// Says what a certificate looks like, if it is none.
pub fn hint_no_certificate<R: Files, N: Sink>(
    alloc: Global,
    cert: &FileSource<'_, R>,
    notes: &mut N,
) {
    let right = Some(Likeness::Certificate);
    hint_likeness(alloc, cert, right, "CERT is a certificate", notes);
}

/// Says which of two files is no certificate: the one that was read last.
pub fn hint_last_read<R: Files, N: Sink>(
    alloc: Global,
    old: &FileSource<'_, R>,
    new: &FileSource<'_, R>,
    notes: &mut N,
) {
    let (cert, wanted) = if new.was_read() {
        (new, "NEW is a certificate")
    } else {
        (old, "OLD is a certificate")
    };
    let right = Some(Likeness::Certificate);
    if !hint_likeness(alloc, cert, right, wanted, notes) {
        let name = cert.path().escape_debug();
        tell_note(
            alloc,
            notes,
            format_args!("galcert: {name} is no certificate"),
        );
    }
}

/// Says what annotations look like, if they are none, and where they are at fault. With `infers` they were read for
/// `--infer`.
pub fn hint_annotations<R: Files, N: Sink>(
    alloc: Global,
    annot: &FileSource<'_, R>,
    infers: bool,
    notes: &mut N,
) {
    if !hint_no_toml(alloc, annot, notes) {
        if let Some(text) = annot.text() {
            hint_fault(alloc, annot, text, infers, notes);
        }
    }
}

/// The same of annotations in which names may stand for addresses. Notes may say what is required.
pub fn hint_named<R: Files, N: Sink>(
    alloc: Global,
    annot: &FileSource<'_, R>,
    names: &ProgramNames,
    infers: bool,
    notes: &mut N,
) {
    if hint_no_toml(alloc, annot, notes) {
        return;
    }
    let Some(text) = annot.text() else {
        return;
    };
    if let Ok(text) = numbered(alloc, text, &names.names.symbols) {
        hint_fault(
            alloc,
            annot,
            text.as_slice(),
            infers || names.has_notes(),
            notes,
        );
    }
}

/// Says what annotations look like, if they are none. The result is whether they look like something else.
fn hint_no_toml<R: Files, N: Sink>(
    alloc: Global,
    annot: &FileSource<'_, R>,
    notes: &mut N,
) -> bool {
    let right = Some(Likeness::Toml);
    hint_likeness(alloc, annot, right, "ANNOT is a TOML text", notes)
}

/// Says what a file looks like, if that is not what is right. `wanted` says what it should be. The result is whether
/// the file looks like something else.
fn hint_likeness<R: Files, N: Sink>(
    alloc: Global,
    file: &FileSource<'_, R>,
    right: Option<Likeness>,
    wanted: &str,
    notes: &mut N,
) -> bool {
    match Likeness::of(file.head()) {
        Some(likeness) if Some(likeness) != right => {
            let name = file.path().escape_debug();
            let words = likeness.words();
            tell_note(
                alloc,
                notes,
                format_args!("galcert: {name} looks like {words}; {wanted}"),
            );
            true
        }
        _ => false,
    }
}

/// Says where annotations are at fault.
fn hint_fault<R: Files, N: Sink>(
    alloc: Global,
    annot: &FileSource<'_, R>,
    text: &[u8],
    infers: bool,
    notes: &mut N,
) {
    let name = annot.path().escape_debug();
    if let Ok(Some(place)) = place_of_fault(alloc, text, infers) {
        let why = &place.why;
        match (place.line, place.column) {
            (Some(line), Some(column)) => tell_note(
                alloc,
                notes,
                format_args!("{name}:{line}:{column}: {why}"),
            ),
            (Some(line), None) => tell_note(alloc, notes, format_args!("{name}:{line}: {why}")),
            (None, _) => tell_note(alloc, notes, format_args!("{name}: {why}")),
        }
    }
}
