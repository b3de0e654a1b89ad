// Texts that are read, whole and in pieces, migrated, and written again. More are in tests/cases.

use crate::samples::{EVERY_FORM, EVERY_PART, JUMP, JUMP_OF_TWO};
use certificate::{Certificate, Version, migrate, migrate_to, read, read_from, write};
use memory_devices::{Bytes, Taken};
use std::alloc::Global;

/// Whether a certificate is written as this text. The sink takes three bytes at once.
pub fn is_written_as(alloc: Global, certificate: &Certificate, text: &str) -> bool {
    let mut out = Taken::failing(alloc, 3, u64::MAX);
    write(certificate, &mut out).is_ok() && out.bytes.as_slice() == text.as_bytes()
}

/// Whether a text, which is read whole, is written again.
fn is_read(alloc: Global, text: &str) -> bool {
    match read(alloc, text.as_bytes()) {
        Ok(certificate) => is_written_as(alloc, &certificate, text),
        Err(_) => false,
    }
}

/// Whether a text, which is read in pieces of seven bytes, is written again.
fn is_read_in_pieces(alloc: Global, text: &str) -> bool {
    match read_from(alloc, &mut Bytes::failing(text.as_bytes(), 7, u64::MAX)) {
        Ok(certificate) => is_written_as(alloc, &certificate, text),
        Err(_) => false,
    }
}

#[test]
fn written(rt: HostRuntime) {
    for &text in &[JUMP, JUMP_OF_TWO, EVERY_FORM, EVERY_PART] {
        let is_right = is_read(rt.alloc(), text) && is_read_in_pieces(rt.alloc(), text);
        assert!(rt; is_right);
    }
}

fn is_migrated(alloc: Global) -> bool {
    match read(alloc, JUMP.as_bytes()) {
        Ok(certificate) => is_written_as(alloc, &migrate(certificate), JUMP_OF_TWO),
        Err(_) => false,
    }
}

fn is_kept_at_one(alloc: Global, certificate: Certificate) -> bool {
    match migrate_to(Version::One, certificate) {
        Ok(migrated) => is_written_as(alloc, &migrated, JUMP),
        Err(_) => false,
    }
}

/// Whether a certificate of version 1 stays one.
fn stays_at_one(alloc: Global) -> bool {
    match read(alloc, JUMP.as_bytes()) {
        Ok(certificate) => is_kept_at_one(alloc, certificate),
        Err(_) => false,
    }
}

#[test]
fn migrated(rt: HostRuntime) {
    let is_right = is_migrated(rt.alloc()) && stays_at_one(rt.alloc());
    assert!(rt; is_right);
}
