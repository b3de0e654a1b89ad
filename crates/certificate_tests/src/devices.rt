// Sources and sinks that fail, and sources that never end.

ghost use Rattle.std.specs.Prelude.{None};

use crate::samples::JUMP;
use certificate::{Certificate, DeviceFault, ReadFault, Source, read, read_from, write};
use memory_devices::{Bytes, Taken};
use std::alloc::Global;

/// What a source gives at its first call; it fails at the second one. Then the fault, and how many calls there were.
const FAILING: &[(&[u8], ReadFault, u64)] = &[
    (b"galcert 1\n", ReadFault::Read, 2),
    (b"galcert 1", ReadFault::Read, 2),
    // A bad line is reported before another read is asked for
    (b"galcert 4\n", ReadFault::Line(1), 1),
    (b"galcert 1\nrom 06\nsta", ReadFault::Line(2), 1),
];

/// Whether a source that gives these bytes and then fails has this fault after so many calls.
fn fails(alloc: Global, first: &[u8], fault: ReadFault, asked: u64) -> bool {
    let mut input = Bytes::failing(first, 4096, 1);
    read_from(alloc, &mut input).err() == Some(fault) && input.asked() == asked
}

#[test]
fn a_source_that_fails(rt: HostRuntime) {
    for &(first, fault, asked) in FAILING {
        assert!(rt; fails(rt.alloc(), first, fault, asked));
    }
}

/// An endless source of one byte.
#[derive(Drop)]
struct SameBytes {
    byte: u8,
    given: u64,
}

impl Source for SameBytes {
    ghost state = { λ s. record { bytes = None; failures = 0 } };

    fn read(&mut self, buffer: &mut [u8]) -> Result<usize, DeviceFault> {
        buffer.fill(self.byte);
        self.given = self.given.saturating_add(buffer.len() as u64);
        Ok(buffer.len())
    }

    fn failures(&self) -> u64 {
        0
    }
}

/// Whether no more is taken of an endless source than a line and one read.
fn is_cut(alloc: Global, byte: u8) -> bool {
    let mut input = SameBytes { byte, given: 0 };
    read_from(alloc, &mut input).err() == Some(ReadFault::Line(1))
        && input.given <= 1_048_576 + 4_096
}

#[test]
fn no_end(rt: HostRuntime) {
    for &byte in b" \n" {
        assert!(rt; is_cut(rt.alloc(), byte));
    }
}

/// Whether a sink that fails after so many bytes has taken just these.
fn has_taken(alloc: Global, certificate: &Certificate, bytes: u64) -> bool {
    let mut out = Taken::failing(alloc, 1, bytes);
    let has_failed = write(certificate, &mut out).is_err();
    let taken = out.bytes.as_slice();
    has_failed && taken.len() as u64 == bytes && JUMP.as_bytes().starts_with(taken)
}

/// Whether sinks fail at the first, at a middle and at the last byte.
fn are_taken(alloc: Global) -> bool {
    match read(alloc, JUMP.as_bytes()) {
        Ok(certificate) => {
            has_taken(alloc, &certificate, 0)
                && has_taken(alloc, &certificate, 13)
                && has_taken(alloc, &certificate, 147)
        }
        Err(_) => false,
    }
}

#[test]
fn a_sink_that_fails(rt: HostRuntime) {
    assert!(rt; are_taken(rt.alloc()));
}
