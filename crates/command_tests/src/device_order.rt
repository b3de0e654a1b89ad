// Which devices the commands use, and in which order.

use crate::commands_over::{accepted, run, verify};
use crate::samples::{JUMP, JUMP_INPUT, ROW_MISSING};
use memory_devices::{Bytes, Taken};
use std::alloc::Global;
use std::test::Fail;

/// Whether no other device is used and nothing is written when the ROM fails after `reads` reads.
fn stops_at_the_rom(alloc: Global, reads: u64) -> bool {
    let rom = Bytes::failing(JUMP, 2, reads);
    let after = verify(alloc, rom, accepted(), Taken::new(alloc));
    after.is(3, "") && after.cert_asked == 0 && after.out_asked == 0
}

fn run_stops_at_the_rom(alloc: Global) -> bool {
    let (rom, input) = (Bytes::failing(JUMP, 2, 1), Bytes::whole(JUMP_INPUT));
    let after = run(alloc, rom, accepted(), input, 3, Taken::new(alloc));
    after.status == 3 && after.cert_asked == 0 && after.input_asked == 0 && after.out_asked == 0
}

#[test]
fn the_rom_is_read_first(rt: HostRuntime) {
    for reads in 0..4 {
        assert!(rt; stops_at_the_rom(rt.alloc(), reads));
    }
    assert!(rt; run_stops_at_the_rom(rt.alloc()));
}

/// If the certificate fails, the ROM has been read to its end, and no other device is used.
#[test]
fn the_certificate_is_read_next(rt: HostRuntime) {
    let alloc = rt.alloc();
    let cert = Bytes::failing(b"galcert 1\n", 4, 1);
    let after = verify(alloc, Bytes::whole(JUMP), cert, Taken::new(alloc));
    assert!(rt; after.status == 3 && after.rom_left == 0 && after.out_asked == 0);
    let cert = Bytes::failing(b"galcert 1\n", 4, 1);
    let (rom, input) = (Bytes::whole(JUMP), Bytes::whole(JUMP_INPUT));
    let after = run(alloc, rom, cert, input, 3, Taken::new(alloc));
    assert!(rt; after.status == 3 && after.rom_left == 0);
    assert!(rt; after.input_asked == 0 && after.out_asked == 0);
}

/// Whether `run` has this status, writes this text and reads no input. The output fails after `writes` writes.
fn asks_no_input(alloc: Global, cert: &str, writes: u64, status: u8, text: &str) -> bool {
    let (rom, cert) = (Bytes::whole(JUMP), Bytes::whole(cert.as_bytes()));
    let out = Taken::failing(alloc, 4096, writes);
    let after = run(alloc, rom, cert, Bytes::failing(JUMP_INPUT, 1, 0), 3, out);
    after.is(status, text) && after.input_asked == 0
}

const REFUSED: &[(&str, &str)] = &[
    (ROW_MISSING, "refused 0000 12 NotCovered\n"),
    ("galcert 1\nrom 06\n", "bad certificate line 2\n"),
];

/// After a refusal the input is not read, whether the refusal can be written or not.
#[test]
fn no_input_after_a_refusal(rt: HostRuntime) {
    for &(cert, text) in REFUSED {
        assert!(rt;
            asks_no_input(rt.alloc(), cert, u64::MAX, 1, text),
            "{text}"
        );
        assert!(rt; asks_no_input(rt.alloc(), cert, 0, 3, ""), "{text}");
    }
}

/// The lines of the run are written after the last byte of the input is read.
#[test]
fn the_input_is_read_before_the_lines_are_written(rt: HostRuntime) {
    let alloc = rt.alloc();
    let (rom, cert, input) = (Bytes::whole(JUMP), accepted(), Bytes::whole(JUMP_INPUT));
    let after = run(alloc, rom, cert, input, 3, Taken::failing(alloc, 4096, 0));
    assert!(rt; after.status == 3 && after.input_left == 0);
}

/// A ROM file is not read past 16,385 bytes. The input of a refused certificate is not read at all.
#[test]
fn nothing_is_read_past_what_is_needed(rt: HostRuntime) -> Result<(), Fail> {
    let alloc = rt.alloc();
    let long = vec![in alloc; 0; 20_000]?;
    let (rom, cert) = (Bytes::whole(long.as_slice()), accepted());
    let input = Bytes::failing(b"", 1, 0);
    let after = run(alloc, rom, cert, input, 1, Taken::new(alloc));
    assert!(rt; after.is(1, "refused 0000 1 Rom\n"));
    assert!(rt; after.rom_left == 20_000 - 16_385);
    Ok(())
}
