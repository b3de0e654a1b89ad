// Devices that fail amid a command, and devices that handle one byte a call.

use crate::checks_over::check_devices;
use crate::commands_over::{Outcome, accepted, run, verify};
use crate::samples::{
    JUMP, JUMP_CERTIFICATE, JUMP_INPUT, STACK, STORES, STORES_CERTIFICATE, TABLE, THREE, rows_text,
    with_routine,
};
use certificate::Version;
use commands::migrate_on;
use memory_devices::{Bytes, Taken};
use std::alloc::Global;
use std::test::Fail;

/// Each device gives or takes one byte a call.
#[test]
fn bytes_one_by_one(rt: HostRuntime) {
    let alloc = rt.alloc();
    let rom = Bytes::failing(STORES, 1, u64::MAX);
    let cert = Bytes::failing(STORES_CERTIFICATE.as_bytes(), 1, u64::MAX);
    let after = verify(alloc, rom, cert, Taken::failing(alloc, 1, u64::MAX));
    assert!(rt; after.is(0, TABLE));
    let rom = Bytes::failing(JUMP, 1, u64::MAX);
    let cert = Bytes::failing(JUMP_CERTIFICATE.as_bytes(), 1, u64::MAX);
    let input = Bytes::failing(
        b"reset 0 00\n2 00 00 00 00 00 00 0\n1 00 00 00 00 00 00 0\n",
        1,
        u64::MAX,
    );
    let after = run(
        alloc,
        rom,
        cert,
        input,
        9,
        Taken::failing(alloc, 1, u64::MAX),
    );
    assert!(rt; after.is(0, THREE));
}

/// Whether `verify` has status 3 when the output fails after these bytes, and whether these bytes stay written.
fn write_failure_is_told(alloc: Global, written: &[u8]) -> bool {
    let out = Taken::failing(alloc, 1, written.len() as u64);
    let after = verify(alloc, Bytes::whole(JUMP), accepted(), out);
    after.status == 3 && after.written.as_slice() == written
}

/// Whether `run` has status 3 and writes nothing when the input fails after `reads` reads of one byte.
fn input_failure_is_told(alloc: Global, reads: usize) -> bool {
    let (rom, cert) = (Bytes::whole(JUMP), accepted());
    let input = Bytes::failing(JUMP_INPUT, 1, reads as u64);
    run(alloc, rom, cert, input, 3, Taken::new(alloc)).is(3, "")
}

/// The output of `verify` and the input of `run` fail at each call in turn.
#[test]
fn device_failures_are_told(rt: HostRuntime) {
    let table = TABLE.as_bytes();
    for writes in 0..table.len() {
        assert!(rt; write_failure_is_told(rt.alloc(), &table[..writes]));
    }
    for reads in 0..JUMP_INPUT.len() {
        assert!(rt; input_failure_is_told(rt.alloc(), reads));
    }
}

/// LD SP,4400H; LD A,1; LD (7001H),A; XOR A; LD (7001H),A; JR -2
const TOGGLE: &[u8] = b"\x31\x00\x44\x3E\x01\x32\x01\x70\xAF\x32\x01\x70\x18\xFE";

/// The certificate of `TOGGLE` with RETN as the NMI routine.
const TOGGLE_CERTIFICATE: &str = rows_text!(
    1, "rom 104\nstack 4380 4400\nbudget 50665\nproc main 0000 0 0 -\nproc nmi 0066 0 2 25";
    "0000 u" "* * * *" "- - - -",
    "0003 s" "* * * *" "- - - -",
    "0005 s" "0100-01FF:01-01:00-FF * * *" "- - - -",
    "0008 n" "0100-01FF:01-01:00-FF * * *" "- - - -",
    "0009 n" "* * * *" "- - - -",
    "000C n" "* * * *" "- - - -";
    "1 0066 n" "*@AF *@BC *@DE *@HL" "- - - 14"
);

/// Seven events of `TOGGLE`, in 37 bytes. The last two are an NMI acceptance and the routine's end.
const SEVEN: &str = "reset 50650 00\n7 00 00 00 00 00 00 1\n";

/// What `run` prints for them, in 86 bytes.
const SEVEN_TEXT: &str = "nmi 5 000C\nend 6 25\ndone 7 72 000C 4400\n\
    regs 0044 0000 0000 0000 0000 0000\nsum 12 0 0\n";

/// Seven events of `TOGGLE`. Input and output handle one byte a call, and fail after this many calls.
fn seven(alloc: Global, rom: &[u8], reads: u64, writes: u64) -> Outcome {
    run(
        alloc,
        Bytes::whole(rom),
        Bytes::whole(TOGGLE_CERTIFICATE.as_bytes()),
        Bytes::failing(SEVEN.as_bytes(), 1, reads),
        7,
        Taken::failing(alloc, 1, writes),
    )
}

/// The bytes written before the output failed stay. Nothing is written before the input's last byte is read.
#[test]
fn devices_fail_amid_a_run(rt: HostRuntime) -> Result<(), Fail> {
    let alloc = rt.alloc();
    let rom = with_routine(alloc, TOGGLE, b"\xED\x45")?;
    let rom = rom.as_slice();
    let (reads, writes) = (SEVEN.len() as u64, SEVEN_TEXT.len() as u64);
    assert!(rt; reads == 37 && writes == 86);
    assert!(rt; seven(alloc, rom, reads, writes).is(0, SEVEN_TEXT));
    for fails in 0..writes {
        let after = seven(alloc, rom, reads, fails);
        let written = &SEVEN_TEXT.as_bytes()[..fails as usize];
        assert!(rt; after.status == 3 && after.written.as_slice() == written);
    }
    for fails in 0..reads {
        assert!(rt; seven(alloc, rom, fails, writes).is(3, ""));
    }
    Ok(())
}

/// Whether `check` of `JUMP` has status 3 and prints nothing when the sink of the certificate fails after `calls`
/// calls. What was kept has to be the start of the certificate.
fn keep_fails(alloc: Global, piece: usize, calls: u64) -> bool {
    let (rom, annot) = (Bytes::whole(JUMP), Bytes::whole(STACK.as_bytes()));
    let keep = Taken::failing(alloc, piece, calls);
    let after = check_devices(alloc, rom, annot, keep, Taken::new(alloc));
    after.status == 3
        && after.out_asked == 0
        && JUMP_CERTIFICATE
            .as_bytes()
            .starts_with(after.kept.as_slice())
}

/// If the certificate can't be kept in full, no table is written.
#[test]
fn the_certificate_is_kept_before_the_table(rt: HostRuntime) {
    let alloc = rt.alloc();
    for calls in 0..8 {
        assert!(rt; keep_fails(alloc, 4096, calls));
    }
    assert!(rt; keep_fails(alloc, 1, 143));
    let (rom, annot) = (Bytes::whole(JUMP), Bytes::whole(STACK.as_bytes()));
    let out = Taken::failing(alloc, 4096, 0);
    let after = check_devices(alloc, rom, annot, Taken::new(alloc), out);
    assert!(rt; after.status == 3 && after.written.is_empty());
    assert!(rt; after.kept.as_slice() == JUMP_CERTIFICATE.as_bytes());
}

/// The ROM of `check` fails, or its annotations fail. No later device is used.
#[test]
fn sources_that_fail(rt: HostRuntime) {
    let alloc = rt.alloc();
    let (keep, out) = (Taken::new(alloc), Taken::new(alloc));
    let after = check_devices(
        alloc,
        Bytes::failing(JUMP, 2, 1),
        Bytes::whole(b""),
        keep,
        out,
    );
    assert!(rt; after.is(3, "") && after.annot_asked == 0 && after.out_asked == 0);
    for calls in 0..4 {
        let annot = Bytes::failing(STACK.as_bytes(), 9, calls);
        let (keep, out) = (Taken::new(alloc), Taken::new(alloc));
        let after = check_devices(alloc, Bytes::whole(JUMP), annot, keep, out);
        assert!(rt; after.is(3, "") && after.out_asked == 0);
    }
    let annot = Bytes::failing(STACK.as_bytes(), 9, 4);
    let (keep, out) = (Taken::new(alloc), Taken::new(alloc));
    assert!(rt; check_devices(alloc, Bytes::whole(JUMP), annot, keep, out).is(0, TABLE));
}

/// An unknown key, which is refused before the ROM is judged.
const SPEED: &str = "low = 0x4380\ntop = 0x4400\nspeed = 2\n";

/// The output fails while a refusal is written. The ROM is OUT (00H),A.
#[test]
fn a_refusal_amid_which_the_output_fails(rt: HostRuntime) {
    let alloc = rt.alloc();
    for (annot, written) in [(SPEED, "bad an"), (STACK, "refuse")] {
        let out = Taken::failing(alloc, 1, 6);
        let (rom, annot) = (Bytes::whole(b"\xD3\x00"), Bytes::whole(annot.as_bytes()));
        let after = check_devices(alloc, rom, annot, Taken::new(alloc), out);
        assert!(rt; after.is(3, written), "{written}");
    }
}

/// The certificate of `JUMP` in version 2 (docs/CERTIFICATE.md).
const MIGRATED: &str =
    "galcert 2\nrom 6\nmap galaxian\nstack 4380 4400\nbudget -\nproc main 0000 0 0 -\n\
    row 0 0000 u 0 * * * * * * * * * * - - - -\n\
    row 0 0003 s 0 * * * * * * * * * * - - - -\n\
    end\n";

/// The output of `migrate` fails, and then its certificate. The bytes written are the start of the text.
#[test]
fn devices_of_migrate_that_fail(rt: HostRuntime) {
    let alloc = rt.alloc();
    for calls in 0..9 {
        let mut cert = Bytes::whole(JUMP_CERTIFICATE.as_bytes());
        let mut out = Taken::failing(alloc, 4096, calls);
        assert!(rt; migrate_on(alloc, Version::Two, &mut cert, &mut out) == 3);
        assert!(rt; MIGRATED.as_bytes().starts_with(out.bytes.as_slice()));
    }
    let mut cert = Bytes::failing(JUMP_CERTIFICATE.as_bytes(), 20, 3);
    let mut out = Taken::new(alloc);
    assert!(rt; migrate_on(alloc, Version::Two, &mut cert, &mut out) == 3 && out.asked() == 0);
}
