// Memory is refused once, at each growth in turn (`tools/memory.sh command_tests`). A command then has status 4 and
// writes and keeps nothing, a line reports it, and the next command gives the right output. Status 3 means that one of
// the test's own sinks ran out of memory.

use crate::checks_over::check_whole;
use crate::commands_over::{run_whole, verify_whole};
use crate::samples::{JUMP, JUMP_CERTIFICATE, SAVE, SAVE_CERTIFICATE, SAVE_TABLE, THREE};
use certificate::{Version, read};
use commands::migrate_on;
use memory_devices::{Bytes, Taken};
use runner::cert_checker::{CheckFault, check};
use std::test::Fail;

#[test]
fn verify_again(rt: HostRuntime) -> Result<(), Fail> {
    let mut refused = 0u8;
    for _ in 0..3 {
        let after = verify_whole(rt.alloc(), SAVE, SAVE_CERTIFICATE);
        if !after.is(0, SAVE_TABLE) {
            println!(rt; "refused in verify")?;
            assert!(rt; after.is(4, "") || after.status == 3);
            refused = refused.wrapping_add(1);
        }
    }
    assert!(rt; refused <= 1);
    Ok(())
}

#[test]
fn run_again(rt: HostRuntime) -> Result<(), Fail> {
    let input = "reset 0 00\n3 00 00 00 00 00 00 0\n";
    let mut refused = 0u8;
    for _ in 0..3 {
        let after = run_whole(rt.alloc(), JUMP, JUMP_CERTIFICATE, input, 3);
        if !after.is(0, THREE) {
            println!(rt; "refused in run")?;
            assert!(rt; after.is(4, "") || after.status == 3);
            refused = refused.wrapping_add(1);
        }
    }
    assert!(rt; refused <= 1);
    Ok(())
}

/// `check` grows one list, the table of instructions. `read` has already allocated the certificate. `check` answers
/// `NoMemory`.
#[test]
fn table_again(rt: HostRuntime) -> Result<(), Fail> {
    let alloc = rt.alloc();
    let mut refused = 0u8;
    for _ in 0..3 {
        let Ok(certificate) = read(alloc, JUMP_CERTIFICATE.as_bytes()) else {
            continue;
        };
        if let Err(fault) = check(alloc, JUMP, certificate) {
            println!(rt; "refused in check of a certificate")?;
            assert!(rt; fault == CheckFault::NoMemory);
            refused = refused.wrapping_add(1);
        }
    }
    assert!(rt; refused <= 1);
    Ok(())
}

/// LD SP,4400H; LD A,1; LD (7001H),A; JR -2; and from 0066 PUSH BC; LD B,8; DJNZ -2; POP BC; RET
const COUNTING: &[u8] = b"\x31\x00\x44\x3E\x01\x32\x01\x70\x18\xFE\
    \0\0\0\0\0\0\0\0\0\0\0\0\0\0\0\0\0\0\0\0\0\0\0\0\0\0\0\0\0\0\0\
    \0\0\0\0\0\0\0\0\0\0\0\0\0\0\0\0\0\0\0\0\0\0\0\0\0\0\0\0\0\0\0\
    \0\0\0\0\0\0\0\0\0\0\0\0\0\0\0\0\0\0\0\0\0\0\0\0\0\0\0\0\0\0\
    \xC5\x06\x08\x10\xFE\xC1\xC9";

const COUNTED: &str = "low = 0x4380\ntop = 0x4400\nnmi = true\nbudget = 50665\n\
    loop = [{ at = 0x69, counter = \"B\" }]\n";

const COUNTED_TABLE: &str = "accepted\nmain 0000 depth     0 time      -\n\
    nmi  0066 depth     4 time    148\nstack 4 of 128\nnmi 148 of 50665\n";

#[test]
fn check_again(rt: HostRuntime) -> Result<(), Fail> {
    let mut refused = 0u8;
    for _ in 0..3 {
        let after = check_whole(rt.alloc(), COUNTING, COUNTED);
        if !after.is(0, COUNTED_TABLE) {
            println!(rt; "refused in check")?;
            assert!(rt; after.is(4, "") || after.status == 3);
            refused = refused.wrapping_add(1);
        }
    }
    assert!(rt; refused <= 1);
    Ok(())
}

#[test]
fn migrate_again(rt: HostRuntime) -> Result<(), Fail> {
    let alloc = rt.alloc();
    let mut refused = 0u8;
    for _ in 0..3 {
        let (mut cert, mut out) = (Bytes::whole(JUMP_CERTIFICATE.as_bytes()), Taken::new(alloc));
        if migrate_on(alloc, Version::Two, &mut cert, &mut out) == 0 {
            assert!(rt; out.bytes.as_slice().starts_with(b"galcert 2\n"));
        } else {
            println!(rt; "refused in migrate")?;
            refused = refused.wrapping_add(1);
        }
    }
    assert!(rt; refused <= 1);
    Ok(())
}
