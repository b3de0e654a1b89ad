// Lines in pieces.

use command_streams::{ColoredLines, Watched};
use memory_devices::Taken;
use std::test::Fail;
use texts::{Sink, put};

/// Lines, and the same in color (ECMA-48: 31 is red, 33 yellow, 0 none).
const LINES: &[(&str, &str)] = &[
    ("galcert: plain\n", "galcert: plain\n"),
    (
        "raid.sym:4: warning: no symbol\n",
        "\x1B[33mraid.sym:4: warning: no symbol\x1B[0m\n",
    ),
    ("device error\n", "\x1B[31mdevice error\x1B[0m\n"),
    ("out of memory\n", "\x1B[31mout of memory\x1B[0m\n"),
    (
        "raid.asm:669: 049E start+6: refused 12 NotCovered\n",
        "\x1B[31mraid.asm:669: 049E start+6: refused 12 NotCovered\x1B[0m\n",
    ),
];

/// Each line in color, whole and byte by byte; and as it is without color.
#[test]
fn colored(rt: HostRuntime) -> Result<(), Fail> {
    let alloc = rt.alloc();
    for (line, expected) in LINES {
        let mut colored = ColoredLines::new(Taken::new(alloc), true);
        assert!(rt; put(&mut colored, line.as_bytes()).is_ok());
        for byte in line.bytes() {
            assert!(rt; put(&mut colored, &[byte]).is_ok());
        }
        let twice = format!(in alloc; "{expected}{expected}")?;
        assert!(rt;
            colored.into_inner().bytes.as_slice() == twice.as_bytes(),
            "{line}"
        );
        let mut plain = ColoredLines::new(Taken::new(alloc), false);
        assert!(rt; put(&mut plain, line.as_bytes()).is_ok());
        assert!(rt; plain.into_inner().bytes.as_slice() == line.as_bytes());
    }
    Ok(())
}

/// A watched sink passes all on and keeps its first line, of at most 256 bytes.
#[test]
fn watched(rt: HostRuntime) -> Result<(), Fail> {
    for piece in [1, 5, 4096] {
        let mut out = Watched::new(Taken::failing(rt.alloc(), piece, u64::MAX));
        assert!(rt; out.line().is_empty());
        assert!(rt; put(&mut out, b"refused 0004").is_ok());
        assert!(rt; out.line() == &b"refused 0004"[..]);
        assert!(rt; put(&mut out, b" 7\nsecond\n").is_ok());
        assert!(rt; out.line() == &b"refused 0004 7"[..]);
        for _ in 0..400 {
            assert!(rt; put(&mut out, b"more").is_ok());
        }
        assert!(rt; out.line() == &b"refused 0004 7"[..] && out.failures() == 0);
        let taken = out.into_inner();
        assert!(rt; taken.bytes.len() == 12 + 10 + 1600);
        assert!(rt;
            taken
                .bytes
                .as_slice()
                .starts_with(b"refused 0004 7\nsecond\nmore")
        );
    }
    let mut long = Watched::new(Taken::new(rt.alloc()));
    assert!(rt; put(&mut long, &[b'a'; 300]).is_ok());
    assert!(rt; long.line() == &[b'a'; 256][..]);
    let mut full = Watched::new(Taken::failing(rt.alloc(), 4, 1));
    assert!(rt; put(&mut full, b"abcdef").is_err());
    assert!(rt; full.line() == &b"abcd"[..] && full.failures() == 1);
    Ok(())
}
