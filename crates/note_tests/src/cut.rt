// Listings that are cut, and the names closest to a text.

use crate::memory::PROGRAM;
use source_lines::{Locations, SourceLines};
use std::test::Fail;
use symbols::Symbols;

/// The addresses of each beginning of a listing have places, unless it is no listing.
#[test]
fn beginnings_of_a_listing(rt: HostRuntime) -> Result<(), Fail> {
    for length in 0..PROGRAM.len() {
        let cut = PROGRAM.get(..length).unwrap_or(b"");
        if let Ok(lines) = SourceLines::read(rt.alloc(), cut) {
            assert!(rt; Locations::of(rt.alloc(), &lines, "a.lst").is_ok());
        }
    }
    Ok(())
}

const NAMES: &[u8] = b"nmi equ 0x66\nsend equ 0x7a\nsound equ 0x100\nend_ equ 0x10000\n";

/// Without a file there are no names.
#[test]
fn closest_names(rt: HostRuntime) -> Result<(), Fail> {
    let symbols = Symbols::read(rt.alloc(), NAMES)?;
    let closest = symbols.closest_to(rt.alloc(), "snd")?;
    let is_right = match closest.names() {
        [a, b, c] => a.as_str() == "send" && b.as_str() == "sound" && c.as_str() == "end_",
        _ => false,
    };
    let none = Symbols::new(rt.alloc());
    assert!(rt; is_right && none.names().is_empty() && none.other_lines().is_empty());
    Ok(())
}
