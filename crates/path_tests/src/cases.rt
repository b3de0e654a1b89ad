// A ROM with a certificate, and the longest walk of one of its procedures.

use address_map::Rom;
use certificate::read;
use path_time::{TimeFault, longest};
use std::alloc::{AllocError, Global};
use std::test::Fail;

/// An answer: T-states and the numbers of rows.
pub type Told = Result<(u32, Vec<u32>), TimeFault>;

/// An expected answer.
pub type Wanted = Result<(u32, &'static [u32]), TimeFault>;

/// The longest walk of a procedure, by a certificate's text for a ROM.
pub fn told(alloc: Global, rom: &[u8], text: &str, proc: u16) -> Result<Told, Fail> {
    let certificate = read(alloc, text.as_bytes())?;
    match Rom::of(rom) {
        Some(rom)
            if certificate.rom_len() == rom.len()
                && usize::from(proc) < certificate.procs().len() => {
            Ok(longest(alloc, &rom, &certificate, proc))
        }
        _ => Err(Fail::new("a certificate of another ROM")),
    }
}

/// Whether the answer is the expected one.
pub fn is_told(told: &Told, wanted: &Wanted) -> bool {
    match (told, wanted) {
        (Ok((found, walk)), Ok((sum, rows))) => *found == *sum && walk.as_slice() == *rows,
        (Err(found), Err(fault)) => *found == *fault,
        _ => false,
    }
}

/// A ROM: these bytes, or main code that enables NMIs with these bytes as the routine at 0066.
#[derive(Clone, Copy)]
pub enum Bytes {
    Whole(&'static [u8]),
    Routine(&'static [u8]),
}

const ENABLING: [u8; 10] = [0x31, 0x00, 0x44, 0x3E, 0x01, 0x32, 0x01, 0x70, 0x18, 0xFE];

/// The bytes of a ROM.
pub fn rom_of(alloc: Global, bytes: Bytes) -> Result<Vec<u8>, AllocError> {
    match bytes {
        Bytes::Whole(whole) => Vec::from_slice(alloc, whole),
        Bytes::Routine(routine) => {
            let mut rom = Vec::from_slice(alloc, &ENABLING)?;
            rom.resize(0x66, 0)?;
            rom.extend_from_slice(routine)?;
            Ok(rom)
        }
    }
}
