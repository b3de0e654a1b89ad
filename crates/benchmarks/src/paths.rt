// The longest walk and the potentials of a procedure of 20,000 rows, two at each address. Its code is straight or has
// branches.

ghost use Rattle.std.specs.Prelude.{◌≡◌, ◌<◌, length};

use address_map::Rom;
use certificate::{Certificate, read};
use path_time::{Nesting, longest, potentials};
use std::alloc::{AllocError, Global};
use std::string::String;

/// A procedure at 0008 that repeats `code`, of `len` bytes, `times` times. `starts` are the offsets in `code` that have
/// rows. `halves` are the ranges of BC in the two rows at an address.
#[derive(Drop)]
pub struct PathShape {
    code: &'static [u8],
    len: u16,
    starts: &'static [u16],
    times: u16,
    halves: [&'static str; 2],
}

/// NOP. Each row has one successor.
pub const STRAIGHT: PathShape = PathShape {
    code: &[0x00],
    len: 1,
    starts: &[0],
    times: 10_000,
    halves: ["0000-FF7F:00-FF:00-7F", "0080-FFFF:00-FF:80-FF"],
};

/// JR NZ over a NOP, and the NOP. Each row has two successors or four.
pub const BRANCHES: PathShape = PathShape {
    code: &[0x20, 0x01, 0x00],
    len: 3,
    starts: &[0, 2],
    times: 5_000,
    halves: ["*", "*"],
};

/// LD SP,4400; CALL 0008; and a jump to itself.
const MAIN: [u8; 8] = [0x31, 0x00, 0x44, 0xCD, 0x08, 0x00, 0x18, 0xFE];

const MAIN_ROWS: &str = "row 0 0000 u * * * * * * * * * * - - - -\n\
    row 0 0003 s * * * * * * * * * * - - - -\n\
    row 0 0006 s * * * * * * * * * * - - - -\n";

impl PathShape {
    /// The ROM of this shape. It ends with RET.
    pub fn rom(&self, alloc: Global) -> Result<Vec<u8>, AllocError> {
        let mut rom = Vec::from_slice(alloc, &MAIN)?;
        for _ in 0..self.times {
            rom.extend_from_slice(self.code)?;
        }
        rom.push(0xC9)?;
        Ok(rom)
    }

    /// The text of a certificate without potentials. `rom_len` is the length of the ROM in bytes.
    pub fn text(&self, alloc: Global, rom_len: usize) -> Result<String, AllocError> {
        let mut text = format!(in alloc;
            "galcert 1\nrom {rom_len}\nstack 4380 4400\nbudget -\nproc main 0000 1 2 -\nproc sub 0008 0 2 1000000\n{MAIN_ROWS}"
        )?;
        let mut at = 8u16;
        for _ in 0..self.times {
            for start in self.starts {
                self.add_rows(alloc, &mut text, at.wrapping_add(*start))?;
            }
            at = at.wrapping_add(self.len);
        }
        self.add_rows(alloc, &mut text, at)?;
        text.push_str("end\n")?;
        Ok(text)
    }

    /// Adds the two rows at an address.
    fn add_rows(&self, alloc: Global, text: &mut String, at: u16) -> Result<(), AllocError> {
        for half in self.halves {
            let row = format!(in alloc; "row 1 {at:04X} s * {half} * * * * * * * * - - - -\n")?;
            text.push_str(row.as_str())?;
        }
        Ok(())
    }
}

/// The certificate of the shape's ROM. None if the text can't be built or read.
pub fn certificate_of(alloc: Global, shape: &PathShape, rom_len: usize) -> Option<Certificate> {
    let text = shape.text(alloc, rom_len).ok()?;
    read(alloc, text.as_bytes()).ok()
}

/// The T-states of the longest walk and its number of rows. The search runs `times` times.
pub fn walked(alloc: Global, rom: &Rom, certificate: &Certificate, times: u64) -> (u32, usize)
    requires { certificate.now.rom_len ≡ length rom.now }
{
    let mut last = (0, 0);
    if certificate.procs().len() < 2 {
        return last;
    }
    for _ in 0..times {
        if let Ok((sum, rows)) = longest(alloc, rom, certificate, 1) {
            last = (sum, rows.len());
        }
    }
    last
}

/// The constant of the first potential and the number of potentials. They are found `times` times.
pub fn paid(alloc: Global, rom: &Rom, certificate: &Certificate, times: u64) -> (i32, usize)
    requires { certificate.now.rom_len ≡ length rom.now }
{
    let mut last = (0, 0);
    for _ in 0..times {
        if let Ok(list) = potentials(alloc, rom, certificate, 1, &[], &[], Nesting::Apart) {
            last = (list.first().map_or(0, |first| first.constant()), list.len());
        }
    }
    last
}
