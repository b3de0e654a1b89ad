// Reads whole files into memory.

ghost use Rattle.std.specs.Prelude.{◌≡◌, ◌≢◌, ◌≤◌, ◌<◌, ◌⊎◌, vec_len, IfOk, IfSome};
ghost use Rattle.certificate.specs.Pieces.{OfBytes};
ghost use Rattle.texts.specs.Device.{Gives, HasFailed, CountsNoFailure};
ghost use Rattle.command_parts.specs.Reading.{FirstBytes, GivesUpTo};

use crate::stop::Stop;
use address_map::ROM_LIMIT;
use std::alloc::Global;
use texts::Source;

/// How many bytes one read asks for.
const CHUNK_LEN: usize = 4096;

/// One byte more than a ROM may have; of a longer file no more is read.
const ROM_READ_LEN: usize = ROM_LIMIT as usize + 1;

/// Reads the ROM's file up to its 16,385th byte.
///
/// # Errors
///
/// `Device` where the file cannot be read, and `OutOfMemory` where memory was refused.
pub fn read_rom<R: Source>(alloc: Global, rom: &mut R) -> Result<Vec<u8>, Stop>
    ensures first { IfOk result (λ bytes. FirstBytes 16385 (R.state rom.old).bytes bytes.items) }
    ensures device { result ≡ Err Stop.Device → HasFailed (R.state rom.old) (R.state rom.new) }
    ensures told { result ≢ Err Stop.Device → CountsNoFailure (R.state rom.old) (R.state rom.new) }
    ensures limit { HasFailed (R.state rom.old) (R.state rom.new)
        ⊎ GivesUpTo 16385 (R.state rom.old) (R.state rom.new) }
    ensures never { result ≢ Err Stop.Refused }
{
    let mut bytes = Vec::new(alloc);
    let mut chunk = [0; CHUNK_LEN];
    while bytes.len() < ROM_READ_LEN {
        let asked = CHUNK_LEN.min(ROM_READ_LEN - bytes.len());
        let Ok(count) = rom.read(&mut chunk[..asked]) else {
            return Err(Stop::Device);
        };
        if count == 0 {
            return Ok(bytes);
        }
        bytes.extend_from_slice(&chunk[..count])?;
    }
    Ok(bytes)
}

/// Reads all bytes of a file.
///
/// # Errors
///
/// `Device` where the file cannot be read, and `OutOfMemory` where memory was refused.
pub fn read_all<B: Source>(alloc: Global, file: &mut B) -> Result<Vec<u8>, Stop>
    ensures all { IfOk result (λ bytes. OfBytes (B.state file.old).bytes (λ all. all ≡ bytes.items)) }
    ensures device { result ≡ Err Stop.Device → HasFailed (B.state file.old) (B.state file.new) }
    ensures told { result ≢ Err Stop.Device
        → CountsNoFailure (B.state file.old) (B.state file.new) }
    ensures never { result ≢ Err Stop.Refused }
{
    let mut bytes = Vec::new(alloc);
    let mut chunk = [0; CHUNK_LEN];
    loop {
        let Ok(count) = file.read(&mut chunk) else {
            return Err(Stop::Device);
        };
        if count == 0 {
            return Ok(bytes);
        }
        bytes.extend_from_slice(&chunk[..count])?;
    }
}
