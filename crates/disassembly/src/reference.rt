// The numbers in instructions that a label may stand for.

use crate::numbers::{ByteNumber, WordNumber};
use std::fmt;
use z80_decode::{Address, Instr, RestartAddress};

/// A number in an instruction that may be the address of a label. As a text it is the number in the manual's spelling.
#[derive(Clone, Copy, PartialEq, Eq)]
pub enum Reference {
    /// The target of JP, JR, DJNZ or CALL.
    Target(u16),
    /// The target of RST, 0000 to 0038. It is spelled as a byte.
    Restart(u8),
    /// The address nn of an operand (nn).
    Memory(u16),
    /// The word nn of LD dd,nn, which may be no address.
    Constant(u16),
}

impl Reference {
    /// The number.
    pub fn address(self) -> u16 {
        match self {
            Reference::Target(address)
            | Reference::Memory(address)
            | Reference::Constant(address) => address,
            Reference::Restart(address) => u16::from(address),
        }
    }
}

impl fmt::Display for Reference {
    fn fmt<W: fmt::Write>(&self, f: &mut fmt::Formatter<W>) -> fmt::Result {
        match self {
            Reference::Target(word) | Reference::Memory(word) | Reference::Constant(word) => {
                write!(f, "{}", WordNumber(*word))
            }
            Reference::Restart(byte) => write!(f, "{}", ByteNumber(*byte)),
        }
    }
}

/// The number of an instruction that a label may stand for, if it has one. `after` is the address after the
/// instruction. Ports and displacements are none, nor are computed jumps.
pub fn reference_of(instr: &Instr, after: u16) -> Option<Reference> {
    match instr {
        Instr::Jump(to) | Instr::JumpIf(_, to) | Instr::Call(to) | Instr::CallIf(_, to) => {
            Some(Reference::Target(*to))
        }
        Instr::JumpRelative(by) | Instr::JumpRelativeIf(_, by) | Instr::DecrementJump(by) => {
            Some(Reference::Target(relative(after, *by)))
        }
        Instr::Restart(to) => Some(Reference::Restart(restart(*to))),
        Instr::LoadA(Address::Direct(at))
        | Instr::StoreA(Address::Direct(at))
        | Instr::LoadPairDirect(_, at)
        | Instr::StorePairDirect(_, at) => Some(Reference::Memory(*at)),
        Instr::LoadPair(_, word) => Some(Reference::Constant(*word)),
        _ => None,
    }
}

/// The target of a relative jump. From 128 on the displacement stands for 256 less.
fn relative(after: u16, by: u8) -> u16 {
    let up = after.wrapping_add(u16::from(by));
    if by < 128 { up } else { up.wrapping_sub(256) }
}

fn restart(address: RestartAddress) -> u8 {
    match address {
        RestartAddress::At00 => 0x00,
        RestartAddress::At08 => 0x08,
        RestartAddress::At10 => 0x10,
        RestartAddress::At18 => 0x18,
        RestartAddress::At20 => 0x20,
        RestartAddress::At28 => 0x28,
        RestartAddress::At30 => 0x30,
        RestartAddress::At38 => 0x38,
    }
}
