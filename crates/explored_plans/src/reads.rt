// The addresses that instructions read.

use abs_state::AbsState;
use intervals::RegPair;
use z80_decode::{Address, Index, Instr, Memory, Operand, Place};

/// The one address that an instruction reads in a state, and how many bytes from there on; None if it reads no data, or
/// may read several addresses.
pub fn read_by(instr: &Instr, state: &AbsState) -> Option<(u16, u16)> {
    match instr {
        Instr::LoadRegister(_, place)
        | Instr::Increment(place)
        | Instr::Decrement(place)
        | Instr::Shift(_, place)
        | Instr::TestBit(_, place)
        | Instr::SetBit(_, place)
        | Instr::ResetBit(_, place)
        | Instr::Arithmetic(_, Operand::Place(place)) => Some((at_place(*place, state)?, 1)),
        Instr::LoadA(Address::Bc) => Some((value_of(RegPair::Bc, state)?, 1)),
        Instr::LoadA(Address::De) => Some((value_of(RegPair::De, state)?, 1)),
        Instr::LoadA(Address::Direct(address)) => Some((*address, 1)),
        Instr::LoadPairDirect(_, address) => Some((*address, 2)),
        _ => None,
    }
}

fn at_place(place: Place, state: &AbsState) -> Option<u16> {
    match place {
        Place::Register(_) => None,
        Place::Memory(Memory::AtHl) => value_of(RegPair::Hl, state),
        Place::Memory(Memory::At(Index::Ix, by)) => moved(value_of(RegPair::Ix, state)?, by),
        Place::Memory(Memory::At(Index::Iy, by)) => moved(value_of(RegPair::Iy, state)?, by),
    }
}

/// An address moved by a displacement as it is spelled.
fn moved(address: u16, by: u8) -> Option<u16> {
    let up = address.wrapping_add(u16::from(by));
    Some(if by < 128 { up } else { up.wrapping_sub(256) })
}

fn value_of(pair: RegPair, state: &AbsState) -> Option<u16> {
    state.pairs.pair(pair).word.value()
}
