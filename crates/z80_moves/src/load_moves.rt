// The moves of the loads.

ghost use Rattle.std.specs.Prelude.{◌≡◌, ◌≤◌, length};
ghost use Rattle.z80_decode.specs.declared.instr.Instr.TheVariants.{LoadRegister, LoadImmediate, Store, LoadA, StoreA, StoreASpecial, LoadPairDirect, StorePairDirect};
ghost use Rattle.z80_moves.specs.Moves.{moves_of, at_memory};

use crate::moves::{Move, Moves};
use crate::operands::{byte_register, direct_register, index_register};
use crate::registers::{ByteRegister, WordRegister};
use z80_decode::{Address, Direct, Memory, Place, Register8, Special};

// Moves on a byte in memory, after those that set the pointer.
pub(crate) fn at_memory(memory: Memory, then: &[Move]) -> Moves
    requires { length then.now ≤ 6 }
    ensures { result ≡ at_memory memory then.now }
{
    match memory {
        Memory::AtHl => {
            Moves::one(Move::CopyWord(WordRegister::Pointer, WordRegister::Hl)).then(then)
        }
        Memory::At(index, displacement) => Moves::of(&[
            Move::CopyWord(WordRegister::Pointer, index_register(index)),
            Move::Displace(WordRegister::Pointer, displacement),
        ])
        .then(then),
    }
}

pub(crate) fn load_register(register: Register8, source: Place) -> Moves
    ensures { result ≡ moves_of (LoadRegister register source) }
{
    let target = byte_register(register);
    match source {
        Place::Register(source) => Moves::one(Move::CopyByte(target, byte_register(source))),
        Place::Memory(memory) => {
            at_memory(memory, &[Move::ReadByte(target, WordRegister::Pointer)])
        }
    }
}

pub(crate) fn load_immediate(target: Place, byte: u8) -> Moves
    ensures { result ≡ moves_of (LoadImmediate target byte) }
{
    match target {
        Place::Register(register) => Moves::one(Move::SetByte(byte_register(register), byte)),
        Place::Memory(memory) => at_memory(
            memory,
            &[
                Move::SetByte(ByteRegister::Operand, byte),
                Move::WriteByte(WordRegister::Pointer, ByteRegister::Operand),
            ],
        ),
    }
}

pub(crate) fn store(memory: Memory, register: Register8) -> Moves
    ensures { result ≡ moves_of (Store memory register) }
{
    at_memory(
        memory,
        &[Move::WriteByte(WordRegister::Pointer, byte_register(register))],
    )
}

pub(crate) fn load_a(address: Address) -> Moves
    ensures { result ≡ moves_of (LoadA address) }
{
    match address {
        Address::Bc => Moves::one(Move::ReadByte(ByteRegister::A, WordRegister::Bc)),
        Address::De => Moves::one(Move::ReadByte(ByteRegister::A, WordRegister::De)),
        Address::Direct(at) => Moves::of(&[
            Move::SetWord(WordRegister::Pointer, at),
            Move::ReadByte(ByteRegister::A, WordRegister::Pointer),
        ]),
    }
}

pub(crate) fn store_a(address: Address) -> Moves
    ensures { result ≡ moves_of (StoreA address) }
{
    match address {
        Address::Bc => Moves::one(Move::WriteByte(WordRegister::Bc, ByteRegister::A)),
        Address::De => Moves::one(Move::WriteByte(WordRegister::De, ByteRegister::A)),
        Address::Direct(at) => Moves::of(&[
            Move::SetWord(WordRegister::Pointer, at),
            Move::WriteByte(WordRegister::Pointer, ByteRegister::A),
        ]),
    }
}

// R counts the processor's own reads, which are not modelled; it stays 0.
pub(crate) fn store_special(special: Special) -> Moves
    ensures { result ≡ moves_of (StoreASpecial special) }
{
    match special {
        Special::I => Moves::one(Move::CopyByte(ByteRegister::I, ByteRegister::A)),
        Special::R => Moves::none(),
    }
}

pub(crate) fn load_pair_direct(pair: Direct, at: u16) -> Moves
    ensures { result ≡ moves_of (LoadPairDirect pair at) }
{
    Moves::of(&[
        Move::SetWord(WordRegister::Pointer, at),
        Move::ReadWord(direct_register(pair), WordRegister::Pointer),
    ])
}

pub(crate) fn store_pair_direct(pair: Direct, at: u16) -> Moves
    ensures { result ≡ moves_of (StorePairDirect pair at) }
{
    Moves::of(&[
        Move::SetWord(WordRegister::Pointer, at),
        Move::WriteWord(WordRegister::Pointer, direct_register(pair)),
    ])
}
