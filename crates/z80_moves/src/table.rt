// The moves of each instruction, and of the acceptance of an NMI.

ghost use Rattle.std.specs.Prelude.{◌≡◌};
ghost use Rattle.z80_moves.specs.Moves.{moves_of, acceptance_moves};

use crate::arithmetic_moves::{arithmetic, changing, reading};
use crate::block_moves::{block_compare, block_load};
use crate::flow_moves::{
    call, call_if, count_down_and_jump, jump_if, jump_relative_if, restart, return_from_nmi,
    return_if,
};
use crate::load_moves::{
    load_a, load_immediate, load_pair_direct, load_register, store, store_a, store_pair_direct,
    store_special,
};
use crate::moves::{Move, Moves};
use crate::operands::{
    index_pair_register, index_register, pair_register, pointer_register, stack_register,
    word_register, worked_at,
};
use crate::registers::WordRegister;
use z80_decode::{Instr, Memory, Place};

/// The moves of an instruction, which start with PC after the instruction: the table of docs/INSTRUCTIONS.md, "Moves".
/// Instructions of the I/O group have none.
pub fn moves_for(instr: &Instr) -> Moves
    ensures { result ≡ moves_of instr.now }
{
    match *instr {
        Instr::LoadRegister(register, source) => load_register(register, source),
        Instr::LoadImmediate(target, byte) => load_immediate(target, byte),
        Instr::Store(memory, register) => store(memory, register),
        Instr::LoadA(address) => load_a(address),
        Instr::StoreA(address) => store_a(address),
        Instr::LoadASpecial(special) => Moves::one(Move::LoadASpecial(special)),
        Instr::StoreASpecial(special) => store_special(special),
        Instr::LoadPair(pair, word) => Moves::one(Move::SetWord(word_register(pair), word)),
        Instr::LoadPairDirect(pair, at) => load_pair_direct(pair, at),
        Instr::StorePairDirect(pair, at) => store_pair_direct(pair, at),
        Instr::LoadSp(from) => Moves::one(Move::CopyWord(WordRegister::Sp, pointer_register(from))),
        Instr::Push(pair) => Moves::one(Move::Push(stack_register(pair))),
        Instr::Pop(pair) => Moves::one(Move::Pop(stack_register(pair))),
        Instr::ExchangeDeHl => Moves::one(Move::ExchangeDeHl),
        Instr::ExchangeAf => Moves::one(Move::ExchangeAf),
        Instr::ExchangeSets => Moves::one(Move::ExchangeSets),
        Instr::ExchangeStack(pointer) => Moves::one(Move::ExchangeStack(pointer_register(pointer))),
        Instr::BlockLoad(kind) => block_load(kind),
        Instr::BlockCompare(kind) => block_compare(kind),
        Instr::Arithmetic(kind, operand) => arithmetic(kind, operand),
        Instr::Increment(place) => changing(place, Move::Increment(worked_at(place))),
        Instr::Decrement(place) => changing(place, Move::Decrement(worked_at(place))),
        Instr::DecimalAdjust => Moves::one(Move::DecimalAdjust),
        Instr::Complement => Moves::one(Move::Complement),
        Instr::Negate => Moves::one(Move::Negate),
        Instr::ComplementCarry => Moves::one(Move::ComplementCarry),
        Instr::SetCarry => Moves::one(Move::SetCarry),
        Instr::Nop | Instr::InterruptMode(_) => Moves::none(),
        Instr::Halt => Moves::one(Move::Halt),
        Instr::DisableInterrupts => Moves::one(Move::SetInterrupts(false)),
        Instr::EnableInterrupts => Moves::one(Move::SetInterrupts(true)),
        Instr::AddHl(pair) => Moves::one(Move::AddWord(WordRegister::Hl, pair_register(pair))),
        Instr::AdcHl(pair) => Moves::one(Move::AddCarryWord(WordRegister::Hl, pair_register(pair))),
        Instr::SbcHl(pair) => {
            Moves::one(Move::SubtractCarryWord(WordRegister::Hl, pair_register(pair)))
        }
        Instr::AddIndex(index, pair) => {
            Moves::one(Move::AddWord(index_register(index), index_pair_register(index, pair)))
        }
        Instr::IncrementPair(pair) => Moves::one(Move::IncrementWord(word_register(pair))),
        Instr::DecrementPair(pair) => Moves::one(Move::DecrementWord(word_register(pair))),
        Instr::RotateA(kind) => Moves::one(Move::RotateA(kind)),
        Instr::Shift(kind, place) => changing(place, Move::Shift(kind, worked_at(place))),
        Instr::RotateDigitsLeft => changing(Place::Memory(Memory::AtHl), Move::RotateDigitsLeft),
        Instr::RotateDigitsRight => changing(Place::Memory(Memory::AtHl), Move::RotateDigitsRight),
        Instr::TestBit(bit, place) => reading(place, Move::TestBit(bit, worked_at(place))),
        Instr::SetBit(bit, place) => changing(place, Move::SetBit(bit, worked_at(place))),
        Instr::ResetBit(bit, place) => changing(place, Move::ResetBit(bit, worked_at(place))),
        Instr::Jump(to) => Moves::one(Move::SetWord(WordRegister::Pc, to)),
        Instr::JumpIf(condition, to) => jump_if(condition, to),
        Instr::JumpRelative(by) => Moves::one(Move::Displace(WordRegister::Pc, by)),
        Instr::JumpRelativeIf(condition, by) => jump_relative_if(condition, by),
        Instr::JumpTo(to) => Moves::one(Move::CopyWord(WordRegister::Pc, pointer_register(to))),
        Instr::DecrementJump(by) => count_down_and_jump(by),
        Instr::Call(to) => call(to),
        Instr::CallIf(condition, to) => call_if(condition, to),
        Instr::Restart(to) => restart(to),
        Instr::Return | Instr::ReturnFromInterrupt => Moves::one(Move::Pop(WordRegister::Pc)),
        Instr::ReturnIf(condition) => return_if(condition),
        Instr::ReturnFromNonMaskable => return_from_nmi(),
        Instr::InputImmediate(_)
        | Instr::InputRegister(_)
        | Instr::OutputImmediate(_)
        | Instr::OutputRegister(_)
        | Instr::BlockInput(_)
        | Instr::BlockOutput(_) => Moves::none(),
    }
}

/// The address to which the acceptance of an NMI goes (UM0080, "Non-Maskable Interrupt").
pub const NMI_ADDRESS: u16 = 0x0066;

/// The moves of the acceptance of an NMI (UM0080, "Non-Maskable Interrupt").
pub fn moves_of_acceptance() -> Moves
    ensures { result ≡ acceptance_moves }
{
    Moves::of(&[
        Move::Push(WordRegister::Pc),
        Move::ClearIff1,
        Move::SetWord(WordRegister::Pc, NMI_ADDRESS),
    ])
}
