// The T-states of each instruction.
ghost use Rattle.std.specs.Prelude.{◌≡◌, ◌≤◌, Bool};
ghost use Rattle.z80_decode.specs.declared.instr.Instr.{Instr};
ghost use Rattle.t_states.specs.Costs.{cost_of, by_memory, by_place, by_pair, by_stack_pair, by_pointer, by_address, by_direct, by_block};

use z80_decode::{
    Address, BlockKind, Direct, Instr, Memory, Operand, Place, Pointer, Register16, StackPair,
};

/// The T-states of an instruction, 4 to 23: the table of docs/INSTRUCTIONS.md, "T-states" (UM0080, "Z80 Instruction
/// Description").
///
/// `taken` selects between two costs: a conditional jump, call or return is taken, DJNZ jumps, or a repeating block
/// instruction repeats. Where there is one cost, as for JP cc,nn, it is ignored.
pub fn cost(instr: &Instr, taken: bool) -> u8
    ensures exact { result ≡ cost_of instr.now taken }
    ensures least { 4 ≤ result }
    ensures greatest { result ≤ 23 }
{
    match instr {
        Instr::Nop
        | Instr::Halt
        | Instr::DisableInterrupts
        | Instr::EnableInterrupts
        | Instr::ExchangeDeHl
        | Instr::ExchangeAf
        | Instr::ExchangeSets
        | Instr::DecimalAdjust
        | Instr::Complement
        | Instr::ComplementCarry
        | Instr::SetCarry
        | Instr::RotateA(_) => 4,
        Instr::Negate | Instr::InterruptMode(_) => 8,
        Instr::LoadASpecial(_) | Instr::StoreASpecial(_) => 9,
        Instr::AddHl(_) => 11,
        Instr::AdcHl(_) | Instr::SbcHl(_) | Instr::AddIndex(_, _) => 15,
        Instr::RotateDigitsLeft | Instr::RotateDigitsRight => 18,

        Instr::LoadRegister(_, place) | Instr::Arithmetic(_, Operand::Place(place)) => {
            by_place(*place, 4, 7, 19)
        }
        Instr::Arithmetic(_, Operand::Immediate(_)) => 7,
        Instr::LoadImmediate(place, _) => by_place(*place, 7, 10, 19),
        Instr::Store(memory, _) => by_memory(*memory, 7, 19),
        Instr::LoadA(address) | Instr::StoreA(address) => by_address(*address, 7, 13),
        Instr::Increment(place) | Instr::Decrement(place) => by_place(*place, 4, 11, 23),
        Instr::Shift(_, place) | Instr::SetBit(_, place) | Instr::ResetBit(_, place) => {
            by_place(*place, 8, 15, 23)
        }
        Instr::TestBit(_, place) => by_place(*place, 8, 12, 20),

        Instr::LoadPair(pair, _) => by_pair(*pair, 10, 14),
        Instr::IncrementPair(pair) | Instr::DecrementPair(pair) => by_pair(*pair, 6, 10),
        Instr::LoadPairDirect(direct, _) | Instr::StorePairDirect(direct, _) => {
            by_direct(*direct, 16, 20)
        }
        Instr::Push(pair) => by_stack_pair(*pair, 11, 15),
        Instr::Pop(pair) => by_stack_pair(*pair, 10, 14),
        Instr::LoadSp(pointer) => by_pointer(*pointer, 6, 10),
        Instr::ExchangeStack(pointer) => by_pointer(*pointer, 19, 23),
        Instr::JumpTo(pointer) => by_pointer(*pointer, 4, 8),

        Instr::Jump(_) | Instr::JumpIf(_, _) | Instr::Return => 10,
        Instr::JumpRelative(_) => 12,
        Instr::JumpRelativeIf(_, _) => { if taken { 12 } else { 7 } }
        Instr::DecrementJump(_) => { if taken { 13 } else { 8 } }
        Instr::Call(_) => 17,
        Instr::CallIf(_, _) => { if taken { 17 } else { 10 } }
        Instr::ReturnIf(_) => { if taken { 11 } else { 5 } }
        Instr::Restart(_) => 11,
        Instr::ReturnFromInterrupt | Instr::ReturnFromNonMaskable => 14,

        Instr::BlockLoad(kind)
        | Instr::BlockCompare(kind)
        | Instr::BlockInput(kind)
        | Instr::BlockOutput(kind) => by_block(*kind, taken),
        Instr::InputImmediate(_) | Instr::OutputImmediate(_) => 11,
        Instr::InputRegister(_) | Instr::OutputRegister(_) => 12,
    }
}

/// A law: each instruction takes 4 to 23 T-states, taken or not. A call does nothing.
pub fn cost_range()
    ensures least { (instr : Instr) (taken : Bool) → 4 ≤ cost_of instr taken }
    ensures greatest { (instr : Instr) (taken : Bool) → cost_of instr taken ≤ 23 }
{}

fn by_memory(memory: Memory, at_hl: u8, at_index: u8) -> u8
    ensures { result ≡ by_memory memory at_hl at_index }
{
    match memory {
        Memory::AtHl => at_hl,
        Memory::At(_, _) => at_index,
    }
}

fn by_place(place: Place, in_register: u8, at_hl: u8, at_index: u8) -> u8
    ensures { result ≡ by_place place in_register at_hl at_index }
{
    match place {
        Place::Register(_) => in_register,
        Place::Memory(memory) => by_memory(memory, at_hl, at_index),
    }
}

fn by_pair(pair: Register16, general: u8, index: u8) -> u8
    ensures { result ≡ by_pair pair general index }
{
    match pair {
        Register16::Bc | Register16::De | Register16::Hl | Register16::Sp => general,
        Register16::Ix | Register16::Iy => index,
    }
}

fn by_stack_pair(pair: StackPair, general: u8, index: u8) -> u8
    ensures { result ≡ by_stack_pair pair general index }
{
    match pair {
        StackPair::Bc | StackPair::De | StackPair::Hl | StackPair::Af => general,
        StackPair::Ix | StackPair::Iy => index,
    }
}

fn by_pointer(pointer: Pointer, hl: u8, index: u8) -> u8
    ensures { result ≡ by_pointer pointer hl index }
{
    match pointer {
        Pointer::Hl => hl,
        Pointer::Ix | Pointer::Iy => index,
    }
}

fn by_address(address: Address, pair: u8, direct: u8) -> u8
    ensures { result ≡ by_address address pair direct }
{
    match address {
        Address::Bc | Address::De => pair,
        Address::Direct(_) => direct,
    }
}

fn by_direct(direct: Direct, short: u8, prefixed: u8) -> u8
    ensures { result ≡ by_direct direct short prefixed }
{
    match direct {
        Direct::ShortHl => short,
        Direct::Pair(_) => prefixed,
    }
}

fn by_block(kind: BlockKind, goes_on: bool) -> u8
    ensures { result ≡ by_block kind goes_on }
{
    match kind {
        BlockKind::Increment | BlockKind::Decrement => 16,
        BlockKind::IncrementRepeat | BlockKind::DecrementRepeat => { if goes_on { 21 } else { 16 } }
    }
}
