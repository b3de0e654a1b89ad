// The text of each instruction.

ghost use Rattle.std.specs.Prelude.{◌<◌, length};

use crate::names::{
    arithmetic, bit, block_compare, block_input, block_load, block_output, condition,
    direct_register, index_name, index_pair, mode, operand_pair, pointer, register8, register16,
    rotate, shift, short_condition, special, stack_pair,
};
use crate::reference::reference_of;
use crate::text::{InstrText, begin};
use z80_decode::Instr;

/// The text of an instruction in the manual's spelling (UM0080). `after` is the address after the instruction: a
/// relative jump names its target. Numbers are hexadecimal with `h` and, before a letter, a 0.
pub fn spelled(instr: &Instr, after: u16) -> InstrText
    ensures { 0 < length result.before }
{
    let number = reference_of(instr, after);
    match *instr {
        Instr::Nop => begin("NOP"),
        Instr::Halt => begin("HALT"),
        Instr::DisableInterrupts => begin("DI"),
        Instr::EnableInterrupts => begin("EI"),
        Instr::InterruptMode(number) => begin("IM ").add(mode(number)),
        Instr::LoadRegister(to, from) => begin("LD ").add(register8(to)).add(",").place(from),
        Instr::LoadImmediate(to, byte) => begin("LD ").place(to).add(",").byte(byte),
        Instr::Store(to, from) => begin("LD ").memory(to).add(",").add(register8(from)),
        Instr::LoadA(from) => begin("LD A,").address(from, number),
        Instr::StoreA(to) => begin("LD ").address(to, number).add(",A"),
        Instr::LoadASpecial(from) => begin("LD A,").add(special(from)),
        Instr::StoreASpecial(to) => begin("LD ").add(special(to)).add(",A"),
        Instr::LoadPair(to, _) => begin("LD ").add(register16(to)).add(",").number(number),
        Instr::LoadPairDirect(to, _) => {
            begin("LD ")
                .add(direct_register(to))
                .add(",")
                .direct(number)
        }
        Instr::StorePairDirect(from, _) => {
            begin("LD ")
                .direct(number)
                .add(",")
                .add(direct_register(from))
        }
        Instr::LoadSp(from) => begin("LD SP,").add(pointer(from)),
        Instr::Push(pair) => begin("PUSH ").add(stack_pair(pair)),
        Instr::Pop(pair) => begin("POP ").add(stack_pair(pair)),
        Instr::ExchangeDeHl => begin("EX DE,HL"),
        Instr::ExchangeAf => begin("EX AF,AF'"),
        Instr::ExchangeSets => begin("EXX"),
        Instr::ExchangeStack(pair) => begin("EX (SP),").add(pointer(pair)),
        Instr::BlockLoad(kind) => begin(block_load(kind)),
        Instr::BlockCompare(kind) => begin(block_compare(kind)),
        Instr::BlockInput(kind) => begin(block_input(kind)),
        Instr::BlockOutput(kind) => begin(block_output(kind)),
        Instr::Arithmetic(kind, operand) => begin(arithmetic(kind)).operand(operand),
        Instr::Increment(place) => begin("INC ").place(place),
        Instr::Decrement(place) => begin("DEC ").place(place),
        Instr::DecimalAdjust => begin("DAA"),
        Instr::Complement => begin("CPL"),
        Instr::Negate => begin("NEG"),
        Instr::ComplementCarry => begin("CCF"),
        Instr::SetCarry => begin("SCF"),
        Instr::AddHl(pair) => begin("ADD HL,").add(operand_pair(pair)),
        Instr::AdcHl(pair) => begin("ADC HL,").add(operand_pair(pair)),
        Instr::SbcHl(pair) => begin("SBC HL,").add(operand_pair(pair)),
        Instr::AddIndex(index, pair) => {
            begin("ADD ")
                .add(index_name(index))
                .add(",")
                .add(index_pair(index, pair))
        }
        Instr::IncrementPair(pair) => begin("INC ").add(register16(pair)),
        Instr::DecrementPair(pair) => begin("DEC ").add(register16(pair)),
        Instr::RotateA(kind) => begin(rotate(kind)),
        Instr::Shift(kind, place) => begin(shift(kind)).place(place),
        Instr::RotateDigitsLeft => begin("RLD"),
        Instr::RotateDigitsRight => begin("RRD"),
        Instr::TestBit(number, place) => begin("BIT ").add(bit(number)).add(",").place(place),
        Instr::SetBit(number, place) => begin("SET ").add(bit(number)).add(",").place(place),
        Instr::ResetBit(number, place) => begin("RES ").add(bit(number)).add(",").place(place),
        Instr::Jump(_) => begin("JP ").number(number),
        Instr::JumpIf(when, _) => begin("JP ").add(condition(when)).add(",").number(number),
        Instr::JumpRelative(_) => begin("JR ").number(number),
        Instr::JumpRelativeIf(when, _) => {
            begin("JR ")
                .add(short_condition(when))
                .add(",")
                .number(number)
        }
        Instr::JumpTo(pair) => begin("JP (").add(pointer(pair)).add(")"),
        Instr::DecrementJump(_) => begin("DJNZ ").number(number),
        Instr::Call(_) => begin("CALL ").number(number),
        Instr::CallIf(when, _) => begin("CALL ").add(condition(when)).add(",").number(number),
        Instr::Restart(_) => begin("RST ").number(number),
        Instr::Return => begin("RET"),
        Instr::ReturnIf(when) => begin("RET ").add(condition(when)),
        Instr::ReturnFromInterrupt => begin("RETI"),
        Instr::ReturnFromNonMaskable => begin("RETN"),
        Instr::InputImmediate(port) => begin("IN A,(").byte(port).add(")"),
        Instr::InputRegister(to) => begin("IN ").add(register8(to)).add(",(C)"),
        Instr::OutputImmediate(port) => begin("OUT (").byte(port).add("),A"),
        Instr::OutputRegister(from) => begin("OUT (C),").add(register8(from)),
    }
}
