// The names of operands, and the mnemonics of operations, in the manual's spelling.

ghost use Rattle.std.specs.Prelude.{◌<◌, ◌≤◌, length};

use z80_decode::{
    AccumulatorRotate, ArithmeticKind, Bit, BlockKind, Condition, Direct, Index, IndexPair,
    MaskableMode, OperandPair, Pointer, Register8, Register16, ShiftKind, ShortCondition, Special,
    StackPair,
};

pub(crate) fn register8(register: Register8) -> &'static str {
    match register {
        Register8::A => "A",
        Register8::B => "B",
        Register8::C => "C",
        Register8::D => "D",
        Register8::E => "E",
        Register8::H => "H",
        Register8::L => "L",
    }
}

pub(crate) fn register16(register: Register16) -> &'static str {
    match register {
        Register16::Bc => "BC",
        Register16::De => "DE",
        Register16::Hl => "HL",
        Register16::Sp => "SP",
        Register16::Ix => "IX",
        Register16::Iy => "IY",
    }
}

pub(crate) fn stack_pair(pair: StackPair) -> &'static str {
    match pair {
        StackPair::Bc => "BC",
        StackPair::De => "DE",
        StackPair::Hl => "HL",
        StackPair::Af => "AF",
        StackPair::Ix => "IX",
        StackPair::Iy => "IY",
    }
}

pub(crate) fn operand_pair(pair: OperandPair) -> &'static str {
    match pair {
        OperandPair::Bc => "BC",
        OperandPair::De => "DE",
        OperandPair::Hl => "HL",
        OperandPair::Sp => "SP",
    }
}

/// The second operand of ADD IX,pp and ADD IY,rr.
pub(crate) fn index_pair(index: Index, pair: IndexPair) -> &'static str {
    match pair {
        IndexPair::Bc => "BC",
        IndexPair::De => "DE",
        IndexPair::Own => index_name(index),
        IndexPair::Sp => "SP",
    }
}

pub(crate) fn index_name(index: Index) -> &'static str {
    match index {
        Index::Ix => "IX",
        Index::Iy => "IY",
    }
}

pub(crate) fn pointer(pointer: Pointer) -> &'static str {
    match pointer {
        Pointer::Hl => "HL",
        Pointer::Ix => "IX",
        Pointer::Iy => "IY",
    }
}

pub(crate) fn condition(condition: Condition) -> &'static str {
    match condition {
        Condition::NotZero => "NZ",
        Condition::Zero => "Z",
        Condition::NotCarry => "NC",
        Condition::Carry => "C",
        Condition::ParityOdd => "PO",
        Condition::ParityEven => "PE",
        Condition::Plus => "P",
        Condition::Minus => "M",
    }
}

pub(crate) fn short_condition(condition: ShortCondition) -> &'static str {
    match condition {
        ShortCondition::NotZero => "NZ",
        ShortCondition::Zero => "Z",
        ShortCondition::NotCarry => "NC",
        ShortCondition::Carry => "C",
    }
}

pub(crate) fn special(register: Special) -> &'static str {
    match register {
        Special::I => "I",
        Special::R => "R",
    }
}

pub(crate) fn bit(bit: Bit) -> &'static str {
    match bit {
        Bit::Zero => "0",
        Bit::One => "1",
        Bit::Two => "2",
        Bit::Three => "3",
        Bit::Four => "4",
        Bit::Five => "5",
        Bit::Six => "6",
        Bit::Seven => "7",
    }
}

pub(crate) fn mode(mode: MaskableMode) -> &'static str {
    match mode {
        MaskableMode::Zero => "0",
        MaskableMode::One => "1",
        MaskableMode::Two => "2",
    }
}

/// The register of a load from (nn) or a store to it.
pub(crate) fn direct_register(pair: Direct) -> &'static str {
    match pair {
        Direct::ShortHl => "HL",
        Direct::Pair(pair) => register16(pair),
    }
}

/// The mnemonic with what stands before the operand.
pub(crate) fn arithmetic(kind: ArithmeticKind) -> &'static str
    ensures some { 0 < length result.now }
    ensures fits { length result.now ≤ 16 }
{
    match kind {
        ArithmeticKind::Add => "ADD A,",
        ArithmeticKind::Adc => "ADC A,",
        ArithmeticKind::Sub => "SUB ",
        ArithmeticKind::Sbc => "SBC A,",
        ArithmeticKind::And => "AND ",
        ArithmeticKind::Xor => "XOR ",
        ArithmeticKind::Or => "OR ",
        ArithmeticKind::Compare => "CP ",
    }
}

pub(crate) fn shift(kind: ShiftKind) -> &'static str
    ensures some { 0 < length result.now }
    ensures fits { length result.now ≤ 16 }
{
    match kind {
        ShiftKind::Rlc => "RLC ",
        ShiftKind::Rrc => "RRC ",
        ShiftKind::Rl => "RL ",
        ShiftKind::Rr => "RR ",
        ShiftKind::Sla => "SLA ",
        ShiftKind::Sra => "SRA ",
        ShiftKind::Srl => "SRL ",
    }
}

pub(crate) fn rotate(kind: AccumulatorRotate) -> &'static str
    ensures some { 0 < length result.now }
    ensures fits { length result.now ≤ 16 }
{
    match kind {
        AccumulatorRotate::Rlca => "RLCA",
        AccumulatorRotate::Rrca => "RRCA",
        AccumulatorRotate::Rla => "RLA",
        AccumulatorRotate::Rra => "RRA",
    }
}

pub(crate) fn block_load(kind: BlockKind) -> &'static str
    ensures some { 0 < length result.now }
    ensures fits { length result.now ≤ 16 }
{
    match kind {
        BlockKind::Increment => "LDI",
        BlockKind::Decrement => "LDD",
        BlockKind::IncrementRepeat => "LDIR",
        BlockKind::DecrementRepeat => "LDDR",
    }
}

pub(crate) fn block_compare(kind: BlockKind) -> &'static str
    ensures some { 0 < length result.now }
    ensures fits { length result.now ≤ 16 }
{
    match kind {
        BlockKind::Increment => "CPI",
        BlockKind::Decrement => "CPD",
        BlockKind::IncrementRepeat => "CPIR",
        BlockKind::DecrementRepeat => "CPDR",
    }
}

pub(crate) fn block_input(kind: BlockKind) -> &'static str
    ensures some { 0 < length result.now }
    ensures fits { length result.now ≤ 16 }
{
    match kind {
        BlockKind::Increment => "INI",
        BlockKind::Decrement => "IND",
        BlockKind::IncrementRepeat => "INIR",
        BlockKind::DecrementRepeat => "INDR",
    }
}

pub(crate) fn block_output(kind: BlockKind) -> &'static str
    ensures some { 0 < length result.now }
    ensures fits { length result.now ≤ 16 }
{
    match kind {
        BlockKind::Increment => "OUTI",
        BlockKind::Decrement => "OUTD",
        BlockKind::IncrementRepeat => "OTIR",
        BlockKind::DecrementRepeat => "OTDR",
    }
}
