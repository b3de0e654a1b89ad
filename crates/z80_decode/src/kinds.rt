// The kinds that an opcode encodes: conditions, operations, bits.
ghost use Rattle.std.specs.Prelude.{◌≡◌};
ghost use Rattle.z80_decode.specs.Codes.{condition_of, short_condition_of, operation_of, shift_of, block_of, bit_of, restart_of};

/// A condition of JP, CALL and RET: `cc` in the manual.
#[derive(Clone, Copy)]
pub enum Condition {
    NotZero,
    Zero,
    NotCarry,
    Carry,
    ParityOdd,
    ParityEven,
    Plus,
    Minus,
}

/// A condition of JR.
#[derive(Clone, Copy)]
pub enum ShortCondition {
    NotZero,
    Zero,
    NotCarry,
    Carry,
}

/// An operation of 8-bit arithmetic or logic on A. `Compare` is CP.
#[derive(Clone, Copy)]
pub enum ArithmeticKind {
    Add,
    Adc,
    Sub,
    Sbc,
    And,
    Xor,
    Or,
    Compare,
}

/// A shift or rotate after the prefix CB.
#[derive(Clone, Copy)]
pub enum ShiftKind {
    Rlc,
    Rrc,
    Rl,
    Rr,
    Sla,
    Sra,
    Srl,
}

/// A rotate of A with an opcode of one byte.
#[derive(Clone, Copy)]
pub enum AccumulatorRotate {
    Rlca,
    Rrca,
    Rla,
    Rra,
}

/// The direction of a block instruction, and whether it repeats. For the loads: LDI, LDD, LDIR and LDDR.
#[derive(Clone, Copy)]
pub enum BlockKind {
    Increment,
    Decrement,
    IncrementRepeat,
    DecrementRepeat,
}

/// The number of a bit of a byte, 0 (the lowest) to 7.
#[derive(Clone, Copy)]
pub enum Bit {
    Zero,
    One,
    Two,
    Three,
    Four,
    Five,
    Six,
    Seven,
}

/// The address that RST calls, 00h to 38h.
#[derive(Clone, Copy)]
pub enum RestartAddress {
    At00,
    At08,
    At10,
    At18,
    At20,
    At28,
    At30,
    At38,
}

/// An interrupt mode of IM.
#[derive(Clone, Copy)]
pub enum MaskableMode {
    Zero,
    One,
    Two,
}

impl Condition {
    /// The condition with this code, 0 to 7.
    pub(crate) fn of(code: u8) -> Condition
        ensures { result ≡ condition_of code }
    {
        match code {
            0 => Condition::NotZero,
            1 => Condition::Zero,
            2 => Condition::NotCarry,
            3 => Condition::Carry,
            4 => Condition::ParityOdd,
            5 => Condition::ParityEven,
            6 => Condition::Plus,
            _ => Condition::Minus,
        }
    }
}

impl ShortCondition {
    /// The condition with this code, 4 to 7.
    pub(crate) fn of(code: u8) -> ShortCondition
        ensures { result ≡ short_condition_of code }
    {
        match code {
            4 => ShortCondition::NotZero,
            5 => ShortCondition::Zero,
            6 => ShortCondition::NotCarry,
            _ => ShortCondition::Carry,
        }
    }
}

impl ArithmeticKind {
    /// The operation with this code, 0 to 7.
    pub(crate) fn of(code: u8) -> ArithmeticKind
        ensures { result ≡ operation_of code }
    {
        match code {
            0 => ArithmeticKind::Add,
            1 => ArithmeticKind::Adc,
            2 => ArithmeticKind::Sub,
            3 => ArithmeticKind::Sbc,
            4 => ArithmeticKind::And,
            5 => ArithmeticKind::Xor,
            6 => ArithmeticKind::Or,
            _ => ArithmeticKind::Compare,
        }
    }
}

impl ShiftKind {
    /// The shift with this code, 0 to 7; None for 6, which is undocumented.
    pub(crate) fn of(code: u8) -> Option<ShiftKind>
        ensures { result ≡ shift_of code }
    {
        match code {
            0 => Some(ShiftKind::Rlc),
            1 => Some(ShiftKind::Rrc),
            2 => Some(ShiftKind::Rl),
            3 => Some(ShiftKind::Rr),
            4 => Some(ShiftKind::Sla),
            5 => Some(ShiftKind::Sra),
            6 => None,
            _ => Some(ShiftKind::Srl),
        }
    }
}

impl BlockKind {
    /// The kind with this code, 4 to 7.
    pub(crate) fn of(code: u8) -> BlockKind
        ensures { result ≡ block_of code }
    {
        match code {
            4 => BlockKind::Increment,
            5 => BlockKind::Decrement,
            6 => BlockKind::IncrementRepeat,
            _ => BlockKind::DecrementRepeat,
        }
    }
}

impl Bit {
    /// The bit with this code, 0 to 7.
    pub(crate) fn of(code: u8) -> Bit
        ensures { result ≡ bit_of code }
    {
        match code {
            0 => Bit::Zero,
            1 => Bit::One,
            2 => Bit::Two,
            3 => Bit::Three,
            4 => Bit::Four,
            5 => Bit::Five,
            6 => Bit::Six,
            _ => Bit::Seven,
        }
    }
}

impl RestartAddress {
    /// The address with this code, 0 to 7, which is the address divided by 8.
    pub(crate) fn of(code: u8) -> RestartAddress
        ensures { result ≡ restart_of code }
    {
        match code {
            0 => RestartAddress::At00,
            1 => RestartAddress::At08,
            2 => RestartAddress::At10,
            3 => RestartAddress::At18,
            4 => RestartAddress::At20,
            5 => RestartAddress::At28,
            6 => RestartAddress::At30,
            _ => RestartAddress::At38,
        }
    }
}
