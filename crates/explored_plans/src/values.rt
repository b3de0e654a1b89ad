// The values of registers.

use abs_state::AbsState;
use inferred_rows::InferredRow;
use intervals::ByteRange;
use loop_bounds::Variable;
use z80_decode::Register8;

/// The registers of splits.
pub const REGISTERS: [Register8; 7] = [
    Register8::A,
    Register8::B,
    Register8::C,
    Register8::D,
    Register8::E,
    Register8::H,
    Register8::L,
];

/// The most parts of a split that a search makes.
pub const PARTS: usize = 64;

/// A set of bytes.
#[derive(Clone, Copy)]
pub struct ByteSet {
    bits: [u64; 4],
}

impl ByteSet {
    /// The set without a byte.
    pub fn empty() -> ByteSet {
        ByteSet { bits: [0; 4] }
    }

    /// Adds a byte.
    pub fn add(&mut self, byte: u8) {
        if let Some(word) = self.bits.get_mut(usize::from(byte / 64)) {
            *word |= 1u64.checked_shl(u32::from(byte % 64)).unwrap_or(0);
        }
    }

    /// Adds each byte of a range.
    pub fn add_range(&mut self, range: ByteRange) {
        for byte in range.low()..=range.high() {
            self.add(byte);
        }
    }

    /// Whether a byte is in the set.
    pub fn contains(&self, byte: u8) -> bool {
        match self.bits.get(usize::from(byte / 64)) {
            Some(word) => word & 1u64.checked_shl(u32::from(byte % 64)).unwrap_or(0) != 0,
            None => false,
        }
    }

    /// The number of bytes in the set, 0 to 256.
    pub fn len(&self) -> usize {
        let mut count = 0usize;
        for byte in 0..=255u8 {
            if self.contains(byte) {
                count = count.saturating_add(1);
            }
        }
        count
    }
}

/// The values that a register has in rows; None if a row has more than 64.
pub fn values_in(rows: &[&InferredRow], register: Register8) -> Option<ByteSet> {
    let mut values = ByteSet::empty();
    for row in rows {
        let range = row.state.byte(register);
        if range.high().saturating_sub(range.low()) > 63 {
            return None;
        }
        values.add_range(range);
    }
    Some(values)
}

/// A number for a register.
pub fn code_of(register: Register8) -> u64 {
    match register {
        Register8::A => 0,
        Register8::B => 1,
        Register8::C => 2,
        Register8::D => 3,
        Register8::E => 4,
        Register8::H => 5,
        Register8::L => 6,
    }
}

/// A state cut to one value of a register; None if nothing is left.
pub fn cut(state: &AbsState, register: Register8, value: u8) -> Option<AbsState> {
    let mut left = state.copied();
    if left.cut_byte(register, ByteRange::single(value)) {
        Some(left)
    } else {
        None
    }
}

/// The variable of a register.
pub fn variable_of(register: Register8) -> Variable {
    match register {
        Register8::A => Variable::A,
        Register8::B => Variable::B,
        Register8::C => Variable::C,
        Register8::D => Variable::D,
        Register8::E => Variable::E,
        Register8::H => Variable::H,
        Register8::L => Variable::L,
    }
}

/// The register of a variable, if it is one of eight bits.
pub fn register_of(variable: Variable) -> Option<Register8> {
    match variable {
        Variable::A => Some(Register8::A),
        Variable::B => Some(Register8::B),
        Variable::C => Some(Register8::C),
        Variable::D => Some(Register8::D),
        Variable::E => Some(Register8::E),
        Variable::H => Some(Register8::H),
        Variable::L => Some(Register8::L),
        _ => None,
    }
}
