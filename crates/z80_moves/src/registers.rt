// The registers of moves.

/// A byte that a move reads or sets: a register of the main set, I, or the byte in work (`Operand`), which holds an
/// operand that is not in a register.
#[derive(Clone, Copy)]
pub enum ByteRegister {
    A,
    F,
    B,
    C,
    D,
    E,
    H,
    L,
    I,
    Operand,
}

/// A word that a move reads or sets: a pair of the main set, another 16-bit register, or the pointer, the address that
/// the instruction works at.
#[derive(Clone, Copy)]
pub enum WordRegister {
    Af,
    Bc,
    De,
    Hl,
    Ix,
    Iy,
    Sp,
    Pc,
    Pointer,
}
