// Kinds of move, and lists of moves.

ghost use Rattle.std.specs.Prelude.{◌≡◌, ◌+◌, ◌≤◌, [], ◌∷◌, ◌++◌, length};
ghost use Rattle.z80_moves.specs.declared.moves.Move.TheVariants.{Halt};

use crate::registers::{ByteRegister, WordRegister};
use arrayvec::ArrayVec;
use std::marker::Model;
use z80_decode::{AccumulatorRotate, ArithmeticKind, Bit, Condition, ShiftKind, Special};

/// The test of an instruction, on which its later moves depend.
#[derive(Clone, Copy)]
pub enum Test {
    /// The condition of JP cc, JR cc, CALL cc or RET cc.
    Flag(Condition),
    /// B is not 0: DJNZ jumps.
    BNotZero,
    /// BC is not 0: LDIR and LDDR repeat.
    BcNotZero,
    /// BC is not 0 and A differs from the byte in work: CPIR and CPDR repeat.
    SearchGoesOn,
}

/// A move: one elementary operation of an instruction (docs/INSTRUCTIONS.md, "Moves").
#[derive(Clone, Copy)]
pub enum Move {
    /// Sets a byte to a constant.
    SetByte(ByteRegister, u8),
    /// Sets a word to a constant.
    SetWord(WordRegister, u16),
    /// Copies to the first byte from the second.
    CopyByte(ByteRegister, ByteRegister),
    /// Copies to the first word from the second.
    CopyWord(WordRegister, WordRegister),
    /// Adds a signed displacement, given as its byte, to a word.
    Displace(WordRegister, u8),
    /// Reads the byte at the address in a word, as data.
    ReadByte(ByteRegister, WordRegister),
    /// Writes a byte to the address in a word, as data.
    WriteByte(WordRegister, ByteRegister),
    /// Reads a word at the address in the second word and the next address, low byte first.
    ReadWord(WordRegister, WordRegister),
    /// Writes the second word to the address in the first and the next address, low byte first.
    WriteWord(WordRegister, WordRegister),
    /// Pushes a word: the high byte at SP - 1, the low byte at SP - 2.
    Push(WordRegister),
    /// Pops a word: the low byte at SP, the high byte at SP + 1.
    Pop(WordRegister),
    /// Exchanges a word with the word at SP.
    ExchangeStack(WordRegister),
    /// Exchanges DE and HL.
    ExchangeDeHl,
    /// Exchanges AF and AF'.
    ExchangeAf,
    /// Exchanges BC, DE and HL with BC', DE' and HL'.
    ExchangeSets,
    /// An operation on A and a byte, with flags.
    Arithmetic(ArithmeticKind, ByteRegister),
    /// Adds 1 to a byte, with flags.
    Increment(ByteRegister),
    /// Subtracts 1 from a byte, with flags.
    Decrement(ByteRegister),
    /// Subtracts 1 from a byte, without flags.
    CountDown(ByteRegister),
    /// Shifts or rotates a byte, with flags.
    Shift(ShiftKind, ByteRegister),
    /// Rotates A, with the flags of RLCA, RRCA, RLA and RRA.
    RotateA(AccumulatorRotate),
    /// DAA.
    DecimalAdjust,
    /// CPL.
    Complement,
    /// NEG.
    Negate,
    /// SCF.
    SetCarry,
    /// CCF.
    ComplementCarry,
    /// Adds the second word to the first, with the flags of ADD HL,ss.
    AddWord(WordRegister, WordRegister),
    /// Adds the second word and the carry to the first, with flags.
    AddCarryWord(WordRegister, WordRegister),
    /// Subtracts the second word and the carry from the first, with flags.
    SubtractCarryWord(WordRegister, WordRegister),
    /// Adds 1 to a word, without flags.
    IncrementWord(WordRegister),
    /// Subtracts 1 from a word, without flags.
    DecrementWord(WordRegister),
    /// Tests a bit of a byte; only the flags change.
    TestBit(Bit, ByteRegister),
    /// Sets a bit of a byte.
    SetBit(Bit, ByteRegister),
    /// Resets a bit of a byte.
    ResetBit(Bit, ByteRegister),
    /// RLD, on A and the byte in work.
    RotateDigitsLeft,
    /// RRD, on A and the byte in work.
    RotateDigitsRight,
    /// The flags of one turn of LDI, LDD, LDIR or LDDR, from BC after it.
    BlockLoadFlags,
    /// The flags of one turn of CPI, CPD, CPIR or CPDR, from A, the byte in work, and BC after it.
    BlockCompareFlags,
    /// Loads A from I or R, with flags.
    LoadASpecial(Special),
    /// Sets IFF1 and IFF2, or clears both.
    SetInterrupts(bool),
    /// Clears IFF1.
    ClearIff1,
    /// Copies IFF2 to IFF1.
    RestoreIff1,
    /// Halts the machine.
    Halt,
    /// Makes the moves after it only if a test holds.
    OnlyIf(Test),
}

impl Default for Move {
    ghost is_default = { λ x. x ≡ Halt };

    fn default() -> Move {
        Move::Halt
    }
}

/// A list of at most eight moves.
#[derive(Drop)]
pub struct Moves {
    items: ArrayVec<Move, 8>,
}

impl Model for Moves {
    ghost use Rattle.std.specs.Prelude.{List};
    ghost use Rattle.z80_moves.specs.declared.moves.Move.{Move};

    ghost Value = { List Move };

    ghost view = { λ m. m.items.items };
}

impl Moves {
    /// No moves.
    pub fn none() -> Moves
        ensures { result ≡ [] }
    {
        Moves {
            items: ArrayVec::new(),
        }
    }

    /// One move.
    pub fn one(step: Move) -> Moves
        ensures { result ≡ step ∷ [] }
    {
        let mut items = ArrayVec::new();
        items.push(step);
        Moves { items }
    }

    /// A list of these moves, at most eight.
    pub fn of(moves: &[Move]) -> Moves
        requires { length moves.now ≤ 8 }
        ensures { result ≡ moves.now }
    {
        Moves::none().then(moves)
    }

    /// The list with more moves at its end; at most eight together.
    pub fn then(mut self, moves: &[Move]) -> Moves
        requires { length self + length moves.now ≤ 8 }
        ensures { result ≡ self ++ moves.now }
    {
        for step in moves {
            self.items.push(*step);
        }
        self
    }

    /// The moves, first to last.
    pub fn as_slice(&self) -> &[Move]
        ensures { result.now ≡ self.now }
    {
        self.items.as_slice()
    }
}
