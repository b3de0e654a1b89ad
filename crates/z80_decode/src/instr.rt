// The documented instructions.
use crate::kinds::{
    AccumulatorRotate, ArithmeticKind, Bit, BlockKind, Condition, MaskableMode, RestartAddress,
    ShiftKind, ShortCondition,
};
use crate::operands::{
    Address, Direct, Index, IndexPair, Memory, Operand, OperandPair, Place, Pointer, Register8,
    Register16, Special, StackPair,
};

/// A documented instruction of the Z80 with its operands (UM0080, "Z80 Instruction Description").
///
/// Each value has exactly one spelling, and no two values have the same. Where the manual has two spellings of one
/// effect, such as 2A nn and ED 6B nn for LD HL,(nn), they are two values. The displacement of a relative jump is the
/// byte as it is spelled: from 128 on it stands for 256 less. It counts from the address of the next instruction.
#[derive(Clone, Copy)]
pub enum Instr {
    /// NOP
    Nop,
    /// HALT
    Halt,
    /// DI
    DisableInterrupts,
    /// EI
    EnableInterrupts,
    /// IM 0, IM 1, IM 2
    InterruptMode(MaskableMode),
    /// LD r,r'; LD r,(HL); LD r,(IX+d); LD r,(IY+d)
    LoadRegister(Register8, Place),
    /// LD r,n; LD (HL),n; LD (IX+d),n; LD (IY+d),n
    LoadImmediate(Place, u8),
    /// LD (HL),r; LD (IX+d),r; LD (IY+d),r
    Store(Memory, Register8),
    /// LD A,(BC); LD A,(DE); LD A,(nn)
    LoadA(Address),
    /// LD (BC),A; LD (DE),A; LD (nn),A
    StoreA(Address),
    /// LD A,I; LD A,R
    LoadASpecial(Special),
    /// LD I,A; LD R,A
    StoreASpecial(Special),
    /// LD dd,nn; LD IX,nn; LD IY,nn
    LoadPair(Register16, u16),
    /// LD HL,(nn); LD dd,(nn); LD IX,(nn); LD IY,(nn)
    LoadPairDirect(Direct, u16),
    /// LD (nn),HL; LD (nn),dd; LD (nn),IX; LD (nn),IY
    StorePairDirect(Direct, u16),
    /// LD SP,HL; LD SP,IX; LD SP,IY
    LoadSp(Pointer),
    /// PUSH qq; PUSH IX; PUSH IY
    Push(StackPair),
    /// POP qq; POP IX; POP IY
    Pop(StackPair),
    /// EX DE,HL
    ExchangeDeHl,
    /// EX AF,AF'
    ExchangeAf,
    /// EXX
    ExchangeSets,
    /// EX (SP),HL; EX (SP),IX; EX (SP),IY
    ExchangeStack(Pointer),
    /// LDI, LDD, LDIR, LDDR
    BlockLoad(BlockKind),
    /// CPI, CPD, CPIR, CPDR
    BlockCompare(BlockKind),
    /// INI, IND, INIR, INDR
    BlockInput(BlockKind),
    /// OUTI, OUTD, OTIR, OTDR
    BlockOutput(BlockKind),
    /// ADD A,s; ADC A,s; SUB s; SBC A,s; AND s; XOR s; OR s; CP s
    Arithmetic(ArithmeticKind, Operand),
    /// INC r; INC (HL); INC (IX+d); INC (IY+d)
    Increment(Place),
    /// DEC r; DEC (HL); DEC (IX+d); DEC (IY+d)
    Decrement(Place),
    /// DAA
    DecimalAdjust,
    /// CPL
    Complement,
    /// NEG
    Negate,
    /// CCF
    ComplementCarry,
    /// SCF
    SetCarry,
    /// ADD HL,ss
    AddHl(OperandPair),
    /// ADC HL,ss
    AdcHl(OperandPair),
    /// SBC HL,ss
    SbcHl(OperandPair),
    /// ADD IX,pp; ADD IY,rr
    AddIndex(Index, IndexPair),
    /// INC ss; INC IX; INC IY
    IncrementPair(Register16),
    /// DEC ss; DEC IX; DEC IY
    DecrementPair(Register16),
    /// RLCA, RRCA, RLA, RRA
    RotateA(AccumulatorRotate),
    /// RLC m, RRC m, RL m, RR m, SLA m, SRA m, SRL m
    Shift(ShiftKind, Place),
    /// RLD
    RotateDigitsLeft,
    /// RRD
    RotateDigitsRight,
    /// BIT b,m
    TestBit(Bit, Place),
    /// SET b,m
    SetBit(Bit, Place),
    /// RES b,m
    ResetBit(Bit, Place),
    /// JP nn
    Jump(u16),
    /// JP cc,nn
    JumpIf(Condition, u16),
    /// JR e
    JumpRelative(u8),
    /// JR C,e; JR NC,e; JR Z,e; JR NZ,e
    JumpRelativeIf(ShortCondition, u8),
    /// JP (HL); JP (IX); JP (IY)
    JumpTo(Pointer),
    /// DJNZ e
    DecrementJump(u8),
    /// CALL nn
    Call(u16),
    /// CALL cc,nn
    CallIf(Condition, u16),
    /// RST p
    Restart(RestartAddress),
    /// RET
    Return,
    /// RET cc
    ReturnIf(Condition),
    /// RETI
    ReturnFromInterrupt,
    /// RETN
    ReturnFromNonMaskable,
    /// IN A,(n)
    InputImmediate(u8),
    /// IN r,(C)
    InputRegister(Register8),
    /// OUT (n),A
    OutputImmediate(u8),
    /// OUT (C),r
    OutputRegister(Register8),
}
