// The lengths of spellings, and the law that spellings are unique.
ghost use Rattle.std.specs.Prelude.{◌≡◌, ◌≤◌, ℕ, List, [], ◌++◌, length};
ghost use Rattle.z80_decode.specs.declared.instr.Instr.{Instr};
ghost use Rattle.z80_decode.specs.Spelling.{spelling, at, at_behind_cb, spelled_at_memory, at_pair, at_direct};

use crate::instr::Instr;
use crate::operands::{Address, Direct, Memory, Operand, Place, Pointer, Register16, StackPair};

/// A law: no two instructions have the same spelling, and no spelling begins another. A call does nothing.
pub fn one_spelling()
    ensures alike { (i j : Instr) → spelling i ≡ spelling j → i ≡ j }
    ensures no_beginning { (i j : Instr) (rest : List ℕ) → spelling i ++ rest ≡ spelling j
        → rest ≡ [] }
{}

impl Memory {
    fn length(self) -> u8
        ensures exact { (op : ℕ) → result ≡ length (spelled_at_memory self op) }
        ensures short { (1 ≤ result) × (result ≤ 3) }
    {
        match self {
            Memory::AtHl => 1,
            Memory::At(_, _) => 3,
        }
    }
}

impl Place {
    fn length(self) -> u8
        ensures exact { (op : ℕ → ℕ) → result ≡ length (at self op) }
        ensures short { (1 ≤ result) × (result ≤ 3) }
    {
        match self {
            Place::Register(_) => 1,
            Place::Memory(memory) => memory.length(),
        }
    }

    fn length_behind_cb(self) -> u8
        ensures exact { (op : ℕ → ℕ) → result ≡ length (at_behind_cb self op) }
        ensures short { (1 ≤ result) × (result ≤ 4) }
    {
        match self {
            Place::Register(_) | Place::Memory(Memory::AtHl) => 2,
            Place::Memory(Memory::At(_, _)) => 4,
        }
    }
}

impl Register16 {
    fn length(self) -> u8
        ensures exact { (op : ℕ → ℕ) → result ≡ length (at_pair self op) }
        ensures short { (1 ≤ result) × (result ≤ 2) }
    {
        match self {
            Register16::Bc | Register16::De | Register16::Hl | Register16::Sp => 1,
            Register16::Ix | Register16::Iy => 2,
        }
    }
}

impl Direct {
    fn length(self) -> u8
        ensures exact { (short : ℕ) (long : ℕ → ℕ) → result ≡ length (at_direct self short long) }
        ensures short { (1 ≤ result) × (result ≤ 2) }
    {
        match self {
            Direct::ShortHl => 1,
            Direct::Pair(_) => 2,
        }
    }
}

impl Instr {
    /// The length of the spelling in bytes, 1 to 4.
    pub(crate) fn length(&self) -> u8
        ensures exact { result ≡ length (spelling self.now) }
        ensures short { (1 ≤ result) × (result ≤ 4) }
    {
        match self {
            Instr::Nop | Instr::Halt | Instr::DisableInterrupts | Instr::EnableInterrupts => 1,
            Instr::LoadA(Address::Bc | Address::De) | Instr::StoreA(Address::Bc | Address::De) => 1,
            Instr::ExchangeDeHl | Instr::ExchangeAf | Instr::ExchangeSets => 1,
            Instr::DecimalAdjust | Instr::Complement => 1,
            Instr::ComplementCarry | Instr::SetCarry => 1,
            Instr::AddHl(_) | Instr::RotateA(_) => 1,
            Instr::Restart(_) | Instr::Return | Instr::ReturnIf(_) => 1,

            Instr::InterruptMode(_) | Instr::Negate => 2,
            Instr::LoadASpecial(_) | Instr::StoreASpecial(_) => 2,
            Instr::BlockLoad(_) | Instr::BlockCompare(_) => 2,
            Instr::BlockInput(_) | Instr::BlockOutput(_) => 2,
            Instr::Arithmetic(_, Operand::Immediate(_)) => 2,
            Instr::AdcHl(_) | Instr::SbcHl(_) | Instr::AddIndex(_, _) => 2,
            Instr::RotateDigitsLeft | Instr::RotateDigitsRight => 2,
            Instr::JumpRelative(_) | Instr::JumpRelativeIf(_, _) | Instr::DecrementJump(_) => 2,
            Instr::ReturnFromInterrupt | Instr::ReturnFromNonMaskable => 2,
            Instr::InputImmediate(_) | Instr::InputRegister(_) => 2,
            Instr::OutputImmediate(_) | Instr::OutputRegister(_) => 2,

            Instr::LoadA(Address::Direct(_)) | Instr::StoreA(Address::Direct(_)) => 3,
            Instr::Jump(_) | Instr::JumpIf(_, _) | Instr::Call(_) | Instr::CallIf(_, _) => 3,

            Instr::LoadRegister(_, place)
            | Instr::Arithmetic(_, Operand::Place(place))
            | Instr::Increment(place)
            | Instr::Decrement(place) => place.length(),
            Instr::LoadImmediate(place, _) => place.length() + 1,
            Instr::Store(memory, _) => memory.length(),
            Instr::Shift(_, place)
            | Instr::TestBit(_, place)
            | Instr::SetBit(_, place)
            | Instr::ResetBit(_, place) => place.length_behind_cb(),
            Instr::LoadPair(pair, _) => pair.length() + 2,
            Instr::IncrementPair(pair) | Instr::DecrementPair(pair) => pair.length(),
            Instr::LoadPairDirect(direct, _) | Instr::StorePairDirect(direct, _) => {
                direct.length() + 2
            }
            Instr::LoadSp(Pointer::Hl) | Instr::ExchangeStack(Pointer::Hl) => 1,
            Instr::LoadSp(_) | Instr::ExchangeStack(_) => 2,
            Instr::JumpTo(Pointer::Hl) => 1,
            Instr::JumpTo(_) => 2,
            Instr::Push(StackPair::Ix | StackPair::Iy)
            | Instr::Pop(StackPair::Ix | StackPair::Iy) => 2,
            Instr::Push(_) | Instr::Pop(_) => 1,
        }
    }
}
