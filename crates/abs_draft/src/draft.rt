// The abstract draft: what is known between the moves of an instruction, with reads and writes of its registers.
ghost use Rattle.std.specs.Prelude.{◌≡◌, ◌≤◌, ◌<◌, ◌-◌, length};
ghost use Rattle.z80_decode.specs.Spelling.{spelling};
ghost use Rattle.z80_decode.specs.declared.instr.Instr.{Instr as Instruction};
ghost use Rattle.abs_draft.specs.Outcomes.{known_before};
ghost use Rattle.abs_draft.specs.AbsDraft.{byte_change, word_change, no_parts, known_parts_of, with_parts, with_byte_change, slot_parts, with_slot_parts, raised_change, lowered, known_byte, known_pair, known_word, set_byte, put_known_flags, put_known_byte, set_pair, put_known_pair, put_known_word, without_last, last_slot, put_last, push_pair, pop_pair, one_more_write, write_data, write_byte};

use crate::data_write::DataWrite;
use crate::ground::{Ground, mode_after};
use abs_state::{AbsState, FlagFact};
use arrayvec::ArrayVec;
use intervals::{ByteRange, Pair, RegPair, WordRange};
use loop_bounds::{Change, Effect, Part, SlotChange, SlotNumber, Variable};
use stack_shape::Slot;
use z80_decode::Register8;
use z80_moves::{ByteRegister, WordRegister};

/// The abstract state between two moves of an instruction.
#[derive(Drop)]
pub struct AbsDraft {
    pub state: AbsState,
    /// The number of cells armed before the instruction; reads use only these.
    pub readable: u16,
    /// The byte in work.
    pub operand: ByteRange,
    /// The pointer: the address that the instruction works at.
    pub pointer: WordRange,
    /// The program counter.
    pub pc: WordRange,
    /// How each variable comes from the variables before the instruction.
    pub effect: Effect,
    /// The data writes so far, one for each byte, in order.
    pub writes: ArrayVec<DataWrite, 2>,
}

/// The changes of a word and of its two bytes.
#[derive(Clone, Copy)]
pub(crate) struct WordChanges {
    pub word: Change,
    pub high: Change,
    pub low: Change,
}

impl WordChanges {
    /// All unknown.
    pub(crate) fn none() -> WordChanges
        ensures { result ≡ no_parts }
    {
        WordChanges {
            word: Change::Unknown,
            high: Change::Unknown,
            low: Change::Unknown,
        }
    }
}

fn put_parts(effect: &mut Effect, register: WordRegister, parts: WordChanges)
    ensures { effect.new ≡ with_parts register parts effect.old }
{
    match register {
        WordRegister::Af => effect.a = parts.high,
        WordRegister::Bc => {
            effect.bc = parts.word;
            effect.b = parts.high;
            effect.c = parts.low;
        }
        WordRegister::De => {
            effect.de = parts.word;
            effect.d = parts.high;
            effect.e = parts.low;
        }
        WordRegister::Hl => {
            effect.hl = parts.word;
            effect.h = parts.high;
            effect.l = parts.low;
        }
        WordRegister::Ix => effect.ix = parts.word,
        WordRegister::Iy => effect.iy = parts.word,
        WordRegister::Sp | WordRegister::Pc | WordRegister::Pointer => {}
    }
}

fn put_byte_change(effect: &mut Effect, register: Register8, change: Change)
    ensures { effect.new ≡ with_byte_change register change effect.old }
{
    match register {
        Register8::A => effect.a = change,
        Register8::B => {
            effect.b = change;
            effect.bc = Change::Unknown;
        }
        Register8::C => {
            effect.c = change;
            effect.bc = Change::Unknown;
        }
        Register8::D => {
            effect.d = change;
            effect.de = Change::Unknown;
        }
        Register8::E => {
            effect.e = change;
            effect.de = Change::Unknown;
        }
        Register8::H => {
            effect.h = change;
            effect.hl = Change::Unknown;
        }
        Register8::L => {
            effect.l = change;
            effect.hl = Change::Unknown;
        }
    }
}

fn slot_parts(number: SlotNumber, effect: &Effect) -> WordChanges
    ensures { result ≡ slot_parts number effect.now }
{
    WordChanges {
        word: effect.change(Variable::Slot(number, Part::Word)),
        high: effect.change(Variable::Slot(number, Part::High)),
        low: effect.change(Variable::Slot(number, Part::Low)),
    }
}

fn put_slot_parts(effect: &mut Effect, number: SlotNumber, parts: WordChanges)
    ensures { effect.new ≡ with_slot_parts number parts effect.old }
{
    effect.slot = Some(SlotChange {
        number,
        word: parts.word,
        high: parts.high,
        low: parts.low,
    });
}

/// The change of a byte that is increased by 1; unknown if it may wrap.
pub(crate) fn raised_byte(range: ByteRange, change: Change) -> Change
    ensures { result ≡ raised_change range 255 change }
{
    match change {
        Change::Old(variable) if range.high() < 255 => Change::Raised(variable),
        _ => Change::Unknown,
    }
}

/// The change of a word that is increased by 1; unknown if it may wrap.
pub(crate) fn raised_word(range: WordRange, change: Change) -> Change
    ensures { result ≡ raised_change range 65535 change }
{
    match change {
        Change::Old(variable) if range.high() < 65535 => Change::Raised(variable),
        _ => Change::Unknown,
    }
}

/// The change of a byte that is decreased by 1; unknown if it may wrap.
pub(crate) fn lowered_byte(range: ByteRange, change: Change) -> Change
    ensures { result ≡ lowered range change }
{
    match change {
        Change::Old(variable) if range.low() > 0 => Change::Lowered(variable),
        _ => Change::Unknown,
    }
}

/// The change of a word that is decreased by 1; unknown if it may wrap.
pub(crate) fn lowered_word(range: WordRange, change: Change) -> Change
    ensures { result ≡ lowered range change }
{
    match change {
        Change::Old(variable) if range.low() > 0 => Change::Lowered(variable),
        _ => Change::Unknown,
    }
}

impl AbsDraft {
    /// What is known before the first move of an instruction of `len` bytes, 1 to 4, at `address`. PC is after it.
    pub fn before(address: u16, len: u8, state: &AbsState) -> AbsDraft
        ensures { (instr : Instruction) → len ≡ length (spelling instr)
            → result ≡ known_before address instr state.now }
    {
        AbsDraft {
            state: state.copied(),
            readable: state.armed,
            operand: ByteRange::single(0),
            pointer: WordRange::single(0),
            pc: WordRange::single(address.wrapping_add(u16::from(len))),
            effect: Effect::unchanged(),
            writes: ArrayVec::new(),
        }
    }

    pub(crate) fn byte(&self, register: ByteRegister) -> ByteRange
        ensures { result ≡ known_byte register self.now }
    {
        let pairs = &self.state.pairs;
        match register {
            ByteRegister::A => pairs.af.high,
            ByteRegister::F => pairs.af.low,
            ByteRegister::B => pairs.bc.high,
            ByteRegister::C => pairs.bc.low,
            ByteRegister::D => pairs.de.high,
            ByteRegister::E => pairs.de.low,
            ByteRegister::H => pairs.hl.high,
            ByteRegister::L => pairs.hl.low,
            ByteRegister::I => ByteRange::full(),
            ByteRegister::Operand => self.operand,
        }
    }

    pub(crate) fn byte_change(&self, register: ByteRegister) -> Change
        ensures { result ≡ byte_change register self.now.effect }
    {
        match register {
            ByteRegister::A => self.effect.a,
            ByteRegister::B => self.effect.b,
            ByteRegister::C => self.effect.c,
            ByteRegister::D => self.effect.d,
            ByteRegister::E => self.effect.e,
            ByteRegister::H => self.effect.h,
            ByteRegister::L => self.effect.l,
            ByteRegister::F | ByteRegister::I | ByteRegister::Operand => Change::Unknown,
        }
    }

    /// What is known of a word register.
    pub(crate) fn pair(&self, register: WordRegister) -> Pair
        ensures { result ≡ known_pair register self.now }
    {
        let pairs = &self.state.pairs;
        match register {
            WordRegister::Af => pairs.af,
            WordRegister::Bc => pairs.bc,
            WordRegister::De => pairs.de,
            WordRegister::Hl => pairs.hl,
            WordRegister::Ix => pairs.ix,
            WordRegister::Iy => pairs.iy,
            WordRegister::Sp => Pair::full(),
            WordRegister::Pc => Pair::of_word(self.pc),
            WordRegister::Pointer => Pair::of_word(self.pointer),
        }
    }

    pub(crate) fn word(&self, register: WordRegister) -> WordRange
        ensures { result ≡ known_word register self.now }
    {
        self.pair(register).word
    }

    pub(crate) fn word_change(&self, register: WordRegister) -> Change
        ensures { result ≡ word_change register self.now.effect }
    {
        match register {
            WordRegister::Bc => self.effect.bc,
            WordRegister::De => self.effect.de,
            WordRegister::Hl => self.effect.hl,
            WordRegister::Ix => self.effect.ix,
            WordRegister::Iy => self.effect.iy,
            _ => Change::Unknown,
        }
    }

    pub(crate) fn parts(&self, register: WordRegister) -> WordChanges
        ensures { result ≡ known_parts_of register self.now.effect }
    {
        match register {
            WordRegister::Af => WordChanges {
                high: self.effect.a,
                ..WordChanges::none()
            },
            WordRegister::Bc => WordChanges {
                word: self.effect.bc,
                high: self.effect.b,
                low: self.effect.c,
            },
            WordRegister::De => WordChanges {
                word: self.effect.de,
                high: self.effect.d,
                low: self.effect.e,
            },
            WordRegister::Hl => WordChanges {
                word: self.effect.hl,
                high: self.effect.h,
                low: self.effect.l,
            },
            WordRegister::Ix => WordChanges {
                word: self.effect.ix,
                ..WordChanges::none()
            },
            WordRegister::Iy => WordChanges {
                word: self.effect.iy,
                ..WordChanges::none()
            },
            WordRegister::Sp | WordRegister::Pc | WordRegister::Pointer => WordChanges::none(),
        }
    }

    fn set_byte(&mut self, register: Register8, range: ByteRange, change: Change)
        ensures { self.new ≡ set_byte register range change self.old }
    {
        self.state.put_byte(register, range);
        put_byte_change(&mut self.effect, register, change);
    }

    /// Changes the flags.
    pub(crate) fn put_flags(&mut self, fact: Option<FlagFact>)
        ensures { self.new ≡ put_known_flags fact self.old }
    {
        self.state.put_flags(fact);
    }

    pub(crate) fn put_byte(&mut self, register: ByteRegister, range: ByteRange, change: Change)
        ensures { self.new ≡ put_known_byte register range change self.old }
    {
        match register {
            ByteRegister::A => self.set_byte(Register8::A, range, change),
            ByteRegister::F => self.put_flags(None),
            ByteRegister::B => self.set_byte(Register8::B, range, change),
            ByteRegister::C => self.set_byte(Register8::C, range, change),
            ByteRegister::D => self.set_byte(Register8::D, range, change),
            ByteRegister::E => self.set_byte(Register8::E, range, change),
            ByteRegister::H => self.set_byte(Register8::H, range, change),
            ByteRegister::L => self.set_byte(Register8::L, range, change),
            ByteRegister::I => {}
            ByteRegister::Operand => self.operand = range,
        }
    }

    fn set_pair(&mut self, of: RegPair, register: WordRegister, pair: Pair, parts: WordChanges)
        ensures { self.new ≡ set_pair of register pair parts self.old }
    {
        self.state.put_pair(of, pair);
        put_parts(&mut self.effect, register, parts);
    }

    /// Replaces a word register by a pair.
    pub(crate) fn put_pair(&mut self, register: WordRegister, pair: Pair, parts: WordChanges)
        ensures { self.new ≡ put_known_pair register pair parts self.old }
    {
        match register {
            WordRegister::Af => self.set_pair(RegPair::Af, register, pair, parts),
            WordRegister::Bc => self.set_pair(RegPair::Bc, register, pair, parts),
            WordRegister::De => self.set_pair(RegPair::De, register, pair, parts),
            WordRegister::Hl => self.set_pair(RegPair::Hl, register, pair, parts),
            WordRegister::Ix => self.set_pair(RegPair::Ix, register, pair, parts),
            WordRegister::Iy => self.set_pair(RegPair::Iy, register, pair, parts),
            WordRegister::Sp => {}
            WordRegister::Pc => self.pc = pair.word,
            WordRegister::Pointer => self.pointer = pair.word,
        }
    }

    /// Writes a word to a word register.
    pub(crate) fn put_word(&mut self, register: WordRegister, range: WordRange, change: Change)
        ensures { self.new ≡ put_known_word register range change self.old }
    {
        let parts = WordChanges {
            word: change,
            ..WordChanges::none()
        };
        self.put_pair(register, Pair::of_word(range), parts);
    }

    /// The number of the last slot; 0 if there is none.
    fn last_number(&self) -> u8
        ensures value { result ≡ length self.now.state.shape - 1 }
        ensures within { result < 64 }
    {
        (self.state.shape.len() as u8).saturating_sub(1)
    }

    /// What is known of the last slot; a full pair if there is none.
    pub(crate) fn last_slot(&self) -> Pair
        ensures { result ≡ (last_slot self.now.state.shape).pair }
    {
        match self.state.shape.top() {
            Some(slot) => slot.pair,
            None => Pair::full(),
        }
    }

    /// The changes of the last slot.
    pub(crate) fn last_parts(&self) -> WordChanges
        ensures { result ≡ slot_parts (length self.now.state.shape - 1) self.now.effect }
    {
        match SlotNumber::new(self.last_number()) {
            Some(number) => slot_parts(number, &self.effect),
            None => WordChanges::none(),
        }
    }

    /// Replaces the last slot, if there is one.
    pub(crate) fn put_last(&mut self, pair: Pair, parts: WordChanges)
        ensures { self.new ≡ put_last pair parts self.old }
    {
        let place = self.last_number();
        let _before = self.state.shape.replace(usize::from(place), Slot { pair });
        if let Some(number) = SlotNumber::new(place) {
            put_slot_parts(&mut self.effect, number, parts);
        }
    }

    /// Pushes a pair, if there is room for it.
    pub(crate) fn push_pair(&mut self, pair: Pair, parts: WordChanges)
        ensures { self.new ≡ push_pair pair parts self.old }
    {
        let Some(number) = SlotNumber::new(self.state.shape.len() as u8) else {
            return;
        };
        let _pushed = self.state.shape.push(Slot { pair });
        put_slot_parts(&mut self.effect, number, parts);
    }

    /// Pops the last slot.
    pub(crate) fn pop_pair(&mut self)
        ensures { self.new ≡ pop_pair self.old }
    {
        let _popped = self.state.shape.pop();
    }

    /// Records a data write of one byte.
    pub(crate) fn write(&mut self, ground: &Ground, write: DataWrite)
        requires { length ground.now.cells ≤ 256 }
        ensures { self.new ≡ write_data ground.now write self.old }
    {
        let armed = ground.armed_after(&write, self.state.armed);
        let mode = mode_after(ground.may_enable(&write), self.state.mode);
        self.state.armed = armed;
        self.state.mode = mode;
        if self.writes.len() < 2 {
            self.writes.push(write);
        }
    }
}
