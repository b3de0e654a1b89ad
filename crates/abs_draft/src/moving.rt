// Moves on the abstract draft.
ghost use Rattle.std.specs.Prelude.{◌≡◌, ◌≤◌, length};
ghost use Rattle.abs_draft.specs.AfterMove.{take_slot, exchanged_stack, exchanged_de_hl, exchanged_af, exchanged_sets, operated, changed_byte, known_read_word, write_word, pushed_known, incremented, decremented, counted_down, incremented_word, decremented_word, after_move};
ghost use Rattle.abs_draft.specs.AbsDraft.{write_byte};
ghost use Rattle.abs_draft.specs.Outcomes.{after_moves};

use crate::data_write::DataWrite;
use crate::draft::{AbsDraft, WordChanges, lowered_byte, lowered_word, raised_byte, raised_word};
use crate::ground::Ground;
use crate::results::{compared, rotated, shifted, zero_of};
use abs_state::FlagFact;
use intervals::{ByteRange, Pair, WordRange};
use loop_bounds::Change;
use std::mem::swap;
use z80_decode::{ArithmeticKind, Register8};
use z80_moves::{ByteRegister, Move, WordRegister};

impl AbsDraft {
    /// Sets a word register to what is known of the last slot.
    fn take_slot(&mut self, register: WordRegister)
        ensures { self.new ≡ take_slot register self.old }
    {
        let (pair, parts) = (self.last_slot(), self.last_parts());
        self.put_pair(register, pair, parts);
    }

    fn exchange_stack(&mut self, register: WordRegister)
        ensures { self.new ≡ exchanged_stack register self.old }
    {
        let (pair, parts) = (self.pair(register), self.parts(register));
        self.take_slot(register);
        self.put_last(pair, parts);
    }

    fn exchange_de_hl(&mut self)
        ensures { self.new ≡ exchanged_de_hl self.old }
    {
        self.state.exchange_de_hl();
        let effect = &mut self.effect;
        swap(&mut effect.d, &mut effect.h);
        swap(&mut effect.e, &mut effect.l);
        swap(&mut effect.de, &mut effect.hl);
    }

    fn exchange_af(&mut self)
        ensures { self.new ≡ exchanged_af self.old }
    {
        self.state.exchange_af();
        self.effect.a = Change::Unknown;
    }

    fn exchange_sets(&mut self)
        ensures { self.new ≡ exchanged_sets self.old }
    {
        self.state.exchange_sets();
        let effect = &mut self.effect;
        effect.b = Change::Unknown;
        effect.c = Change::Unknown;
        effect.bc = Change::Unknown;
        effect.d = Change::Unknown;
        effect.e = Change::Unknown;
        effect.de = Change::Unknown;
        effect.h = Change::Unknown;
        effect.l = Change::Unknown;
        effect.hl = Change::Unknown;
    }

    fn operate(&mut self, kind: ArithmeticKind, register: ByteRegister)
        ensures { self.new ≡ operated kind register self.old }
    {
        if let ArithmeticKind::Compare = kind {
            self.put_flags(compared(self.byte(register)));
        } else {
            let range = self.arithmetic(kind, register);
            self.put_byte(ByteRegister::A, range, Change::Unknown);
            self.put_flags(Some(FlagFact::Zero(Register8::A)));
        }
    }

    /// Sets a byte to a range and the flags to unknown.
    fn change_byte(&mut self, register: ByteRegister, range: ByteRange)
        ensures { self.new ≡ changed_byte register range self.old }
    {
        self.put_byte(register, range, Change::Unknown);
        self.put_flags(None);
    }

    fn read_word(&mut self, ground: &Ground, register: WordRegister, at: WordRange)
        ensures { self.new ≡ known_read_word ground.now register at self.old }
    {
        let low = ground.read(self.readable, at);
        let high = ground.read(self.readable, at.increment());
        self.put_pair(register, Pair::of_bytes(high, low), WordChanges::none());
    }

    fn write_byte(&mut self, ground: &Ground, at: WordRange, byte: ByteRange)
        requires { length ground.now.cells ≤ 256 }
        ensures { self.new ≡ write_byte ground.now at byte self.old }
    {
        self.write(ground, DataWrite { at, byte });
    }

    fn write_word(&mut self, ground: &Ground, at: WordRange, register: WordRegister)
        requires { length ground.now.cells ≤ 256 }
        ensures { self.new ≡ write_word ground.now at register self.old }
    {
        let pair = self.pair(register);
        self.write_byte(ground, at, pair.low);
        self.write_byte(ground, at.increment(), pair.high);
    }

    /// Pushes a word register. The push of a call that is not inline leaves the stack as it was.
    fn push(&mut self, inline: bool, register: WordRegister)
        ensures { self.new ≡ pushed_known inline register self.old }
    {
        match register {
            WordRegister::Pc if !inline => {}
            register => self.push_pair(self.pair(register), self.parts(register)),
        }
    }

    /// The transfer function of one move.
    #[tactic(auto, unfolding(crate::specs::AfterMove::after_move))]
    pub(crate) fn make(&mut self, ground: &Ground, inline: bool, step: Move)
        requires { length ground.now.cells ≤ 256 }
        ensures { self.new ≡ after_move ground.now inline step self.old }
    {
        match step {
            Move::SetByte(register, byte) => self.put_byte(
                register,
                ByteRange::single(byte),
                Change::Unknown,
            ),
            Move::SetWord(register, word) => self.put_word(
                register,
                WordRange::single(word),
                Change::Unknown,
            ),
            Move::CopyByte(to, from) => self.put_byte(to, self.byte(from), self.byte_change(from)),
            Move::CopyWord(to, from) => self.put_word(to, self.word(from), self.word_change(from)),
            Move::Displace(register, by) => self.put_word(
                register,
                self.word(register).displacement(by),
                Change::Unknown,
            ),
            Move::ReadByte(register, at) => self.put_byte(
                register,
                ground.read(self.readable, self.word(at)),
                Change::Unknown,
            ),
            Move::WriteByte(at, register) => {
                self.write_byte(ground, self.word(at), self.byte(register))
            }
            Move::ReadWord(register, at) => self.read_word(ground, register, self.word(at)),
            Move::WriteWord(at, register) => self.write_word(ground, self.word(at), register),
            Move::Push(register) => self.push(inline, register),
            Move::Pop(register) => {
                self.take_slot(register);
                self.pop_pair();
            }
            Move::ExchangeStack(register) => self.exchange_stack(register),
            Move::ExchangeDeHl => self.exchange_de_hl(),
            Move::ExchangeAf => self.exchange_af(),
            Move::ExchangeSets => self.exchange_sets(),
            Move::Arithmetic(kind, register) => self.operate(kind, register),
            Move::Increment(register) => self.increment(register),
            Move::Decrement(register) => self.decrement(register),
            Move::CountDown(register) => self.count_down(register),
            Move::Shift(kind, register) => {
                self.change_byte(register, shifted(kind, self.byte(register)))
            }
            Move::RotateA(kind) => {
                self.change_byte(ByteRegister::A, rotated(kind, self.byte(ByteRegister::A)))
            }
            Move::Complement => {
                self.change_byte(ByteRegister::A, self.byte(ByteRegister::A).complement())
            }
            Move::Negate => {
                self.put_byte(
                    ByteRegister::A,
                    self.byte(ByteRegister::A).negation(),
                    Change::Unknown,
                );
                self.put_flags(Some(FlagFact::Zero(Register8::A)));
            }
            Move::AddWord(to, from) => {
                self.put_word(to, self.word(to).sum(self.word(from)), Change::Unknown);
                self.put_flags(None);
            }
            Move::AddCarryWord(to, from) => {
                self.put_word(
                    to,
                    self.word(to).sum_with_carry(self.word(from)),
                    Change::Unknown,
                );
                self.put_flags(None);
            }
            Move::SubtractCarryWord(to, from) => {
                self.put_word(
                    to,
                    self.word(to).difference_with_carry(self.word(from)),
                    Change::Unknown,
                );
                self.put_flags(None);
            }
            Move::IncrementWord(register) => self.increment_word(register),
            Move::DecrementWord(register) => self.decrement_word(register),
            Move::SetBit(bit, register) => self.put_byte(
                register,
                self.byte(register).with_bit_set(bit as u8),
                Change::Unknown,
            ),
            Move::ResetBit(bit, register) => self.put_byte(
                register,
                self.byte(register).with_bit_reset(bit as u8),
                Change::Unknown,
            ),
            Move::DecimalAdjust | Move::LoadASpecial(_) => {
                self.change_byte(ByteRegister::A, ByteRange::full())
            }
            Move::RotateDigitsLeft | Move::RotateDigitsRight => {
                self.change_byte(ByteRegister::A, ByteRange::full());
                self.put_byte(ByteRegister::Operand, ByteRange::full(), Change::Unknown);
            }
            Move::SetCarry
            | Move::ComplementCarry
            | Move::TestBit(_, _)
            | Move::BlockLoadFlags
            | Move::BlockCompareFlags => self.put_flags(None),
            Move::SetInterrupts(_)
            | Move::ClearIff1
            | Move::RestoreIff1
            | Move::Halt
            | Move::OnlyIf(_) => {}
        }
    }

    fn increment(&mut self, register: ByteRegister)
        ensures { self.new ≡ incremented register self.old }
    {
        let range = self.byte(register);
        self.put_byte(
            register,
            range.increment(),
            raised_byte(range, self.byte_change(register)),
        );
        self.put_flags(zero_of(register));
    }

    fn decrement(&mut self, register: ByteRegister)
        ensures { self.new ≡ decremented register self.old }
    {
        self.count_down(register);
        self.put_flags(zero_of(register));
    }

    fn count_down(&mut self, register: ByteRegister)
        ensures { self.new ≡ counted_down register self.old }
    {
        let range = self.byte(register);
        self.put_byte(
            register,
            range.decrement(),
            lowered_byte(range, self.byte_change(register)),
        );
    }

    fn increment_word(&mut self, register: WordRegister)
        ensures { self.new ≡ incremented_word register self.old }
    {
        let range = self.word(register);
        self.put_word(
            register,
            range.increment(),
            raised_word(range, self.word_change(register)),
        );
    }

    fn decrement_word(&mut self, register: WordRegister)
        ensures { self.new ≡ decremented_word register self.old }
    {
        let range = self.word(register);
        self.put_word(
            register,
            range.decrement(),
            lowered_word(range, self.word_change(register)),
        );
    }

    /// Makes moves one after another. `inline` says whether a call pushes its return address on this shape.
    #[tactic(auto, unfolding(crate::specs::Outcomes::after_moves))]
    pub fn make_all(&mut self, ground: &Ground, inline: bool, moves: &[Move])
        requires { length ground.now.cells ≤ 256 }
        ensures { self.new ≡ after_moves ground.now inline moves.now self.old }
    {
        for step in moves {
            self.make(ground, inline, *step);
        }
    }
}
