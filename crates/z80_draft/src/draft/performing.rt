// Lists of moves, and one move.

ghost use Rattle.std.specs.Prelude.{◌≡◌, ◌+◌, ◌≤◌, length};
ghost use Rattle.z80_draft.specs.Draft.{moved, drafted, goes_on};
ghost use Rattle.z80_draft.specs.Room.{writes_by, accesses_by, writes_in, accesses_in};

use crate::bus::Bus;
use crate::draft::Draft;
use crate::draft::memory::displace;
use z80_alu::{ccf, dec16, inc16, scf};
use z80_moves::{Move, Moves};

impl Draft {
    /// Makes moves one after another. The draft must have room for their accesses.
    #[tactic(auto, unfolding(crate::specs::Draft::drafted))]
    pub fn make_all<B: Bus>(&mut self, bus: &B, moves: &Moves)
        requires writes { length self.old.writes + writes_in moves.now ≤ 2 }
        requires stack { length self.old.stack + accesses_in moves.now ≤ 2 }
        ensures { self.new ≡ drafted (B.outside bus.now) moves.now self.old }
    {
        for step in moves.as_slice() {
            self.make(bus, *step);
            if !self.goes_on(*step) {
                return;
            }
        }
    }

    fn goes_on(&self, step: Move) -> bool
        ensures { result ≡ goes_on step self.now }
    {
        match step {
            Move::OnlyIf(_) => self.taken,
            _ => true,
        }
    }

    /// Makes one move. The draft must have room for its accesses.
    #[tactic(auto, unfolding(crate::specs::Draft::moved))]
    pub fn make<B: Bus>(&mut self, bus: &B, step: Move)
        requires writes { length self.old.writes + writes_by step ≤ 2 }
        requires stack { length self.old.stack + accesses_by step ≤ 2 }
        ensures { self.new ≡ moved (B.outside bus.now) step self.old }
    {
        match step {
            Move::SetByte(register, byte) => self.set_byte(register, byte),
            Move::SetWord(register, word) => self.set_word(register, word),
            Move::CopyByte(to, from) => self.set_byte(to, self.byte(from)),
            Move::CopyWord(to, from) => self.set_word(to, self.word(from)),
            Move::Displace(register, by) => self.set_word(
                register,
                displace(self.word(register), by),
            ),
            Move::ReadByte(register, at) => self.read_byte(bus, register, self.word(at)),
            Move::WriteByte(at, register) => self.write_byte(self.word(at), self.byte(register)),
            Move::ReadWord(register, at) => self.read_word(bus, register, self.word(at)),
            Move::WriteWord(at, register) => self.write_word(self.word(at), self.word(register)),
            Move::Push(register) => self.push(self.word(register)),
            Move::Pop(register) => self.pop(bus, register),
            Move::ExchangeStack(register) => self.exchange_stack(bus, register),
            Move::ExchangeDeHl => self.exchange_de_hl(),
            Move::ExchangeAf => self.exchange_af(),
            Move::ExchangeSets => self.exchange_sets(),
            Move::Arithmetic(kind, register) => self.operate(bus, kind, register),
            Move::Increment(register) => self.increment(bus, register),
            Move::Decrement(register) => self.decrement(bus, register),
            Move::CountDown(register) => self.set_byte(
                register,
                self.byte(register).wrapping_sub(1),
            ),
            Move::Shift(kind, register) => self.shift(bus, kind, register),
            Move::RotateA(kind) => self.rotate_a(bus, kind),
            Move::DecimalAdjust => self.decimal_adjust(bus),
            Move::Complement => self.complement(bus),
            Move::Negate => self.negate(bus),
            Move::SetCarry => self.set_flags(scf(self.regs.main.f, bus.noise())),
            Move::ComplementCarry => self.set_flags(ccf(self.regs.main.f, bus.noise())),
            Move::AddWord(to, from) => self.add_word(bus, to, from),
            Move::AddCarryWord(to, from) => self.add_carry_word(bus, to, from),
            Move::SubtractCarryWord(to, from) => self.subtract_carry_word(bus, to, from),
            Move::IncrementWord(register) => self.set_word(register, inc16(self.word(register))),
            Move::DecrementWord(register) => self.set_word(register, dec16(self.word(register))),
            Move::TestBit(bit, register) => self.test_bit(bus, bit, register),
            Move::SetBit(bit, register) => self.set_bit(bit, register),
            Move::ResetBit(bit, register) => self.reset_bit(bit, register),
            Move::RotateDigitsLeft => self.rotate_digits_left(bus),
            Move::RotateDigitsRight => self.rotate_digits_right(bus),
            Move::BlockLoadFlags => self.set_block_load_flags(bus),
            Move::BlockCompareFlags => self.set_block_compare_flags(bus),
            Move::LoadASpecial(special) => self.load_a_special(bus, special),
            Move::SetInterrupts(set) => self.set_interrupts(set),
            Move::ClearIff1 => self.regs.iff1 = false,
            Move::RestoreIff1 => self.regs.iff1 = self.regs.iff2,
            Move::Halt => self.halts = true,
            Move::OnlyIf(test) => self.taken = self.holds(test),
        }
    }
}
