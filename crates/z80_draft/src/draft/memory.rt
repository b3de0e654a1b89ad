// Moves that access memory and the stack.

ghost use Rattle.std.specs.Prelude.{◌≡◌, ◌≤◌, length};
ghost use Rattle.z80_draft.specs.Draft.{displaced, read_byte, read_word, word_read, written, word_written, word_pushed, popped, exchanged, stack_read, stack_written};

use crate::access::{StackAccess, Write};
use crate::bus::Bus;
use crate::draft::Draft;
use z80_alu::Word;
use z80_moves::{ByteRegister, WordRegister};

impl Draft {
    pub(crate) fn read_byte<B: Bus>(&mut self, bus: &B, register: ByteRegister, at: u16)
        ensures { self.new ≡ read_byte (B.outside bus.now) register at self.old }
    {
        let byte = bus.read(self.has_read, at);
        self.set_byte(register, byte);
        self.has_read = true;
    }

    fn word_at<B: Bus>(&self, bus: &B, at: u16) -> u16
        ensures { result ≡ word_read (B.outside bus.now) self.now.has_read at }
    {
        let low = bus.read(self.has_read, at);
        let high = bus.read(true, at.wrapping_add(1));
        Word { high, low }.value()
    }

    pub(crate) fn read_word<B: Bus>(&mut self, bus: &B, register: WordRegister, at: u16)
        ensures { self.new ≡ read_word (B.outside bus.now) register at self.old }
    {
        let word = self.word_at(bus, at);
        self.set_word(register, word);
        self.has_read = true;
    }

    pub(crate) fn write_byte(&mut self, at: u16, byte: u8)
        requires { length self.old.writes ≤ 1 }
        ensures { self.new ≡ written at byte self.old }
    {
        self.writes.push(Write { at, byte });
    }

    pub(crate) fn write_word(&mut self, at: u16, word: u16)
        requires { length self.old.writes ≤ 0 }
        ensures { self.new ≡ word_written at word self.old }
    {
        let Word { high, low } = Word::of(word);
        self.write_byte(at, low);
        self.write_byte(at.wrapping_add(1), high);
    }

    fn write_stack(&mut self, at: u16, byte: u8)
        requires { length self.old.stack ≤ 1 }
        ensures { self.new ≡ stack_written at byte self.old }
    {
        self.stack.push(StackAccess {
            at,
            written: Some(byte),
        });
    }

    fn read_stack(&mut self, at: u16)
        requires { length self.old.stack ≤ 1 }
        ensures { self.new ≡ stack_read at self.old }
    {
        self.stack.push(StackAccess { at, written: None });
    }

    pub(crate) fn push(&mut self, word: u16)
        requires { length self.old.stack ≤ 0 }
        ensures { self.new ≡ word_pushed word self.old }
    {
        let Word { high, low } = Word::of(word);
        let sp = self.regs.sp;
        self.write_stack(sp.wrapping_sub(1), high);
        self.write_stack(sp.wrapping_sub(2), low);
        self.regs.sp = sp.wrapping_sub(2);
    }

    pub(crate) fn pop<B: Bus>(&mut self, bus: &B, register: WordRegister)
        requires { length self.old.stack ≤ 0 }
        ensures { self.new ≡ popped (B.outside bus.now) register self.old }
    {
        let sp = self.regs.sp;
        self.read_stack(sp);
        self.read_stack(sp.wrapping_add(1));
        self.regs.sp = sp.wrapping_add(2);
        self.read_word(bus, register, sp);
    }

    pub(crate) fn exchange_stack<B: Bus>(&mut self, bus: &B, register: WordRegister)
        requires { length self.old.stack ≤ 0 }
        ensures { self.new ≡ exchanged (B.outside bus.now) register self.old }
    {
        let sp = self.regs.sp;
        let Word { high, low } = Word::of(self.word(register));
        self.write_stack(sp, low);
        self.write_stack(sp.wrapping_add(1), high);
        self.read_word(bus, register, sp);
    }
}

/// A word plus a signed displacement, -128 to 127, given as its byte; modulo 65,536.
pub fn displace(word: u16, displacement: u8) -> u16
    ensures { result ≡ displaced word displacement }
{
    let low = word.wrapping_add(u16::from(displacement));
    if displacement < 128 {
        low
    } else {
        low.wrapping_sub(256)
    }
}
