// Drafts: the effects of an event before they reach the board.

ghost use Rattle.std.specs.Prelude.{◌≡◌};
ghost use Rattle.z80_draft.specs.Draft.{draft_on, draft_byte, with_byte, draft_word, with_word, flags_in};

mod direct;
mod memory;
mod operations;
mod performing;

use crate::access::{StackAccess, Write};
use arrayvec::ArrayVec;
pub use memory::displace;
use std::marker::Model;
use z80_alu::{Flags, Regs};
use z80_moves::{ByteRegister, WordRegister};

/// What an event does to the registers, with its writes and stack accesses, before any of it reaches the board.
#[derive(Drop)]
pub struct Draft {
    regs: Regs,
    operand: u8,
    pointer: u16,
    has_read: bool,
    writes: ArrayVec<Write, 2>,
    stack: ArrayVec<StackAccess, 2>,
    taken: bool,
    halts: bool,
}

impl Model for Draft {
    ghost use Rattle.z80_draft.specs.Draft.{DraftView};

    ghost Value = { DraftView };

    ghost view = { λ d. record { regs = d.regs; operand = d.operand; pointer = d.pointer; has_read = d.has_read; writes = d.writes.items; stack = d.stack.items; taken = d.taken; halts = d.halts } };
}

impl Draft {
    /// A draft that has only registers.
    pub fn new(regs: Regs) -> Draft
        ensures { result ≡ draft_on regs }
    {
        Draft {
            regs,
            operand: 0,
            pointer: 0,
            has_read: false,
            writes: ArrayVec::new(),
            stack: ArrayVec::new(),
            taken: false,
            halts: false,
        }
    }

    /// The registers after the moves so far.
    pub fn regs(&self) -> Regs
        ensures { result ≡ self.now.regs }
    {
        self.regs
    }

    /// The data writes, in order, at most two.
    pub fn writes(&self) -> &[Write]
        ensures { result.now ≡ self.now.writes }
    {
        self.writes.as_slice()
    }

    /// The stack accesses, in order, at most two.
    pub fn stack(&self) -> &[StackAccess]
        ensures { result.now ≡ self.now.stack }
    {
        self.stack.as_slice()
    }

    /// Whether the test of the instruction held: a conditional jump, call or return is taken, or a block instruction
    /// repeats.
    pub fn taken(&self) -> bool
        ensures { result ≡ self.now.taken }
    {
        self.taken
    }

    /// Whether the event halts the machine.
    pub fn halts(&self) -> bool
        ensures { result ≡ self.now.halts }
    {
        self.halts
    }

    fn byte(&self, register: ByteRegister) -> u8
        ensures { result ≡ draft_byte register self.now }
    {
        match register {
            ByteRegister::A => self.regs.main.a,
            ByteRegister::F => self.regs.main.f,
            ByteRegister::B => self.regs.main.b,
            ByteRegister::C => self.regs.main.c,
            ByteRegister::D => self.regs.main.d,
            ByteRegister::E => self.regs.main.e,
            ByteRegister::H => self.regs.main.h,
            ByteRegister::L => self.regs.main.l,
            ByteRegister::I => self.regs.i,
            ByteRegister::Operand => self.operand,
        }
    }

    fn set_byte(&mut self, register: ByteRegister, byte: u8)
        ensures { self.new ≡ with_byte register byte self.old }
    {
        match register {
            ByteRegister::A => self.regs.main.a = byte,
            ByteRegister::F => self.regs.main.f = byte,
            ByteRegister::B => self.regs.main.b = byte,
            ByteRegister::C => self.regs.main.c = byte,
            ByteRegister::D => self.regs.main.d = byte,
            ByteRegister::E => self.regs.main.e = byte,
            ByteRegister::H => self.regs.main.h = byte,
            ByteRegister::L => self.regs.main.l = byte,
            ByteRegister::I => self.regs.i = byte,
            ByteRegister::Operand => self.operand = byte,
        }
    }

    fn word(&self, register: WordRegister) -> u16
        ensures { result ≡ draft_word register self.now }
    {
        match register {
            WordRegister::Af => self.regs.main.af(),
            WordRegister::Bc => self.regs.main.bc(),
            WordRegister::De => self.regs.main.de(),
            WordRegister::Hl => self.regs.main.hl(),
            WordRegister::Ix => self.regs.ix,
            WordRegister::Iy => self.regs.iy,
            WordRegister::Sp => self.regs.sp,
            WordRegister::Pc => self.regs.pc,
            WordRegister::Pointer => self.pointer,
        }
    }

    fn set_word(&mut self, register: WordRegister, word: u16)
        ensures { self.new ≡ with_word register word self.old }
    {
        match register {
            WordRegister::Af => self.regs.main.set_af(word),
            WordRegister::Bc => self.regs.main.set_bc(word),
            WordRegister::De => self.regs.main.set_de(word),
            WordRegister::Hl => self.regs.main.set_hl(word),
            WordRegister::Ix => self.regs.ix = word,
            WordRegister::Iy => self.regs.iy = word,
            WordRegister::Sp => self.regs.sp = word,
            WordRegister::Pc => self.regs.pc = word,
            WordRegister::Pointer => self.pointer = word,
        }
    }

    fn flags(&self) -> Flags
        ensures { result ≡ flags_in self.now }
    {
        Flags::of(self.regs.main.f)
    }
}
