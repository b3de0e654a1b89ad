// The context of an event: the bus that its reads use.

ghost use Rattle.std.specs.Prelude.{◌≡◌, slice_index};
ghost use Rattle.board_step.specs.Context.{context_of};
ghost use Rattle.board_step.specs.Hardware.{hardware_of};
ghost use Rattle.board_step.specs.Reads.{inputs_for};

use crate::board::Board;
use crate::env::{Env, Inputs};
use address_map::{Input, Map, ReadClass, Rom};
use std::marker::Model;
use z80_draft::Bus;

/// What an event starts from: the ROM, the map, the board before the event, and its environment.
#[derive(Drop)]
pub struct Context<'a> {
    rom: &'a Rom<'a>,
    map: &'a Map,
    board: &'a Board,
    env: &'a Env,
}

impl<'a> Model for Context<'a> {
    ghost use Rattle.board_step.specs.Context.{ContextView, context_of};
    ghost use Rattle.board_step.specs.Hardware.{hardware_of};

    ghost Value = { ContextView };

    ghost view = { λ c. context_of (hardware_of c.rom.now c.map.now) c.board.now c.env.now };
}

impl<'a> Context<'a> {
    /// A context that borrows all four.
    pub fn of(rom: &'a Rom<'a>, map: &'a Map, board: &'a Board, env: &'a Env) -> Context<'a>
        ensures { result ≡ context_of (hardware_of rom.now map.now) board.now env.now }
    {
        Context {
            rom,
            map,
            board,
            env,
        }
    }

    fn rom_byte(&self, at: u16) -> u8
        ensures { result ≡ slice_index self.now.hardware.rom at }
    {
        match self.rom.bytes_from(at) {
            [byte, ..] => *byte,
            [] => 0,
        }
    }

    fn inputs(&self, is_later: bool) -> Inputs
        ensures { result ≡ inputs_for is_later self.now.env.inputs }
    {
        if is_later {
            self.env.inputs[1]
        } else {
            self.env.inputs[0]
        }
    }
}

impl<'a> Bus for Context<'a> {
    ghost use Rattle.board_step.specs.Reads.{outside_of};

    ghost outside = { outside_of };

    // The first data read of an event takes the first set of inputs, later reads take the second.
    #[tactic(auto, unfolding(crate::specs::Reads::byte_read))]
    fn read(&self, is_later: bool, at: u16) -> u8 {
        match self.map.class(at).read {
            ReadClass::Rom => self.rom_byte(at),
            ReadClass::Ram(ram) => self.board.byte_at(ram, at),
            ReadClass::Input(Input::In0) => self.inputs(is_later).in0,
            ReadClass::Input(Input::In1) => self.inputs(is_later).in1,
            ReadClass::Input(Input::In2) => self.inputs(is_later).in2,
            ReadClass::Open => self.inputs(is_later).bus,
        }
    }

    fn noise(&self) -> u8 {
        self.env.noise
    }

    fn r(&self) -> u8 {
        self.env.r
    }
}
