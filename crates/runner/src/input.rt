// The lines of an input.

ghost use Rattle.std.specs.Prelude.{◌≡◌};
ghost use Rattle.texts.specs.Numbers.{Reads};
ghost use Rattle.runner.specs.Input.{IsResetLine, IsEnvLine, reset_fields, reset_text, reset_of, regs_of, env_fields, env_text, env_of};

use board_step::{Env, Inputs, Reset};
use t_states::FRAME;
use texts::{Fields, decimal_between, flag_field, hex2_field};
use z80_alu::{RegisterSet, Regs, Word};

/// The longest line of an input, without its line feed.
pub(crate) const LINE_LEN: usize = 30;

/// The first line of an input, `reset PHASE FILL` (docs/PROGRAM.md, "INPUT").
#[derive(Clone, Copy)]
pub struct ResetLine {
    /// The T-states since the last vertical blank began, 0 to 50,687.
    pub phase: u32,
    /// The byte of each RAM cell, and of each register byte that a reset leaves open.
    pub fill: u8,
}

impl ResetLine {
    /// The line with this text, which is given without its line feed; None if the text is out of form.
    pub fn of(text: &[u8]) -> Option<ResetLine>
        ensures { Reads reset_text IsResetLine text.now result }
    {
        reset_line(Fields::of(text))
    }

    /// The values that a reset leaves open, as the line gives them.
    pub fn reset(self) -> Reset
        ensures { result ≡ reset_of self }
    {
        let ResetLine { phase, fill } = self;
        Reset {
            work: [fill; 0x400],
            video: [fill; 0x400],
            object: [fill; 0x100],
            regs: filled_regs(fill),
            phase,
        }
    }
}

/// Registers after a reset: each byte that a reset leaves open is this one.
fn filled_regs(fill: u8) -> Regs
    ensures { result ≡ regs_of fill }
{
    let set = RegisterSet {
        a: fill,
        f: fill,
        b: fill,
        c: fill,
        d: fill,
        e: fill,
        h: fill,
        l: fill,
    };
    let pair = Word {
        high: fill,
        low: fill,
    };
    let word = pair.value();
    Regs {
        main: set,
        alternate: set,
        ix: word,
        iy: word,
        sp: word,
        pc: 0,
        i: 0,
        r: 0,
        iff1: false,
        iff2: false,
    }
}

fn reset_line(mut fields: Fields) -> Option<ResetLine>
    ensures { Reads reset_fields IsResetLine fields.entry result }
{
    if !fields.skip(b"reset") {
        return None;
    }
    let phase = decimal_between(fields.next()?, 0, FRAME - 1)?;
    let fill = hex2_field(fields.next()?)?;
    if fields.is_empty() {
        Some(ResetLine { phase, fill })
    } else {
        None
    }
}

/// Any other line of an input, `N IN0 IN1 IN2 OPEN NOISE R L`: the environment of a number of events (docs/PROGRAM.md,
/// "INPUT").
#[derive(Clone, Copy)]
pub struct EnvLine {
    /// The number of events, at least 1.
    pub count: u32,
    /// The inputs of both reads of an event.
    pub inputs: Inputs,
    pub noise: u8,
    pub r: u8,
    pub latch: bool,
}

impl EnvLine {
    /// The line with this text, which is given without its line feed; None if the text is out of form.
    pub fn of(text: &[u8]) -> Option<EnvLine>
        ensures { Reads env_text IsEnvLine text.now result }
    {
        env_line(Fields::of(text))
    }

    /// The environment of each of these events.
    pub fn env(self) -> Env
        ensures { result ≡ env_of self }
    {
        Env {
            inputs: [self.inputs, self.inputs],
            noise: self.noise,
            r: self.r,
            latch: self.latch,
        }
    }
}

fn env_line(mut fields: Fields) -> Option<EnvLine>
    ensures { Reads env_fields IsEnvLine fields.entry result }
{
    let count = decimal_between(fields.next()?, 1, u32::MAX)?;
    let inputs = Inputs {
        in0: hex2_field(fields.next()?)?,
        in1: hex2_field(fields.next()?)?,
        in2: hex2_field(fields.next()?)?,
        bus: hex2_field(fields.next()?)?,
    };
    let noise = hex2_field(fields.next()?)?;
    let r = hex2_field(fields.next()?)?;
    let latch = flag_field(fields.next()?)?;
    if fields.is_empty() {
        Some(EnvLine {
            count,
            inputs,
            noise,
            r,
            latch,
        })
    } else {
        None
    }
}
