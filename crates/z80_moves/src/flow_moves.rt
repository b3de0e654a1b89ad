// The moves of jumps, calls and returns.

ghost use Rattle.std.specs.Prelude.{◌≡◌, ◌*◌};
ghost use Rattle.z80_decode.specs.Kinds.{restart};
ghost use Rattle.z80_decode.specs.declared.instr.Instr.TheVariants.{JumpIf, JumpRelativeIf, DecrementJump, Call, CallIf, Restart, ReturnIf, ReturnFromNonMaskable};
ghost use Rattle.z80_moves.specs.Moves.{moves_of};

use crate::moves::{Move, Moves, Test};
use crate::operands::long_condition;
use crate::registers::{ByteRegister, WordRegister};
use z80_decode::{Condition, RestartAddress, ShortCondition};

pub(crate) fn jump_if(condition: Condition, to: u16) -> Moves
    ensures { result ≡ moves_of (JumpIf condition to) }
{
    Moves::of(&[
        Move::OnlyIf(Test::Flag(condition)),
        Move::SetWord(WordRegister::Pc, to),
    ])
}

pub(crate) fn jump_relative_if(condition: ShortCondition, by: u8) -> Moves
    ensures { result ≡ moves_of (JumpRelativeIf condition by) }
{
    Moves::of(&[
        Move::OnlyIf(Test::Flag(long_condition(condition))),
        Move::Displace(WordRegister::Pc, by),
    ])
}

pub(crate) fn count_down_and_jump(by: u8) -> Moves
    ensures { result ≡ moves_of (DecrementJump by) }
{
    Moves::of(&[
        Move::CountDown(ByteRegister::B),
        Move::OnlyIf(Test::BNotZero),
        Move::Displace(WordRegister::Pc, by),
    ])
}

pub(crate) fn call(to: u16) -> Moves
    ensures { result ≡ moves_of (Call to) }
{
    Moves::of(&[
        Move::Push(WordRegister::Pc),
        Move::SetWord(WordRegister::Pc, to),
    ])
}

pub(crate) fn call_if(condition: Condition, to: u16) -> Moves
    ensures { result ≡ moves_of (CallIf condition to) }
{
    Moves::of(&[
        Move::OnlyIf(Test::Flag(condition)),
        Move::Push(WordRegister::Pc),
        Move::SetWord(WordRegister::Pc, to),
    ])
}

pub(crate) fn restart(to: RestartAddress) -> Moves
    ensures { result ≡ moves_of (Restart to) }
{
    call(restart_address(to))
}

fn restart_address(to: RestartAddress) -> u16
    ensures { result ≡ 8 * restart to }
{
    match to {
        RestartAddress::At00 => 0x00,
        RestartAddress::At08 => 0x08,
        RestartAddress::At10 => 0x10,
        RestartAddress::At18 => 0x18,
        RestartAddress::At20 => 0x20,
        RestartAddress::At28 => 0x28,
        RestartAddress::At30 => 0x30,
        RestartAddress::At38 => 0x38,
    }
}

pub(crate) fn return_if(condition: Condition) -> Moves
    ensures { result ≡ moves_of (ReturnIf condition) }
{
    Moves::of(&[
        Move::OnlyIf(Test::Flag(condition)),
        Move::Pop(WordRegister::Pc),
    ])
}

pub(crate) fn return_from_nmi() -> Moves
    ensures { result ≡ moves_of ReturnFromNonMaskable }
{
    Moves::of(&[Move::Pop(WordRegister::Pc), Move::RestoreIff1])
}
