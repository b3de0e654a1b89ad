// The exit of a row.

ghost use Rattle.std.specs.Prelude.{◌≡◌, IfSome, Ok, Result};
ghost use Rattle.check_cover.specs.Program.{is_main};
ghost use Rattle.check_tables.specs.Exits.{exit_by, is_at_end, state_left, state_where};
ghost use Rattle.board_fetch.specs.Decoded.{StandsAt};
ghost use Rattle.z80_decode.specs.declared.fault.DecodeFault.{DecodeFault as Fault};
ghost use Rattle.z80_decode.specs.declared.instr.Instr.{Instr as Instruction};

use abs_state::{AbsState, Mode};
use address_map::Rom;
use board_fetch::fetch;
use cert_lines::RowRef;
use flag_letters::FlagParts;
use flag_parts::narrow;
use z80_decode::{Condition, Instr};

/// The state in which a row leaves its procedure, if it does. It leaves where SP is set, its shape is empty, and a
/// return at its address is taken. Main never leaves.
pub fn exit_of(rom: &Rom, row: &RowRef) -> Option<AbsState>
    ensures state { (decoded : Result Instruction Fault) → StandsAt rom.now row.now.address decoded
        → result ≡ exit_by (is_main row.now.proc) row.now.parts row.now.state decoded }
    ensures decodes { IfSome result (λ _. (instr : Instruction)
        × StandsAt rom.now row.now.address (Ok instr)) }
{
    if !is_at_end(row) {
        return None;
    }
    match fetch(rom, row.address) {
        Ok((instr, _)) => state_left(&instr, row),
        Err(_) => None,
    }
}

/// Whether a return, if taken, leaves the row's procedure.
fn is_at_end(row: &RowRef) -> bool
    ensures { result ≡ is_at_end (is_main row.now.proc) row.now.state }
{
    row.shape.is_empty() && row.mode != Mode::Unset && row.proc != 0
}

/// The state in which the instruction leaves the procedure, if it is a return that may be taken.
fn state_left(instr: &Instr, row: &RowRef) -> Option<AbsState>
    ensures { result ≡ state_left instr.now row.now.parts row.now.state }
{
    match instr {
        Instr::Return | Instr::ReturnFromInterrupt | Instr::ReturnFromNonMaskable => {
            Some(row.state())
        }
        Instr::ReturnIf(condition) => state_where(*condition, row.parts, row.state()),
        _ => None,
    }
}

/// A state restricted to where a condition is met, by the row's flag parts and its flag fact; None if nothing is left.
fn state_where(condition: Condition, parts: &FlagParts, state: AbsState) -> Option<AbsState>
    ensures { result ≡ state_where condition parts.now state }
{
    let mut left = state;
    if !narrow(parts, condition, &mut left) {
        return None;
    }
    if left.restrict(true, condition) {
        Some(left)
    } else {
        None
    }
}
