// How an instruction sets SP.

ghost use Rattle.std.specs.Prelude.{◌≡◌, ◌↔◌, IsTrue};
ghost use Rattle.abs_step.specs.Contained.{SetsTop};
ghost use Rattle.board_laws.specs.Uses.{sets_sp};

use address_map::Region;
use z80_decode::{Direct, Instr, Register16};

/// Whether an instruction is LD SP,nn of main with the region's top.
pub fn sets_top(main: bool, region: Region, instr: &Instr) -> bool
    ensures { IsTrue result ↔ SetsTop main region instr.now }
{
    match instr {
        Instr::LoadPair(Register16::Sp, word) => main && *word == region.top,
        _ => false,
    }
}

/// Whether an instruction is LD SP, INC SP or DEC SP.
pub fn sets_sp(instr: &Instr) -> bool
    ensures { result ≡ sets_sp instr.now }
{
    matches!(
        instr,
        Instr::LoadPair(Register16::Sp, _)
            | Instr::LoadPairDirect(Direct::Pair(Register16::Sp), _)
            | Instr::LoadSp(_)
            | Instr::IncrementPair(Register16::Sp)
            | Instr::DecrementPair(Register16::Sp)
    )
}
