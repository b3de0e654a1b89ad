// Laws on the ranges of registers.

ghost use Rattle.z80_draft.specs.Registers.{IsRegisterSet, IsRegs};

use z80_alu::{RegisterSet, Regs};

/// A law: each register of a set is a byte.
pub fn set_is_in_range(set: RegisterSet)
    ensures { IsRegisterSet set }
{}

/// A law: each register is a byte or a word.
pub fn regs_are_in_range(regs: Regs)
    ensures { IsRegs regs }
{
    set_is_in_range(regs.main);
    set_is_in_range(regs.alternate);
}
