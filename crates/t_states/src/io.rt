// Instructions of the I/O group.
ghost use Rattle.std.specs.Prelude.{◌≡◌};
ghost use Rattle.t_states.specs.Io.{is_io};

use z80_decode::Instr;

/// Whether the instruction belongs to the I/O group (UM0080, "Input and Output Group"): IN A,(n), IN r,(C), OUT (n),A,
/// OUT (C),r, and the block instructions of input and output.
pub fn is_io(instr: &Instr) -> bool
    ensures { result ≡ is_io instr.now }
{
    matches!(
        instr,
        Instr::InputImmediate(_)
            | Instr::InputRegister(_)
            | Instr::OutputImmediate(_)
            | Instr::OutputRegister(_)
            | Instr::BlockInput(_)
            | Instr::BlockOutput(_)
    )
}
