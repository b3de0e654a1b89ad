// The lines of an NMI routine.

ghost use Rattle.std.specs.Prelude.{◌≡◌};
ghost use Rattle.run_lines.specs.Follows.{line_of_note};
ghost use Rattle.run_lines.specs.Lines.{acceptance_line, return_line};
ghost use Rattle.texts.specs.Device.{Puts};

use crate::fields::{add_decimal_field, add_hex4_field};
use crate::teller::Note;
use texts::{DeviceFault, MadeLine, Sink, put};

/// Writes the line of an event, if it has one. `number` is the event's, from 0, and `at` its address.
///
/// # Errors
///
/// The sink failed; what it took before stays written.
pub fn put_note<W: Sink>(out: &mut W, number: u64, at: u16, note: Note) -> Result<(), DeviceFault>
    ensures { Puts (W.state out.old) (line_of_note number at note) result (W.state out.new) }
{
    match note {
        Note::Nothing => Ok(()),
        Note::Begins => put(out, acceptance_line(number, at).bytes()),
        Note::Ends(spent) => put(out, return_line(number, spent).bytes()),
    }
}

/// The line of an acceptance: the number of its event, from 0, and the address that it interrupted.
pub fn acceptance_line(number: u64, at: u16) -> MadeLine
    ensures { result ≡ acceptance_line number at }
{
    let mut line = MadeLine::new();
    line.add(b"nmi");
    add_decimal_field(&mut line, u128::from(number));
    add_hex4_field(&mut line, at);
    line.add_byte(b'\n');
    line
}

/// The line of an NMI routine's end: the number of the event that ends it, from 0, and the T-states from its acceptance
/// to that event, both included.
pub fn return_line(number: u64, spent: u64) -> MadeLine
    ensures { result ≡ return_line number spent }
{
    let mut line = MadeLine::new();
    line.add(b"end");
    add_decimal_field(&mut line, u128::from(number));
    add_decimal_field(&mut line, u128::from(spent));
    line.add_byte(b'\n');
    line
}
