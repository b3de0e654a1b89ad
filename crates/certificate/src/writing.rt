// Writes a certificate as its text.

ghost use Rattle.std.specs.List.{flat_map};
ghost use Rattle.std.specs.Prelude.{ℕ, List, [], ◌∷◌, map};
ghost use Rattle.cert_lines.specs.declared.line.Line.{Line};
ghost use Rattle.certificate.specs.Writing.{GivesTexts};
ghost use Rattle.cert_form.specs.Text.{board_lines, head_lines, list_lines, text_of, text_of_lines};
ghost use Rattle.texts.specs.Device.{Puts};

use cert_contents::Certificate;
use cert_lines::{
    board_line, budget_line, cell_line, end_line, header_line, inline_line, proc_line, rom_line,
    row_line, split_line, stack_line,
};
use texts::{DeviceFault, MadeLine, Sink, put};

/// Writes the text of a certificate (docs/CERTIFICATE.md), line by line.
///
/// # Errors
///
/// The failure of the sink, which then took a prefix of the text.
pub fn write<W: Sink>(certificate: &Certificate, out: &mut W) -> Result<(), DeviceFault>
    ensures { Puts (W.state out.old) (text_of certificate.now) result (W.state out.new) }
{
    write_head(certificate, out)?;
    write_lists(certificate, out)?;
    put(out, end_line().bytes())
}

/// Writes the lines before the procedures.
fn write_head<W: Sink>(certificate: &Certificate, out: &mut W) -> Result<(), DeviceFault>
    ensures { Puts (W.state out.old)
        (text_of_lines certificate.now.version (head_lines certificate.now)) result
        (W.state out.new) }
{
    write_header(certificate, out)?;
    write_rom(certificate, out)?;
    write_board(certificate, out)?;
    write_stack(certificate, out)?;
    write_budget(certificate, out)
}

fn write_header<W: Sink>(certificate: &Certificate, out: &mut W) -> Result<(), DeviceFault>
    ensures { let c = certificate.now
        in Puts (W.state out.old) (text_of_lines c.version (Line.Header c.version
        ∷ [])) result (W.state out.new) }
{
    put(out, header_line(certificate.version()).bytes())
}

fn write_rom<W: Sink>(certificate: &Certificate, out: &mut W) -> Result<(), DeviceFault>
    ensures { let c = certificate.now
        in Puts (W.state out.old) (text_of_lines c.version (Line.Rom c.rom_len
        ∷ [])) result (W.state out.new) }
{
    put(out, rom_line(certificate.rom_len()).bytes())
}

/// Writes the line of the board's map, if the version names it.
fn write_board<W: Sink>(certificate: &Certificate, out: &mut W) -> Result<(), DeviceFault>
    ensures { Puts (W.state out.old)
        (text_of_lines certificate.now.version
        (board_lines certificate.now.version certificate.now.board)) result (W.state out.new) }
{
    // By the form, the board of version 1 is Galaxian.
    certificate.is_in_form();
    if certificate.version().names_board() {
        put(out, board_line(certificate.board()).bytes())
    } else {
        Ok(())
    }
}

fn write_stack<W: Sink>(certificate: &Certificate, out: &mut W) -> Result<(), DeviceFault>
    ensures { let c = certificate.now
        in Puts (W.state out.old) (text_of_lines c.version (Line.Stack c.region
        ∷ [])) result (W.state out.new) }
{
    put(out, stack_line(certificate.region()).bytes())
}

fn write_budget<W: Sink>(certificate: &Certificate, out: &mut W) -> Result<(), DeviceFault>
    ensures { let c = certificate.now
        in Puts (W.state out.old) (text_of_lines c.version (Line.Budget c.budget
        ∷ [])) result (W.state out.new) }
{
    put(out, budget_line(certificate.budget()).bytes())
}

/// Writes the procedures, splits, inline calls, cells and rows.
fn write_lists<W: Sink>(certificate: &Certificate, out: &mut W) -> Result<(), DeviceFault>
    ensures { Puts (W.state out.old)
        (text_of_lines certificate.now.version (list_lines certificate.now)) result
        (W.state out.new) }
{
    write_procs(certificate, out)?;
    write_splits(certificate, out)?;
    write_inlines(certificate, out)?;
    write_cells(certificate, out)?;
    write_rows(certificate, out)
}

fn write_procs<W: Sink>(certificate: &Certificate, out: &mut W) -> Result<(), DeviceFault>
    ensures { Puts (W.state out.old)
        (text_of_lines certificate.now.version (map Line.Proc certificate.now.procs)) result
        (W.state out.new) }
{
    write_each(certificate.procs(), |proc| proc_line(proc), out)
}

fn write_splits<W: Sink>(certificate: &Certificate, out: &mut W) -> Result<(), DeviceFault>
    ensures { Puts (W.state out.old)
        (text_of_lines certificate.now.version (map Line.Split certificate.now.splits)) result
        (W.state out.new) }
{
    write_each(certificate.splits(), |split| split_line(split), out)
}

fn write_inlines<W: Sink>(certificate: &Certificate, out: &mut W) -> Result<(), DeviceFault>
    ensures { Puts (W.state out.old)
        (text_of_lines certificate.now.version (map Line.Inline certificate.now.inlines)) result
        (W.state out.new) }
{
    write_each(certificate.inlines(), |address| inline_line(*address), out)
}

fn write_cells<W: Sink>(certificate: &Certificate, out: &mut W) -> Result<(), DeviceFault>
    ensures { Puts (W.state out.old)
        (text_of_lines certificate.now.version (map Line.Cell certificate.now.cells)) result
        (W.state out.new) }
{
    write_each(certificate.cells(), |cell| cell_line(cell), out)
}

fn write_rows<W: Sink>(certificate: &Certificate, out: &mut W) -> Result<(), DeviceFault>
    ensures { Puts (W.state out.old)
        (text_of_lines certificate.now.version (map Line.Row certificate.now.rows)) result
        (W.state out.new) }
{
    for id in 0..certificate.row_count() {
        if let Some(row) = certificate.row(id) {
            put(out, row_line(certificate.version(), &row).bytes())?;
        }
    }
    Ok(())
}

/// Writes one line for each element of a list.
fn write_each<T, F: Fn(&T) -> MadeLine, W: Sink>(
    items: &[T],
    line_of: F,
    out: &mut W,
) -> Result<(), DeviceFault>
    requires { F.IsAlwaysCallable line_of }
    ensures { (text : T → List ℕ) → GivesTexts F.Fn line_of text
        → Puts (W.state out.old) (flat_map text items.now) result (W.state out.new) }
{
    for item in items {
        put(out, line_of(item).bytes())?;
    }
    Ok(())
}
