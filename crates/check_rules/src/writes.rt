// The reasons of a row for its data writes: 6, 7, 8, 15, 16, 21 and 22.

ghost use Rattle.std.specs.Prelude.{◌≡◌, ◌↔◌, IsTrue};
ghost use Rattle.check_cover.specs.Program.{ground_for};
ghost use Rattle.check_rules.specs.Table.{HasNoStack, Passes, PassesBelow, TellsLowest};
ghost use Rattle.check_ways.specs.Ways.{writes_from};

use abs_draft::{DataWrite, Ground};
use abs_step::{Mode, Reason};
use check_ways::Subject;
use check_writes::{
    all_keep, all_miss_region, all_miss_rom, all_miss_unmapped, find_armed, none_enables,
};

/// Reasons 6, 7 and 8: where the data writes of a row may go.
pub(crate) fn check_places(subject: &Subject, writes: &[DataWrite]) -> Result<(), Reason>
    requires writes { writes.now ≡ writes_from subject.now }
    requires below { PassesBelow subject.now 6 }
    ensures { TellsLowest subject.now 9 result }
{
    if !misses_rom(subject, writes) {
        return Err(Reason::WriteRom);
    }
    if !misses_unmapped(subject, writes) {
        return Err(Reason::WriteUnmapped);
    }
    if !misses_stack(subject, writes) {
        return Err(Reason::StackOverwrite);
    }
    Ok(())
}

fn misses_rom(subject: &Subject, writes: &[DataWrite]) -> bool
    requires { writes.now ≡ writes_from subject.now }
    ensures { IsTrue result ↔ Passes subject.now Reason.WriteRom }
{
    all_miss_rom(subject.map, writes)
}

fn misses_unmapped(subject: &Subject, writes: &[DataWrite]) -> bool
    requires { writes.now ≡ writes_from subject.now }
    ensures { IsTrue result ↔ Passes subject.now Reason.WriteUnmapped }
{
    all_miss_unmapped(subject.map, writes)
}

fn misses_stack(subject: &Subject, writes: &[DataWrite]) -> bool
    requires { writes.now ≡ writes_from subject.now }
    ensures { IsTrue result ↔ Passes subject.now Reason.StackOverwrite }
{
    has_no_stack(subject) || all_miss_region(subject.map, subject.certificate.region(), writes)
}

/// Whether the row is main's and has an empty shape.
fn has_no_stack(subject: &Subject) -> bool
    ensures { IsTrue result ↔ HasNoStack subject.now }
{
    subject.row.proc == 0 && subject.row.shape.is_empty()
}

/// Reasons 15 and 16: no write enables the NMI before SP is set, nor without an NMI routine.
pub(crate) fn check_enabling(subject: &Subject, writes: &[DataWrite]) -> Result<(), Reason>
    requires writes { writes.now ≡ writes_from subject.now }
    requires below { PassesBelow subject.now 15 }
    ensures { TellsLowest subject.now 17 result }
{
    if !enables_behind_stack(subject, writes) {
        return Err(Reason::NmiBeforeStack);
    }
    if !enables_with_routine(subject, writes) {
        return Err(Reason::NmiMissing);
    }
    Ok(())
}

fn enables_behind_stack(subject: &Subject, writes: &[DataWrite]) -> bool
    requires { writes.now ≡ writes_from subject.now }
    ensures { IsTrue result ↔ Passes subject.now Reason.NmiBeforeStack }
{
    subject.row.mode != Mode::Unset || none_enables(&ground_of(subject), writes)
}

fn enables_with_routine(subject: &Subject, writes: &[DataWrite]) -> bool
    requires { writes.now ≡ writes_from subject.now }
    ensures { IsTrue result ↔ Passes subject.now Reason.NmiMissing }
{
    subject.certificate.budget().is_some() || none_enables(&ground_of(subject), writes)
}

/// The ground of the row's certificate.
pub(crate) fn ground_of<'a>(subject: &Subject<'a>) -> Ground<'a>
    ensures { result ≡ ground_for subject.now.rom subject.now.cert }
{
    Ground::of(subject.rom, subject.map, subject.certificate.cells())
}

/// Reasons 21 and 22: what the data writes do to the kept cells.
pub(crate) fn check_cells(subject: &Subject, writes: &[DataWrite]) -> Result<(), Reason>
    requires writes { writes.now ≡ writes_from subject.now }
    requires below { PassesBelow subject.now 21 }
    ensures { TellsLowest subject.now 23 result }
{
    if !keeps_ranges(subject, writes) {
        return Err(Reason::CellRange);
    }
    if !enables_behind_cells(subject, writes) {
        return Err(Reason::CellUnarmed);
    }
    Ok(())
}

fn keeps_ranges(subject: &Subject, writes: &[DataWrite]) -> bool
    requires { writes.now ≡ writes_from subject.now }
    ensures { IsTrue result ↔ Passes subject.now Reason.CellRange }
{
    // By the form, there are at most 256 cells.
    subject.certificate.is_in_form();
    all_keep(&ground_of(subject), subject.map, subject.row.armed, writes)
}

fn enables_behind_cells(subject: &Subject, writes: &[DataWrite]) -> bool
    requires { writes.now ≡ writes_from subject.now }
    ensures { IsTrue result ↔ Passes subject.now Reason.CellUnarmed }
{
    // By the form, there are at most 256 cells.
    subject.certificate.is_in_form();
    let count = subject.certificate.cells().len();
    find_armed(&ground_of(subject), count, subject.row.armed, writes)
}
