// The lowest reason that applies to a row.

ghost use Rattle.std.specs.Prelude.{◌≡◌, OnOk, IfOk, IfErr, Ok, Err};
ghost use Rattle.check_rules.specs.Table.{IsConsistent, IsLowest, PassesBelow, TellsLowest};
ghost use Rattle.cert_lines.specs.declared.version.Version.TheVariants.{Three};
ghost use Rattle.check_ways.specs.Ways.{IsTold, step_of, writes_from};

use crate::instructions::{check_instruction, is_timed};
use crate::saved::check_saved;
use crate::stack::{fits_depth, ranks_fall, row_fits_depth};
use crate::writes::{check_cells, check_enabling, check_places};
use abs_draft::DataWrite;
use abs_step::{Next, Nexts, Reason};
use cert_lines::Version;
use check_cover::Coverer;
use check_ways::{Subject, goes_on, pays};
use refined_step::StepTold;
use std::alloc::Global;
use z80_decode::Instr;

/// Judges a row by the table of reasons (docs/CHECKER.md, "The table of reasons"). The coverer searches the rows of the
/// same certificate. No memory is taken.
///
/// # Errors
///
/// The lowest number of the reasons that apply to the row.
pub fn check_row(alloc: Global, subject: &Subject, coverer: &mut Coverer) -> Result<(), Reason>
    requires { coverer.old ≡ subject.now.cert }
    ensures ok { OnOk result (IsConsistent subject.now) }
    ensures err { IfErr result (λ reason. IsLowest subject.now reason) }
    ensures same { coverer.new ≡ coverer.old }
{
    // A step is as large as several states, so none is moved.
    match &subject.decoded {
        Ok(instr) => match subject.certificate.version() {
            Version::One | Version::Two => {
                let step = subject.plain_step(alloc, instr);
                check_step(
                    subject,
                    step.writes.as_slice(),
                    &step.answer,
                    subject.untold(),
                    coverer,
                )
            }
            Version::Three => check_refined(alloc, subject, instr, coverer),
        },
        Err(_) => check_undecoded(alloc, subject, coverer),
    }
}

/// Judges a row of version 3. Its step is large: in `check_row` itself, rows of all versions would take room for it.
fn check_refined(
    alloc: Global,
    subject: &Subject,
    instr: &Instr,
    coverer: &mut Coverer,
) -> Result<(), Reason>
    requires decoded { subject.now.decoded ≡ Ok instr.now }
    requires version { subject.now.cert.version ≡ Three }
    requires coverer { coverer.old ≡ subject.now.cert }
    ensures ok { OnOk result (IsConsistent subject.now) }
    ensures err { IfErr result (λ reason. IsLowest subject.now reason) }
    ensures same { coverer.new ≡ coverer.old }
{
    let step = subject.refined_step(alloc, instr);
    check_step(
        subject,
        step.writes.as_slice(),
        &step.answer,
        &step.told,
        coverer,
    )
}

/// Judges any row. `check_row` needs it only where no instruction is decoded.
fn check_undecoded(alloc: Global, subject: &Subject, coverer: &mut Coverer) -> Result<(), Reason>
    requires { coverer.old ≡ subject.now.cert }
    ensures ok { OnOk result (IsConsistent subject.now) }
    ensures err { IfErr result (λ reason. IsLowest subject.now reason) }
    ensures same { coverer.new ≡ coverer.old }
{
    let step = subject.row_step(alloc);
    check_step(
        subject,
        step.writes.as_slice(),
        &step.answer,
        &step.told,
        coverer,
    )
}

/// Judges a row whose step gives these data writes, and these successors or this reason.
fn check_step(
    subject: &Subject,
    writes: &[DataWrite],
    answer: &Result<Nexts, Reason>,
    told: &StepTold,
    coverer: &mut Coverer,
) -> Result<(), Reason>
    requires told { IsTold subject.now told.now }
    requires successors { IfOk answer.now (λ nexts. step_of subject.now ≡ Ok nexts.items) }
    requires reason { IfErr answer.now (λ reason. step_of subject.now ≡ Err reason) }
    requires writes { writes.now ≡ writes_from subject.now }
    requires coverer { coverer.old ≡ subject.now.cert }
    ensures ok { OnOk result (IsConsistent subject.now) }
    ensures err { IfErr result (λ reason. IsLowest subject.now reason) }
    ensures same { coverer.new ≡ coverer.old }
{
    match answer {
        Ok(nexts) => check_going(subject, writes, nexts.as_slice(), told, coverer),
        Err(refusal) => Err(lowest_of_refused(subject, writes, *refusal)),
    }
}

/// The lowest reason that applies to a row that the abstract step refuses for this one.
fn lowest_of_refused(subject: &Subject, writes: &[DataWrite], refusal: Reason) -> Reason
    requires step { step_of subject.now ≡ Err refusal }
    requires writes { writes.now ≡ writes_from subject.now }
    ensures { IsLowest subject.now result }
{
    let number = refusal.number();
    if number < 6 {
        return refusal;
    }
    if let Err(reason) = check_places(subject, writes) {
        return reason;
    }
    if number > 11 && !row_fits_depth(subject) {
        return Reason::StackDepth;
    }
    refusal
}

/// Judges a row for which the abstract step gives successors.
fn check_going(
    subject: &Subject,
    writes: &[DataWrite],
    nexts: &[Next],
    told: &StepTold,
    coverer: &mut Coverer,
) -> Result<(), Reason>
    requires told { IsTold subject.now told.now }
    requires step { step_of subject.now ≡ Ok nexts.now }
    requires writes { writes.now ≡ writes_from subject.now }
    requires coverer { coverer.old ≡ subject.now.cert }
    ensures told { TellsLowest subject.now 23 result }
    ensures same { coverer.new ≡ coverer.old }
{
    check_places(subject, writes)?;
    check_ways(subject, nexts, told, coverer)?;
    check_saved(subject, nexts)?;
    check_enabling(subject, writes)?;
    check_time(subject, nexts, told)?;
    check_instruction(subject)?;
    check_cells(subject, writes)
}

/// Reasons 11, 12 and 13: the depth, the covering of successors, and the ranks of callees.
fn check_ways(
    subject: &Subject,
    nexts: &[Next],
    told: &StepTold,
    coverer: &mut Coverer,
) -> Result<(), Reason>
    requires told { IsTold subject.now told.now }
    requires step { step_of subject.now ≡ Ok nexts.now }
    requires coverer { coverer.old ≡ subject.now.cert }
    requires below { PassesBelow subject.now 9 }
    ensures told { TellsLowest subject.now 14 result }
    ensures same { coverer.new ≡ coverer.old }
{
    if !fits_depth(subject, nexts) {
        return Err(Reason::StackDepth);
    }
    if !goes_on(subject, nexts, told, coverer) {
        return Err(Reason::NotCovered);
    }
    if !ranks_fall(subject, nexts) {
        return Err(Reason::Rank);
    }
    Ok(())
}

/// Reason 17: a row of a timed procedure has to pay.
fn check_time(subject: &Subject, nexts: &[Next], told: &StepTold) -> Result<(), Reason>
    requires told { IsTold subject.now told.now }
    requires step { step_of subject.now ≡ Ok nexts.now }
    requires below { PassesBelow subject.now 17 }
    ensures { TellsLowest subject.now 19 result }
{
    if is_timed(&subject.proc) && !pays(subject, nexts, told) {
        return Err(Reason::Time);
    }
    Ok(())
}
