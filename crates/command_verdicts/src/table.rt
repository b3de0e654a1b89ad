// The table of an accepted certificate.

ghost use Rattle.std.specs.Fmt.{decimal};
ghost use Rattle.std.specs.List.{flat_map};
ghost use Rattle.std.specs.Prelude.{◌≡◌, ◌≤◌, ◌+◌, ◌++◌, length};
ghost use Rattle.texts.specs.Device.{Puts};
ghost use Rattle.texts.specs.Made.{MADE_LEN};
ghost use Rattle.command_verdicts.specs.Gathered.{Gathers};
ghost use Rattle.command_verdicts.specs.Verdict.{accepted_text, kind_column, nmi_text, nmi_time_or_zero, proc_text, right_in, stack_text, time_word};

use crate::gathering::gather;
use certificate::{Certificate, Proc, ProcKind};
use check_rules::{main_depth, nmi_depth, nmi_of};
use itoa::Buffer;
use texts::{DeviceFault, MadeLine, Sink, put};

/// Writes the table of an accepted certificate (docs/PROGRAM.md, "Accepted"). A table of at most 4,096 bytes is one
/// write.
///
/// # Errors
///
/// The failure of the sink, which then took a prefix of the table.
pub fn write_table<W: Sink>(certificate: &Certificate, out: &mut W) -> Result<(), DeviceFault>
    ensures { Puts (W.state out.old) (accepted_text certificate.now) result (W.state out.new) }
{
    let mut gathered = MadeLine::new();
    gathered.add(b"accepted\n");
    gather_procs(certificate.procs(), &mut gathered, out)?;
    gather(&stack_line(certificate), &mut gathered, out)?;
    gather(&nmi_line(certificate), &mut gathered, out)?;
    put(out, gathered.bytes())
}

fn gather_procs<W: Sink>(
    procs: &[Proc],
    gathered: &mut MadeLine,
    out: &mut W,
) -> Result<(), DeviceFault>
    ensures { Gathers (W.state out.old) gathered.old (flat_map proc_text procs.now) result
        (W.state out.new) gathered.new }
{
    for proc in procs {
        gather(&proc_line(proc), gathered, out)?;
    }
    Ok(())
}

fn proc_line(proc: &Proc) -> MadeLine
    ensures { result ≡ proc_text proc.now }
{
    let mut line = MadeLine::new();
    line.add(kind_word(proc.kind));
    line.add(b" ");
    line.add_hex4(proc.entry);
    line.add(b" depth ");
    add_right(&mut line, 5, u32::from(proc.depth));
    line.add(b" time ");
    add_time(&mut line, proc.time);
    line.add(b"\n");
    line
}

/// The word for a kind of procedure, left-aligned in four places.
fn kind_word(kind: ProcKind) -> &'static [u8]
    ensures value { result.now ≡ kind_column kind }
    ensures short { length result.now ≤ 4 }
{
    match kind {
        ProcKind::Main => b"main",
        ProcKind::Nmi => b"nmi ",
        ProcKind::Sub => b"sub ",
    }
}

/// Adds a procedure's T-states, right-aligned in six places, or `-` if it has no time.
fn add_time(line: &mut MadeLine, time: Option<u32>)
    requires { length line.old + 45 ≤ MADE_LEN }
    ensures value { line.new ≡ line.old ++ right_in 6 (time_word time) }
    ensures grown { length line.new ≤ length line.old + 45 }
{
    match time {
        Some(time) => add_right(line, 6, time),
        None => line.add(b"     -"),
    }
}

/// Adds a number in decimal, right-aligned in at most six places.
fn add_right(line: &mut MadeLine, places: usize, number: u32)
    requires room { length line.old + 45 ≤ MADE_LEN }
    requires few { places ≤ 6 }
    ensures value { line.new ≡ line.old ++ right_in places (decimal number) }
    ensures grown { length line.new ≤ length line.old + 45 }
{
    let mut buffer = Buffer::new();
    let digits = buffer.format(number).as_bytes();
    let gap = places - digits.len().min(places);
    line.add(&[b' '; 6][..gap]);
    line.add(digits);
}

/// The line with the used bytes of stack and the region's size.
fn stack_line(certificate: &Certificate) -> MadeLine
    ensures { result ≡ stack_text certificate.now }
{
    let region = certificate.region();
    let used = u32::from(main_depth(certificate)) + u32::from(nmi_depth(certificate));
    let mut line = MadeLine::new();
    line.add(b"stack ");
    line.add_decimal(u128::from(used));
    line.add(b" of ");
    line.add_decimal(u128::from(region.top.saturating_sub(region.low)));
    line.add(b"\n");
    line
}

/// The line with the NMI routine's T-states and the budget, if there is one.
fn nmi_line(certificate: &Certificate) -> MadeLine
    ensures { result ≡ nmi_text certificate.now }
{
    let mut line = MadeLine::new();
    match certificate.budget() {
        Some(budget) => {
            line.add(b"nmi ");
            line.add_decimal(u128::from(nmi_time(certificate)));
            line.add(b" of ");
            line.add_decimal(u128::from(budget));
            line.add(b"\n");
        }
        None => line.add(b"nmi none\n"),
    }
    line
}

/// The T-states of the NMI routine; 0 without one.
fn nmi_time(certificate: &Certificate) -> u32
    ensures { result ≡ nmi_time_or_zero certificate.now }
{
    match nmi_of(certificate) {
        Some(nmi) => nmi.time.unwrap_or(0),
        None => 0,
    }
}
