// Two certificates side by side, as a text.

use certificate::{Certificate, Proc, ProcKind};
use check_rules::{main_depth, nmi_depth, nmi_of};
use std::alloc::{AllocError, Global};
use std::fmt::Write;
use symbols::Symbols;

/// The names of both programs. Without names a procedure is known by its entry.
#[derive(Clone, Copy)]
pub struct EntryNames<'n> {
    pub old: &'n Symbols,
    pub new: &'n Symbols,
}

impl<'n> EntryNames<'n> {
    /// Whether a procedure of the old certificate and one of the new are the same: there is one main code and one NMI
    /// routine. Others are the same if they begin at one name, or at one address where neither has a name.
    fn are_same(self, old: &Proc, new: &Proc) -> bool {
        match (old.kind, new.kind) {
            (ProcKind::Main, ProcKind::Main) | (ProcKind::Nmi, ProcKind::Nmi) => true,
            (ProcKind::Sub, ProcKind::Sub) => match self.names_of(old, new) {
                (Some(old), Some(new)) => old == new,
                (None, None) => old.entry == new.entry,
                _ => false,
            },
            _ => false,
        }
    }

    /// The names of both; none where the other program has no names at all.
    fn names_of(self, old: &Proc, new: &Proc) -> (Option<&'n str>, Option<&'n str>) {
        if self.old.names().is_empty() || self.new.names().is_empty() {
            return (None, None);
        }
        (self.old.shown_at(old.entry), self.new.shown_at(new.entry))
    }
}

/// A procedure of either certificate, or of both.
#[derive(Clone, Copy)]
struct Both<'c> {
    old: Option<&'c Proc>,
    new: Option<&'c Proc>,
}

/// Two certificates side by side: the procedures of the old one, with the new one's beside them; then those that the
/// new one alone has; then the stack and the NMI routine.
pub(crate) fn changes(
    alloc: Global,
    old: &Certificate,
    new: &Certificate,
    names: EntryNames<'_>,
) -> Result<String, AllocError> {
    let mut text = String::new(alloc);
    for proc in old.procs() {
        let other = new.procs().iter().find(|other| names.are_same(proc, other));
        let both = Both {
            old: Some(proc),
            new: other,
        };
        add_proc(&mut text, both, names)?;
    }
    for proc in new.procs() {
        if !old.procs().iter().any(|other| names.are_same(other, proc)) {
            let both = Both {
                old: None,
                new: Some(proc),
            };
            add_proc(&mut text, both, names)?;
        }
    }
    add_stack(&mut text, old, new)?;
    add_nmi(&mut text, old, new)?;
    Ok(text)
}

/// Adds the line of a procedure.
fn add_proc(text: &mut String, both: Both<'_>, names: EntryNames<'_>) -> Result<(), AllocError> {
    let (shown, label) = match (both.new, both.old) {
        (Some(new), _) => (new, names.new.shown_at(new.entry)),
        (None, Some(old)) => (old, names.old.shown_at(old.entry)),
        (None, None) => return Ok(()),
    };
    let kind = match shown.kind {
        ProcKind::Main => "main",
        ProcKind::Nmi => "nmi ",
        ProcKind::Sub => "sub ",
    };
    let entry = shown.entry;
    added(write!(text, "{kind} {entry:04X} depth"))?;
    let (old_depth, new_depth) = (both.old.map(depth_of), both.new.map(depth_of));
    add_number(text, old_depth)?;
    add_number(text, new_depth)?;
    text.push_str(" time")?;
    let (old_time, new_time) = (both.old.and_then(time_of), both.new.and_then(time_of));
    add_number(text, old_time)?;
    add_number(text, new_time)?;
    if let Some(label) = label {
        added(write!(text, " {label}"))?;
    }
    let end = match (both.old, both.new) {
        (None, _) => " new\n",
        (_, None) => " gone\n",
        _ if has_grown(old_depth, new_depth) || has_grown(old_time, new_time) => " grew\n",
        _ => "\n",
    };
    text.push_str(end)?;
    Ok(())
}

fn depth_of(proc: &Proc) -> u32 {
    u32::from(proc.depth)
}

fn time_of(proc: &Proc) -> Option<u32> {
    proc.time
}

/// Adds a number, right-aligned in seven places, or `-` where there is none.
fn add_number(text: &mut String, number: Option<u32>) -> Result<(), AllocError> {
    match number {
        Some(number) => added(write!(text, "{number:>7}")),
        None => Ok(text.push_str("      -")?),
    }
}

/// Whether the new one of two numbers is greater.
fn has_grown(old: Option<u32>, new: Option<u32>) -> bool {
    match (old, new) {
        (Some(old), Some(new)) => new > old,
        _ => false,
    }
}

/// Adds the line of the stack.
fn add_stack(text: &mut String, old: &Certificate, new: &Certificate) -> Result<(), AllocError> {
    let (before, after) = (stack_of(old), stack_of(new));
    let region = new.region();
    let room = region.top.saturating_sub(region.low);
    let end = if after > before { " grew" } else { "" };
    added(write!(text, "stack {before} {after} of {room}{end}\n"))
}

fn stack_of(certificate: &Certificate) -> u32 {
    u32::from(main_depth(certificate)) + u32::from(nmi_depth(certificate))
}

/// Adds the line of the NMI routine, if there is one.
fn add_nmi(text: &mut String, old: &Certificate, new: &Certificate) -> Result<(), AllocError> {
    let (before, after) = (nmi_time_of(old), nmi_time_of(new));
    let Some(budget) = new.budget() else {
        return Ok(text.push_str("nmi none\n")?);
    };
    text.push_str("nmi")?;
    add_plain(text, before)?;
    add_plain(text, after)?;
    let end = if has_grown(before, after) {
        " grew"
    } else {
        ""
    };
    added(write!(text, " of {budget}{end}\n"))
}

fn nmi_time_of(certificate: &Certificate) -> Option<u32> {
    nmi_of(certificate)?.time
}

fn add_plain(text: &mut String, number: Option<u32>) -> Result<(), AllocError> {
    match number {
        Some(number) => added(write!(text, " {number}")),
        None => Ok(text.push_str(" -")?),
    }
}

/// Writing to a text fails only where memory is refused.
fn added<E: Drop>(written: Result<(), E>) -> Result<(), AllocError> {
    match written {
        Ok(()) => Ok(()),
        Err(_) => Err(AllocError),
    }
}
