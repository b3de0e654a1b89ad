// The comparisons for one row: where its ways arrive, and where its calls enter.

ghost use Rattle.std.specs.Prelude.{◌≡◌, Some};
ghost use Rattle.check_cover.specs.Program.{callee_at};

use crate::plain::PlainWork;
use abs_step::{Next, NextKind};
use call_graph::ProcId;
use check_cover::{Callee, Coverer, callee_at};
use check_tables::Tables;
use check_ways::{Subject, comes_back_at_once, pays_place};
use std::alloc::Global;

/// A potential that is compared with another one counts as so many comparisons.
const FOR_PAYMENT: u64 = 16;

/// How arrivals are counted.
#[derive(Drop)]
pub(crate) enum Search<'a> {
    /// Each row at an address counts.
    Plain(PlainWork),
    /// What a search takes counts, and what is found at once.
    Indexed(Coverer<'a>),
}

impl<'a> Search<'a> {
    /// The work of one state that arrives at an address of a procedure.
    fn at(&self, subject: &Subject, proc: ProcId, address: u16) -> u64 {
        match self {
            Search::Plain(plain) => plain.at(subject.certificate, proc, address),
            Search::Indexed(coverer) => coverer.work_at(proc, address),
        }
    }

    /// Whether a search finds that one row covers what comes back from each exit of a callee.
    fn comes_back_at_once(&mut self, subject: &Subject, next: &Next, callee: &Callee) -> bool {
        match self {
            Search::Plain(_) => false,
            Search::Indexed(coverer) => comes_back_at_once(subject, next, callee, coverer),
        }
    }
}

/// The comparisons for one row.
pub(crate) fn of_row(
    alloc: Global,
    subject: &Subject,
    tables: &Tables,
    search: &mut Search,
) -> u64 {
    let Ok(nexts) = subject.step(alloc) else {
        return 1;
    };
    let mut count = 1u64;
    for next in nexts.as_slice() {
        count = count.saturating_add(of_next(subject, next, tables, search));
    }
    count
}

fn of_next(subject: &Subject, next: &Next, tables: &Tables, search: &mut Search) -> u64 {
    match next.kind {
        NextKind::Jump => of_jump(subject, next, search),
        NextKind::Call => match callee_at(subject.certificate, next.address) {
            Some(callee) => of_call(subject, next, &callee, tables, search),
            None => 1,
        },
        NextKind::Exit => 1,
    }
}

fn of_jump(subject: &Subject, next: &Next, search: &Search) -> u64 {
    let proc = if subject.restarts() {
        0
    } else {
        subject.row.proc
    };
    let paying = of_paying(subject, proc, next.address, u32::from(next.cost));
    search
        .at(subject, proc, next.address)
        .saturating_add(paying)
}

/// A call enters its callee, and comes back from each different exit, or at once from all of them.
fn of_call(
    subject: &Subject,
    next: &Next,
    callee: &Callee,
    tables: &Tables,
    search: &mut Search,
) -> u64
    requires { callee_at subject.now.cert next.now.address ≡ Some callee.now }
{
    let (proc, behind) = (subject.row.proc, subject.behind);
    let entry = search.at(subject, callee.number, next.address);
    let back = search.at(subject, proc, behind);
    let exits = exits_of(subject, callee.number, tables);
    let covering = if search.comes_back_at_once(subject, next, callee) {
        back
    } else {
        exits.saturating_mul(back)
    };
    let paying = of_paying(subject, proc, behind, subject.call_cost(next, callee));
    let paying = if paying > FOR_PAYMENT {
        exits.saturating_mul(paying)
    } else {
        paying
    };
    entry.saturating_add(covering).saturating_add(paying)
}

/// How many different exits a procedure has at most.
fn exits_of(subject: &Subject, proc: ProcId, tables: &Tables) -> u64 {
    match tables.exits(proc) {
        Some(exits) => exits.lefts().len() as u64,
        None => u64::from(subject.certificate.row_count()),
    }
}

/// In a procedure with a time the greatest potential at the address is compared, or each of them.
fn of_paying(subject: &Subject, proc: ProcId, address: u16, cost: u32) -> u64 {
    if subject.proc.time.is_none() {
        return 0;
    }
    if pays_place(subject, proc, address, cost) {
        return FOR_PAYMENT;
    }
    let rows = subject.certificate.rows_at(proc, address);
    let count = u64::from(rows.end.saturating_sub(rows.start)).saturating_add(1);
    count.saturating_mul(FOR_PAYMENT)
}
