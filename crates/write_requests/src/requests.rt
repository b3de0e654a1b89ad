// What a row has to pay for.

ghost use Rattle.std.specs.Prelude.{◌≡◌, Some, length};
ghost use Rattle.check_cover.specs.Program.{callee_at};
ghost use Rattle.cert_form.specs.Contents.{map_of_board};

use abs_state::AbsState;
use abs_step::{Next, NextKind};
use address_map::{Map, Rom};
use call_graph::ProcId;
use cert_contents::{Certificate, RowId};
use cert_lines::Version;
use check_cover::{Callee, callee_at};
use check_ways::{Subject, is_lone};
use linear_effects::LinearEffect;
use loop_bounds::Effect;
use refined_step::StepTold;
use std::alloc::{AllocError, Global};

/// Adjacent rows of the same procedure that may come next, with the cost in T-states and the effect of the step.
#[derive(Clone, Copy)]
pub struct Request {
    /// The first of the rows, counted from the procedure's first row.
    pub start: u32,
    /// The number after the last row's.
    pub end: u32,
    pub cost: u32,
    pub effect: Effect,
    /// In version 3 the effect without priority for constants; before that the effect again.
    pub moved: Effect,
    /// In version 3 the variable that the step makes a linear of the variables before it, if there is one.
    pub linear: Option<LinearEffect>,
}

impl Request {
    /// Whether a potential is rewritten by the effect alone, constants first or not.
    pub fn is_plain(&self) -> bool {
        self.linear.is_none() && self.moved == self.effect
    }

    /// Whether another request has the same rows and effects.
    fn is_like(&self, other: &Request) -> bool {
        self.start == other.start
            && self.end == other.end
            && self.effect == other.effect
            && self.moved == other.moved
            && are_equal(&self.linear, &other.linear)
    }
}

/// Whether two linear effects are the same.
fn are_equal(one: &Option<LinearEffect>, other: &Option<LinearEffect>) -> bool {
    match (one, other) {
        (None, None) => true,
        (Some(one), Some(other)) => one.variable == other.variable && one.linear == other.linear,
        _ => false,
    }
}

/// A way to an address of the row's procedure: the state that arrives, the effects and the cost in T-states.
#[derive(Drop)]
struct RequestedWay<'a> {
    address: u16,
    state: &'a AbsState,
    effect: &'a Effect,
    moved: &'a Effect,
    linear: Option<LinearEffect>,
    cost: u32,
}

impl<'a> RequestedWay<'a> {
    /// The request of the rows from `start` to below `end`, counted from the row `first`.
    fn request(&self, version: Version, first: RowId, start: RowId, end: RowId) -> Request {
        let (moved, linear) = match version {
            Version::One | Version::Two => (self.effect, None),
            Version::Three => (self.moved, self.linear),
        };
        Request {
            start: start.saturating_sub(first),
            end: end.saturating_sub(first),
            cost: self.cost,
            effect: *self.effect,
            moved: *moved,
            linear,
        }
    }
}

/// What a row has to pay for: the rows that may come next; and in T-states the greatest cost of an exit, or of a call
/// that never returns.
#[derive(Drop)]
pub struct Requests {
    pub of_rows: Vec<Request>,
    pub leaving: Option<u32>,
}

/// The greater of two numbers, or the only one.
fn greater(one: Option<u32>, other: u32) -> Option<u32> {
    match one {
        Some(one) => Some(one.max(other)),
        None => Some(other),
    }
}

/// Whether the row with this number overlaps a state.
fn is_met(certificate: &Certificate, id: RowId, state: &AbsState) -> bool {
    match certificate.row(id) {
        Some(row) => row.overlaps(state),
        None => false,
    }
}

impl Requests {
    /// What the subject's row has to pay for. `times` has the T-states of procedures by their numbers.
    pub(crate) fn of(
        alloc: Global,
        subject: &Subject,
        times: &[u32],
    ) -> Result<Requests, AllocError> {
        let mut requests = Requests {
            of_rows: Vec::new(alloc),
            leaving: None,
        };
        // A restart goes on in main, which has no potentials.
        if subject.restarts() {
            return Ok(requests);
        }
        let step = subject.row_step(alloc);
        if let Ok(nexts) = &step.answer {
            for next in nexts.as_slice() {
                requests.add(alloc, subject, times, next, &step.told)?;
            }
        }
        Ok(requests)
    }

    /// Adds the requests of a successor. `told` is what the step says beside it.
    fn add(
        &mut self,
        alloc: Global,
        subject: &Subject,
        times: &[u32],
        next: &Next,
        told: &StepTold,
    ) -> Result<(), AllocError> {
        match next.kind {
            NextKind::Jump => self.add_rows(
                subject,
                &RequestedWay {
                    address: next.address,
                    state: &next.state,
                    effect: &next.effect,
                    moved: &next.moved,
                    linear: told.linear,
                    cost: u32::from(next.cost),
                },
            ),
            NextKind::Exit => {
                self.leaving = greater(self.leaving, u32::from(next.cost));
                Ok(())
            }
            NextKind::Call => match callee_at(subject.certificate, next.address) {
                Some(callee) => self.add_call(alloc, subject, times, next, &callee),
                None => Ok(()),
            },
        }
    }

    /// Adds the requests of a way.
    fn add_rows(&mut self, subject: &Subject, way: &RequestedWay) -> Result<(), AllocError> {
        let certificate = subject.certificate;
        let proc = subject.row.proc;
        let rows = certificate.rows_at(proc, way.address);
        let lone = is_lone(certificate, proc, way.address);
        let mut start = rows.start;
        for id in rows.start..rows.end {
            if !lone && !is_met(certificate, id, way.state) {
                self.add_run(subject, way, start, id)?;
                start = id.saturating_add(1);
            }
        }
        self.add_run(subject, way, start, rows.end)
    }

    /// Adds the rows from `start` to below `end`, if there are any. If the last request has the same rows and effects,
    /// it stays, with the greater cost.
    fn add_run(
        &mut self,
        subject: &Subject,
        way: &RequestedWay,
        start: RowId,
        end: RowId,
    ) -> Result<(), AllocError> {
        if start >= end {
            return Ok(());
        }
        let certificate = subject.certificate;
        let first = certificate.rows_of(subject.row.proc).start;
        let run = way.request(certificate.version(), first, start, end);
        match self.of_rows.last_mut() {
            Some(last) if last.is_like(&run) => last.cost = last.cost.max(run.cost),
            _ => self.of_rows.push(run)?,
        }
        Ok(())
    }

    /// Adds the requests of a call, back from each exit of the callee.
    fn add_call(
        &mut self,
        alloc: Global,
        subject: &Subject,
        times: &[u32],
        next: &Next,
        callee: &Callee,
    ) -> Result<(), AllocError>
        requires { callee_at subject.now.cert next.now.address ≡ Some callee.now }
    {
        let time = times.get(usize::from(callee.number)).copied().unwrap_or(0);
        let rows = subject.certificate.rows_of(callee.number);
        let mut comes_back = false;
        for id in rows.start..rows.end {
            if let Some(exits) = subject.exits_at(alloc, id) {
                for exit in exits.as_slice() {
                    if exit.kind == NextKind::Exit {
                        comes_back = true;
                        let way = subject.return_way(next, callee, &exit.state);
                        self.add_rows(
                            subject,
                            &RequestedWay {
                                address: way.address,
                                state: &way.state,
                                effect: &way.effect,
                                moved: &way.moved,
                                linear: None,
                                cost: way.cost.saturating_add(time),
                            },
                        )?;
                    }
                }
            }
        }
        if !comes_back {
            self.leaving = greater(self.leaving, u32::from(next.cost).saturating_add(time));
        }
        Ok(())
    }
}

/// What each row of a procedure has to pay for, in the order of the rows. `times` has the T-states of procedures by
/// their numbers. The ROM has to have as many bytes as the certificate says. The error is refused memory.
pub fn requests_of(
    alloc: Global,
    rom: &Rom,
    certificate: &Certificate,
    proc: ProcId,
    times: &[u32],
) -> Result<Vec<Requests>, AllocError>
    requires { certificate.now.rom_len ≡ length rom.now }
{
    let map = certificate.board().map(rom.len());
    let rows = certificate.rows_of(proc);
    let mut all = Vec::new(alloc);
    for id in rows.start..rows.end {
        all.push(requests_at(alloc, rom, &map, certificate, id, times)?)?;
    }
    Ok(all)
}

/// What the row with this number has to pay for.
fn requests_at(
    alloc: Global,
    rom: &Rom,
    map: &Map,
    certificate: &Certificate,
    id: u32,
    times: &[u32],
) -> Result<Requests, AllocError>
    requires map { map.now ≡ map_of_board certificate.now }
    requires len { map.now.rom_len ≡ length rom.now }
{
    match Subject::of(rom, map, certificate, id) {
        Some(subject) => Requests::of(alloc, &subject, times),
        None => Ok(Requests {
            of_rows: Vec::new(alloc),
            leaving: None,
        }),
    }
}
