// Where the value of a variable comes from.

use crate::explored::Explored;
use analysis::FlowFault;
use inferred_rows::ContextPoint;
use judged_rows::ArrivingKind;
use loop_bounds::{Change, Ranges, Variable};
use row_worklist::RowEdge;
use std::alloc::Global;
use std::collections::BTreeSet;
use z80_decode::Instr;

/// The most steps of a chain.
const ORIGINS: usize = 6;

/// The most rows through which a value is followed.
const ROWS: u32 = 2_000;

/// What gives a variable its value.
#[derive(Drop)]
pub struct Origin {
    /// The address of the instruction, or of the row at which paths join.
    pub at: u16,
    pub variable: Variable,
    pub kind: OriginKind,
}

/// How a variable gets its value.
#[derive(Drop)]
pub enum OriginKind {
    /// The instruction loads it.
    Set,
    /// The instruction changes it.
    Changed,
    /// The instruction copies it from another variable.
    Moved(Variable),
    /// It comes back from a call.
    Returned,
    /// Several addresses lead there.
    Joined(Vec<u16>),
    /// Nothing is known of it at the entry of main or of the NMI routine.
    Unknown,
}

/// A value that is followed.
#[derive(Clone, Copy)]
struct Followed {
    row: u64,
    variable: Variable,
}

/// A search for origins.
#[derive(Drop)]
struct Tracing {
    seen: BTreeSet<(u64, u16)>,
    todo: Vec<Followed>,
    found: Vec<Origin>,
}

/// Where the value of a variable at a row comes from: at most six steps, the nearest first.
///
/// # Errors
///
/// `NoMemory` where memory was refused.
pub fn origins_of(
    alloc: Global,
    explored: &Explored,
    row: u64,
    variable: Variable,
) -> Result<Vec<Origin>, FlowFault> {
    let mut tracing = Tracing {
        seen: BTreeSet::new(alloc),
        todo: Vec::new(alloc),
        found: Vec::new(alloc),
    };
    tracing.follow(row, &variable)?;
    let mut place = 0usize;
    for _ in 0..ROWS {
        let next = match tracing.todo.get(place) {
            Some(next) => *next,
            None => break,
        };
        if tracing.found.len() >= ORIGINS {
            break;
        }
        tracing.go_back(alloc, explored, &next)?;
        place = place.saturating_add(1);
    }
    let Tracing { found, .. } = tracing;
    Ok(found)
}

impl Tracing {
    /// Follows a variable at a row, if it is new.
    fn follow(&mut self, row: u64, variable: &Variable) -> Result<(), FlowFault> {
        if self.seen.insert((row, variable.rank()))? {
            self.todo.push(Followed {
                row,
                variable: *variable,
            })?;
        }
        Ok(())
    }

    /// Adds a step of the chain, if it is new and there is room.
    fn add(&mut self, at: u16, variable: &Variable, kind: OriginKind) -> Result<(), FlowFault> {
        let is_join = matches!(&kind, OriginKind::Joined(_));
        let is_there = self.found.iter().any(|other| {
            other.at == at && is_join == matches!(&other.kind, OriginKind::Joined(_))
        });
        if !is_there && self.found.len() < ORIGINS {
            self.found.push(Origin {
                at,
                variable: *variable,
                kind,
            })?;
        }
        Ok(())
    }

    /// Goes back over the steps that come to a row.
    fn go_back(
        &mut self,
        alloc: Global,
        explored: &Explored,
        of: &Followed,
    ) -> Result<(), FlowFault> {
        let edges = explored.incoming(of.row);
        let here = ContextPoint::of(of.row).address;
        if edges.is_empty() {
            return self.add(here, &of.variable, OriginKind::Unknown);
        }
        let from = sources_of(alloc, edges)?;
        if from.len() > 1 {
            self.add(here, &of.variable, OriginKind::Joined(from))?;
        }
        for edge in edges {
            self.go_over(explored, &of.variable, edge)?;
        }
        Ok(())
    }

    /// Goes back over one step.
    fn go_over(
        &mut self,
        explored: &Explored,
        variable: &Variable,
        edge: &RowEdge,
    ) -> Result<(), FlowFault> {
        let at = ContextPoint::of(edge.from).address;
        match edge.effect.change(*variable) {
            Change::Old(other) => {
                self.follow(edge.from, &other)?;
                if other == *variable {
                    return Ok(());
                }
                self.add(at, variable, OriginKind::Moved(other))
            }
            Change::Raised(other) | Change::Lowered(other) => {
                self.follow(edge.from, &other)?;
                self.add(at, variable, OriginKind::Changed)
            }
            Change::Constant(value) => {
                if had_value(explored, edge.from, variable, value) {
                    self.follow(edge.from, variable)
                } else {
                    self.add(at, variable, OriginKind::Set)
                }
            }
            Change::Unknown => self.go_over_unknown(explored, variable, edge),
        }
    }

    /// Goes back over a step that leaves a variable unknown.
    fn go_over_unknown(
        &mut self,
        explored: &Explored,
        variable: &Variable,
        edge: &RowEdge,
    ) -> Result<(), FlowFault> {
        let at = ContextPoint::of(edge.from).address;
        if edge.kind == ArrivingKind::Return {
            return self.add(at, variable, OriginKind::Returned);
        }
        let high = self.follow_kept(edge, high_of(variable))?;
        let low = self.follow_kept(edge, low_of(variable))?;
        let changes = match explored.instr_at(at) {
            Some(instr) => is_sum(&instr),
            None => false,
        };
        if changes || high || low {
            self.add(at, variable, OriginKind::Changed)?;
        } else {
            self.add(at, variable, OriginKind::Set)?;
        }
        if changes {
            self.follow(edge.from, variable)?;
        }
        Ok(())
    }

    /// Follows a byte that a step leaves as it was. The result is whether it does.
    fn follow_kept(&mut self, edge: &RowEdge, byte: Option<Variable>) -> Result<bool, FlowFault> {
        let Some(byte) = byte else {
            return Ok(false);
        };
        match edge.effect.change(byte) {
            Change::Old(other) => {
                self.follow(edge.from, &other)?;
                Ok(true)
            }
            Change::Raised(_) | Change::Lowered(_) | Change::Constant(_) | Change::Unknown => {
                Ok(false)
            }
        }
    }
}

/// Whether a variable has one value at a row.
fn had_value(explored: &Explored, row: u64, variable: &Variable, value: u16) -> bool {
    match explored.row(row) {
        Some(row) => row.state.range(*variable).value() == Some(value),
        None => false,
    }
}

/// The addresses from which steps come, each once, at most six.
fn sources_of(alloc: Global, edges: &[RowEdge]) -> Result<Vec<u16>, FlowFault> {
    let mut from: Vec<u16> = Vec::new(alloc);
    for edge in edges {
        let address = ContextPoint::of(edge.from).address;
        if !from.contains(&address) && from.len() < ORIGINS {
            from.push(address)?;
        }
    }
    Ok(from)
}

/// The high byte of a pair.
fn high_of(variable: &Variable) -> Option<Variable> {
    match variable {
        Variable::Bc => Some(Variable::B),
        Variable::De => Some(Variable::D),
        Variable::Hl => Some(Variable::H),
        _ => None,
    }
}

/// The low byte of a pair.
fn low_of(variable: &Variable) -> Option<Variable> {
    match variable {
        Variable::Bc => Some(Variable::C),
        Variable::De => Some(Variable::E),
        Variable::Hl => Some(Variable::L),
        _ => None,
    }
}

/// Whether an instruction makes its result of what the register held before.
fn is_sum(instr: &Instr) -> bool {
    matches!(
        instr,
        Instr::AddHl(_)
            | Instr::AdcHl(_)
            | Instr::SbcHl(_)
            | Instr::AddIndex(_, _)
            | Instr::IncrementPair(_)
            | Instr::DecrementPair(_)
            | Instr::Increment(_)
            | Instr::Decrement(_)
            | Instr::Arithmetic(_, _)
            | Instr::BlockLoad(_)
            | Instr::BlockCompare(_)
            | Instr::DecrementJump(_)
    )
}
