// A depth-first walk along the calls that orders the procedures by groups (strongly connected components).
ghost use Rattle.std.specs.Prelude.{◌≡◌, ◌≢◌, ℕ, ◌+◌, ◌-◌, ◌<◌, ◌≤◌, ◌↔◌, ◌⊎◌, IsTrue, List, IfNone, IfOk, IfSome, OnOk, length, slice_index, sum_by, vec_len};
ghost use Rattle.call_graph.specs.Calls.{Occurs, Reaches};
ghost use Rattle.call_graph.specs.Walk.{ByCaller, IsWalkOf, Settled, StaysSeen, IsInGroup, caller_at, callee_of_edge, frame_at, mark_at, mark_work, work};

use crate::edge::{Edge, NUMBERS, ProcId, first_call};
use std::alloc::{AllocError, Global};

/// The state of a procedure in the walk.
#[derive(Clone, Copy)]
pub(crate) enum Mark {
    Unseen,
    /// Met, at this place among those that are met and not in order.
    Met(usize),
    /// In order, in the group that begins at this place.
    Done(usize),
}

/// A procedure on the path: its place among those that are met, the index of the call that the walk follows from it,
/// and the lowest place that calls are known to lead to from it.
#[derive(Clone, Copy)]
pub(crate) struct Visit {
    pub(crate) place: usize,
    pub(crate) next: usize,
    pub(crate) low: usize,
}

/// A depth-first walk along the calls. It orders the procedures by groups: calls lead from each procedure of a group to
/// each other one, and from none to a later group.
#[derive(Drop)]
pub(crate) struct Walk {
    pub(crate) marks: Vec<Mark>,
    pub(crate) met: Vec<ProcId>,
    pub(crate) path: Vec<Visit>,
    pub(crate) order: Vec<ProcId>,
}

/// Marks for this many procedures, all unseen.
fn unseen(alloc: Global, count: usize) -> Result<Vec<Mark>, AllocError>
    ensures room { IfOk result (λ marks. vec_len marks ≡ count) }
    ensures unseen { IfOk result (λ marks. (p : ℕ) → mark_at marks.items p ≡ Mark.Unseen) }
{
    vec![in alloc; Mark::Unseen; count]
}

/// Marks these procedures as in order, in this group.
fn mark_group(marks: &mut [Mark], procs: &[ProcId], group: usize)
    requires { length marks.old ≡ 65536 }
    ensures each { (p : ℕ)
        → ((i : ℕ) × (i < length procs.now) × (slice_index procs.now i ≡ p)
        × (mark_at marks.new p ≡ Mark.Done group))
        ⊎ ((mark_at marks.new p ≡ mark_at marks.old p)
        × ((i : ℕ) → i < length procs.now → slice_index procs.now i ≢ p)) }
    ensures less { (count : ℕ)
        → sum_by (mark_work count) marks.new ≤ sum_by (mark_work count) marks.old }
{
    for proc in procs {
        marks[usize::from(*proc)] = Mark::Done(group);
    }
}

/// Whether a call stays within a group.
fn is_within(marks: &[Mark], edge: Edge) -> bool
    requires { length marks.now ≡ 65536 }
    ensures { IsTrue result
        ↔ ((a : ℕ) × (mark_at marks.now edge.caller ≡ Mark.Done a)
        × (mark_at marks.now edge.callee ≡ Mark.Done a)) }
{
    match (
        marks[usize::from(edge.caller)],
        marks[usize::from(edge.callee)],
    ) {
        (Mark::Done(one), Mark::Done(other)) => one == other,
        _ => false,
    }
}

impl Walk {
    /// A walk that has seen nothing yet.
    pub(crate) fn new(alloc: Global) -> Result<Self, AllocError>
        ensures holds { IfOk result (λ walk. (edges : List Edge) → IsWalkOf edges walk) }
        ensures empty { IfOk result (λ walk. length walk.path.items ≡ 0) }
    {
        Ok(Walk {
            marks: unseen(alloc, NUMBERS)?,
            met: Vec::new(alloc),
            path: Vec::new(alloc),
            order: Vec::new(alloc),
        })
    }

    /// Goes on to an unseen procedure, which the last one on the path, if any, calls.
    fn enter(&mut self, calls: &[Edge], proc: ProcId) -> Result<(), AllocError>
        requires rising { ByCaller calls.now }
        requires holds { IsWalkOf calls.now self.old }
        requires unseen { mark_at self.old.marks.items proc ≡ Mark.Unseen }
        requires known { Occurs calls.now proc }
        requires called { (k : ℕ) → k + 1 ≡ length self.old.path.items
            → (frame_at self.old.path.items k).next < length calls.now
            × (caller_at calls.now (frame_at self.old.path.items k).next
            ≡ slice_index self.old.met.items (frame_at self.old.path.items k).place)
            × (callee_of_edge calls.now (frame_at self.old.path.items k).next ≡ proc) }
        ensures holds { OnOk result (IsWalkOf calls.now self.new) }
        ensures less { OnOk result (work calls.now self.new < work calls.now self.old) }
        ensures seen { OnOk result (mark_at self.new.marks.items proc ≢ Mark.Unseen
            × StaysSeen self.old self.new) }
    {
        let place = self.met.len();
        self.met.push(proc)?;
        self.path.push(Visit {
            place,
            next: first_call(calls, proc),
            low: place,
        })?;
        self.marks[usize::from(proc)] = Mark::Met(place);
        Ok(())
    }

    /// Finishes the call that is followed. Its callee is in order, or met at `place` or later. Calls lead from the last
    /// procedure on the path to the one met at `place`.
    fn advance(&mut self, calls: &[Edge], place: usize)
        requires holds { IsWalkOf calls.now self.old }
        requires some { 0 < length self.old.path.items }
        requires edge { (frame_at self.old.path.items
            (length self.old.path.items - 1)).next < length calls.now }
        requires settled { Settled (mark_at self.old.marks.items) place
            (callee_of_edge calls.now
            (frame_at self.old.path.items (length self.old.path.items - 1)).next) }
        requires reaches { Reaches calls.now
            (slice_index self.old.met.items
            (frame_at self.old.path.items (length self.old.path.items - 1)).place)
            (slice_index self.old.met.items place) }
        ensures holds { IsWalkOf calls.now self.new }
        ensures less { work calls.now self.new < work calls.now self.old }
        ensures marks { self.new.marks ≡ self.old.marks }
    {
        let last = self.path.len() - 1;
        let top = self.path[last];
        self.path[last] = Visit {
            place: top.place,
            next: top.next + 1,
            low: top.low.min(place),
        };
    }

    /// Takes the last procedure off the path. All its calls were followed, and calls lead from it to a procedure met
    /// before it. From now on it belongs with the one before it on the path.
    fn merge(&mut self, calls: &[Edge])
        requires holds { IsWalkOf calls.now self.old }
        requires some { 0 < length self.old.path.items }
        requires done { (i : ℕ) → i < length calls.now
            → caller_at calls.now i
            ≡ slice_index self.old.met.items
            (frame_at self.old.path.items (length self.old.path.items - 1)).place
            → i < (frame_at self.old.path.items (length self.old.path.items - 1)).next }
        requires low { (frame_at self.old.path.items (length self.old.path.items - 1)).low <
            (frame_at self.old.path.items (length self.old.path.items - 1)).place }
        ensures holds { IsWalkOf calls.now self.new }
        ensures less { work calls.now self.new < work calls.now self.old }
        ensures marks { self.new.marks ≡ self.old.marks }
    {
        let last = self.path.len() - 1;
        let low = self.path[last].low;
        let before = self.path[last - 1];
        self.path.truncate(last);
        self.path[last - 1] = Visit {
            place: before.place,
            next: before.next,
            low: before.low.min(low),
        };
    }

    /// Takes the last procedure off the path. All its calls were followed, and no calls lead from it to a procedure met
    /// before it. With those that belong with it, it is put in order as a group.
    fn close(&mut self, calls: &[Edge]) -> Result<(), AllocError>
        requires holds { IsWalkOf calls.now self.old }
        requires some { 0 < length self.old.path.items }
        requires done { (i : ℕ) → i < length calls.now
            → caller_at calls.now i
            ≡ slice_index self.old.met.items
            (frame_at self.old.path.items (length self.old.path.items - 1)).place
            → i < (frame_at self.old.path.items (length self.old.path.items - 1)).next }
        requires low { (frame_at self.old.path.items (length self.old.path.items - 1)).place ≤
            (frame_at self.old.path.items (length self.old.path.items - 1)).low }
        ensures holds { OnOk result (IsWalkOf calls.now self.new) }
        ensures less { OnOk result (work calls.now self.new < work calls.now self.old) }
        ensures seen { OnOk result (StaysSeen self.old self.new) }
    {
        let last = self.path.len() - 1;
        let place = self.path[last].place;
        let group = self.order.len();
        self.order.extend_from_slice(&self.met[place..])?;
        mark_group(&mut self.marks, &self.met[place..], group);
        self.met.truncate(place);
        self.path.truncate(last);
        Ok(())
    }

    /// One step from the last procedure on the path: enters or finishes its next callee, or leaves the path after the
    /// last.
    fn step(&mut self, calls: &[Edge]) -> Result<(), AllocError>
        requires rising { ByCaller calls.now }
        requires holds { IsWalkOf calls.now self.old }
        requires some { 0 < length self.old.path.items }
        ensures holds { OnOk result (IsWalkOf calls.now self.new) }
        ensures less { OnOk result (work calls.now self.new < work calls.now self.old) }
        ensures seen { OnOk result (StaysSeen self.old self.new) }
    {
        let top = self.path[self.path.len() - 1];
        if top.next >= calls.len() || calls[top.next].caller != self.met[top.place] {
            if top.low == top.place {
                return self.close(calls);
            }
            self.merge(calls);
            return Ok(());
        }
        let callee = calls[top.next].callee;
        match self.marks[usize::from(callee)] {
            Mark::Unseen => return self.enter(calls, callee),
            Mark::Met(place) => self.advance(calls, place),
            Mark::Done(_) => self.advance(calls, top.place),
        }
        Ok(())
    }

    /// Walks from a procedure until it is in order, with all that it leads to.
    pub(crate) fn visit(&mut self, calls: &[Edge], proc: ProcId) -> Result<(), AllocError>
        requires rising { ByCaller calls.now }
        requires holds { IsWalkOf calls.now self.old }
        requires known { Occurs calls.now proc }
        requires empty { length self.old.path.items ≡ 0 }
        ensures holds { OnOk result (IsWalkOf calls.now self.new) }
        ensures empty { OnOk result (length self.new.path.items ≡ 0) }
        ensures seen { OnOk result (mark_at self.new.marks.items proc ≢ Mark.Unseen
            × StaysSeen self.old self.new) }
    {
        if let Mark::Unseen = self.marks[usize::from(proc)] {
            self.enter(calls, proc)?;
            while !self.path.is_empty() {
                self.step(calls)?;
            }
        }
        Ok(())
    }

    /// The caller of the first call that stays within a group.
    pub(crate) fn first_within(&self, calls: &[Edge]) -> Option<ProcId>
        requires { vec_len self.now.marks ≡ 65536 }
        ensures some { IfSome result (λ p. (i : ℕ) × (i < length calls.now)
            × (caller_at calls.now i ≡ p) × IsInGroup calls.now self.now.marks.items i
            × ((j : ℕ) → j < i → IsInGroup calls.now self.now.marks.items j → ⊥)) }
        ensures none { IfNone result ((j : ℕ) → j < length calls.now
            → IsInGroup calls.now self.now.marks.items j → ⊥) }
    {
        for edge in calls {
            if is_within(&self.marks, *edge) {
                return Some(edge.caller);
            }
        }
        None
    }
}
