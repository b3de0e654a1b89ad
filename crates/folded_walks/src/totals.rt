// The dearest ways of a procedure and of those that it calls, added up by procedure.

use crate::items::{ItemKind, ProcWalk};
use crate::made::{COMPARISONS, walk_of};
use call_graph::ProcId;
use listing::View;
use std::alloc::{AllocError, Global};

/// What a procedure takes on the dearest way of another one.
#[derive(Clone, Copy)]
pub struct Total {
    pub proc: ProcId,
    /// How many times the way comes to it. Calls in loops do not count.
    pub times: u64,
    /// The T-states of its own instructions, all times together.
    pub own: u64,
    /// The T-states of its loops, or of all of it where it is given as a whole, with what they call.
    pub loops: u64,
}

/// The dearest way of a procedure, with those of the procedures to which it comes.
#[derive(Drop)]
pub struct Walks {
    /// The ways, in the order of the procedures; None if the way does not come there.
    walks: Vec<Option<ProcWalk>>,
    /// The totals of the procedures to which the way comes, the greatest first.
    totals: Vec<Total>,
    /// The procedures to which the way comes, callers first.
    order: Vec<ProcId>,
    root: ProcId,
}

impl Walks {
    /// The dearest way of a procedure; None if it has no time. Where it takes too many comparisons, callers first, a
    /// procedure is given as a whole.
    pub fn of(alloc: Global, view: &View, root: ProcId) -> Result<Option<Walks>, AllocError> {
        let procs = view.accepted().certificate().procs();
        let mut walks = Walks {
            walks: Vec::new(alloc),
            totals: Vec::new(alloc),
            order: Vec::new(alloc),
            root,
        };
        let mut times = vec![in alloc; 0u64; procs.len()]?;
        let mut order = Vec::new(alloc);
        let mut number: ProcId = 0;
        for proc in procs {
            walks.walks.push(None)?;
            order.push((proc.rank, number))?;
            number = number.saturating_add(1);
        }
        // The rank falls at each call, so callers come before what they call.
        order.sort_by_key(|(rank, number)| (u16::MAX.saturating_sub(*rank), *number))?;
        if let Some(first) = times.get_mut(usize::from(root)) {
            *first = 1;
        }
        let mut left = COMPARISONS;
        for (_, proc) in &order {
            let count = times.get(usize::from(*proc)).copied().unwrap_or(0);
            if count > 0 {
                if let Some(walk) = walk_of(alloc, view, *proc, &mut left)? {
                    walks.add(walk, count, &mut times)?;
                }
            }
        }
        walks.totals.sort_by_key(|total| {
            (
                u64::MAX.saturating_sub(total.own.saturating_add(total.loops)),
                total.proc,
            )
        })?;
        Ok(if walks.walk(root).is_some() {
            Some(walks)
        } else {
            None
        })
    }

    /// Adds the way of a procedure to which the whole way comes so many times.
    fn add(&mut self, walk: ProcWalk, count: u64, times: &mut [u64]) -> Result<(), AllocError> {
        let (mut own, mut loops) = (0u64, 0u64);
        for item in &walk.items {
            match item.kind {
                ItemKind::Accepted | ItemKind::Run(_, _) => {
                    own = own.saturating_add(u64::from(item.cost));
                }
                ItemKind::Call(callee, cost, _) => {
                    own = own.saturating_add(u64::from(cost));
                    if let Some(place) = times.get_mut(usize::from(callee)) {
                        *place = place.saturating_add(count);
                    }
                }
                ItemKind::Loop(_) | ItemKind::Whole(_) => {
                    loops = loops.saturating_add(u64::from(item.cost));
                }
            }
        }
        self.totals.push(Total {
            proc: walk.proc,
            times: count,
            own: own.saturating_mul(count),
            loops: loops.saturating_mul(count),
        })?;
        self.order.push(walk.proc)?;
        if let Some(place) = self.walks.get_mut(usize::from(walk.proc)) {
            *place = Some(walk);
        }
        Ok(())
    }

    /// The procedure from whose entry the way leads.
    pub fn root(&self) -> ProcId {
        self.root
    }

    /// The dearest way of a procedure to which the way comes.
    pub fn walk(&self, proc: ProcId) -> Option<&ProcWalk> {
        match self.walks.get(usize::from(proc)) {
            Some(Some(walk)) => Some(walk),
            _ => None,
        }
    }

    /// The procedures to which the way comes, callers first.
    pub fn order(&self) -> &[ProcId] {
        self.order.as_slice()
    }

    /// The totals of the procedures to which the way comes, the greatest first.
    pub fn totals(&self) -> &[Total] {
        self.totals.as_slice()
    }
}
