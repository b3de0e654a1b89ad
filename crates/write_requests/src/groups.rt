// The groups of a procedure's rows: its strongly connected components. The depth-first search keeps a stack of rows.

use crate::runs::RowRuns;
use std::alloc::{AllocError, Global};

/// What the search knows of a row.
#[derive(Clone, Copy)]
enum Mark {
    Unseen,
    /// Met but in no group yet, at this place of the stack.
    Met(usize),
    /// In a group, or left out.
    Done,
}

/// A row on the search's path: its place on the stack, the lowest place to which it is known to lead, and the next link
/// to follow: the place of its run, and of its row in the run.
#[derive(Clone, Copy)]
struct Visit {
    row: u16,
    place: usize,
    low: usize,
    run: usize,
    next: u16,
}

/// The number of no group: a procedure has at most 65,535 rows, so no group has it.
const NO_GROUP: u16 = u16::MAX;

/// A row with the number of its group and its own. Groups are numbered in the order in which they are found, so no link
/// leads to a group with a higher number; `left` numbers rows in the order in which the search leaves them.
#[derive(Clone, Copy)]
pub struct Placed {
    pub row: u16,
    pub group: u16,
    pub left: u16,
}

impl Placed {
    /// Whether the row is in a group, so was not left out.
    pub(crate) fn is_in_group(&self) -> bool {
        self.group != NO_GROUP
    }
}

/// A depth-first search along the links.
#[derive(Drop)]
struct Walk<'a> {
    all: &'a [RowRuns],
    marks: Vec<Mark>,
    met: Vec<u16>,
    path: Vec<Visit>,
    placed: Vec<Placed>,
    root: usize,
    groups: u16,
    left: u16,
}

/// The rows of a procedure, by their numbers, each with its group, by the rows that may come next after each. Rows of
/// `left_out` get none. The error is refused memory.
pub fn placed_rows(
    alloc: Global,
    all: &[RowRuns],
    left_out: &[bool],
) -> Result<Vec<Placed>, AllocError> {
    let mut walk = Walk::new(alloc, all, left_out)?;
    for _ in 0..steps_through(all) {
        walk.step()?;
    }
    Ok(walk.placed)
}

/// The most steps of a search: two for each row, and for each run one more than it has rows.
fn steps_through(all: &[RowRuns]) -> u64 {
    let mut steps = 0u64;
    for runs in all {
        steps = steps.saturating_add(steps_from(runs));
    }
    steps
}

/// The most steps of a search at a row.
fn steps_from(runs: &RowRuns) -> u64 {
    let mut steps = 2u64;
    for run in runs.as_slice() {
        let rows = run.end.saturating_sub(run.start);
        steps = steps.saturating_add(u64::from(rows)).saturating_add(1);
    }
    steps
}

/// The number of a row; a certificate has at most 65,535 rows.
fn row_number(row: usize) -> u16 {
    row.min(65_535) as u16
}

impl<'a> Walk<'a> {
    fn new(alloc: Global, all: &'a [RowRuns], left_out: &[bool]) -> Result<Walk<'a>, AllocError> {
        let mut marks = Vec::new(alloc);
        let mut placed = Vec::new(alloc);
        for row in 0..all.len() {
            let is_out = left_out.get(row).copied() == Some(true);
            marks.push(if is_out { Mark::Done } else { Mark::Unseen })?;
            placed.push(Placed {
                row: row_number(row),
                group: NO_GROUP,
                left: 0,
            })?;
        }
        Ok(Walk {
            all,
            marks,
            met: Vec::new(alloc),
            path: Vec::new(alloc),
            placed,
            root: 0,
            groups: 0,
            left: 0,
        })
    }

    /// One step: follows a link of the last row on the path, or goes to the next row if the path is empty.
    fn step(&mut self) -> Result<(), AllocError> {
        match self.path.pop() {
            Some(frame) => self.follow(frame),
            None => {
                let root = row_number(self.root);
                self.root = self.root.saturating_add(1);
                self.meet(root)
            }
        }
    }

    /// Follows the next link of a row, or leaves the row.
    fn follow(&mut self, frame: Visit) -> Result<(), AllocError> {
        let mut frame = frame;
        let all = self.all;
        let Some(runs) = all.get(usize::from(frame.row)) else {
            return Ok(());
        };
        let Some(run) = runs.as_slice().get(frame.run) else {
            return self.leave(frame);
        };
        let to = run.start.saturating_add(frame.next);
        if to >= run.end {
            frame.run = frame.run.saturating_add(1);
            frame.next = 0;
            self.path.push(frame)?;
            return Ok(());
        }
        frame.next = frame.next.saturating_add(1);
        self.arrive(frame, to)
    }

    /// Follows the link to a row.
    fn arrive(&mut self, frame: Visit, to: u16) -> Result<(), AllocError> {
        let mut frame = frame;
        if let Some(Mark::Met(place)) = self.marks.get(usize::from(to)).copied() {
            frame.low = frame.low.min(place);
        }
        self.path.push(frame)?;
        self.meet(to)
    }

    /// Puts a row on the path and the stack, if it is unseen.
    fn meet(&mut self, row: u16) -> Result<(), AllocError> {
        let place = self.met.len();
        let Some(mark) = self.marks.get_mut(usize::from(row)) else {
            return Ok(());
        };
        if let Mark::Unseen = *mark {
            *mark = Mark::Met(place);
            self.met.push(row)?;
            self.path.push(Visit {
                row,
                place,
                low: place,
                run: 0,
                next: 0,
            })?;
        }
        Ok(())
    }

    /// Leaves a row. If it leads to no lower place of the stack, its group is complete; otherwise the row before it on
    /// the path leads there too.
    fn leave(&mut self, frame: Visit) -> Result<(), AllocError> {
        if let Some(placed) = self.placed.get_mut(usize::from(frame.row)) {
            placed.left = self.left;
        }
        self.left = self.left.saturating_add(1);
        if frame.low >= frame.place {
            self.close(frame.place);
        } else if let Some(before) = self.path.last_mut() {
            before.low = before.low.min(frame.low);
        }
        Ok(())
    }

    /// Puts the rows from this place of the stack on into a new group.
    fn close(&mut self, place: usize) {
        for at in place..self.met.len() {
            if let Some(row) = self.met.get(at).copied() {
                self.put(row);
            }
        }
        self.met.truncate(place);
        self.groups = self.groups.saturating_add(1);
    }

    /// Puts a row into the new group.
    fn put(&mut self, row: u16) {
        if let Some(mark) = self.marks.get_mut(usize::from(row)) {
            *mark = Mark::Done;
        }
        if let Some(placed) = self.placed.get_mut(usize::from(row)) {
            placed.group = self.groups;
        }
    }
}
