// The potentials of rows, by those of the rows that come next.

use crate::fault::PotentialFault;
use crate::heads::{exchange_turns, give_first_up, restore_turns, set_zero, share_turns};
use cert_contents::Certificate;
use loop_bounds::{GREATEST_CONSTANT, Linear};
use std::alloc::Global;
use write_payments::{Choice, Payer, Unpaid, least_of_constants, multiple_of, with_constant};
use write_requests::Requests;

/// The least constant of a potential.
const LOWEST: i32 = -(GREATEST_CONSTANT as i32);

/// Of so many loops at most turns with loops within them are found.
const NESTED: usize = 16;

/// A constant above those of most potentials. With it a row pays for everything but its loop's own turns.
const HIGH: i32 = 250_000_000;

/// A loop's row, by its number within the procedure.
#[derive(Clone, Copy)]
pub(crate) struct Head {
    pub(crate) row: u16,
    /// The multiple of its counter that a turn costs.
    pub(crate) turn: Linear,
    /// The same without the turns of loops within it.
    pub(crate) bare_turn: Linear,
    /// The multiple for the turns that rows at its address share: paths from one of them to one of them.
    pub(crate) shared_turn: Linear,
    /// The multiple for the longest turn of the group, which may pass other loops' rows.
    pub(crate) longest_turn: Linear,
    /// Whether it has own turns, which pass no other loop's row.
    pub(crate) has_own_turns: bool,
    /// Whether its constant is 0, because none pays.
    pub(crate) is_zero: bool,
    /// Whether what a turn costs is still to be found: until then its constant is the least one.
    pub(crate) waits: bool,
}

/// The rows of a group: the loops' rows, and the others, each after those others to which it links.
#[derive(Drop)]
pub(crate) struct Group {
    pub(crate) heads: Vec<Head>,
    pub(crate) others: Vec<u16>,
}

/// What the potential of a loop's row says of the loops around it.
#[derive(Clone, Copy, PartialEq, Eq)]
pub enum Nesting {
    /// Nothing: a loop within a loop is not bounded.
    Apart,
    /// What is owed to them, by their counters.
    Carried,
}

/// The rows of a procedure, with what each has to pay for and the potentials that are known.
#[derive(Drop)]
pub(crate) struct Solving<'a> {
    certificate: &'a Certificate,
    first: u32,
    all: &'a [Requests],
    known: Vec<Option<Linear>>,
    nesting: Nesting,
    /// Whether loops' rows carry what is owed to loops around them now.
    carries: bool,
}

impl<'a> Solving<'a> {
    pub(crate) fn new(
        alloc: Global,
        certificate: &'a Certificate,
        first: u32,
        all: &'a [Requests],
        nesting: Nesting,
    ) -> Result<Solving<'a>, PotentialFault> {
        Ok(Solving {
            certificate,
            first,
            all,
            known: vec![in alloc; None; all.len()]?,
            nesting,
            carries: false,
        })
    }

    /// The potential of a row; 0 if none is known.
    pub(crate) fn potential(&self, row: usize) -> Linear {
        match self.known.get(row).copied() {
            Some(Some(potential)) => potential,
            _ => Linear::zero(),
        }
    }

    /// Makes the potential of a row that is no loop's row.
    pub(crate) fn make(&mut self, row: u16, choice: Choice) -> Result<(), Unpaid> {
        let potential = self.best_of(row, choice)?;
        self.keep(row, potential);
        Ok(())
    }

    /// Stores the potential of a row. The result is whether it changed.
    fn keep(&mut self, row: u16, potential: Linear) -> bool {
        match self.known.get_mut(usize::from(row)) {
            Some(place) => {
                let is_new = *place != Some(potential);
                *place = Some(potential);
                is_new
            }
            None => false,
        }
    }

    /// The best potential of a row that is no loop's row.
    fn best_of(&self, row: u16, choice: Choice) -> Result<Linear, Unpaid> {
        let Some(requests) = self.all.get(usize::from(row)) else {
            return Ok(Linear::zero());
        };
        if let Some(least) = least_of_constants(requests, &self.known) {
            return constant(least);
        }
        match self.payer(row, requests) {
            Some(payer) => payer.best(&self.known, choice),
            None => Ok(Linear::zero()),
        }
    }

    /// The potential of a loop's row, with the least constant that pays.
    fn least_of(&self, head: &Head) -> Result<Linear, Unpaid> {
        if head.is_zero {
            return Ok(head.turn);
        }
        let Some(requests) = self.all.get(usize::from(head.row)) else {
            return Ok(head.turn);
        };
        match self.payer(head.row, requests) {
            Some(payer) if self.carries => payer.best_carrying(&head.turn, &self.known),
            Some(payer) => payer.least_with(&head.turn, &self.known),
            None => Ok(head.turn),
        }
    }

    /// The context of the search for a row's potential.
    fn payer<'b>(&'b self, row: u16, requests: &'b Requests) -> Option<Payer<'b>> {
        let state = self
            .certificate
            .state(self.first.saturating_add(u32::from(row)))?;
        Some(Payer {
            certificate: self.certificate,
            first: self.first,
            state,
            requests,
        })
    }

    /// Makes the potentials of a group (docs/ANALYSIS.md, "Loops"). If the rounds do not come to rest, rows at one
    /// address share their turns, and then each turn counts as the longest. If they still do not, one loop's row after
    /// another gets the constant 0.
    pub(crate) fn solve(&mut self, group: &mut Group) -> Result<(), PotentialFault> {
        if self.comes_to_rest(group) {
            return self.refine(group);
        }
        if share_turns(&mut group.heads) {
            if self.comes_to_rest(group) {
                return self.refine(group);
            }
            restore_turns(&mut group.heads);
        }
        if self.nesting == Nesting::Carried {
            self.carries = true;
            let rests = self.comes_to_rest_nested(group);
            self.carries = false;
            if rests {
                return Ok(());
            }
        }
        exchange_turns(&mut group.heads);
        if self.comes_to_rest(group) {
            return self.refine(group);
        }
        exchange_turns(&mut group.heads);
        for _ in 0..group.heads.len() {
            self.give_up(group);
            if self.comes_to_rest(group) {
                return self.refine(group);
            }
        }
        Err(PotentialFault::Limit)
    }

    /// Makes the potentials of a group in rounds, from the lowest ones of the loops' rows. The result is whether the
    /// rounds come to rest.
    fn comes_to_rest(&mut self, group: &Group) -> bool {
        self.begin(&group.heads);
        self.settle(group, Choice::WithTerms).unwrap_or(false)
    }

    /// Makes the potentials of a group with loops within loops: first what a turn of each costs. The result is whether
    /// they come to rest. If not, the turns are as before.
    fn comes_to_rest_nested(&mut self, group: &mut Group) -> bool {
        if self.finds_turns(group) && self.comes_to_rest(group) {
            return true;
        }
        restore_turns(&mut group.heads);
        false
    }

    /// Finds what a turn of each loop costs, with the turns of the loops within it. A loop waits until these are found.
    /// The result is whether all are.
    fn finds_turns(&mut self, group: &mut Group) -> bool {
        if group.heads.len() > NESTED {
            return false;
        }
        for head in &mut group.heads {
            head.waits = true;
        }
        for _ in 0..group.heads.len() {
            let Some((place, turn)) = self.next_turn(group) else {
                return false;
            };
            if let Some(head) = group.heads.get_mut(place) {
                head.turn = turn;
                head.waits = false;
            }
        }
        true
    }

    /// The first waiting loop whose inner loops wait no more, by its place, and the multiple of its counter
    /// that a turn costs.
    fn next_turn(&mut self, group: &Group) -> Option<(usize, Linear)> {
        for place in 0..group.heads.len() {
            let head = group.heads.get(place).copied()?;
            if head.waits {
                if let Some(turn) = self.turn_of(group, &head) {
                    return Some((place, turn));
                }
            }
        }
        None
    }

    /// The multiple of a loop's counter that a turn of it costs: what its row needs beyond a high constant to come back
    /// to itself. None if each turn passes a row of a loop that waits.
    fn turn_of(&mut self, group: &Group, head: &Head) -> Option<Linear> {
        if self.rests_below(group, head.row) {
            turn_costing(head, self.needed(head.row)?.constant())
        } else {
            None
        }
    }

    /// Makes the potentials of a group in rounds, where a loop's row has a high constant. The result is whether the
    /// rounds come to rest.
    fn rests_below(&mut self, group: &Group, row: u16) -> bool {
        self.begin(&group.heads);
        self.keep(row, Linear::of_constant(HIGH).unwrap_or(Linear::zero()));
        self.settle(group, Choice::WithTerms).unwrap_or(false)
    }

    /// The least constant with which a row pays, as a potential; None if there is none.
    fn needed(&self, row: u16) -> Option<Linear> {
        let requests = self.all.get(usize::from(row))?;
        match self.payer(row, requests) {
            Some(payer) => payer.least_with(&Linear::zero(), &self.known).ok(),
            None => None,
        }
    }

    /// Gives the loops' rows their lowest potentials, or the constant 0 to those that are to have it.
    fn begin(&mut self, heads: &[Head]) {
        for head in heads {
            let lowest = if head.is_zero {
                head.turn
            } else if head.waits {
                Linear::of_constant(LOWEST).unwrap_or(Linear::zero())
            } else {
                with_constant(&head.turn, LOWEST).unwrap_or(head.turn)
            };
            self.keep(head.row, lowest);
        }
    }

    /// Makes the potentials of a group in rounds. The result is whether those of the loops' rows came to rest.
    fn settle(&mut self, group: &Group, choice: Choice) -> Result<bool, Unpaid> {
        for _ in 0..group.heads.len().saturating_add(2) {
            self.make_each(&group.others, choice)?;
            if !self.raise(&group.heads)? {
                return Ok(true);
            }
        }
        Ok(false)
    }

    /// Makes the potentials of rows that are no loops' rows.
    fn make_each(&mut self, rows: &[u16], choice: Choice) -> Result<(), Unpaid> {
        for row in rows {
            self.make(*row, choice)?;
        }
        Ok(())
    }

    /// Makes the potentials of loops' rows that do not wait. The result is whether one changed.
    fn raise(&mut self, heads: &[Head]) -> Result<bool, Unpaid> {
        let mut changed = false;
        for head in heads.iter().filter(|head| !head.waits) {
            let potential = self.least_of(head)?;
            if self.keep(head.row, potential) {
                changed = true;
            }
        }
        Ok(changed)
    }

    /// Gives the other rows their best potentials, if the rounds come to rest with these too.
    fn refine(&mut self, group: &Group) -> Result<(), PotentialFault> {
        if let Ok(true) = self.settle(group, Choice::Any) {
            return Ok(());
        }
        if self.comes_to_rest(group) {
            Ok(())
        } else {
            Err(PotentialFault::Limit)
        }
    }

    /// Gives the constant 0 to each loop's row that no constant lets pay for its own turns; if there is none, to one
    /// more loop's row.
    fn give_up(&mut self, group: &mut Group) {
        let mut some = false;
        for place in 0..group.heads.len() {
            if self.owes_for_own_turns(group, place) {
                some = true;
                set_zero(&mut group.heads, place);
            }
        }
        if !some {
            give_first_up(&mut group.heads);
        }
    }

    /// Whether no constant lets a loop's row pay for its own turns. That is so if a high constant does not, while other
    /// loops' rows have the lowest.
    fn owes_for_own_turns(&mut self, group: &Group, place: usize) -> bool {
        let Some(head) = group.heads.get(place).copied() else {
            return false;
        };
        if head.is_zero || !head.has_own_turns {
            return false;
        }
        self.begin(&group.heads);
        self.keep(
            head.row,
            with_constant(&head.turn, HIGH).unwrap_or(head.turn),
        );
        if self.make_each(&group.others, Choice::WithTerms).is_err() {
            return true;
        }
        match self.least_of(&head) {
            Ok(least) => least.constant() > HIGH,
            Err(_) => true,
        }
    }
}

/// The multiple of a loop's counter for a turn after which its row needs this constant, beyond the high one.
fn turn_costing(head: &Head, needed: i32) -> Option<Linear> {
    let cost = needed.checked_sub(HIGH)?;
    if cost <= 0 {
        return None;
    }
    let term = head.turn.terms().first().copied()?;
    let signed = if term.coefficient < 0 {
        cost.checked_neg()?
    } else {
        cost
    };
    multiple_of(term.variable, signed)
}

/// A constant as a linear, if a certificate has room for it.
fn constant(least: i64) -> Result<Linear, Unpaid> {
    let least = i32::try_from(least).map_err(|_| Unpaid)?;
    Linear::of_constant(least).ok_or(Unpaid)
}
