// Rows.

ghost use Rattle.std.specs.Prelude.{◌≡◌, ◌↔◌, IsTrue};
ghost use Rattle.abs_state.specs.Covers.{OverlapsState};
ghost use Rattle.abs_state.specs.declared.mode.Mode.TheVariants.{Unset};
ghost use Rattle.cert_lines.specs.Row.{ArePairs, IsPlace, IsRow, place_of};
ghost use Rattle.cert_lines.specs.Version.{flag_form};
ghost use Rattle.cert_fields.specs.Facts.{AreFacts};
ghost use Rattle.cert_flags.specs.Flags.{AreFlags, flags_with};
ghost use Rattle.cert_fields.specs.Linear.{IsPotential};

use crate::version::Version;
use abs_state::{AbsState, FlagFact, Mode, Pairs};
use call_graph::ProcId;
use cert_fields::{Facts, are_facts, facts_stay_within, is_pair, is_shape, stays_within};
use cert_flags::flags_are_in_form;
use flag_letters::FlagParts;
use loop_bounds::Linear;
use stack_shape::Shape;
use std::marker::Model;

/// One abstract state at one instruction of one procedure (docs/CERTIFICATE.md, "Rows").
#[derive(Drop)]
pub struct Row {
    /// The number of the procedure, from 0.
    pub proc: ProcId,
    /// The address of the instruction.
    pub address: u16,
    /// The state at the instruction.
    pub state: AbsState,
    /// What the flags say there of linears; the state has a flag fact in their place before version 3.
    pub parts: FlagParts,
    /// Linears that are 0 there.
    pub facts: Facts,
    /// The potential: an upper bound for the T-states that are left until the end of the procedure's return. None if
    /// the row has none.
    pub potential: Option<Linear>,
}

/// What decides whether a row may come next: its procedure, address, mode and armed cells.
#[derive(Clone, Copy)]
pub struct RowPlace {
    pub proc: ProcId,
    pub address: u16,
    pub mode: Mode,
    pub armed: u16,
}

impl Row {
    /// What decides whether the row may come next.
    pub fn place(&self) -> RowPlace
        ensures { result ≡ place_of self.now }
    {
        RowPlace {
            proc: self.proc,
            address: self.address,
            mode: self.state.mode,
            armed: self.state.armed,
        }
    }

    /// Whether the row is in form by itself: no flag part, fact or potential names a slot beyond the shape; in mode `u`
    /// the shape is empty; in version 1 no cell is armed; there are no flag parts before version 3, and no flag fact in
    /// it.
    pub fn is_in_form(&self, version: Version) -> bool
        ensures { IsTrue result ↔ IsRow version self.now }
    {
        let state = &self.state;
        let slots = state.shape.len();
        are_pairs(&state.pairs);
        is_shape(&state.shape);
        place_is_in_form(version, self.place())
            && mode_is_in_form(state.mode, slots)
            && flags_suit(version, state.flag, &self.parts, slots)
            && facts_are_within(&self.facts, slots)
            && potential_is_within(self.potential, slots)
    }
}

/// Whether a row's place is in form: in version 1 no cell is armed.
fn place_is_in_form(version: Version, place: RowPlace) -> bool
    ensures { IsTrue result ↔ IsPlace version place }
{
    match version {
        Version::One => place.armed == 0,
        Version::Two | Version::Three => true,
    }
}

/// Whether a row of this mode may have this many slots: in mode `u` it has none.
fn mode_is_in_form(mode: Mode, slots: usize) -> bool
    ensures { IsTrue result ↔ (mode ≡ Unset → slots ≡ 0) }
{
    mode != Mode::Unset || slots == 0
}

/// Whether a row of this version with this many slots may say this of the flags.
fn flags_suit(version: Version, flag: Option<FlagFact>, parts: &FlagParts, slots: usize) -> bool
    ensures { IsTrue result ↔ AreFlags (flag_form version) slots (flags_with flag parts.now) }
{
    flags_are_in_form(version.flag_form(), flag, parts, slots)
}

/// A law: by their types, pairs have ranges of words and of bytes.
fn are_pairs(pairs: &Pairs)
    ensures { ArePairs pairs.now }
{
    is_pair(&pairs.af);
    is_pair(&pairs.bc);
    is_pair(&pairs.de);
    is_pair(&pairs.hl);
    is_pair(&pairs.ix);
    is_pair(&pairs.iy);
    is_pair(&pairs.alternate_af);
    is_pair(&pairs.alternate_bc);
    is_pair(&pairs.alternate_de);
    is_pair(&pairs.alternate_hl);
}

/// Whether the facts name no slot beyond these.
fn facts_are_within(facts: &Facts, slots: usize) -> bool
    ensures { IsTrue result ↔ AreFacts slots facts.now }
{
    are_facts(facts);
    facts_stay_within(facts, slots)
}

/// Whether the potential names no slot beyond these.
fn potential_is_within(potential: Option<Linear>, slots: usize) -> bool
    ensures { IsTrue result ↔ IsPotential slots potential }
{
    match potential {
        Some(linear) => stays_within(&linear, slots),
        None => true,
    }
}

/// A borrowed row, field by field.
#[derive(Drop)]
pub struct RowRef<'a> {
    pub proc: ProcId,
    pub address: u16,
    pub mode: Mode,
    pub armed: u16,
    pub pairs: &'a Pairs,
    pub flag: Option<FlagFact>,
    pub parts: &'a FlagParts,
    pub facts: &'a Facts,
    pub shape: &'a Shape,
    pub potential: Option<Linear>,
}

impl<'a> Model for RowRef<'a> {
    ghost use Rattle.cert_lines.specs.declared.row.Row.{Row};

    ghost Value = { Row };

    ghost view = { λ r. record {
      proc = r.proc;
      address = r.address;
      state = record { mode = r.mode; armed = r.armed; pairs = r.pairs.now; flag = r.flag; shape = r.shape.now };
      parts = r.parts.now;
      facts = r.facts.now;
      potential = r.potential;
    } };
}

impl<'a> RowRef<'a> {
    /// The row's state, as a value of its own. No memory is taken.
    pub fn state(&self) -> AbsState
        ensures { result ≡ self.now.state }
    {
        AbsState {
            mode: self.mode,
            armed: self.armed,
            pairs: *self.pairs,
            flag: self.flag,
            shape: self.shape.copied(),
        }
    }

    /// Whether the row's state overlaps another one: the shapes have one length, and in each pair and each slot the
    /// ranges share a value (docs/CHECKER.md, "Paying"). States are large, so none is copied.
    pub fn overlaps(&self, state: &AbsState) -> bool
        ensures { IsTrue result ↔ OverlapsState self.now.state state.now }
    {
        self.pairs.overlaps(&state.pairs) && self.shape.overlaps(&state.shape)
    }
}
