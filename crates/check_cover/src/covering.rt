// Which rows cover a state that arrives at their address.

ghost use Rattle.std.specs.Prelude.{◌≡◌, ◌↔◌, true, IfSome, IsTrue, Some, [], slice_get};
ghost use Rattle.abs_state.specs.Restricting.{byte_is};
ghost use Rattle.check_cover.specs.Covering.{Covered, CoveredBy, SomeCovers};
ghost use Rattle.check_cover.specs.Plainly.{CoversPlainly};
ghost use Rattle.check_cover.specs.Arrival.{ArrivalView};
ghost use Rattle.check_cover.specs.Whole.{IsRemembered, CoversWhole, KnowsClaims, KnowsClaimsOf};

use crate::arrival::Arrival;
use crate::claims::have_same_claims;
use crate::index::AddressIndex;
use crate::program::split_at;
use crate::rows::is_plain;
use abs_state::AbsState;
use call_graph::ProcId;
use cert_contents::{Certificate, RowId};
use cert_lines::RowRef;
use loop_bounds::Effect;
use std::alloc::Global;
use std::marker::Model;
use z80_decode::Register8;

/// How often the rows that covered a state are asked at one split whether their claims hold whatever the state.
const MOST_ASKED: u8 = 16;

/// Searches for rows that cover a state: first at the row that covered last, then where the index leads
/// (docs/CHECKER.md, "How long judging takes").
#[derive(Drop)]
pub struct Coverer<'a> {
    pub(crate) certificate: &'a Certificate,
    /// The row that covered last.
    pub(crate) last: RowId,
    /// The row that covered last at a split, for each value of the register.
    by_value: [RowId; 256],
    pub(crate) index: AddressIndex,
}

impl<'a> Model for Coverer<'a> {
    ghost use Rattle.cert_form.specs.Contents.{CertificateView};

    ghost Value = { CertificateView };

    ghost view = { λ c. c.certificate.now };
}

/// What is looked for: a row that covers a state where it arrives.
#[derive(Drop)]
pub(crate) struct Sought<'s, 'a, 'r> {
    pub arrival: &'s Arrival<'a, 'r>,
    pub state: &'s AbsState,
    /// The number of a row whose claims are known where the state arrives, if one was found.
    pub known: Option<RowId>,
}

/// What was found at one split about the rows that covered a state there.
#[derive(Drop)]
struct Found {
    /// The number of a row whose claims are known whichever value the register has.
    known: Option<RowId>,
    /// How many rows were asked so far.
    asked: u8,
}

impl<'a> Coverer<'a> {
    /// A search among the rows of a certificate. Memory is taken for an index of the addresses with many rows. Where it
    /// is refused, those rows are searched one by one, and the answers are the same.
    pub fn new(alloc: Global, certificate: &'a Certificate) -> Coverer<'a>
        ensures { result ≡ certificate.now }
    {
        Coverer {
            certificate,
            last: 0,
            by_value: [0; 256],
            index: AddressIndex::of(alloc, certificate),
        }
    }

    /// Whether a state that arrives is covered (docs/CHECKER.md, "Covering").
    pub fn covers(&mut self, arrival: &Arrival, state: &AbsState) -> bool
        ensures exact { IsTrue result ↔ Covered self.old arrival.now state.now }
        ensures same { self.new ≡ self.old }
    {
        match split_at(self.certificate, arrival.proc, arrival.address) {
            Some(register) => {
                self.covers_whole(arrival, state) || self.covers_each(arrival, state, register)
            }
            None => self.some_covers(arrival, state),
        }
    }

    /// Whether a row at the address is found that covers a state, with claims that are known whatever the state. Such a
    /// row covers each state that this one covers. The search looks only where the row is likely, so it may miss one.
    pub fn covers_whole(&mut self, arrival: &Arrival, state: &AbsState) -> bool
        ensures found { IsTrue result → CoversWhole self.old arrival.now state.now }
        ensures same { self.new ≡ self.old }
    {
        match self.whole_row(arrival, state) {
            Some(id) => {
                self.last = id;
                true
            }
            None => false,
        }
    }

    /// The number of such a row, if one is found.
    fn whole_row(&self, arrival: &Arrival, state: &AbsState) -> Option<RowId>
        ensures { IfSome result (λ _. CoversWhole self.now arrival.now state.now) }
    {
        let rows = self.certificate.rows_at(arrival.proc, arrival.address);
        let sought = Sought {
            arrival,
            state,
            known: None,
        };
        let id = self.likely_row(rows.start, rows.end, &sought)?;
        if self.knows_claims_of(arrival, id) {
            Some(id)
        } else {
            None
        }
    }

    /// Whether the claims of the row with this number, if there is one, are found to hold where something arrives,
    /// whatever the state.
    fn knows_claims_of(&self, arrival: &Arrival, id: RowId) -> bool
        ensures { IsTrue result → KnowsClaimsOf self.now arrival.now id }
    {
        match self.certificate.row(id) {
            Some(row) => arrival.knows_claims(&row),
            None => true,
        }
    }

    /// Whether a row without facts and flag parts at an address of a procedure is found that covers a state. Such a row
    /// covers each state that this one covers, however it arrives. The search looks only where the row is likely, so it
    /// may miss one.
    pub fn covers_plainly(&mut self, proc: ProcId, address: u16, state: &AbsState) -> bool
        ensures found { IsTrue result → CoversPlainly self.old proc address state.now }
        ensures same { self.new ≡ self.old }
    {
        match self.plain_row(proc, address, state) {
            Some(id) => {
                self.last = id;
                true
            }
            None => false,
        }
    }

    /// The number of such a row, if one is found.
    fn plain_row(&self, proc: ProcId, address: u16, state: &AbsState) -> Option<RowId>
        ensures { IfSome result (λ _. CoversPlainly self.now proc address state.now) }
    {
        let arrival = Arrival {
            proc,
            address,
            facts: &[],
            before: state,
            effect: &Effect::unchanged(),
            refined: None,
        };
        let rows = self.certificate.rows_at(proc, address);
        let sought = Sought {
            arrival: &arrival,
            state,
            known: None,
        };
        let id = self.likely_row(rows.start, rows.end, &sought)?;
        if self.is_plain(id) { Some(id) } else { None }
    }

    /// Whether there is a row with this number, and it has no facts and no flag parts.
    fn is_plain(&self, id: RowId) -> bool
        ensures { IsTrue result
            → IfSome (slice_get self.now.rows id) (λ row. (row.facts ≡ []) × (row.parts ≡ [])) }
    {
        match self.certificate.row(id) {
            Some(row) => is_plain(&row),
            None => false,
        }
    }

    /// Whether the state, cut to each value of the register, is covered.
    fn covers_each(&mut self, arrival: &Arrival, state: &AbsState, register: Register8) -> bool
        ensures exact { IsTrue result ↔ CoveredBy self.old arrival.now state.now (Some register) }
        ensures same { self.new ≡ self.old }
    {
        let mut found = Found {
            known: None,
            asked: 0,
        };
        for value in 0..=255u8 {
            if !self.covers_value(arrival, state, register, value, &mut found) {
                return false;
            }
        }
        true
    }

    /// Whether the state, cut to this value of the register, is covered or empty.
    fn covers_value(
        &mut self,
        arrival: &Arrival,
        state: &AbsState,
        register: Register8,
        value: u8,
        found: &mut Found,
    ) -> bool
        requires { IsRemembered self.old arrival.now found.old.known }
        ensures exact { IsTrue result
            ↔ IfSome (byte_is true register value state.now) (SomeCovers self.old arrival.now) }
        ensures same { self.new ≡ self.old }
        ensures known { IsRemembered self.old arrival.now found.new.known }
    {
        let mut part = state.copied();
        if part.restrict_byte(true, register, value) {
            self.some_covers_part(arrival, &part, value, found)
        } else {
            true
        }
    }

    /// Whether some row at the address covers the state cut to one value of the register. The row that covered this
    /// value last comes first.
    fn some_covers_part(
        &mut self,
        arrival: &Arrival,
        part: &AbsState,
        value: u8,
        found: &mut Found,
    ) -> bool
        requires { IsRemembered self.old arrival.now found.old.known }
        ensures exact { IsTrue result ↔ SomeCovers self.old arrival.now part.now }
        ensures same { self.new ≡ self.old }
        ensures known { IsRemembered self.old arrival.now found.new.known }
    {
        let place = usize::from(value);
        self.last = self.by_value[place];
        let covered = self.some_covers_sought(&Sought {
            arrival,
            state: part,
            known: found.known,
        });
        self.by_value[place] = self.last;
        self.remember(arrival, found);
        covered
    }

    /// Remembers the row that covered last, if its claims are found to hold whatever the state, and are not those of the
    /// row that is remembered.
    fn remember(&self, arrival: &Arrival, found: &mut Found)
        requires { IsRemembered self.now arrival.now found.old.known }
        ensures { IsRemembered self.now arrival.now found.new.known }
    {
        if found.asked < MOST_ASKED && !self.have_same_claims(found.known, self.last) {
            found.asked += 1;
            if self.knows_claims_of(arrival, self.last) {
                found.known = Some(self.last);
            }
        }
    }

    /// Whether a row that is remembered is found to have the claims of another one.
    fn have_same_claims(&self, known: Option<RowId>, id: RowId) -> bool {
        match (self.row_known(known), self.certificate.row(id)) {
            (Some(row), Some(other)) => have_same_claims(&row, &other),
            _ => false,
        }
    }

    /// The row that is remembered, if one is.
    pub(crate) fn row_known(&self, known: Option<RowId>) -> Option<RowRef<'a>>
        ensures { (a : ArrivalView) → IsRemembered self.now a known → IfSome result (KnowsClaims a) }
    {
        self.certificate.row(known?)
    }

    /// Whether some row at the address covers the state.
    fn some_covers(&mut self, arrival: &Arrival, state: &AbsState) -> bool
        ensures exact { IsTrue result ↔ SomeCovers self.old arrival.now state.now }
        ensures same { self.new ≡ self.old }
    {
        self.some_covers_sought(&Sought {
            arrival,
            state,
            known: None,
        })
    }

    /// Whether some row at the address covers the state that is sought for.
    fn some_covers_sought(&mut self, sought: &Sought) -> bool
        requires { IsRemembered self.old sought.now.arrival.now sought.now.known }
        ensures exact { IsTrue result ↔ SomeCovers self.old sought.now.arrival.now sought.now.state.now }
        ensures same { self.new ≡ self.old }
    {
        match self.covering_row(sought) {
            Some(id) => {
                self.last = id;
                true
            }
            None => false,
        }
    }
}
