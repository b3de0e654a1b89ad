// The facts of a row.
ghost use Rattle.std.specs.Prelude.{◌≡◌, ◌<◌, ◌≤◌, ◌++◌, ◌∷◌, [], ◌↔◌, IsTrue, List, length};
ghost use Rattle.std.specs.Bool.{OnFalse, OnTrue};
ghost use Rattle.loop_bounds.specs.Linear.{LinearView};
ghost use Rattle.cert_fields.specs.Counted.{ReadsCounted};
ghost use Rattle.cert_fields.specs.Facts.{AreFacts, AreFewFacts, facts_text};
ghost use Rattle.cert_fields.specs.Kept.{IsCountedAs, KeepsFew};

use crate::counted::Counted;
use crate::linear::linear_field;
use loop_bounds::Linear;
use std::marker::Model;
use texts::Fields;

/// The most facts of a row.
const FACTS: usize = 4;

/// The facts of a row, at most four: linears that are 0 where the row holds.
#[derive(Drop, PartialEq, Eq)]
pub struct Facts {
    facts: [Linear; FACTS],
    count: usize,
}

impl Model for Facts {
    ghost use Rattle.std.specs.Prelude.{List, length, take};
    ghost use Rattle.loop_bounds.specs.Linear.{LinearView};
    ghost use Rattle.cert_fields.specs.Facts.{AreStored, padded_facts};

    ghost Value = { List LinearView };

    ghost use Rattle.cert_fields.specs.FactsLaws.{padded_facts_again};

    ghost view = { λ f. take f.count f.facts };

    ghost invariant = { λ f. AreStored f.facts f.count };

    ghost inverse = { λ facts. record { facts = padded_facts facts; count = length facts } };

    ghost inverse_ok = { λ f h. padded_facts_again f.facts f.count h };
}

impl Facts {
    /// No facts.
    pub fn none() -> Facts
        ensures { result ≡ [] }
    {
        Facts {
            facts: [Linear::zero(); FACTS],
            count: 0,
        }
    }

    /// A copy. No memory is taken.
    pub fn copied(&self) -> Facts
        ensures { result ≡ self.now }
    {
        Facts {
            facts: self.facts,
            count: self.count,
        }
    }

    /// The facts, at most four.
    pub fn as_slice(&self) -> &[Linear]
        ensures value { result.now ≡ self.now }
        ensures within { length result.now ≤ 4 }
    {
        &self.facts[..self.count]
    }

    /// Appends a fact. If there are four already, the answer is false and nothing changes.
    pub fn push(&mut self, fact: Linear) -> bool
        ensures room { IsTrue result ↔ (length self.old < 4) }
        ensures pushed { OnTrue result (self.new ≡ self.old ++ fact ∷ []) }
        ensures unchanged { OnFalse result (self.new ≡ self.old) }
    {
        if self.count == FACTS {
            return false;
        }
        self.facts[self.count] = fact;
        self.count += 1;
        true
    }
}

/// The facts with one more, as long as they are within the limits.
fn with_fact(kept: Option<Facts>, fact: Counted<Linear>) -> Option<Facts>
    ensures { (done : List LinearView) (next : LinearView) → KeepsFew done kept
        → IsCountedAs next fact
        → KeepsFew (done ++ next ∷ []) result }
{
    let mut facts = kept?;
    match fact {
        Counted::Fits(fact) => { if facts.push(fact) { Some(facts) } else { None } }
        Counted::TooMany => None,
    }
}

/// The facts of a row with this many slots; a dash if there are none.
pub fn facts_field(field: &[u8], slots: usize) -> Option<Counted<Facts>>
    ensures { ReadsCounted facts_text (AreFacts slots) AreFewFacts field.now result }
{
    if field == b"-".as_slice() {
        return Some(Counted::Fits(Facts::none()));
    }
    let mut kept = Some(Facts::none());
    let mut fields = Fields::parted(field, b',');
    while let Some(part) = fields.next() {
        let fact = linear_field(part, slots)?;
        kept = with_fact(kept, fact);
    }
    match kept {
        Some(facts) => Some(Counted::Fits(facts)),
        None => Some(Counted::TooMany),
    }
}
