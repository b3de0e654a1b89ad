// What the types of a row's values imply, and whether they name only slots of a shape.
ghost use Rattle.std.specs.Prelude.{◌≡◌, ◌≤◌, ◌↔◌, All, IsTrue, length};
ghost use Rattle.cert_fields.specs.Facts.{AreFacts, AreFewFacts};
ghost use Rattle.cert_fields.specs.Linear.{IsBelow, IsShort, IsSum, HasSlotsBelow};
ghost use Rattle.cert_fields.specs.Pair.{IsPair};
ghost use Rattle.cert_fields.specs.Shape.{IsShape, IsShortShape};

use crate::facts::Facts;
use crate::linear_values::{is_linear, stays_within};
use intervals::Pair;
use stack_shape::Shape;

/// A law: by its type, a pair is in form.
pub fn is_pair(pair: &Pair)
    ensures { IsPair pair.now }
{
    let _word = pair.word.low();
    let _high = pair.high.low();
    let _low = pair.low.low();
}

/// A law: by its type, a shape is in form and has at most 64 slots.
pub fn is_shape(shape: &Shape)
    ensures form { IsShape shape.now }
    ensures short { IsShortShape shape.now }
{
    for slot in shape.slots() {
        is_pair(&slot.pair);
    }
}

/// A law: by their type, facts are in form in a row with 64 slots, and within the limits.
pub fn are_facts(facts: &Facts)
    ensures form { AreFacts 64 facts.now }
    ensures few { AreFewFacts facts.now }
{
    for fact in facts.as_slice() {
        is_linear(fact);
    }
}

/// Whether no fact names a slot beyond a shape with this many slots.
pub fn facts_stay_within(facts: &Facts, slots: usize) -> bool
    ensures { IsTrue result ↔ All (HasSlotsBelow slots) facts.now }
{
    facts
        .as_slice()
        .iter()
        .all(|fact| stays_within(fact, slots))
}
