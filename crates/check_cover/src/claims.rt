// Rows with the same claims: the same facts and the same flag parts.

ghost use Rattle.std.specs.Prelude.{◌≡◌, IsTrue};

use cert_lines::RowRef;
use flag_letters::{FlagPart, Letter};
use loop_bounds::{Linear, Term};

/// Whether two rows are found to have the same facts and the same flag parts.
pub fn have_same_claims(row: &RowRef, other: &RowRef) -> bool
    ensures { IsTrue result → ((row.now.facts ≡ other.now.facts) × (row.now.parts ≡ other.now.parts)) }
{
    are_same_facts(row.facts.as_slice(), other.facts.as_slice())
        && are_same_parts(row.parts.parts(), other.parts.parts())
}

fn are_same_facts(facts: &[Linear], other: &[Linear]) -> bool
    ensures { IsTrue result → facts.now ≡ other.now }
{
    if facts.len() != other.len() {
        return false;
    }
    for at in 0..facts.len() {
        if !are_same(&facts[at], &other[at]) {
            return false;
        }
    }
    true
}

fn are_same_parts(parts: &[FlagPart], other: &[FlagPart]) -> bool
    ensures { IsTrue result → parts.now ≡ other.now }
{
    if parts.len() != other.len() {
        return false;
    }
    for at in 0..parts.len() {
        if !is_same_part(&parts[at], &other[at]) {
            return false;
        }
    }
    true
}

fn is_same_part(part: &FlagPart, other: &FlagPart) -> bool
    ensures { IsTrue result → part.now ≡ other.now }
{
    is_same_letter(part.letter, other.letter) && are_same(&part.linear, &other.linear)
}

fn is_same_letter(letter: Letter, other: Letter) -> bool
    ensures { IsTrue result → letter ≡ other }
{
    letter == other
}

/// Whether two linears are found to be the same.
pub fn are_same(linear: &Linear, other: &Linear) -> bool
    ensures { IsTrue result → linear.now ≡ other.now }
{
    linear.constant() == other.constant() && are_same_terms(linear.terms(), other.terms())
}

fn are_same_terms(terms: &[Term], other: &[Term]) -> bool
    ensures { IsTrue result → terms.now ≡ other.now }
{
    if terms.len() != other.len() {
        return false;
    }
    for at in 0..terms.len() {
        if !is_same_term(&terms[at], &other[at]) {
            return false;
        }
    }
    true
}

fn is_same_term(term: &Term, other: &Term) -> bool
    ensures { IsTrue result → term.now ≡ other.now }
{
    term.coefficient == other.coefficient && term.variable.rank() == other.variable.rank()
}
