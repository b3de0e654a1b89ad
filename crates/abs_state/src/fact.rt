// Flag facts: what the flags say about a register.
ghost use Rattle.std.specs.Prelude.{◌≡◌, ◌<◌};
ghost use Rattle.abs_state.specs.Fact.{place_of_byte, is_same_byte, is_same_fact, fact_without, covers_fact, hull_of_facts};

use z80_decode::Register8;

/// What the flags say about a register (docs/CHECKER.md, "What a row knows").
#[derive(Clone, Copy)]
pub enum FlagFact {
    /// Z is set exactly if the register is 0.
    Zero(Register8),
    /// C is set exactly if A is below the byte, and Z exactly if A is that byte.
    Compared(u8),
}

/// The code of a register: B C D E H L are 0 to 5, and A is 7.
fn place_of_byte(register: Register8) -> u8
    ensures value { result ≡ place_of_byte register }
    ensures within { result < 8 }
{
    match register {
        Register8::B => 0,
        Register8::C => 1,
        Register8::D => 2,
        Register8::E => 3,
        Register8::H => 4,
        Register8::L => 5,
        Register8::A => 7,
    }
}

fn is_same_byte(register: Register8, other: Register8) -> bool
    ensures { result ≡ is_same_byte register other }
{
    place_of_byte(register) == place_of_byte(other)
}

fn is_same_fact(fact: FlagFact, other: FlagFact) -> bool
    ensures { result ≡ is_same_fact fact other }
{
    match (fact, other) {
        (FlagFact::Zero(register), FlagFact::Zero(of)) => is_same_byte(register, of),
        (FlagFact::Compared(byte), FlagFact::Compared(with)) => byte == with,
        _ => false,
    }
}

/// The fact after a write to a register. A fact of that register ends; after a write to A so does one that compares A.
pub(crate) fn fact_without(register: Register8, fact: Option<FlagFact>) -> Option<FlagFact>
    ensures { result ≡ fact_without register fact }
{
    match fact? {
        FlagFact::Zero(of) if is_same_byte(register, of) => None,
        FlagFact::Compared(_) if is_same_byte(register, Register8::A) => None,
        kept => Some(kept),
    }
}

/// Whether a row's fact is the state's, or the row has none.
pub fn covers_fact(fact: Option<FlagFact>, other: Option<FlagFact>) -> bool
    ensures { result ≡ covers_fact fact other }
{
    match (fact, other) {
        (None, _) => true,
        (Some(fact), Some(other)) => is_same_fact(fact, other),
        (Some(_), None) => false,
    }
}

/// The fact if both have the same, else None.
pub(crate) fn hull_of_facts(fact: Option<FlagFact>, other: Option<FlagFact>) -> Option<FlagFact>
    ensures { result ≡ hull_of_facts fact other }
{
    if covers_fact(fact, other) { fact } else { None }
}
