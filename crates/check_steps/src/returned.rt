// The effect of a call together with the run of its callee.

ghost use Rattle.std.specs.Prelude.{◌≡◌};
ghost use Rattle.check_steps.specs.Returned.{effect_back, effect_by_origins, effect_of_call, high_by_origin, low_by_origin, returned_change, word_by_origin};

use abs_state::AbsState;
use cert_lines::Version;
use intervals::RegPair;
use loop_bounds::{Change, Effect};

/// The effect of a call with the callee's run, made of the effect of the call alone. Slots stay as they are.
pub fn effect_of_call(effect: &Effect, exit: &AbsState) -> Effect
    ensures { result ≡ effect_of_call effect.now exit.now }
{
    let pairs = &exit.pairs;
    let af = pairs.af.origin;
    let bc = pairs.bc.origin;
    let de = pairs.de.origin;
    let hl = pairs.hl.origin;
    Effect {
        a: returned_change(RegPair::Af, af, effect.a),
        b: returned_change(RegPair::Bc, bc, effect.b),
        c: returned_change(RegPair::Bc, bc, effect.c),
        d: returned_change(RegPair::De, de, effect.d),
        e: returned_change(RegPair::De, de, effect.e),
        h: returned_change(RegPair::Hl, hl, effect.h),
        l: returned_change(RegPair::Hl, hl, effect.l),
        bc: returned_change(RegPair::Bc, bc, effect.bc),
        de: returned_change(RegPair::De, de, effect.de),
        hl: returned_change(RegPair::Hl, hl, effect.hl),
        ix: returned_change(RegPair::Ix, pairs.ix.origin, effect.ix),
        iy: returned_change(RegPair::Iy, pairs.iy.origin, effect.iy),
        slot: effect.slot,
    }
}

/// The change of a pair over the callee's run: that of the call if the pair is its own origin at the exit, else
/// unknown.
fn returned_change(pair: RegPair, origin: Option<RegPair>, change: Change) -> Change
    ensures { result ≡ returned_change pair origin change }
{
    match (pair, origin) {
        (RegPair::Af, Some(RegPair::Af))
        | (RegPair::Bc, Some(RegPair::Bc))
        | (RegPair::De, Some(RegPair::De))
        | (RegPair::Hl, Some(RegPair::Hl))
        | (RegPair::Ix, Some(RegPair::Ix))
        | (RegPair::Iy, Some(RegPair::Iy)) => change,
        _ => Change::Unknown,
    }
}

/// The change of the word of a pair in a call; unknown without an origin, and for a pair that is no variable.
fn word_by_origin(effect: &Effect, origin: Option<RegPair>) -> Change
    ensures { result ≡ word_by_origin effect.now origin }
{
    match origin {
        Some(RegPair::Bc) => effect.bc,
        Some(RegPair::De) => effect.de,
        Some(RegPair::Hl) => effect.hl,
        Some(RegPair::Ix) => effect.ix,
        Some(RegPair::Iy) => effect.iy,
        _ => Change::Unknown,
    }
}

/// The same for its high byte.
fn high_by_origin(effect: &Effect, origin: Option<RegPair>) -> Change
    ensures { result ≡ high_by_origin effect.now origin }
{
    match origin {
        Some(RegPair::Af) => effect.a,
        Some(RegPair::Bc) => effect.b,
        Some(RegPair::De) => effect.d,
        Some(RegPair::Hl) => effect.h,
        _ => Change::Unknown,
    }
}

/// The same for its low byte.
fn low_by_origin(effect: &Effect, origin: Option<RegPair>) -> Change
    ensures { result ≡ low_by_origin effect.now origin }
{
    match origin {
        Some(RegPair::Bc) => effect.c,
        Some(RegPair::De) => effect.e,
        Some(RegPair::Hl) => effect.l,
        _ => Change::Unknown,
    }
}

/// The effect of a call with the callee's run in version 3: a pair has the effect of its origin at the exit.
fn effect_by_origins(effect: &Effect, exit: &AbsState) -> Effect
    ensures { result ≡ effect_by_origins effect.now exit.now }
{
    let pairs = &exit.pairs;
    let bc = pairs.bc.origin;
    let de = pairs.de.origin;
    let hl = pairs.hl.origin;
    Effect {
        a: high_by_origin(effect, pairs.af.origin),
        b: high_by_origin(effect, bc),
        c: low_by_origin(effect, bc),
        d: high_by_origin(effect, de),
        e: low_by_origin(effect, de),
        h: high_by_origin(effect, hl),
        l: low_by_origin(effect, hl),
        bc: word_by_origin(effect, bc),
        de: word_by_origin(effect, de),
        hl: word_by_origin(effect, hl),
        ix: word_by_origin(effect, pairs.ix.origin),
        iy: word_by_origin(effect, pairs.iy.origin),
        slot: effect.slot,
    }
}

/// The effect of a call with the callee's run, by version.
pub fn effect_back(version: Version, effect: &Effect, exit: &AbsState) -> Effect
    ensures { result ≡ effect_back version effect.now exit.now }
{
    match version {
        Version::One | Version::Two => effect_of_call(effect, exit),
        Version::Three => effect_by_origins(effect, exit),
    }
}
