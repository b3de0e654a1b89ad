// Whether a potential pays for a step and leaves another one.

ghost use Rattle.std.specs.Prelude.{◌↔◌, IsTrue};
ghost use Rattle.linear_sums.specs.Rewriting.{IsSlight};
ghost use Rattle.check_payments.specs.Paying.{PaysEitherWay, PaysRewritten};

use check_claims::{Rewriting, constants_first, variables_first};
use linear_effects::LinearEffect;
use loop_bounds::{Effect, Linear, Ranges, decreases, decreases_beside};

/// Whether `from` - `cost` - `to` is at least 0, with `to` rewritten. A linear in the place of a variable is taken as
/// often as the variable's coefficient says.
fn pays_rewritten<S: Ranges, T: Ranges>(
    from: &Linear,
    to: &Linear,
    cost: u32,
    rewriting: &Rewriting,
    source: &S,
    target: &T,
) -> bool
    requires { IsSlight rewriting.now.change }
    ensures { IsTrue result ↔ PaysRewritten from.now to.now cost rewriting.now
        (S.range_of source.now) (T.range_of target.now) }
{
    let effect = &rewriting.effect;
    match &rewriting.change {
        Some(change) => {
            let (rest, factor) = to.apart(change.variable);
            decreases_beside(
                from,
                &rest,
                cost,
                effect,
                factor,
                &change.value,
                source,
                target,
            )
        }
        None => decreases(from, to, cost, effect, source, target),
    }
}

/// Whether a potential pays a cost in T-states over a step and leaves another one, rewritten with constants first or
/// with variables first. The variables before the step take all values of the source ranges, and unknown ones after it
/// all of the target ranges. Each variable ranges by itself, also BC and B.
pub fn pays_either_way<S: Ranges, T: Ranges>(
    from: &Linear,
    to: &Linear,
    cost: u32,
    settled: &Effect,
    moved: &Effect,
    linear: &Option<LinearEffect>,
    source: &S,
    target: &T,
) -> bool
    ensures { IsTrue result ↔ PaysEitherWay from.now to.now cost settled.now moved.now linear.now
        (S.range_of source.now) (T.range_of target.now) }
{
    pays_rewritten(
        from,
        to,
        cost,
        &constants_first(settled, linear),
        source,
        target,
    ) || pays_rewritten(
        from,
        to,
        cost,
        &variables_first(settled, moved, linear),
        source,
        target,
    )
}
