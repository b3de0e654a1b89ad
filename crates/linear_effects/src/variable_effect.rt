// A variable and the linear that it becomes.
ghost use Rattle.std.specs.Prelude.{◌≡◌};
ghost use Rattle.linear_effects.specs.Effects.{becoming};

use loop_bounds::{Linear, Variable};

/// What one variable becomes, over the variables before the instruction.
#[derive(Clone, Copy)]
pub struct LinearEffect {
    pub variable: Variable,
    pub linear: Linear,
}

/// A variable becomes a linear, if there is one.
pub(crate) fn becoming(variable: Variable, linear: Option<Linear>) -> Option<LinearEffect>
    ensures { result ≡ becoming variable linear }
{
    match linear {
        Some(linear) => Some(LinearEffect { variable, linear }),
        None => None,
    }
}
