// What the refined step says beside its answer.

use flag_conditions::StepConditions;
use linear_effects::LinearEffect;
use std::marker::Model;

/// What the refined step says beside its answer (docs/CHECKER.md, "The refined step").
#[derive(Drop)]
pub struct StepTold {
    /// The variable that the step makes a linear of the variables before it, if there is one.
    pub linear: Option<LinearEffect>,
    /// What the step makes of the flags.
    pub conditions: StepConditions,
}

impl Model for StepTold {
    ghost use Rattle.refined_step.specs.Told.{StepToldView};

    ghost Value = { StepToldView };

    ghost view = { λ t. record { linear = t.linear; conditions = t.conditions } };

    ghost inverse = { λ v. record { linear = v.linear; conditions = v.conditions } };
}

impl StepTold {
    ghost use Rattle.std.specs.Prelude.{◌≡◌};
    ghost use Rattle.refined_step.specs.Told.{untold};

    /// No linear effect and no conditions.
    pub fn none() -> StepTold
        ensures { result ≡ untold }
    {
        StepTold {
            linear: None,
            conditions: StepConditions::none(),
        }
    }
}
