// What a step starts from and what it makes.

use abs_state::AbsState;
use flag_conditions::StepConditions;
use linear_effects::LinearEffect;
use loop_bounds::{Effect, Linear};
use std::marker::Model;

/// What a step starts from and what it makes: by these a claim about the variables or the flags after it is judged.
#[derive(Drop)]
pub struct StepSource<'f, 'b, 's, 'm, 'l, 'c> {
    /// The facts of the row before the step.
    pub facts: &'f [Linear],
    /// The state of that row.
    pub before: &'b AbsState,
    /// The effect of the step, in which constants have priority.
    pub settled: &'s Effect,
    /// The effect without that priority.
    pub moved: &'m Effect,
    /// The variable that the step makes a linear of the variables before it, if there is one.
    pub linear: &'l Option<LinearEffect>,
    /// What the step makes of the flags.
    pub conditions: &'c StepConditions,
}

impl<'f, 'b, 's, 'm, 'l, 'c> Model for StepSource<'f, 'b, 's, 'm, 'l, 'c> {
    ghost use Rattle.check_claims.specs.Source.{StepSourceView};

    ghost Value = { StepSourceView };

    ghost view = { λ s. record {
      facts = s.facts.now;
      before = s.before.now;
      settled = s.settled.now;
      moved = s.moved.now;
      linear = s.linear.now;
      conditions = s.conditions.now;
    } };
}
