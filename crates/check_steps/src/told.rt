// What the refined step adds to an arrival.

ghost use Rattle.std.specs.Prelude.{◌≡◌};
ghost use Rattle.check_steps.specs.Told.{refinement_by};

use cert_lines::Version;
use check_cover::Refinement;
use loop_bounds::Effect;
use refined_step::StepTold;

/// What an arrival has beside its effect: nothing before version 3.
pub fn refinement<'s>(
    version: Version,
    told: &'s StepTold,
    moved: &'s Effect,
) -> Option<Refinement<'s>>
    ensures { result ≡ refinement_by version told.now moved.now }
{
    match version {
        Version::One | Version::Two => None,
        Version::Three => Some(Refinement {
            moved,
            linear: &told.linear,
            conditions: &told.conditions,
        }),
    }
}
