// Laws: what is seen of a machine before and after a step is as a source says.
ghost use Rattle.check_claims.specs.RegisterLaws.{ConditionsNameRegisters};
ghost use Rattle.check_claims.specs.SlightLaws.{SlightEffectsStay};
ghost use Rattle.check_claims.specs.SeenLaws.{SeenValuesAreTrue, SeenConditionsAreTrue};

/// A law. Let the state before a step hold of a machine, its facts be 0 and its linear effect be true. Then the values
/// seen of the machine before and after the step are as the source says. Let the state after the step hold too, and the
/// conditions be true of the flags. Then the conditions are as the source says.
pub fn seen_steps_are_true()
    ensures values { SeenValuesAreTrue }
    ensures conditions { SeenConditionsAreTrue }
{}

/// A law: the conditions over the variables after an instruction name no slot. So what they name is there, however many
/// words the machine has on the stack.
pub fn conditions_name_registers()
    ensures { ConditionsNameRegisters }
{}

/// A law: a linear effect whose coefficients are at most 256 in size is not left out.
pub fn slight_effects_stay()
    ensures { SlightEffectsStay }
{}
