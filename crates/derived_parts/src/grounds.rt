// What a claim after a step follows from.

use abs_state::AbsState;
use check_claims::StepSource;
use flag_conditions::{StepConditions, conditions};
use flag_letters::{FlagPart, FlagParts};
use flag_parts::known_carry;
use intervals::ByteRange;
use linear_effects::{LinearEffect, linear_effect};
use loop_bounds::{Effect, Linear};
use z80_decode::Instr;

/// A step between two rows, with the facts and the flag parts of the row before it.
#[derive(Drop)]
pub struct PartStep<'i, 'b, 'f, 'p, 's, 'm, 'a> {
    pub instr: &'i Instr,
    /// The range of the byte in work at the end of the instruction.
    pub operand: ByteRange,
    /// The state of the row before the step.
    pub before: &'b AbsState,
    /// The facts of that row.
    pub facts: &'f [Linear],
    /// The flag parts of that row.
    pub parts: &'p FlagParts,
    /// The effect of the step, in which constants have priority.
    pub settled: &'s Effect,
    /// The effect without that priority.
    pub moved: &'m Effect,
    /// The state after the step.
    pub after: &'a AbsState,
}

/// What of the row before a step a claim after it follows from: a flag part, a fact, both or neither.
#[derive(Clone, Copy, PartialEq, Eq)]
pub struct PartGround {
    pub part: Option<FlagPart>,
    pub fact: Option<Linear>,
}

/// What is claimed after a step.
#[derive(Clone, Copy)]
enum Claim {
    Part(FlagPart),
    Fact(Linear),
}

/// What a step makes of the flags and of a variable, if its row has only some parts.
#[derive(Drop)]
struct Making {
    conditions: StepConditions,
    linear: Option<LinearEffect>,
}

/// The least of the row before a step from which a part after it follows: nothing; else a fact; else a part of the row;
/// else one of both. None if no such ground tells the part.
pub fn ground_of(step: &PartStep, part: &FlagPart) -> Option<PartGround> {
    step.ground_of(&Claim::Part(*part))
}

/// The least of the row before a step from which a fact after it follows, in the same order. A part of the row helps
/// only where it makes the carry known.
pub fn fact_ground_of(step: &PartStep, fact: &Linear) -> Option<PartGround> {
    step.ground_of(&Claim::Fact(*fact))
}

/// At most one part.
fn parts_of(part: Option<FlagPart>) -> FlagParts {
    let mut parts = FlagParts::empty();
    if let Some(part) = part {
        parts.push(part);
    }
    parts
}

impl<'i, 'b, 'f, 'p, 's, 'm, 'a> PartStep<'i, 'b, 'f, 'p, 's, 'm, 'a> {
    fn ground_of(&self, claim: &Claim) -> Option<PartGround> {
        if let Some(ground) = self.bare_ground(claim) {
            return Some(ground);
        }
        for part in self.parts.parts() {
            if self.may_tell(part, claim) && self.tells(&self.made_with(Some(*part)), &[], claim) {
                return Some(PartGround {
                    part: Some(*part),
                    fact: None,
                });
            }
        }
        for part in self.parts.parts() {
            if self.may_tell(part, claim) {
                let fact = self.fact_beside(&self.made_with(Some(*part)), claim);
                if fact.is_some() {
                    return Some(PartGround {
                        part: Some(*part),
                        fact,
                    });
                }
            }
        }
        None
    }

    /// The ground of a claim that needs no part.
    fn bare_ground(&self, claim: &Claim) -> Option<PartGround> {
        let making = self.made_with(None);
        if self.tells(&making, &[], claim) {
            return Some(PartGround {
                part: None,
                fact: None,
            });
        }
        let fact = self.fact_beside(&making, claim)?;
        Some(PartGround {
            part: None,
            fact: Some(fact),
        })
    }

    /// The first fact that alone tells a claim.
    fn fact_beside(&self, making: &Making, claim: &Claim) -> Option<Linear> {
        for fact in self.facts {
            let alone = [*fact];
            if self.tells(making, &alone, claim) {
                return Some(*fact);
            }
        }
        None
    }

    /// What the step makes if this is the row's only part.
    fn made_with(&self, part: Option<FlagPart>) -> Making {
        let parts = parts_of(part);
        let carry = known_carry(&parts, self.before);
        Making {
            conditions: conditions(self.instr, self.operand, &parts, carry),
            linear: linear_effect(self.instr, &self.before.pairs, self.operand, carry),
        }
    }

    /// Whether a part of the row can help to tell a claim: it is of the same flag, or makes the carry known.
    fn may_tell(&self, part: &FlagPart, claim: &Claim) -> bool {
        let is_alike = match claim {
            Claim::Part(claimed) => claimed.letter == part.letter,
            Claim::Fact(_) => false,
        };
        is_alike || known_carry(&parts_of(Some(*part)), self.before).is_some()
    }

    /// Whether these facts and what the step makes tell a claim.
    fn tells(&self, making: &Making, facts: &[Linear], claim: &Claim) -> bool {
        let source = StepSource {
            facts,
            before: self.before,
            settled: self.settled,
            moved: self.moved,
            linear: &making.linear,
            conditions: &making.conditions,
        };
        match claim {
            Claim::Part(part) => source.knows_part(part, self.after),
            Claim::Fact(fact) => source.knows_fact(fact),
        }
    }
}
