// Conditions: what an instruction makes of the flags, as flag parts over the variables before it and after it
// (docs/CHECKER.md, "Conditions of a step").
#![tactic(auto)]

mod arithmetic;
mod byte_operand;
mod changes;
mod linears;
mod logic;
mod new_conditions;
mod new_parts;
mod of_step;
mod other_side;
mod parts;
mod word_operand;
mod words;

pub use byte_operand::{OperandTerm, OtherRegister, operand_term, register_variable};
pub use changes::FlagChanges;
pub use linears::{no_terms, one_term, two_terms};
pub use of_step::{StepConditions, conditions};
pub use word_operand::{OperandWord, index_operand_word, index_variable, operand_word};
