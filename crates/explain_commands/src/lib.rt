// `galcert explain` over devices (docs/PROGRAM.md, docs/EXPLAIN.md).
#![tactic(auto)]

mod annotated;
mod certified;
mod explaining;
mod paging;
mod searching;

pub use explaining::{Asked, explain_on};
pub use paging::{page_number, page_on};
