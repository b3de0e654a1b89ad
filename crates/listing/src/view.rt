// What a listing shows: an accepted program with its names.

use cert_checker::Accepted;
use std::alloc::{AllocError, Global};
use survey::Survey;
use symbols::Symbols;

/// An accepted program, its survey, and the names of its addresses.
#[derive(Drop)]
pub struct View<'a> {
    pub(crate) alloc: Global,
    pub(crate) accepted: &'a Accepted<'a>,
    pub(crate) symbols: &'a Symbols,
    pub(crate) survey: Survey,
}

impl<'a> View<'a> {
    /// The view of an accepted program. Err if memory is refused.
    pub fn of(
        alloc: Global,
        accepted: &'a Accepted<'a>,
        symbols: &'a Symbols,
    ) -> Result<View<'a>, AllocError> {
        Ok(View {
            alloc,
            accepted,
            symbols,
            survey: Survey::of(alloc, accepted)?,
        })
    }

    /// The accepted program.
    pub fn accepted(&self) -> &'a Accepted<'a> {
        self.accepted
    }

    /// The names of its addresses.
    pub fn symbols(&self) -> &'a Symbols {
        self.symbols
    }

    /// Its survey.
    pub fn survey(&self) -> &Survey {
        &self.survey
    }
}
