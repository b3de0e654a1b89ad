// Whether standard error is colored.

use std::env::{Env, FillError};

/// Whether standard error is colored: as `when` says, else on a terminal, unless `NO_COLOR` is set and not empty.
pub fn is_colored<E: Env>(env: &E, when: Option<&str>, is_terminal: bool) -> bool {
    match when {
        Some("always") => true,
        Some("never") => false,
        _ => is_terminal && !has_no_color(env),
    }
}

/// Whether the environment has a `NO_COLOR` that is not empty.
fn has_no_color<E: Env>(env: &E) -> bool {
    let mut value = [0; 64];
    match env.var("NO_COLOR", &mut value) {
        Ok(count) => count > 0,
        Err(FillError::TooLong) => true,
        Err(FillError::NotPresent) => false,
    }
}
