// The names that are closest to an unknown one.

ghost use Rattle.std.specs.Prelude.{◌≤◌, length, vec_len};

use crate::name::is_shown;
use std::alloc::{AllocError, Global};
use std::fmt;
use strsim::osa_distance;

/// The most names that are given.
const COUNT: usize = 3;

/// The names that are closest to an unknown one, three at most. As a text they are a question that ends a message, or
/// nothing.
#[derive(Debug, Drop, PartialEq)]
pub struct Closest {
    names: Vec<String>,
    ghost few: { vec_len names ≤ 3 },
}

impl Closest {
    /// The shown names that are closest to an unknown one, ranked by the edits between the two: characters left out,
    /// added, replaced, or exchanged with the next. Upper and lower case of ASCII letters count as equal here.
    pub(crate) fn among(
        alloc: Global,
        names: &[String],
        unknown: &str,
    ) -> Result<Closest, AllocError> {
        let unknown = unknown.to_ascii_lowercase(alloc)?;
        let mut ranked = Vec::new(alloc);
        for name in names {
            if is_shown(name.as_str()) {
                let folded = name.to_ascii_lowercase(alloc)?;
                let edits = osa_distance(alloc, folded.as_str(), unknown.as_str())?;
                ranked.push((edits, name.as_str()))?;
            }
        }
        ranked.sort_by_key(|(edits, _)| *edits)?;
        ranked.truncate(COUNT);
        let mut closest = Vec::new(alloc);
        for (_, name) in &ranked {
            closest.push(String::from_str(alloc, name)?)?;
        }
        Ok(Closest { names: closest })
    }

    /// The names, the closest first. Of names equally close the one with the lower value comes first; of these, the one
    /// with the earlier line.
    pub fn names(&self) -> &[String]
        ensures { length result.now ≤ 3 }
    {
        self.names.as_slice()
    }
}

impl fmt::Display for Closest {
    fn fmt<W: fmt::Write>(&self, f: &mut fmt::Formatter<W>) -> fmt::Result {
        match self.names.as_slice() {
            [] => Ok(()),
            [first] => write!(f, "; did you mean {first}?"),
            [first, second] => write!(f, "; did you mean {first} or {second}?"),
            [first, second, third, ..] => write!(f, "; did you mean {first}, {second} or {third}?"),
        }
    }
}
