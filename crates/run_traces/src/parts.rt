// A sink that distributes the RAM of a board over three sinks.

ghost use Rattle.std.specs.Prelude.{None};

use texts::{DeviceFault, Sink};

/// The bytes of work RAM, and those of work and video RAM together (docs/BOARD.md, "Addresses").
const WORK: usize = 0x400;

const VIDEO: usize = 0x800;

/// The files for work, video and object RAM. An empty text stands for no file.
#[derive(Clone, Copy, PartialEq, Eq)]
pub struct DumpNames<'a> {
    pub work: &'a str,
    pub video: &'a str,
    pub object: &'a str,
}

/// The files that a word names for RAM: one or three, with commas between them; none if there is no word. None if the
/// word is out of form: `-` is no file here.
pub fn dump_names<'a>(word: Option<&'a str>) -> Option<DumpNames<'a>> {
    let Some(word) = word else {
        return Some(only("", ""));
    };
    let Some((work, others)) = word.split_once(',') else {
        return if is_name(word) {
            Some(only(word, ""))
        } else {
            None
        };
    };
    let (video, object) = others.split_once(',')?;
    if is_name(work) && is_name(video) && is_name(object) {
        return Some(DumpNames {
            work,
            video,
            object,
        });
    }
    None
}

/// The file for work RAM, and the same word for the others.
fn only<'a>(work: &'a str, other: &'a str) -> DumpNames<'a> {
    DumpNames {
        work,
        video: other,
        object: other,
    }
}

/// Whether a word names one file.
fn is_name(word: &str) -> bool {
    !word.is_empty() && word != "-" && !word.contains(',')
}

/// The sinks of each RAM, and how many bytes they took.
#[derive(Drop)]
struct MemorySinks<K: Sink> {
    work: K,
    video: K,
    object: K,
    taken: usize,
}

impl<K: Sink> MemorySinks<K> {
    /// Writes to the sink of the RAM whose bytes come next.
    fn write(&mut self, bytes: &[u8]) -> Result<usize, DeviceFault> {
        if self.taken < WORK {
            let room = WORK.saturating_sub(self.taken);
            return self.work.write(beginning(bytes, room));
        }
        if self.taken < VIDEO {
            let room = VIDEO.saturating_sub(self.taken);
            return self.video.write(beginning(bytes, room));
        }
        self.object.write(bytes)
    }
}

/// The first bytes, at most `most`.
fn beginning(bytes: &[u8], most: usize) -> &[u8] {
    bytes.get(..most).unwrap_or(bytes)
}

/// A sink for the bytes of work, video and object RAM, one after another: each RAM goes to a sink of its own.
#[derive(Drop)]
pub struct RamParts<K: Sink> {
    parts: MemorySinks<K>,
    failures: u64,
}

impl<K: Sink> RamParts<K> {
    /// A sink that gives work RAM to the first of these sinks, video RAM to the second and object RAM to the third.
    pub fn new(work: K, video: K, object: K) -> RamParts<K> {
        RamParts {
            parts: MemorySinks {
                work,
                video,
                object,
                taken: 0,
            },
            failures: 0,
        }
    }

    /// The sinks of work, video and object RAM.
    pub fn into_parts(self) -> [K; 3] {
        [self.parts.work, self.parts.video, self.parts.object]
    }
}

impl<K: Sink> Sink for RamParts<K> {
    ghost state = { λ s. record { bytes = None; failures = s.failures } };

    fn write(&mut self, bytes: &[u8]) -> Result<usize, DeviceFault> {
        match self.parts.write(bytes) {
            Ok(count) if count > 0 && count <= bytes.len() => {
                self.parts.taken = self.parts.taken.saturating_add(count);
                Ok(count)
            }
            Ok(_) if bytes.is_empty() => Ok(0),
            _ => {
                self.failures = self.failures.saturating_add(1);
                Err(DeviceFault)
            }
        }
    }

    fn failures(&self) -> u64 {
        self.failures
    }
}
