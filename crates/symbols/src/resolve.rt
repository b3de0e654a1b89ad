// Texts that name an address.

ghost use Rattle.std.specs.Prelude.{◌≡◌, None, IfErr};
ghost use Rattle.symbols.specs.Faults.{NamesUnknown};
ghost use Rattle.symbols.specs.Names.{value_of_name};

use crate::closest::Closest;
use crate::fault::ResolveFault;
use crate::name::is_name;
use crate::numbers::{marked, number};
use crate::symbols::Symbols;
use std::alloc::{AllocError, Global};

impl Symbols {
    /// The address that a text names: a name or a number in hexadecimal with a mark, perhaps with an offset. An offset
    /// is a sign and a number, decimal or in hexadecimal with a mark: `send`, `send+5`, `nmi-1`, `$007A`, `0x7A`.
    ///
    /// # Errors
    ///
    /// `Form` if the text has another form. `Unknown` if no symbol has the name; the closest names come with it.
    /// `Range` if the address would be below 0000 or above FFFF. `NoMemory` where memory for the error was refused.
    pub fn resolve(&self, alloc: Global, text: &str) -> Result<u16, ResolveFault>
        ensures { IfErr result (NamesUnknown self.now) }
    {
        let value = match text.split_once('+') {
            Some((base, offset)) => {
                let offset = offset_of(offset)?;
                self.base(alloc, base)?.checked_add(offset)
            }
            None => match text.split_once('-') {
                Some((base, offset)) => {
                    let offset = offset_of(offset)?;
                    self.base(alloc, base)?.checked_sub(offset)
                }
                None => Some(self.base(alloc, text)?),
            },
        };
        match value {
            Some(value) => u16::try_from(value).map_err(|_| ResolveFault::Range),
            None => Err(ResolveFault::Range),
        }
    }

    /// The value of a name, or a number with a mark.
    fn base(&self, alloc: Global, text: &str) -> Result<u32, ResolveFault>
        ensures { IfErr result (NamesUnknown self.now) }
    {
        let text = text.trim_ascii();
        if let Some(number) = marked(text) {
            return Ok(number);
        }
        if !is_name(text) {
            return Err(ResolveFault::Form);
        }
        match self.value_of(text) {
            Some(value) => Ok(value),
            None => Err(self.unknown(alloc, text)),
        }
    }

    /// The names that are closest to a text, three at most. Memory is taken for each name in turn.
    pub fn closest_to(&self, alloc: Global, text: &str) -> Result<Closest, AllocError> {
        Closest::among(alloc, self.names(), text)
    }

    /// The fault of a name that no symbol has.
    fn unknown(&self, alloc: Global, name: &str) -> ResolveFault
        requires { value_of_name self.now name.now ≡ None }
        ensures { NamesUnknown self.now result }
    {
        let Ok(closest) = self.closest_to(alloc, name) else {
            return ResolveFault::NoMemory;
        };
        match String::from_str(alloc, name) {
            Ok(name) => ResolveFault::Unknown { name, closest },
            Err(_) => ResolveFault::NoMemory,
        }
    }
}

/// The number after a sign.
fn offset_of(text: &str) -> Result<u32, ResolveFault>
    ensures { IfErr result (λ fault. fault ≡ ResolveFault.Form) }
{
    number(text.trim_ascii()).ok_or(ResolveFault::Form)
}
