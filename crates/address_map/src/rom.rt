// The bytes of a ROM.
ghost use Rattle.std.specs.Prelude.{◌≡◌, ◌≤◌, ◌<◌, ◌↔◌, length, IsSome, IfSome, drop};

use std::marker::Model;

/// The greatest length of a ROM in bytes.
pub const ROM_LIMIT: u16 = 0x4000;

/// A ROM that borrows its bytes: 1 to 16,384, at the addresses from 0000 on.
#[derive(Drop)]
pub struct Rom<'a> {
    bytes: &'a [u8],
}

impl<'a> Model for Rom<'a> {
    ghost use Rattle.std.specs.Prelude.{ℕ, List, ◌≤◌, length};

    ghost Value = { List ℕ };

    ghost view = { λ r. r.bytes.now };

    ghost invariant = { λ r. (1 ≤ length r.bytes.now) × (length r.bytes.now ≤ 0x4000) };
}

impl<'a> Rom<'a> {
    /// A ROM that borrows these bytes, or None if they are not 1 to 16,384.
    pub fn of(bytes: &'a [u8]) -> Option<Rom<'a>>
        ensures fits { IsSome result ↔ ((1 ≤ length bytes.now) × (length bytes.now ≤ 0x4000)) }
        ensures value { IfSome result (λ rom. rom ≡ bytes.now) }
    {
        if bytes.is_empty() || bytes.len() > usize::from(ROM_LIMIT) {
            None
        } else {
            Some(Rom { bytes })
        }
    }

    /// The length of the ROM in bytes, 1 to 16,384.
    pub fn len(&self) -> u16
        ensures value { result ≡ length self.now }
        ensures some { 1 ≤ result }
        ensures fits { result ≤ 0x4000 }
    {
        self.bytes.len() as u16
    }

    /// The bytes from an address to the ROM's end; empty past the end.
    pub fn bytes_from(&self, address: u16) -> &'a [u8]
        ensures { result.now ≡ drop address self.now }
    {
        let at = usize::from(address);
        if at < self.bytes.len() {
            &self.bytes[at..]
        } else {
            &[]
        }
    }
}
