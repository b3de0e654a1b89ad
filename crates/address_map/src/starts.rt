// Starts: the addresses where instructions may start.
ghost use Rattle.std.specs.Prelude.{◌≡◌, ◌≢◌, ◌<◌, ℕ, false, true};
ghost use Rattle.address_map.specs.Starts.{is_start};

use std::marker::Model;

/// A set of addresses below 4000h where instructions may start. It has a fixed size.
#[derive(Drop)]
pub struct Starts {
    flags: [bool; 0x4000],
}

impl Model for Starts {
    ghost use Rattle.std.specs.Prelude.{List, Bool};

    ghost Value = { List Bool };

    ghost view = { λ s. s.flags };
}

impl Starts {
    /// The empty set.
    pub fn new() -> Starts
        ensures { (address : ℕ) → is_start result address ≡ false }
    {
        Starts {
            flags: [false; 0x4000],
        }
    }

    /// Adds an address, which must be below 4000h.
    pub fn insert(&mut self, address: u16)
        requires { address < 0x4000 }
        ensures added { is_start self.new address ≡ true }
        ensures others { (other : ℕ) → other ≢ address
            → is_start self.new other ≡ is_start self.old other }
    {
        self.flags[usize::from(address)] = true;
    }

    /// Whether an address is in the set.
    pub fn contains(&self, address: u16) -> bool
        ensures { result ≡ is_start self.now address }
    {
        let at = usize::from(address);
        at < self.flags.len() && self.flags[at]
    }
}
