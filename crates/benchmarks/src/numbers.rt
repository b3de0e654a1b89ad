// Pseudorandom numbers. One seed always gives the same ones.

/// A generator of pseudorandom numbers.
#[derive(Drop)]
pub struct Numbers {
    state: u64,
}

impl Numbers {
    /// The generator that starts from this seed.
    pub fn from_seed(seed: u64) -> Numbers {
        Numbers { state: seed }
    }

    /// The next number from 0 to 65,535.
    pub fn word(&mut self) -> u16 {
        let product = self.state.wrapping_mul(6_364_136_223_846_793_005);
        self.state = product.wrapping_add(1_442_695_040_888_963_407);
        (self.state >> 48) as u16
    }

    /// The next number from 0 to 255.
    pub fn byte(&mut self) -> u8 {
        (self.word() / 256) as u8
    }
}
