// Accesses of an event.

/// One data write of a byte.
#[derive(Clone, Copy, PartialEq, Eq, Default)]
pub struct Write {
    pub at: u16,
    pub byte: u8,
}

/// One stack access: the address, and the byte if it is a write.
#[derive(Clone, Copy, PartialEq, Eq, Default)]
pub struct StackAccess {
    pub at: u16,
    pub written: Option<u8>,
}
