// The stack region.
/// The stack region: the addresses from `low` to `top - 1`.
#[derive(Clone, Copy, PartialEq, Eq)]
pub struct Region {
    pub low: u16,
    pub top: u16,
}
