// The letters of flag parts.

/// What a flag part says of a flag and its linear.
#[derive(Clone, Copy, PartialEq, Eq)]
pub enum Letter {
    /// Z is set exactly if the linear is 0; a certificate writes `z`.
    Zero,
    /// Z is set exactly if the linear is below 0; a certificate writes `b`.
    ZeroIfBelow,
    /// C is set exactly if the linear is below 0; a certificate writes `c`.
    CarryIfBelow,
    /// S is set exactly if the linear is below 0; a certificate writes `s`.
    SignIfBelow,
}
