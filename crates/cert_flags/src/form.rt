// Which form the FLAG field of a row has.

/// Which form the FLAG field of a row has (docs/CERTIFICATE.md, "Rows"). Each version has one.
#[derive(Clone, Copy, PartialEq, Eq)]
pub enum FlagForm {
    /// A flag fact, or none.
    Fact,
    /// Flag parts, or none.
    Parts,
}
