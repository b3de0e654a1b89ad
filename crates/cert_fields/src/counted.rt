// Values with a count that may be above its limit.

/// What was read of a field with counted parts.
#[derive(Drop)]
pub enum Counted<T> {
    /// The value.
    Fits(T),
    /// The field is out of form only because it has more parts than a value can have.
    TooMany,
}
