// What watches a search.

/// What watches a search.
pub trait Progress {
    /// The search goes on: so many trials are left, and so many addresses are refused. At first all trials are left.
    fn tell(&mut self, left: u32, refused: usize);
}
