// The numbers of shapes, while rows are read.

use stack_shape::Shape;
use std::alloc::{AllocError, Global};
use std::collections::HashMap;

/// The number of each shape that occurred so far. They are needed only while rows are read.
#[derive(Drop)]
pub struct ShapeNumbers {
    numbers: HashMap<Shape, usize>,
}

impl ShapeNumbers {
    /// The numbers before any shape occurred. Those that are added take their memory from this allocator.
    pub fn new(alloc: Global) -> ShapeNumbers {
        ShapeNumbers {
            numbers: HashMap::new(alloc),
        }
    }

    /// The number that a shape had before; None if it is new. A new shape gets the next number.
    pub(crate) fn found(&mut self, shape: &Shape) -> Result<Option<usize>, AllocError> {
        if let Some(number) = self.numbers.get(shape) {
            return Ok(Some(*number));
        }
        let next = self.numbers.len();
        self.numbers.insert(shape.copied(), next)?;
        Ok(None)
    }
}
