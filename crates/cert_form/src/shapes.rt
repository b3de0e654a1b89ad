// The shapes of a certificate's rows, by number.

ghost use Rattle.std.specs.Prelude.{◌≡◌, ◌<◌, ◌≤◌, ℕ, IsTrue, Some, IfOk, IfSome, OnErr, [], length, option_copied, slice_get};

use crate::shape_numbers::ShapeNumbers;
use stack_shape::Shape;
use std::alloc::{AllocError, Global};
use std::marker::Model;

/// The shapes of rows, in the order of their first use.
#[derive(Drop)]
pub(crate) struct Shapes {
    listed: Vec<Shape>,
}

impl Model for Shapes {
    ghost use Rattle.std.specs.Prelude.{List};
    ghost use Rattle.stack_shape.specs.declared.slot.Slot.{Slot};

    ghost Value = { List (List Slot) };

    ghost view = { λ s. s.listed.items };
}

impl Shapes {
    /// No shapes. Those that are added take their memory from this allocator.
    pub fn new(alloc: Global) -> Shapes
        ensures { result ≡ [] }
    {
        Shapes {
            listed: Vec::new(alloc),
        }
    }

    /// Whether the shape has this number.
    fn has_at(&self, number: usize, shape: &Shape) -> bool
        ensures { IsTrue result → slice_get self.now number ≡ Some shape.now }
    {
        match self.shape(number) {
            Some(found) => found == shape,
            None => false,
        }
    }

    /// The number, if it is the shape's.
    fn if_right(&self, number: Option<usize>, shape: &Shape) -> Option<usize>
        ensures { IfSome result (λ n. slice_get self.now n ≡ Some shape.now) }
    {
        match number {
            Some(number) if self.has_at(number, shape) => Some(number),
            _ => None,
        }
    }

    /// The number that a shape had before: most rows have the shape of the last one. None if the shape is new.
    fn number_before(
        &self,
        numbers: &mut ShapeNumbers,
        last: Option<usize>,
        shape: &Shape,
    ) -> Result<Option<usize>, AllocError>
        ensures { IfOk result (λ found. IfSome found (λ n. slice_get self.now n ≡ Some shape.now)) }
    {
        match self.if_right(last, shape) {
            Some(number) => Ok(Some(number)),
            None => Ok(self.if_right(numbers.found(shape)?, shape)),
        }
    }

    /// The number of a shape; a new shape gets the next number. `last` may be the number of any shape. Where memory is
    /// refused, the shapes stay as they were.
    pub fn number_of(
        &mut self,
        numbers: &mut ShapeNumbers,
        last: Option<usize>,
        shape: Shape,
    ) -> Result<usize, AllocError>
        ensures stored { IfOk result (λ n. slice_get self.new n ≡ Some shape) }
        ensures kept { (n : ℕ) → n < length self.old → slice_get self.new n ≡ slice_get self.old n }
        ensures longer { length self.old ≤ length self.new }
        ensures err { OnErr result (self.new ≡ self.old) }
    {
        if let Some(number) = self.number_before(numbers, last, &shape)? {
            return Ok(number);
        }
        let next = self.listed.len();
        self.listed.push(shape)?;
        Ok(next)
    }

    /// The shape with this number.
    pub fn shape(&self, number: usize) -> Option<&Shape>
        ensures { option_copied result ≡ slice_get self.now number }
    {
        self.listed.get(number)
    }
}
