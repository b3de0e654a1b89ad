// Shapes as fields of a row.
ghost use Rattle.cert_fields.specs.Shape.{ReadsShape};

use crate::counted::Counted;
use crate::pair::pair_field;
use stack_shape::{SLOTS, Shape, Slot};
use texts::Fields;

/// What was read of a shape.
#[derive(Drop)]
pub struct ReadShape {
    /// How many slots the text has, which may be more than 64.
    pub count: usize,
    pub shape: Counted<Shape>,
}

/// The slots of a row's shape, first pushed first; a dash if there are none.
pub fn shape_field(field: &[u8]) -> Option<ReadShape>
    ensures { ReadsShape field.now result }
{
    let mut shape = Shape::empty();
    if field == b"-".as_slice() {
        return Some(ReadShape {
            count: 0,
            shape: Counted::Fits(shape),
        });
    }
    let mut count: usize = 0;
    let mut fields = Fields::parted(field, b',');
    while let Some(part) = fields.next() {
        let pair = pair_field(part)?;
        let _fits = shape.push(Slot { pair });
        let length = field.len();
        prove!(count < length);
        count += 1;
    }
    if count > SLOTS {
        return Some(ReadShape {
            count,
            shape: Counted::TooMany,
        });
    }
    Some(ReadShape {
        count,
        shape: Counted::Fits(shape),
    })
}
