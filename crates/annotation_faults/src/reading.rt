// The two readers of annotations as one.

use annotations::{AnnotationFault, Annotations, Given};
use std::alloc::Global;

/// The fault of a text; None if there is none. With `infers` it is read for `--infer`.
pub(crate) fn fault_of(alloc: Global, text: &[u8], infers: bool) -> Option<AnnotationFault> {
    if infers {
        Given::read(alloc, text).err()
    } else {
        Annotations::read(alloc, text).err()
    }
}

/// Whether a text is refused for this key.
pub(crate) fn is_refused_for(alloc: Global, text: &[u8], infers: bool, key: &[u8]) -> bool {
    match fault_of(alloc, text, infers) {
        Some(AnnotationFault::Key(found)) => found.as_bytes() == key,
        _ => false,
    }
}
