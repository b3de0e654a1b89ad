// Pages of opcodes.

/// The bytes of a page with `code` at `place`.
pub fn with_code(page: [u8; 4], place: usize, code: u8) -> [u8; 4] {
    let mut bytes = page;
    if let Some(byte) = bytes.get_mut(place) {
        *byte = code;
    }
    bytes
}
