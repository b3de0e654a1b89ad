// Rows of the abstract step. The columns are the name of an instruction, the bytes of the ROM, where the step is, the
// state before it, and its successors. Where is `main` or `sub`, a called procedure, without kept cells; or `cells` or
// `raised`, main with kept cells on the Galaxian or on the raised board.
use crate::claims::are_successors;
use crate::reading::{byte_range, code_of, columns_of, state_of, word_range};
use abs_state::{AbsState, KeptCell};
use abs_step::{DataWrite, Nexts, Reason, data_writes, successors};
use address_map::{Map, Rom};
use intervals::ByteRange;
use std::alloc::Global;
use texts::split_once;

/// A kept cell with a range of bytes.
fn cell(at: u16, low: u8, high: u8) -> KeptCell {
    let range = ByteRange::new(low, high).unwrap_or(ByteRange::full());
    KeptCell { at, range }
}

/// The successors from address 0000, without inline calls. The first kept cell is at 4005 with 10 to 20, the second at
/// 4006 with 00.
fn stepped(
    alloc: Global,
    code: &[u8],
    place: &str,
    state: &AbsState,
) -> Option<Result<Nexts, Reason>> {
    let rom = Rom::of(code)?;
    let galaxian = Map::galaxian(rom.len());
    let cells = [cell(0x4005, 0x10, 0x20), cell(0x4006, 0x00, 0x00)];
    Some(match place.as_bytes() {
        b"main" => successors(alloc, &rom, &galaxian, &[], 0, true, false, state),
        b"sub" => successors(alloc, &rom, &galaxian, &[], 0, false, false, state),
        b"cells" => successors(alloc, &rom, &galaxian, &cells, 0, true, false, state),
        b"raised" => {
            let raised = Map::raised(rom.len());
            successors(alloc, &rom, &raised, &cells, 0, true, false, state)
        }
        _ => return None,
    })
}

/// Whether the step is what the row says.
fn is_right(alloc: Global, row: &str) -> bool {
    let columns = columns_of(row);
    let [_, code, place, before, after @ ..] = columns.as_slice() else {
        return false;
    };
    let (Some(code), Some(state)) = (code_of(code), state_of(before)) else {
        return false;
    };
    match stepped(alloc, code.as_slice(), place, &state) {
        Some(answer) => are_successors(&answer, after, &state),
        None => false,
    }
}

/// The first row that is not right, if there is one.
pub fn first_wrong<'a>(alloc: Global, tables: &[&'a str]) -> Option<&'a str> {
    for table in tables {
        for row in table.lines() {
            if !is_right(alloc, row) {
                return Some(row);
            }
        }
    }
    None
}

/// Whether a data write goes to one address with one range of bytes.
fn is_write(write: &DataWrite, word: &[u8]) -> bool {
    let Some((at, bytes)) = split_once(word, b':') else {
        return false;
    };
    match (word_range(at), byte_range(bytes)) {
        (Some(at), Some(byte)) => write.at == at && write.byte == byte,
        _ => false,
    }
}

/// Whether the data writes are those of the row, in their order. The columns are the name of an instruction, the bytes
/// of the ROM, the state, and the addresses with their bytes.
pub fn writes_are_right(alloc: Global, row: &str) -> bool {
    let columns = columns_of(row);
    let [_, code, before, written] = columns.as_slice() else {
        return false;
    };
    let (Some(code), Some(state)) = (code_of(code), state_of(before)) else {
        return false;
    };
    let Some(rom) = Rom::of(code.as_slice()) else {
        return false;
    };
    let map = Map::galaxian(rom.len());
    let writes = data_writes(alloc, &rom, &map, &[], 0, &state);
    let mut words = written.split_whitespace();
    for write in writes.as_slice() {
        let Some(word) = words.next() else {
            return false;
        };
        if !is_write(write, word.as_bytes()) {
            return false;
        }
    }
    words.next().is_none()
}
