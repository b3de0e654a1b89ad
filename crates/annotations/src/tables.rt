// TOML tables, and the keys that they may have.

ghost use Rattle.std.specs.Prelude.{◌≡◌, pos, Some, IfOk, IfSome, IsSome, option_map};
ghost use Rattle.std.specs.String.{string_bytes};
ghost use Rattle.annotations.specs.Said.{array_said};
ghost use Rattle.toml.specs.Data.{get_member, integer, table};
ghost use Rattle.toml.specs.View.{items_view, table_view, view};

use crate::fault::Wrong;
use crate::values::word;
use toml::{Table, Value};

/// The keys of annotations, in the order in which they are judged.
pub(crate) const KEYS: [&str; 10] = [
    "low", "top", "nmi", "budget", "inline", "split", "fact", "loop", "cell", "map",
];

/// The first key, in the order of its bytes, that annotations do not have.
pub(crate) fn unknown_key(table: &Table) -> Option<&String>
    ensures { IfSome result (λ key. IsSome
        (get_member (string_bytes key.now) (table_view table.now))) }
{
    for key in table.keys() {
        // The key is looked up, so that the contract can say that the table has it.
        if !is_known(key) && value_at(table, key.as_str()).is_some() {
            return Some(key);
        }
    }
    None
}

/// The keys that only a writer that infers reads.
const KEYS_FOR_INFER: [&str; 3] = ["range", "context", "turns"];

/// The first key, in the order of its bytes, that annotations do not have for a writer that infers.
pub(crate) fn unknown_key_for_infer(table: &Table) -> Option<&String> {
    for key in table.keys() {
        if !is_known(key) && !KEYS_FOR_INFER.contains(&key.as_str()) {
            return Some(key);
        }
    }
    None
}

/// Whether annotations have a key with this name.
fn is_known(key: &String) -> bool {
    KEYS.contains(&key.as_str())
}

/// The table of a value, if it has as many keys as these. The callers read each of these keys.
pub(crate) fn table_with<'a>(value: &'a Value, keys: &[&str]) -> Result<&'a Table, Wrong>
    ensures { IfOk result (λ found. view value.now ≡ table (table_view found.now)) }
{
    let Some(table) = value.as_table() else {
        return Err(Wrong::Form);
    };
    if table.len() != keys.len() {
        return Err(Wrong::Form);
    }
    Ok(table)
}

/// The value of a key, if it is there.
pub(crate) fn value_at<'a>(table: &'a Table, key: &str) -> Option<&'a Value>
    ensures { option_map (λ value. view value.now) result
        ≡ get_member key.now (table_view table.now) }
{
    table.get(key)
}

/// The value of a key, which has to be there.
pub(crate) fn member<'a>(table: &'a Table, key: &str) -> Result<&'a Value, Wrong>
    ensures { IfOk result (λ value. get_member key.now (table_view table.now)
        ≡ Some (view value.now)) }
{
    formed(value_at(table, key))
}

/// The number of a key, 0 to 65,535.
pub(crate) fn number(table: &Table, key: &str) -> Result<u16, Wrong>
    ensures { IfOk result (λ number. get_member key.now (table_view table.now)
        ≡ Some (integer (pos number))) }
{
    formed(word(member(table, key)?))
}

/// The elements of the array of a key; none if the key is missing.
pub(crate) fn items<'a>(table: &'a Table, key: &str) -> Result<&'a [Value], Wrong>
    ensures { IfOk result (λ items. array_said (get_member key.now (table_view table.now))
        ≡ Some (items_view items.now)) }
{
    match value_at(table, key) {
        Some(value) => match value.as_array() {
            Some(items) => Ok(items.as_slice()),
            None => Err(Wrong::Form),
        },
        None => Ok(&[]),
    }
}

/// The value that was read, if it has the right form.
pub(crate) fn formed<T>(read: Option<T>) -> Result<T, Wrong>
    ensures { IfOk result (λ value. read ≡ Some value) }
{
    match read {
        Some(value) => Ok(value),
        None => Err(Wrong::Form),
    }
}
