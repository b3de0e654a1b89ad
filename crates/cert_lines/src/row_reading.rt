// How a row is read from the fields of its line.

ghost use Rattle.std.specs.Prelude.{◌≡◌};
ghost use Rattle.cert_fields.specs.Counted.{ReadsCounted};
ghost use Rattle.cert_flags.specs.Flags.{AreFewFlags, AreFlags, flags_text};
ghost use Rattle.cert_lines.specs.Read.{MakesRow, ReadsLast, ReadsRow, TakesFields};
ghost use Rattle.cert_lines.specs.Row.{ArePairs, IsArmed, IsPlace, armed_field, pair_fields, place_fields};
ghost use Rattle.cert_lines.specs.Version.{flag_form};

use crate::row::{Row, RowPlace};
use crate::version::Version;
use abs_state::{AbsState, Mode, Pairs};
use cert_fields::{
    Counted, Facts, ReadShape, facts_field, mode_field, pair_field, potential_field, shape_field,
};
use cert_flags::{RowFlags, flags_field};
use loop_bounds::Linear;
use stack_shape::Shape;
use texts::{Fields, decimal_field, hex4_field};

/// A line has fewer slots than bytes, and at most 1,048,576 bytes.
const SLOT_BOUND: usize = 1_048_576;

/// What was read of a row's line.
#[derive(Drop)]
pub enum ReadRow {
    Whole(Row),
    /// A row that is out of form only because it has too many slots, flag parts, facts or terms; only its place is
    /// given.
    Crowded(RowPlace),
}

/// The number of armed cells. Version 1 does not say it and arms none.
fn take_armed(version: Version, fields: &mut Fields) -> Option<u16>
    ensures { TakesFields (armed_field version) (IsArmed version) fields.old result fields.new }
{
    match version {
        Version::One => Some(0),
        Version::Two | Version::Three => decimal_field(fields.next()?),
    }
}

/// `PROC ADDR MODE`, and from version 2 on `ARMED`.
fn take_place(version: Version, fields: &mut Fields) -> Option<RowPlace>
    ensures { TakesFields (place_fields version) (IsPlace version) fields.old result fields.new }
{
    let proc = decimal_field(fields.next()?)?;
    let address = hex4_field(fields.next()?)?;
    let mode = mode_field(fields.next()?)?;
    let armed = take_armed(version, fields)?;
    Some(RowPlace {
        proc,
        address,
        mode,
        armed,
    })
}

fn take_pairs(fields: &mut Fields) -> Option<Pairs>
    ensures { TakesFields pair_fields ArePairs fields.old result fields.new }
{
    Some(Pairs {
        af: pair_field(fields.next()?)?,
        bc: pair_field(fields.next()?)?,
        de: pair_field(fields.next()?)?,
        hl: pair_field(fields.next()?)?,
        ix: pair_field(fields.next()?)?,
        iy: pair_field(fields.next()?)?,
        alternate_af: pair_field(fields.next()?)?,
        alternate_bc: pair_field(fields.next()?)?,
        alternate_de: pair_field(fields.next()?)?,
        alternate_hl: pair_field(fields.next()?)?,
    })
}

/// What was read of a row's last fields.
#[derive(Drop)]
pub struct ReadLast {
    pub flags: Counted<RowFlags>,
    /// How many slots the shape has, which may be more than 64.
    pub count: usize,
    pub shape: Counted<Shape>,
    pub facts: Counted<Facts>,
    pub potential: Counted<Option<Linear>>,
}

/// The FLAG field of a row of this version with this many slots.
fn read_flags(version: Version, field: &[u8], slots: usize) -> Option<Counted<RowFlags>>
    ensures { ReadsCounted (flags_text (flag_form version)) (AreFlags (flag_form version) slots)
        AreFewFlags field.now result }
{
    flags_field(version.flag_form(), field, slots)
}

/// `FLAG FACTS SHAPE POT`, with nothing after them.
fn read_last(version: Version, mut fields: Fields) -> Option<ReadLast>
    ensures { ReadsLast version fields.entry result }
{
    let flag_text = fields.next()?;
    let facts_text = fields.next()?;
    let ReadShape { count, shape } = shape_field(fields.next()?)?;
    let flags = read_flags(version, flag_text, count)?;
    let facts = facts_field(facts_text, count)?;
    let potential = potential_field(fields.next()?, count)?;
    if !fields.is_empty() || count >= SLOT_BOUND {
        return None;
    }
    Some(ReadLast {
        flags,
        count,
        shape,
        facts,
        potential,
    })
}

/// The row of what was read; only its place if something is too many.
fn row_of(place: RowPlace, pairs: Pairs, last: ReadLast) -> ReadRow
    ensures { MakesRow place pairs last result }
{
    let ReadLast {
        flags,
        shape,
        facts,
        potential,
        ..
    } = last;
    let (
        Counted::Fits(flags),
        Counted::Fits(shape),
        Counted::Fits(facts),
        Counted::Fits(potential),
    ) = (flags, shape, facts, potential) else {
        return ReadRow::Crowded(place);
    };
    let RowFlags { fact, parts } = flags;
    let RowPlace {
        proc,
        address,
        mode,
        armed,
    } = place;
    ReadRow::Whole(Row {
        proc,
        address,
        state: AbsState {
            mode,
            armed,
            pairs,
            flag: fact,
            shape,
        },
        parts,
        facts,
        potential,
    })
}

/// The row of the fields after `row`.
pub(crate) fn read_row(version: Version, mut fields: Fields) -> Option<ReadRow>
    ensures { ReadsRow version fields.entry result }
{
    let place = take_place(version, &mut fields)?;
    let pairs = take_pairs(&mut fields)?;
    let last = read_last(version, fields)?;
    if place.mode == Mode::Unset && last.count > 0 {
        return None;
    }
    Some(row_of(place, pairs, last))
}
