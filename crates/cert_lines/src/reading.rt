// How a line is read from its text.

ghost use Rattle.std.specs.Prelude.{◌≡◌, ◌∷◌, [], ◌≤◌, ◌↔◌, IsTrue, IfSome};
ghost use Rattle.std.specs.Fmt.{decimal};
ghost use Rattle.cert_lines.specs.Keyword.{StandsOnce, keyword_text};
ghost use Rattle.cert_lines.specs.Proc.{IsProc, IsOfKind, decimal_or_dash, kind_word, proc_fields};
ghost use Rattle.cert_lines.specs.Read.{ReadsLine};
ghost use Rattle.cert_lines.specs.Version.{board_name, version_digit};
ghost use Rattle.cert_fields.specs.Names.{register_letter};
ghost use Rattle.cert_fields.specs.Pair.{IsRange};
ghost use Rattle.texts.specs.Fields.{fields_in};
ghost use Rattle.texts.specs.Numbers.{Always, IsWord, Reads, hex2, hex4};

use crate::line::Line;
use crate::proc::{GREATEST_TIME, Proc, ProcKind, is_of_kind};
use crate::row::RowPlace;
use crate::row_reading::{ReadRow, read_row};
use crate::split::Split;
use crate::version::{BoardMap, Version};
use abs_state::KeptCell;
use address_map::Region;
use cert_fields::register_field;
use intervals::ByteRange;
use texts::{Fields, decimal_between, decimal_field, hex2_field, hex4_field};

/// What was read of a line.
#[derive(Drop)]
pub enum ReadLine {
    Whole(Line),
    /// A row that is out of form only because it has too many slots, flag parts, facts or terms; only its place is
    /// given.
    Crowded(RowPlace),
}

/// The first field of a line, which determines its kind.
#[derive(Clone, Copy)]
pub enum Keyword {
    Galcert,
    Rom,
    Map,
    Stack,
    Budget,
    Proc,
    Split,
    Inline,
    Cell,
    Row,
    End,
}

fn keyword_field(field: &[u8]) -> Option<Keyword>
    ensures { Reads keyword_text Always field.now result }
{
    if field == b"row".as_slice() {
        Some(Keyword::Row)
    } else if field == b"proc".as_slice() {
        Some(Keyword::Proc)
    } else if field == b"split".as_slice() {
        Some(Keyword::Split)
    } else if field == b"inline".as_slice() {
        Some(Keyword::Inline)
    } else if field == b"cell".as_slice() {
        Some(Keyword::Cell)
    } else {
        head_keyword(field)
    }
}

/// The keywords of lines that a certificate has once.
fn head_keyword(field: &[u8]) -> Option<Keyword>
    ensures { Reads keyword_text StandsOnce field.now result }
{
    if field == b"galcert".as_slice() {
        Some(Keyword::Galcert)
    } else if field == b"rom".as_slice() {
        Some(Keyword::Rom)
    } else if field == b"map".as_slice() {
        Some(Keyword::Map)
    } else if field == b"stack".as_slice() {
        Some(Keyword::Stack)
    } else if field == b"budget".as_slice() {
        Some(Keyword::Budget)
    } else if field == b"end".as_slice() {
        Some(Keyword::End)
    } else {
        None
    }
}

fn version_field(field: &[u8]) -> Option<Version>
    ensures { Reads version_digit Always field.now result }
{
    match field {
        [b'1'] => Some(Version::One),
        [b'2'] => Some(Version::Two),
        [b'3'] => Some(Version::Three),
        _ => None,
    }
}

fn kind_field(field: &[u8]) -> Option<ProcKind>
    ensures { Reads kind_word Always field.now result }
{
    if field == b"main".as_slice() {
        Some(ProcKind::Main)
    } else if field == b"nmi".as_slice() {
        Some(ProcKind::Nmi)
    } else if field == b"sub".as_slice() {
        Some(ProcKind::Sub)
    } else {
        None
    }
}

/// A decimal from 0 to `most`, or a dash for none.
fn decimal_or_dash_field(field: &[u8], most: u32) -> Option<Option<u32>>
    ensures { Reads decimal_or_dash (λ n. IfSome n (λ n. n ≤ most)) field.now result }
{
    if field == b"-".as_slice() {
        return Some(None);
    }
    Some(Some(decimal_between(field, 0, most)?))
}

/// `V`, after `galcert`.
fn header_fields(mut fields: Fields) -> Option<Version>
    ensures { Reads (λ v. version_digit v ∷ []) Always fields.entry result }
{
    let version = version_field(fields.next()?)?;
    if fields.is_empty() {
        Some(version)
    } else {
        None
    }
}

/// `LEN`, after `rom`.
fn rom_fields(mut fields: Fields) -> Option<u16>
    ensures { Reads (λ len. decimal len ∷ []) IsWord fields.entry result }
{
    let len = decimal_field(fields.next()?)?;
    if fields.is_empty() { Some(len) } else { None }
}

/// `NAME`, after `map`.
fn board_fields(mut fields: Fields) -> Option<BoardMap>
    ensures { Reads (λ b. board_name b ∷ []) Always fields.entry result }
{
    let board = BoardMap::named(fields.next()?)?;
    if fields.is_empty() { Some(board) } else { None }
}

/// `LOW TOP`, after `stack`.
fn stack_fields(mut fields: Fields) -> Option<Region>
    ensures { Reads (λ region. hex4 region.low ∷ hex4 region.top ∷ []) (λ region. IsWord region.low
        × IsWord region.top) fields.entry result }
{
    let low = hex4_field(fields.next()?)?;
    let top = hex4_field(fields.next()?)?;
    if fields.is_empty() {
        Some(Region { low, top })
    } else {
        None
    }
}

/// `N` or a dash, after `budget`.
fn budget_fields(mut fields: Fields) -> Option<Option<u16>>
    ensures { Reads (λ budget. decimal_or_dash budget
        ∷ []) (λ budget. IfSome budget IsWord) fields.entry result }
{
    let budget = decimal_or_dash_field(fields.next()?, u32::from(u16::MAX))?;
    if fields.is_empty() {
        Some(budget.map(|budget| budget as u16))
    } else {
        None
    }
}

/// `KIND ENTRY RANK DEPTH TIME`, after `proc`.
fn proc_of_fields(mut fields: Fields) -> Option<Proc>
    ensures { Reads proc_fields IsProc fields.entry result }
{
    let kind = kind_field(fields.next()?)?;
    let entry = hex4_field(fields.next()?)?;
    let rank = decimal_field(fields.next()?)?;
    let depth = decimal_field(fields.next()?)?;
    let time = decimal_or_dash_field(fields.next()?, GREATEST_TIME)?;
    if fields.is_empty() && is_of_kind(kind, entry, time) {
        Some(Proc {
            kind,
            entry,
            rank,
            depth,
            time,
        })
    } else {
        None
    }
}

/// `PROC ADDR REG`, after `split`.
fn split_fields(mut fields: Fields) -> Option<Split>
    ensures { Reads (λ s. decimal s.proc ∷ hex4 s.address ∷ register_letter s.register
        ∷ []) (λ s. IsWord s.proc × IsWord s.address) fields.entry result }
{
    let proc = decimal_field(fields.next()?)?;
    let address = hex4_field(fields.next()?)?;
    let register = register_field(fields.next()?)?;
    if fields.is_empty() {
        Some(Split {
            proc,
            address,
            register,
        })
    } else {
        None
    }
}

/// `ADDR`, after `inline`.
fn inline_fields(mut fields: Fields) -> Option<u16>
    ensures { Reads (λ a. hex4 a ∷ []) IsWord fields.entry result }
{
    let address = hex4_field(fields.next()?)?;
    if fields.is_empty() {
        Some(address)
    } else {
        None
    }
}

/// `ADDR LO HI`, after `cell`.
fn cell_fields(mut fields: Fields) -> Option<KeptCell>
    ensures { Reads (λ c. hex4 c.at ∷ hex2 c.range.low ∷ hex2 c.range.high ∷ []) (λ c. IsWord c.at
        × IsRange 255 c.range) fields.entry result }
{
    let at = hex4_field(fields.next()?)?;
    let low = hex2_field(fields.next()?)?;
    let high = hex2_field(fields.next()?)?;
    let range = ByteRange::new(low, high)?;
    if fields.is_empty() {
        Some(KeptCell { at, range })
    } else {
        None
    }
}

impl Line {
    /// The line of this version with this text, which is given without its line feed; None if no line has the text. For
    /// a row that is out of form only because it has too many slots, flag parts, facts or terms, only its place is
    /// given.
    #[tactic(auto, unfolding(crate::specs::Line::fields_of))]
    pub fn of(version: Version, text: &[u8]) -> Option<ReadLine>
        ensures { ReadsLine version (fields_in text.now) result }
    {
        let mut fields = Fields::of(text);
        let line = match keyword_field(fields.next()?)? {
            Keyword::Galcert => Line::Header(header_fields(fields)?),
            Keyword::Rom => Line::Rom(rom_fields(fields)?),
            Keyword::Map => Line::Board(board_fields(fields)?),
            Keyword::Stack => Line::Stack(stack_fields(fields)?),
            Keyword::Budget => Line::Budget(budget_fields(fields)?),
            Keyword::Proc => Line::Proc(proc_of_fields(fields)?),
            Keyword::Split => Line::Split(split_fields(fields)?),
            Keyword::Inline => Line::Inline(inline_fields(fields)?),
            Keyword::Cell => Line::Cell(cell_fields(fields)?),
            Keyword::Row => match read_row(version, fields)? {
                ReadRow::Whole(row) => Line::Row(row),
                ReadRow::Crowded(place) => return Some(ReadLine::Crowded(place)),
            },
            Keyword::End => {
                if !fields.is_empty() {
                    return None;
                }
                Line::End
            }
        };
        Some(ReadLine::Whole(line))
    }
}
