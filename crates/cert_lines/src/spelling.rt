// How the lines of a certificate are spelled. Each is made whole, with its line feed.

ghost use Rattle.std.specs.Prelude.{◌≡◌, ◌≤◌, ◌+◌, ◌++◌, ◌∷◌, [], length};
ghost use Rattle.std.specs.Fmt.{decimal};
ghost use Rattle.std.specs.List.{join_with_byte};
ghost use Rattle.cert_lines.specs.Line.{fed_line};
ghost use Rattle.cert_lines.specs.Proc.{decimal_or_dash, kind_word};
ghost use Rattle.cert_lines.specs.Row.{last_fields, pair_fields, place_fields, place_of, row_flags};
ghost use Rattle.cert_lines.specs.Version.{flag_form};
ghost use Rattle.cert_lines.specs.declared.line.Line.{Line};
ghost use Rattle.cert_fields.specs.Pair.{pair_text};
ghost use Rattle.cert_flags.specs.Flags.{flags_text};
ghost use Rattle.texts.specs.Made.{MADE_LEN};

use crate::proc::{Proc, ProcKind};
use crate::row::RowRef;
use crate::split::Split;
use crate::version::{BoardMap, Version};
use abs_state::{KeptCell, Pairs};
use address_map::Region;
use cert_fields::{add_facts, add_mode, add_pair, add_potential, add_register, add_shape};
use cert_flags::add_flags;
use intervals::Pair;
use texts::MadeLine;

/// A line that begins with these bytes.
fn line_of(bytes: &[u8]) -> MadeLine
    requires { length bytes.now ≤ 64 }
    ensures value { result ≡ bytes.now }
    ensures short { length result ≤ 64 }
{
    let mut line = MadeLine::new();
    line.add(bytes);
    line
}

/// `galcert V`.
#[tactic(auto, unfolding(crate::specs::Line::fields_of))]
pub fn header_line(version: Version) -> MadeLine
    ensures { result ≡ fed_line version (Line.Header version) }
{
    match version {
        Version::One => line_of(b"galcert 1\n"),
        Version::Two => line_of(b"galcert 2\n"),
        Version::Three => line_of(b"galcert 3\n"),
    }
}

/// `rom LEN`.
#[tactic(auto, unfolding(crate::specs::Line::fields_of))]
pub fn rom_line(len: u16) -> MadeLine
    ensures { result ≡ fed_line Version.One (Line.Rom len) }
{
    let mut line = line_of(b"rom ");
    line.add_decimal(u128::from(len));
    line.add_byte(b'\n');
    line
}

/// `map NAME`.
#[tactic(auto, unfolding(crate::specs::Line::fields_of))]
pub fn board_line(board: BoardMap) -> MadeLine
    ensures { result ≡ fed_line Version.Two (Line.Board board) }
{
    let mut line = line_of(b"map ");
    line.add(board.name());
    line.add_byte(b'\n');
    line
}

/// `stack LOW TOP`.
#[tactic(auto, unfolding(crate::specs::Line::fields_of))]
pub fn stack_line(region: Region) -> MadeLine
    ensures { result ≡ fed_line Version.One (Line.Stack region) }
{
    let mut line = line_of(b"stack ");
    line.add_hex4(region.low);
    line.add_byte(b' ');
    line.add_hex4(region.top);
    line.add_byte(b'\n');
    line
}

/// Adds a decimal, or a dash for none.
fn add_decimal_or_dash(line: &mut MadeLine, number: Option<u32>)
    requires { length line.old + 39 ≤ MADE_LEN }
    ensures value { line.new ≡ line.old ++ decimal_or_dash number }
    ensures grown { length line.new ≤ length line.old + 39 }
{
    match number {
        Some(number) => line.add_decimal(u128::from(number)),
        None => line.add_byte(b'-'),
    }
}

/// `budget N`, or `budget -`.
#[tactic(auto, unfolding(crate::specs::Line::fields_of))]
pub fn budget_line(budget: Option<u16>) -> MadeLine
    ensures { result ≡ fed_line Version.One (Line.Budget budget) }
{
    let mut line = line_of(b"budget ");
    add_decimal_or_dash(&mut line, budget.map(u32::from));
    line.add_byte(b'\n');
    line
}

/// The word for a kind of procedure.
fn kind_name(kind: ProcKind) -> &'static [u8]
    ensures value { result.now ≡ kind_word kind }
    ensures short { length result.now ≤ 4 }
{
    match kind {
        ProcKind::Main => b"main",
        ProcKind::Nmi => b"nmi",
        ProcKind::Sub => b"sub",
    }
}

/// Adds a space and a decimal.
fn add_next_number(line: &mut MadeLine, number: u16)
    requires { length line.old + 40 ≤ MADE_LEN }
    ensures value { line.new ≡ line.old ++ 32 ∷ decimal number }
    ensures grown { length line.new ≤ length line.old + 40 }
{
    line.add_byte(b' ');
    line.add_decimal(u128::from(number));
}

/// `proc KIND ENTRY RANK DEPTH TIME`.
#[tactic(auto, unfolding(crate::specs::Line::fields_of))]
pub fn proc_line(proc: &Proc) -> MadeLine
    ensures { result ≡ fed_line Version.One (Line.Proc proc.now) }
{
    let mut line = line_of(b"proc ");
    line.add(kind_name(proc.kind));
    line.add_byte(b' ');
    line.add_hex4(proc.entry);
    add_next_number(&mut line, proc.rank);
    add_next_number(&mut line, proc.depth);
    line.add_byte(b' ');
    add_decimal_or_dash(&mut line, proc.time);
    line.add_byte(b'\n');
    line
}

/// `split PROC ADDR REG`.
#[tactic(auto, unfolding(crate::specs::Line::fields_of))]
pub fn split_line(split: &Split) -> MadeLine
    ensures { result ≡ fed_line Version.One (Line.Split split.now) }
{
    let mut line = line_of(b"split ");
    line.add_decimal(u128::from(split.proc));
    line.add_byte(b' ');
    line.add_hex4(split.address);
    line.add_byte(b' ');
    add_register(&mut line, split.register);
    line.add_byte(b'\n');
    line
}

/// `inline ADDR`.
#[tactic(auto, unfolding(crate::specs::Line::fields_of))]
pub fn inline_line(address: u16) -> MadeLine
    ensures { result ≡ fed_line Version.One (Line.Inline address) }
{
    let mut line = line_of(b"inline ");
    line.add_hex4(address);
    line.add_byte(b'\n');
    line
}

/// `cell ADDR LO HI`.
#[tactic(auto, unfolding(crate::specs::Line::fields_of))]
pub fn cell_line(cell: &KeptCell) -> MadeLine
    ensures { result ≡ fed_line Version.Two (Line.Cell cell.now) }
{
    let mut line = line_of(b"cell ");
    line.add_hex4(cell.at);
    line.add_byte(b' ');
    line.add_hex2(cell.range.low());
    line.add_byte(b' ');
    line.add_hex2(cell.range.high());
    line.add_byte(b'\n');
    line
}

/// Adds `PROC ADDR MODE`, and from version 2 on `ARMED`.
fn add_place(line: &mut MadeLine, version: Version, row: &RowRef)
    requires { length line.old + 86 ≤ MADE_LEN }
    ensures value { line.new
        ≡ line.old ++ join_with_byte 32 (place_fields version (place_of row.now)) }
    ensures grown { length line.new ≤ length line.old + 86 }
{
    line.add_decimal(u128::from(row.proc));
    line.add_byte(b' ');
    line.add_hex4(row.address);
    line.add_byte(b' ');
    add_mode(line, row.mode);
    match version {
        Version::One => {}
        Version::Two | Version::Three => {
            line.add_byte(b' ');
            line.add_decimal(u128::from(row.armed));
        }
    }
}

/// Adds a space and a pair.
fn add_next_pair(line: &mut MadeLine, pair: Pair)
    requires { length line.old + 26 ≤ MADE_LEN }
    ensures value { line.new ≡ line.old ++ 32 ∷ pair_text pair }
    ensures grown { length line.new ≤ length line.old + 26 }
{
    line.add_byte(b' ');
    add_pair(line, pair);
}

/// Adds the pairs of the alternate set, each after a space.
fn add_alternate_pairs(line: &mut MadeLine, pairs: &Pairs)
    requires { length line.old + 104 ≤ MADE_LEN }
    ensures value { line.new
        ≡ line.old ++ 32 ∷ join_with_byte 32 (pair_text pairs.now.alternate_af ∷
        pair_text pairs.now.alternate_bc ∷ pair_text pairs.now.alternate_de ∷ pair_text pairs.now.alternate_hl ∷ []) }
    ensures grown { length line.new ≤ length line.old + 104 }
{
    add_next_pair(line, pairs.alternate_af);
    add_next_pair(line, pairs.alternate_bc);
    add_next_pair(line, pairs.alternate_de);
    add_next_pair(line, pairs.alternate_hl);
}

/// Adds the ten pairs, with spaces between them.
fn add_pairs(line: &mut MadeLine, pairs: &Pairs)
    requires { length line.old + 259 ≤ MADE_LEN }
    ensures value { line.new ≡ line.old ++ join_with_byte 32 (pair_fields pairs.now) }
    ensures grown { length line.new ≤ length line.old + 259 }
{
    add_pair(line, pairs.af);
    add_next_pair(line, pairs.bc);
    add_next_pair(line, pairs.de);
    add_next_pair(line, pairs.hl);
    add_next_pair(line, pairs.ix);
    add_next_pair(line, pairs.iy);
    add_alternate_pairs(line, pairs);
}

/// Adds what a row of this version says of the flags.
fn add_row_flags(line: &mut MadeLine, version: Version, row: &RowRef)
    requires { length line.old + 415 ≤ MADE_LEN }
    ensures value { line.new ≡ line.old ++ flags_text (flag_form version) (row_flags row.now) }
    ensures grown { length line.new ≤ length line.old + 415 }
{
    add_flags(line, version.flag_form(), row.flag, row.parts);
}

/// Adds what a row says of the flags, the facts, the shape and the potential, with spaces between them.
fn add_last(line: &mut MadeLine, version: Version, row: &RowRef)
    requires { length line.old + 2334 ≤ MADE_LEN }
    ensures value { line.new ≡ line.old ++ join_with_byte 32 (last_fields version row.now) }
    ensures grown { length line.new ≤ length line.old + 2334 }
{
    add_row_flags(line, version, row);
    line.add_byte(b' ');
    add_facts(line, row.facts);
    line.add_byte(b' ');
    add_shape(line, row.shape);
    line.add_byte(b' ');
    add_potential(line, row.potential);
}

/// `row PROC ADDR MODE ...`, in a version.
#[tactic(auto, unfolding(crate::specs::Line::fields_of, crate::specs::Row::fields_of_row))]
pub fn row_line(version: Version, row: &RowRef) -> MadeLine
    ensures { result ≡ fed_line version (Line.Row row.now) }
{
    let mut line = line_of(b"row ");
    add_place(&mut line, version, row);
    line.add_byte(b' ');
    add_pairs(&mut line, row.pairs);
    line.add_byte(b' ');
    add_last(&mut line, version, row);
    line.add_byte(b'\n');
    line
}

/// `end`.
#[tactic(auto, unfolding(crate::specs::Line::fields_of))]
pub fn end_line() -> MadeLine
    ensures { result ≡ fed_line Version.One Line.End }
{
    line_of(b"end\n")
}
