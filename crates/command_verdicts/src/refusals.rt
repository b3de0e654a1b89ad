// The lines that report a refused certificate, or a bad line of a text.

ghost use Rattle.std.specs.Prelude.{◌≡◌, ◌≤◌, length};
ghost use Rattle.command_verdicts.specs.Verdict.{bad_line_text, detail_of, gap_before, refused_text};

use abs_step::Reason;
use check_rules::Refused;
use texts::MadeLine;
use z80_decode::DecodeFault;

/// The line of a refused certificate (docs/PROGRAM.md, "Refused").
pub fn refused_line(refused: &Refused) -> MadeLine
    ensures { result ≡ refused_text refused.now }
{
    let name = refused.reason.name();
    let detail = detail(refused.reason);
    let mut line = MadeLine::new();
    line.add(b"refused ");
    line.add_hex4(refused.address);
    line.add(b" ");
    line.add_decimal(u128::from(refused.reason.number()));
    line.add(b" ");
    line.add(name);
    line.add(gap_before(detail));
    line.add(detail);
    line.add(b"\n");
    line
}

fn detail(reason: Reason) -> &'static [u8]
    ensures value { result.now ≡ detail_of reason }
    ensures short { length result.now ≤ 12 }
{
    match reason {
        Reason::Decode(DecodeFault::Truncated) => b"Truncated",
        Reason::Decode(DecodeFault::Undocumented) => b"Undocumented",
        Reason::SavedRegister(saved) => saved.name(),
        _ => b"",
    }
}

/// The space before a word, if there is one.
fn gap_before(word: &[u8]) -> &'static [u8]
    ensures value { result.now ≡ gap_before word.now }
    ensures short { length result.now ≤ 1 }
{
    if word.is_empty() { b"" } else { b" " }
}

/// A line that ends in a line's number, such as `bad certificate line 3`.
pub fn bad_line(what: &[u8], number: u64) -> MadeLine
    requires { length what.now ≤ 100 }
    ensures { result ≡ bad_line_text what.now number }
{
    let mut line = MadeLine::new();
    line.add(what);
    line.add(b" line ");
    line.add_decimal(u128::from(number));
    line.add(b"\n");
    line
}
