// The lines of a summary.

ghost use Rattle.std.specs.Prelude.{◌≡◌, ◌≤◌, ◌+◌, ◌++◌, length};
ghost use Rattle.texts.specs.Made.{MADE_LEN};
ghost use Rattle.runner.specs.Output.{done_line, regs_line, sum_line, summary_text};

use crate::machine::Summary;
use run_lines::{add_decimal_field, add_hex4_field};
use texts::MadeLine;

/// The lines of a summary (docs/PROGRAM.md, "A run's lines").
pub fn summary_lines(summary: &Summary) -> MadeLine
    ensures { result ≡ summary_text summary.now }
{
    let mut lines = MadeLine::new();
    add_done(&mut lines, summary);
    add_regs(&mut lines, &summary.pairs);
    add_sums(&mut lines, &summary.sums);
    lines
}

/// Adds the line of the events, T-states, program counter and stack pointer.
fn add_done(lines: &mut MadeLine, summary: &Summary)
    requires { length lines.old + 95 ≤ MADE_LEN }
    ensures value { lines.new ≡ lines.old ++ done_line summary.now }
    ensures grown { length lines.new ≤ length lines.old + 95 }
{
    lines.add(b"done");
    add_decimal_field(lines, u128::from(summary.events));
    add_decimal_field(lines, summary.time);
    add_hex4_field(lines, summary.pc);
    add_hex4_field(lines, summary.sp);
    lines.add_byte(b'\n');
}

/// Adds the line of the register pairs.
fn add_regs(lines: &mut MadeLine, pairs: &[u16; 6])
    requires { length lines.old + 35 ≤ MADE_LEN }
    ensures value { lines.new ≡ lines.old ++ regs_line pairs.now }
    ensures grown { length lines.new ≤ length lines.old + 35 }
{
    let [af, bc, de, hl, ix, iy] = *pairs;
    lines.add(b"regs");
    add_hex4_field(lines, af);
    add_hex4_field(lines, bc);
    add_hex4_field(lines, de);
    add_hex4_field(lines, hl);
    add_hex4_field(lines, ix);
    add_hex4_field(lines, iy);
    lines.add_byte(b'\n');
}

/// Adds the line of the sums.
fn add_sums(lines: &mut MadeLine, sums: &[u32; 3])
    requires { length lines.old + 124 ≤ MADE_LEN }
    ensures value { lines.new ≡ lines.old ++ sum_line sums.now }
    ensures grown { length lines.new ≤ length lines.old + 124 }
{
    let [work, video, object] = *sums;
    lines.add(b"sum");
    add_decimal_field(lines, u128::from(work));
    add_decimal_field(lines, u128::from(video));
    add_decimal_field(lines, u128::from(object));
    lines.add_byte(b'\n');
}
