// The abstract step of a row: its data writes, and its successors or the reason that refuses it.
ghost use Rattle.std.specs.Prelude.{◌≡◌, ◌≤◌, if◌then◌else◌, [], length, Ok, Err, Result, IfOk, IfErr, IfSome, option_map};
ghost use Rattle.board_fetch.specs.Decoded.{StandsAt};
ghost use Rattle.z80_decode.specs.Spelling.{spelling};
ghost use Rattle.z80_decode.specs.declared.instr.Instr.{Instr as Instruction};
ghost use Rattle.z80_decode.specs.declared.fault.DecodeFault.{DecodeFault as Fault};
ghost use Rattle.abs_draft.specs.Ground.{ground_of};
ghost use Rattle.abs_draft.specs.Outcomes.{behind_test, settled, test_of};
ghost use Rattle.t_states.specs.Costs.{cost_of};
ghost use Rattle.t_states.specs.Io.{is_io};
ghost use Rattle.z80_moves.specs.Moves.{moves_of};
ghost use Rattle.abs_step.specs.Contained.{Keeps, WritesAsKnown};
ghost use Rattle.abs_step.specs.Successors.{address_of, stack_set, ways_on, answer_of, writes_of, operand_of};
ghost use Rattle.intervals.specs.Range.{full};

use crate::next::{Next, NextKind, Nexts};
use crate::reason::Reason;
use crate::rules::{kind_of, refusal, set_stack};
use abs_draft::{AbsDraft, DataWrite, Ground, Tested};
use abs_state::{AbsState, KeptCell};
use address_map::{Map, Rom};
use board_fetch::fetch;
use intervals::ByteRange;
use loop_bounds::Effect;
use smallvec::SmallVec;
use std::alloc::Global;
use t_states::{cost, is_io};
use z80_decode::{DecodeFault, Instr};
use z80_moves::moves_for;

/// Finishes a successor after its moves: turns single values into constants of the effect, and lets LD SP,nn of main
/// set the stack.
pub(crate) fn finish(known: &mut AbsDraft, main: bool, instr: &Instr)
    ensures { known.new ≡ record known.old {
      state = stack_set main instr.now known.old.state;
      effect = settled known.old.state known.old.effect;
    } }
{
    known.settle();
    set_stack(main, instr, &mut known.state);
}

/// The successor made of the finished draft and of its effect before that.
#[inline]
pub(crate) fn next_from(
    known: AbsDraft,
    moved: Effect,
    instr: &Instr,
    taken: bool,
    kind: NextKind,
) -> Next
    ensures { result ≡ record {
      address = address_of kind known.pc.low;
      state = known.state;
      effect = known.effect;
      moved = moved;
      cost = cost_of instr.now taken;
      kind = kind;
      taken = taken;
    } }
{
    let address = match kind {
        NextKind::Jump | NextKind::Call => known.pc.low(),
        NextKind::Exit => 0,
    };
    Next {
        address,
        state: known.state,
        effect: known.effect,
        moved,
        cost: cost(instr, taken),
        kind,
        taken,
    }
}

/// The successors from what is known at the test of an instruction, or after its last move where it has no test.
fn ways_on(
    alloc: Global,
    ground: &Ground,
    known: AbsDraft,
    main: bool,
    inline: bool,
    instr: &Instr,
    kind: NextKind,
    tested: Option<Tested>,
) -> Nexts
    requires cells { length ground.now.cells ≤ 256 }
    requires test { option_map (λ t. t.test) tested ≡ test_of (moves_of instr.now) }
    requires behind { IfSome tested (λ t. t.behind.now ≡ behind_test (moves_of instr.now)) }
    ensures { result.items
        ≡ ways_on ground.now main inline instr.now kind (test_of (moves_of instr.now)) known }
{
    let mut known = known;
    let mut nexts = SmallVec::new(alloc);
    match tested {
        None => {
            let moved = known.effect;
            finish(&mut known, main, instr);
            nexts.push_reserved(next_from(known, moved, instr, false, kind));
        }
        Some(tested) => {
            let mut left = known.copied();
            if known.restrict(tested.test, true) {
                known.make_all(ground, inline, tested.behind);
                let moved = known.effect;
                finish(&mut known, main, instr);
                nexts.push_reserved(next_from(known, moved, instr, true, kind));
            }
            if left.restrict(tested.test, false) {
                let moved = left.effect;
                finish(&mut left, main, instr);
                nexts.push_reserved(next_from(left, moved, instr, false, NextKind::Jump));
            }
        }
    }
    nexts
}

/// The data writes that are known at the test of an instruction. An instruction of input and output has none.
fn writes_at_test(alloc: Global, instr: &Instr, known: &AbsDraft) -> SmallVec<DataWrite, 2>
    ensures { result.items ≡ (if is_io instr.now then [] else known.now.writes.items) }
{
    let mut writes = SmallVec::new(alloc);
    if !is_io(instr) {
        for write in known.writes.as_slice() {
            let _fits = writes.push(*write);
        }
    }
    writes
}

/// The range of the byte in work at the end of an instruction; full where it has a test.
fn operand_at_end(operand: ByteRange, has_test: bool) -> ByteRange
    ensures { result ≡ (if has_test then full 256 else operand) }
{
    if has_test { ByteRange::full() } else { operand }
}

/// What the abstract step makes of a row: its data writes, and its successors or the lowest reason that refuses it.
#[derive(Drop)]
pub struct RowStep {
    /// The data writes of the instruction, a byte each, in order.
    pub writes: SmallVec<DataWrite, 2>,
    /// The successors, at most two, or why the step refuses the row: the lowest of the reasons 4, 5, 9 and 10 that
    /// applies, or 12 for a computed jump to more than one word (docs/CHECKER.md).
    pub answer: Result<Nexts, Reason>,
    /// The range of the byte in work at the end of the instruction; full where it has a test.
    pub operand: ByteRange,
}

impl RowStep {
    /// The step of a row with no instruction at its address, for this fault of the decoder. It writes nothing, and
    /// reason 4 refuses the row. It takes no memory.
    pub fn undecoded(alloc: Global, fault: DecodeFault) -> RowStep
        ensures writes { result.writes.items ≡ [] }
        ensures answer { result.answer ≡ Err (Reason.Decode fault) }
    {
        RowStep {
            writes: SmallVec::new(alloc),
            answer: Err(Reason::Decode(fault)),
            operand: ByteRange::full(),
        }
    }
}

/// Makes the abstract step of a row once, for its data writes and its successors. `instr` is the instruction at the
/// row's address, 0 to 65,535, and `len` its length, 1 to 4 bytes. `main` says whether the row is main code's, and
/// `inline` whether the address is that of an inline call. There are at most 256 kept cells. A row that is refused has
/// its data writes too. It takes no memory.
pub fn row_step(
    alloc: Global,
    ground: &Ground,
    address: u16,
    main: bool,
    inline: bool,
    instr: &Instr,
    len: u8,
    state: &AbsState,
) -> RowStep
    requires cells { length ground.now.cells ≤ 256 }
    requires len { len ≡ length (spelling instr.now) }
    ensures writes { result.writes.items ≡ writes_of ground.now address state.now (Ok instr.now) }
    ensures ok { IfOk result.answer (λ nexts.
        answer_of ground.now address main inline state.now (Ok instr.now) ≡ Ok nexts.items) }
    ensures err { IfErr result.answer (λ reason.
        answer_of ground.now address main inline state.now (Ok instr.now) ≡ Err reason) }
    ensures fits { IfOk result.answer (λ nexts. length state.now.shape ≤ 64) }
    ensures operand { result.operand ≡ operand_of ground.now address inline state.now instr.now }
{
    let mut known = AbsDraft::before(address, len, state);
    let moves = moves_for(instr);
    let tested = known.make_to_test(ground, inline, moves.as_slice());
    let writes = writes_at_test(alloc, instr, &known);
    let operand = operand_at_end(known.operand, tested.is_some());
    let answer = match refusal(main, inline, instr, state) {
        Some(reason) => Err(reason),
        None => {
            let kind = kind_of(inline, instr, &state.shape);
            Ok(ways_on(alloc, ground, known, main, inline, instr, kind, tested))
        }
    };
    RowStep {
        writes,
        answer,
        operand,
    }
}

/// The successors of a row whose instruction is at `address`, at most two: first where the instruction is taken or has
/// no test, then where it is not taken. `main` says whether the row belongs to main code, `inline` whether the call at
/// `address` is marked inline. The map must have the ROM's length, and there may be at most 256 kept cells. The call
/// takes no memory.
///
/// On every board that the row describes, the data writes of the instruction lie in `data_writes`. If no reason that
/// the certificate decides applies to the row, the instruction does what one of these successors says (docs/CHECKER.md,
/// "What a step keeps").
///
/// # Errors
///
/// The lowest reason that applies of 4, 5, 9 and 10, and 12 for a computed jump through a pair that is not one word
/// (docs/CHECKER.md, "The table of reasons"). The other reasons depend on the rest of the certificate.
pub fn successors(
    alloc: Global,
    rom: &Rom,
    map: &Map,
    cells: &[KeptCell],
    address: u16,
    main: bool,
    inline: bool,
    state: &AbsState,
) -> Result<Nexts, Reason>
    requires map { map.now.rom_len ≡ length rom.now }
    requires cells { length cells.now ≤ 256 }
    ensures ok { IfOk result (λ nexts. (decoded : Result Instruction Fault)
        → StandsAt rom.now address decoded
        → answer_of (ground_of rom.now map.now cells.now) address main inline state.now decoded ≡ Ok nexts.items) }
    ensures err { IfErr result (λ reason. (decoded : Result Instruction Fault)
        → StandsAt rom.now address decoded
        → answer_of (ground_of rom.now map.now cells.now) address main inline state.now decoded ≡ Err reason) }
    ensures decodes { IfOk result (λ nexts. (instr : Instruction)
        × StandsAt rom.now address (Ok instr)) }
    ensures keeps { IfOk result (λ nexts. (instr : Instruction)
        → StandsAt rom.now address (Ok instr)
        → Keeps (ground_of rom.now map.now cells.now) address main state.now instr nexts.items) }
    ensures writes { IfOk result (λ nexts. (instr : Instruction)
        → StandsAt rom.now address (Ok instr)
        → WritesAsKnown (ground_of rom.now map.now cells.now) address state.now instr) }
{
    let ground = Ground::of(rom, map, cells);
    match fetch(rom, address) {
        Ok((instr, len)) => {
            row_step(alloc, &ground, address, main, inline, &instr, len, state).answer
        }
        Err(fault) => Err(Reason::Decode(fault)),
    }
}

/// The data writes of the instruction at `address`, one per byte, in order. There are none where no instruction is at
/// that address, nor for one of the I/O group. Each write of a step from a board that the row describes lies in the
/// data write at its place. The map must have the ROM's length, and there may be at most 256 kept cells. The call takes
/// no memory.
pub fn data_writes(
    alloc: Global,
    rom: &Rom,
    map: &Map,
    cells: &[KeptCell],
    address: u16,
    state: &AbsState,
) -> SmallVec<DataWrite, 2>
    requires map { map.now.rom_len ≡ length rom.now }
    requires cells { length cells.now ≤ 256 }
    ensures { (decoded : Result Instruction Fault) → StandsAt rom.now address decoded
        → result.items ≡ writes_of (ground_of rom.now map.now cells.now) address state.now decoded }
{
    match fetch(rom, address) {
        Ok((instr, len)) => {
            let ground = Ground::of(rom, map, cells);
            row_step(alloc, &ground, address, false, true, &instr, len, state).writes
        }
        Err(_) => SmallVec::new(alloc),
    }
}
