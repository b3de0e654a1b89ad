// The rules at one instruction: which reasons refuse a row for itself, and the kind of its successors.
ghost use Rattle.std.specs.Prelude.{◌≡◌, ◌≤◌, IfNone, length};
ghost use Rattle.abs_step.specs.Successors.{is_call, pushes_word, pops_word, uses_stack, returns_nowhere, has_no_shape, jump_pair, jumps_anywhere, refusal, next_kind_of, mode_set, stack_set};

use crate::next::NextKind;
use crate::reason::Reason;
use abs_state::{AbsState, Mode};
use intervals::Pair;
use stack_shape::{SLOTS, Shape};
use t_states::is_io;
use z80_actions::may_return;
use z80_decode::{Instr, Pointer, Register16};

fn is_call(instr: &Instr) -> bool
    ensures { result ≡ is_call instr.now }
{
    matches!(
        instr,
        Instr::Call(_) | Instr::CallIf(_, _) | Instr::Restart(_)
    )
}

fn is_push(instr: &Instr) -> bool
    ensures { result ≡ pushes_word instr.now }
{
    matches!(instr, Instr::Push(_))
}

/// Whether the instruction pops or exchanges the top word of the stack; a return does not count.
fn is_pop(instr: &Instr) -> bool
    ensures { result ≡ pops_word instr.now }
{
    matches!(instr, Instr::Pop(_) | Instr::ExchangeStack(_))
}

fn uses_stack(instr: &Instr) -> bool
    ensures { result ≡ uses_stack instr.now }
{
    is_call(instr) || may_return(instr) || is_push(instr) || is_pop(instr)
}

/// Whether a return has no single address: main's on an empty shape, or one to a slot with more than one word.
fn returns_nowhere(main: bool, shape: &Shape) -> bool
    ensures { result ≡ returns_nowhere main shape.now }
{
    match shape.top() {
        Some(slot) => {
            let word = slot.pair.word;
            word.low() != word.high()
        }
        None => main,
    }
}

/// Whether the instruction does not fit the shape: a 65th slot, a pop from an empty shape, or a return without a single
/// address.
fn has_no_shape(main: bool, inline: bool, instr: &Instr, shape: &Shape) -> bool
    ensures value { result ≡ has_no_shape main inline instr.now shape.now }
    ensures fits { length shape.now ≤ 64 }
{
    let is_full = shape.len() == SLOTS && (is_push(instr) || is_call(instr) && inline);
    is_full
        || is_pop(instr) && shape.is_empty()
        || may_return(instr) && returns_nowhere(main, shape)
}

/// The pair through which a computed jump goes.
fn jump_pair(pointer: Pointer, state: &AbsState) -> Pair
    ensures { result ≡ jump_pair pointer state.now }
{
    match pointer {
        Pointer::Hl => state.pairs.hl,
        Pointer::Ix => state.pairs.ix,
        Pointer::Iy => state.pairs.iy,
    }
}

/// Whether the instruction is a computed jump through a pair with more than one word.
fn jumps_anywhere(instr: &Instr, state: &AbsState) -> bool
    ensures { result ≡ jumps_anywhere instr.now state.now }
{
    match *instr {
        Instr::JumpTo(pointer) => {
            let word = jump_pair(pointer, state).word;
            word.low() != word.high()
        }
        _ => false,
    }
}

/// The lowest reason that refuses a row at this instruction for itself.
pub(crate) fn refusal(main: bool, inline: bool, instr: &Instr, state: &AbsState) -> Option<Reason>
    ensures value { result ≡ refusal main inline instr.now state.now }
    ensures fits { IfNone result (length state.now.shape ≤ 64) }
{
    if is_io(instr) {
        Some(Reason::IoSpace)
    } else if uses_stack(instr) && matches!(state.mode, Mode::Unset) {
        Some(Reason::StackUnset)
    } else if has_no_shape(main, inline, instr, &state.shape) {
        Some(Reason::StackShape)
    } else if jumps_anywhere(instr, state) {
        Some(Reason::NotCovered)
    } else {
        None
    }
}

/// The kind of the successor where the instruction is taken.
pub(crate) fn kind_of(inline: bool, instr: &Instr, shape: &Shape) -> NextKind
    ensures { result ≡ next_kind_of inline instr.now shape.now }
{
    if is_call(instr) && !inline {
        NextKind::Call
    } else if may_return(instr) && shape.is_empty() {
        NextKind::Exit
    } else {
        NextKind::Jump
    }
}

/// LD SP,nn of main makes the shape empty and turns mode `u` into `s`.
pub(crate) fn set_stack(main: bool, instr: &Instr, state: &mut AbsState)
    ensures { state.new ≡ stack_set main instr.now state.old }
{
    if let (true, Instr::LoadPair(Register16::Sp, _)) = (main, instr) {
        state.mode = mode_set(state.mode);
        state.shape = Shape::empty();
    }
}

fn mode_set(mode: Mode) -> Mode
    ensures { result ≡ mode_set mode }
{
    match mode {
        Mode::Unset | Mode::Set => Mode::Set,
        Mode::Nmi => Mode::Nmi,
    }
}
