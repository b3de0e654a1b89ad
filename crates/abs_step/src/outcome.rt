// The successor of one outcome of an instruction's test.
ghost use Rattle.std.specs.Prelude.{◌≡◌, ◌≤◌, length, IfSome, option_map, option_to_list};
ghost use Rattle.z80_decode.specs.Spelling.{spelling};
ghost use Rattle.z80_moves.specs.Moves.{moves_of};
ghost use Rattle.abs_draft.specs.Outcomes.{behind_test, test_of};
ghost use Rattle.abs_step.specs.Successors.{nexts_by, way_by};

use crate::next::{Next, NextKind};
use crate::rules::kind_of;
use crate::stepping::{finish, next_from};
use abs_draft::{AbsDraft, Ground, Tested};
use abs_state::AbsState;
use z80_decode::Instr;
use z80_moves::moves_for;

/// The successor of one outcome, from what is known at the test of an instruction, or after its last move where it has
/// no test.
fn way_by(
    ground: &Ground,
    known: AbsDraft,
    main: bool,
    inline: bool,
    instr: &Instr,
    kind: NextKind,
    tested: Option<Tested>,
    taken: bool,
) -> Option<Next>
    requires cells { length ground.now.cells ≤ 256 }
    requires test { option_map (λ t. t.test) tested ≡ test_of (moves_of instr.now) }
    requires behind { IfSome tested (λ t. t.behind.now ≡ behind_test (moves_of instr.now)) }
    ensures { option_to_list result
        ≡ way_by ground.now main inline instr.now kind (test_of (moves_of instr.now)) known taken }
{
    let mut known = known;
    match tested {
        None => {
            if taken {
                return None;
            }
            let moved = known.effect;
            finish(&mut known, main, instr);
            Some(next_from(known, moved, instr, false, kind))
        }
        Some(tested) => {
            if taken {
                if !known.restrict(tested.test, true) {
                    return None;
                }
                known.make_all(ground, inline, tested.behind);
                let moved = known.effect;
                finish(&mut known, main, instr);
                Some(next_from(known, moved, instr, true, kind))
            } else {
                if !known.restrict(tested.test, false) {
                    return None;
                }
                let moved = known.effect;
                finish(&mut known, main, instr);
                Some(next_from(known, moved, instr, false, NextKind::Jump))
            }
        }
    }
}

/// The successor of a row for one outcome of the test of its instruction: where the test held if `taken`, else where it
/// did not. There is none where that outcome is infeasible. An instruction without a test has one successor, where
/// `taken` is false. No reason is judged: the call is for rows that `row_step` does not refuse. `instr` is the
/// instruction at `address`, and `len` its length, 1 to 4 bytes. `main` says whether the row is main code's, and
/// `inline` whether the address is that of an inline call. There are at most 256 kept cells. It takes no memory.
pub fn outcome_next(
    ground: &Ground,
    address: u16,
    main: bool,
    inline: bool,
    instr: &Instr,
    len: u8,
    state: &AbsState,
    taken: bool,
) -> Option<Next>
    requires cells { length ground.now.cells ≤ 256 }
    requires len { len ≡ length (spelling instr.now) }
    ensures { option_to_list result
        ≡ nexts_by ground.now address main inline instr.now state.now taken }
{
    let mut known = AbsDraft::before(address, len, state);
    let moves = moves_for(instr);
    let tested = known.make_to_test(ground, inline, moves.as_slice());
    let kind = kind_of(inline, instr, &state.shape);
    way_by(ground, known, main, inline, instr, kind, tested, taken)
}
