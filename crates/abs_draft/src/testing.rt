// The test of an instruction: what is known if it held and if not; and the constants at the end.
ghost use Rattle.std.specs.Prelude.{◌≡◌, ◌≤◌, Some, None, MatchBool, IfSome, option_map, length, get_or};
ghost use Rattle.std.specs.Bool.{OnFalse};
ghost use Rattle.abs_state.specs.Variables.{full_slot};
ghost use Rattle.abs_draft.specs.Outcomes.{state_tested, tested, test_in, before_test, test_of, behind_test, after_moves, constant_first, settled, settled_slot};

use crate::draft::AbsDraft;
use crate::ground::Ground;
use abs_state::AbsState;
use arrayvec::ArrayVec;
use intervals::{ByteRange, Pair, RegPair, WordRange};
use loop_bounds::{Change, Effect, SlotChange, SlotNumber};
use stack_shape::Shape;
use z80_decode::Register8;
use z80_moves::{Move, Test};

impl AbsDraft {
    /// Restricts what is known to where a test held, or did not. Answers whether that can be; if not, nothing changes.
    pub fn restrict(&mut self, test: Test, held: bool) -> bool
        ensures exact { MatchBool result (tested test held self.old
            ≡ Some self.new) (tested test held self.old ≡ None) }
        ensures unchanged { OnFalse result (self.new ≡ self.old) }
    {
        restrict_state(&mut self.state, test, held)
    }

    /// A copy.
    pub fn copied(&self) -> AbsDraft
        ensures { result ≡ self.now }
    {
        let mut writes = ArrayVec::new();
        let _fits = writes.try_extend_from_slice(self.writes.as_slice());
        AbsDraft {
            state: self.state.copied(),
            readable: self.readable,
            operand: self.operand,
            pointer: self.pointer,
            pc: self.pc,
            effect: self.effect,
            writes,
        }
    }
}

fn restrict_state(state: &mut AbsState, test: Test, held: bool) -> bool
    ensures exact { MatchBool result (state_tested test held state.old
        ≡ Some state.new) (state_tested test held state.old ≡ None) }
    ensures unchanged { OnFalse result (state.new ≡ state.old) }
{
    match test {
        Test::Flag(condition) => state.restrict(held, condition),
        Test::BNotZero => state.restrict_byte(!held, Register8::B, 0),
        Test::BcNotZero => state.restrict_word(!held, RegPair::Bc, 0),
        Test::SearchGoesOn if held => state.restrict_word(false, RegPair::Bc, 0),
        Test::SearchGoesOn => true,
    }
}

/// The test, if the move is one.
fn test_in(step: Move) -> Option<Test>
    ensures { result ≡ test_in step }
{
    match step {
        Move::OnlyIf(test) => Some(test),
        _ => None,
    }
}

/// The test of an instruction, and the moves after it.
#[derive(Drop)]
pub struct Tested<'a> {
    pub test: Test,
    pub behind: &'a [Move],
}

impl AbsDraft {
    /// Makes the moves up to the test of a list, or all of them if it has none.
    #[tactic(auto, unfolding(crate::specs::Outcomes::before_test, crate::specs::Outcomes::test_of, crate::specs::Outcomes::behind_test, crate::specs::Outcomes::after_moves))]
    pub fn make_to_test<'a>(
        &mut self,
        ground: &Ground,
        inline: bool,
        moves: &'a [Move],
    ) -> Option<Tested<'a>>
        requires { length ground.now.cells ≤ 256 }
        ensures made { self.new ≡ after_moves ground.now inline (before_test moves.now) self.old }
        ensures test { option_map (λ t. t.test) result ≡ test_of moves.now }
        ensures behind { IfSome result (λ t. t.behind.now ≡ behind_test moves.now) }
    {
        for (place, step) in moves.iter().enumerate() {
            if let Some(test) = test_in(*step) {
                return Some(Tested {
                    test,
                    behind: &moves[place + 1..],
                });
            }
            self.make(ground, inline, *step);
        }
        None
    }

    /// Gives constants priority: a variable whose range has one value becomes that constant in the effect.
    pub fn settle(&mut self)
        ensures { self.new ≡ record self.old { effect = settled self.old.state self.old.effect } }
    {
        self.effect = settled(&self.effect, &self.state);
    }
}

/// The effect with priority for constants: a variable whose range in the state after it has one value is that constant.
pub fn settled(effect: &Effect, state: &AbsState) -> Effect
    ensures { result ≡ settled state.now effect.now }
{
    let pairs = &state.pairs;
    Effect {
        a: byte_constant(pairs.af.high, effect.a),
        b: byte_constant(pairs.bc.high, effect.b),
        c: byte_constant(pairs.bc.low, effect.c),
        d: byte_constant(pairs.de.high, effect.d),
        e: byte_constant(pairs.de.low, effect.e),
        h: byte_constant(pairs.hl.high, effect.h),
        l: byte_constant(pairs.hl.low, effect.l),
        bc: word_constant(pairs.bc.word, effect.bc),
        de: word_constant(pairs.de.word, effect.de),
        hl: word_constant(pairs.hl.word, effect.hl),
        ix: word_constant(pairs.ix.word, effect.ix),
        iy: word_constant(pairs.iy.word, effect.iy),
        slot: match effect.slot {
            Some(change) => Some(settled_slot(&state.shape, change)),
            None => None,
        },
    }
}

/// What is known of a slot; a full pair if there is none.
fn slot_at(shape: &Shape, number: SlotNumber) -> Pair
    ensures { result ≡ (get_or shape.now number full_slot).pair }
{
    match shape.slots().get(usize::from(number.number())) {
        Some(slot) => slot.pair,
        None => Pair::full(),
    }
}

fn settled_slot(shape: &Shape, change: SlotChange) -> SlotChange
    ensures { result ≡ settled_slot shape.now change }
{
    let pair = slot_at(shape, change.number);
    SlotChange {
        number: change.number,
        word: word_constant(pair.word, change.word),
        high: byte_constant(pair.high, change.high),
        low: byte_constant(pair.low, change.low),
    }
}

fn byte_constant(range: ByteRange, change: Change) -> Change
    ensures { result ≡ constant_first range change }
{
    match range.value() {
        Some(byte) => Change::Constant(u16::from(byte)),
        None => change,
    }
}

fn word_constant(range: WordRange, change: Change) -> Change
    ensures { result ≡ constant_first range change }
{
    match range.value() {
        Some(word) => Change::Constant(word),
        None => change,
    }
}
