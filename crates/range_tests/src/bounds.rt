// Tests of linear bounds, worked by hand.

ghost use Rattle.std.specs.Prelude.{◌≡◌, ◌↔◌, ◌≤◌, All, IsTrue, unsigned_abs, Option, Some, None, option_map};
ghost use Rattle.std.proofs.Common.{rules, subst, sym};
ghost use Rattle.intervals.specs.Range.{RangeView, Within, full, intersection};
ghost use Rattle.loop_bounds.specs.declared.variable.Variable.TheVariants.{A, B, C, Hl};
ghost use Rattle.loop_bounds.specs.declared.variable.Variable.{Variable};

use intervals::WordRange;
use loop_bounds::{
    Change, Effect, Linear, Part, Ranges, SlotNumber, Term, Tightenable, Variable, becomes,
    decreases, decreases_beside, tighten, vanishes,
};
use std::process::Abort;

/// Ranges of B, C and HL; the others are full.
#[derive(Drop)]
struct Registers {
    b: WordRange,
    c: WordRange,
    hl: WordRange,
}

impl Ranges for Registers {
    ghost range_of = { λ s v. elim v as (λ _. RangeView) [ B ↦ s.b | C ↦ s.c | Hl ↦ s.hl | _ ↦ full 65536 ] };

    fn range(&self, variable: Variable) -> WordRange {
        match variable {
            Variable::B => self.b,
            Variable::C => self.c,
            Variable::Hl => self.hl,
            _ => WordRange::full(),
        }
    }
}

/// A state in which all variables are known to be equal, with their range.
#[derive(Drop)]
struct Equal {
    range: WordRange,
}

impl Ranges for Equal {
    ghost range_of = { λ s _. s.range };

    fn range(&self, _variable: Variable) -> WordRange {
        self.range
    }
}

impl Tightenable for Equal {
    ghost holds = { λ s x. Within s.range (x A) × ((v : Variable) → x v ≡ x A) };

    ghost cut_to = { λ s _ to. option_map (λ r. record { range = r }) (intersection s.range to) };

    ghost in_ranges = { λ s x v h. subst (λ n. Within s.range n) (sym (h.1 v)) h.0 };

    ghost keeps = { λ s x v to h p. Prim.search rules };

    fn cut(&mut self, _variable: Variable, to: WordRange) -> bool {
        match self.range.intersection(to) {
            Some(range) => {
                self.range = range;
                true
            }
            None => false,
        }
    }
}

fn words((low, high): (u16, u16)) -> WordRange {
    WordRange::new(low, high).unwrap_or(WordRange::full())
}

fn times(coefficient: i32, variable: Variable) -> Term {
    Term {
        coefficient,
        variable,
    }
}

/// A constant, and the coefficients of B, C and HL.
type Sum = (i32, i32, i32, i32);

fn linear(rt: &impl Abort, (constant, b, c, hl): Sum) -> Linear {
    let mut sum = Linear::of_constant(constant).expect(rt, "the constant is too great");
    for term in [
        times(b, Variable::B),
        times(c, Variable::C),
        times(hl, Variable::Hl),
    ] {
        if term.coefficient != 0 {
            sum = sum.with_term(term).expect(rt, "the term does not fit");
        }
    }
    sum
}

/// -1,000,000,000 - 1,000,000 * A + BC: the least constant, the least coefficient, and a second term.
fn great() -> Option<Linear> {
    let constant = Linear::of_constant(-1_000_000_000)?;
    let less = constant.with_term(times(-1_000_000, Variable::A))?;
    less.with_term(times(1, Variable::Bc))
}

fn great_with(term: Term) -> Option<Linear> {
    great()?.with_term(term)
}

fn constants_are_checked() -> bool {
    Linear::of_constant(1_000_000_001).is_none() && Linear::of_constant(-1_000_000_001).is_none()
}

fn is_great() -> bool {
    match great() {
        Some(sum) => sum.constant() == -1_000_000_000 && sum.terms().len() == 2,
        None => false,
    }
}

/// Whether these terms are refused: a variable that is there, one before it, a coefficient of 0, and one above the
/// greatest.
fn terms_are_checked() -> bool {
    great_with(times(1, Variable::Bc)).is_none()
        && great_with(times(1, Variable::L)).is_none()
        && great_with(times(0, Variable::Iy)).is_none()
        && great_with(times(1_000_001, Variable::Iy)).is_none()
}

#[test]
fn linears_are_checked(rt: HostRuntime) {
    assert!(rt; constants_are_checked());
    assert!(rt; is_great());
    assert!(rt; terms_are_checked());
}

/// Whether the low byte of slot 63 is the last variable and fits as the third term, and a fourth term does not fit.
fn last_variable_fits() -> Option<bool> {
    let last = times(1, Variable::Slot(SlotNumber::new(63)?, Part::Low));
    let whole = great_with(last)?;
    Some(
        SlotNumber::new(64).is_none()
            && Variable::Iy.rank() == 11
            && last.variable.rank() == 203
            && whole.with_term(last).is_none(),
    )
}

#[test]
fn the_last_variable_fits(rt: HostRuntime) {
    assert!(rt; last_variable_fits() == Some(true));
}

/// What a step leaves in a variable.
#[derive(Clone, Copy)]
enum Left {
    OldA,
    OldB,
    OldC,
    OldBc,
    LoweredB,
    Constant(u16),
    Unknown,
}

fn change(left: Left) -> Change {
    match left {
        Left::OldA => Change::Old(Variable::A),
        Left::OldB => Change::Old(Variable::B),
        Left::OldC => Change::Old(Variable::C),
        Left::OldBc => Change::Old(Variable::Bc),
        Left::LoweredB => Change::Lowered(Variable::B),
        Left::Constant(word) => Change::Constant(word),
        Left::Unknown => Change::Unknown,
    }
}

/// What a step leaves in B, C and BC; the other variables are unchanged.
type Lefts = (Left, Left, Left);

const KEEPS: Lefts = (Left::OldB, Left::OldC, Left::OldBc);

fn effect((b, c, bc): Lefts) -> Effect {
    Effect {
        b: change(b),
        c: change(c),
        bc: change(bc),
        ..Effect::unchanged()
    }
}

/// The bounds of B and of C. HL is FFFF.
type Bounds = ((u16, u16), (u16, u16));

fn known((b, c): Bounds) -> Registers {
    Registers {
        b: words(b),
        c: words(c),
        hl: words((0xffff, 0xffff)),
    }
}

/// The potentials before and after a step, its T-states, what it leaves, the bounds before and after it, and whether
/// the step is paid.
type Step = (Sum, Sum, u32, Lefts, Bounds, Bounds, bool);

fn is_as_told(rt: &impl Abort, &(before, after, time, left, from, to, pays): &Step) -> bool {
    let (before, after) = (linear(rt, before), linear(rt, after));
    let (from, to) = (known(from), known(to));
    decreases(&before, &after, time, &effect(left), &from, &to) == pays
}

const LOOPING: Bounds = ((1, 8), (0, 65_535));

const ANY: Bounds = ((0, 255), (0, 65_535));

// LD B,8 of 7 T-states, and DJNZ to itself, of 13 or 8: the potentials before it, at it and after it.
const BEFORE: Sum = (126, 0, 0, 0);

const TURNS: Sum = (15, 13, 0, 0);

const AFTER: Sum = (20, 0, 0, 0);

const COUNTS: Lefts = (Left::LoweredB, Left::OldC, Left::Unknown);

const SETS: Lefts = (Left::Constant(8), Left::OldC, Left::OldBc);

const UNKNOWN: Lefts = (Left::Unknown, Left::OldC, Left::OldBc);

const LOOP_STEPS: &[Step] = &[
    (TURNS, TURNS, 13, COUNTS, LOOPING, LOOPING, true),
    (TURNS, TURNS, 14, COUNTS, LOOPING, LOOPING, false),
    (TURNS, AFTER, 8, COUNTS, LOOPING, ANY, true),
    (TURNS, AFTER, 9, COUNTS, LOOPING, ANY, false),
    (BEFORE, TURNS, 7, SETS, ANY, LOOPING, true),
    (BEFORE, TURNS, 8, SETS, ANY, LOOPING, false),
    (BEFORE, TURNS, 7, UNKNOWN, ANY, LOOPING, true),
    (BEFORE, TURNS, 7, UNKNOWN, LOOPING, ANY, false),
    (BEFORE, TURNS, 7, KEEPS, ANY, LOOPING, false),
];

#[test]
fn a_loop_of_eight_turns_pays(rt: HostRuntime) {
    for (place, step) in LOOP_STEPS.iter().enumerate() {
        assert!(rt; is_as_told(&rt, step), "step {place}");
    }
}

/// The potential before a step, the one after it without a term, the T-states, what the step leaves, the coefficient of
/// that term, the linear that the step leaves in its variable, the bounds before and after the step, and whether it is
/// paid.
type StepBeside = (Sum, Sum, u32, Lefts, i32, Sum, Bounds, Bounds, bool);

fn are_slight(terms: &[Term]) -> bool
    ensures { IsTrue result ↔ All (λ t. unsigned_abs t.coefficient ≤ 256) terms.now }
{
    terms
        .iter()
        .all(|term| term.coefficient.unsigned_abs() <= 256)
}

fn is_paid_beside(
    rt: &impl Abort,
    &(before, after, time, left, factor, beside, from, to, pays): &StepBeside,
) -> bool {
    let (before, after, beside) = (linear(rt, before), linear(rt, after), linear(rt, beside));
    let (from, to) = (known(from), known(to));
    factor.unsigned_abs() <= 1_000_000
        && are_slight(beside.terms())
        && decreases_beside(
            &before,
            &after,
            time,
            &effect(left),
            factor,
            &beside,
            &from,
            &to,
        ) == pays
}

// 5 + 2 * B + C, C, and 256 * B
const TWICE: Sum = (5, 2, 1, 0);

const SINGLE: Sum = (0, 0, 1, 0);

const MOST: Sum = (0, 256, 0, 0);

// Potentials before a step, and what is left of those after it.
const TRIPLE: Sum = (20, 6, 3, 0);

const REST: Sum = (1, 0, 0, 0);

const FALLS: Sum = (120, -4, 0, 0);

const HUNDRED: Sum = (100, 0, 0, 0);

const RISES: Sum = (50, 0, 4, 0);

const DOUBLE_B: Sum = (0, 2, 0, 0);

const SHORT: Bounds = ((0, 10), (0, 5));

const SEVEN: Bounds = ((0, 7), (0, 5));

const ONE: Bounds = ((1, 1), (0, 0));

/// The greatest factor.
const TOP: i32 = 1_000_000;

// 20 + 6 * B + 3 * C - 1 - 3 * (5 + 2 * B + C) is 4. 120 - 4 * B - 100 + 2 * (5 + 2 * B + C) is 30 + 2 * C, so at least
// 30. 50 + 4 * C - 2 * B - 4 * C, with B from 0 to 7 and unknown after the step, is at least 36. 1,000,000 * 256 * B is
// 256,000,000 at B of 1.
const STEPS_BESIDE: &[StepBeside] = &[
    (TRIPLE, REST, 4, KEEPS, 3, TWICE, SHORT, SHORT, true),
    (TRIPLE, REST, 5, KEEPS, 3, TWICE, SHORT, SHORT, false),
    (FALLS, HUNDRED, 30, KEEPS, -2, TWICE, SHORT, SHORT, true),
    (FALLS, HUNDRED, 31, KEEPS, -2, TWICE, SHORT, SHORT, false),
    (RISES, DOUBLE_B, 36, UNKNOWN, 4, SINGLE, SHORT, SEVEN, true),
    (RISES, DOUBLE_B, 37, UNKNOWN, 4, SINGLE, SHORT, SEVEN, false),
    (ZERO, ZERO, 256_000_000, KEEPS, -TOP, MOST, ONE, ONE, true),
    (ZERO, ZERO, 256_000_001, KEEPS, -TOP, MOST, ONE, ONE, false),
    (ZERO, ZERO, 0, KEEPS, TOP, MOST, ONE, ONE, false),
];

#[test]
fn a_step_beside_a_linear_pays(rt: HostRuntime) {
    for (place, step) in STEPS_BESIDE.iter().enumerate() {
        assert!(rt; is_paid_beside(&rt, step), "step {place}");
    }
}

/// Whether 7 + 2 * B - C is taken apart: at B to 7 - C and 2, at C to 7 + 2 * B and -1, and at HL to itself and 0.
fn is_taken_apart(rt: &impl Abort) -> bool {
    let whole = linear(rt, (7, 2, -1, 0));
    whole.apart(Variable::B) == (linear(rt, (7, 0, -1, 0)), 2)
        && whole.apart(Variable::C) == (linear(rt, (7, 2, 0, 0)), -1)
        && whole.apart(Variable::Hl) == (whole, 0)
}

#[test]
fn a_linear_is_taken_apart(rt: HostRuntime) {
    assert!(rt; is_taken_apart(&rt));
}

const BYTES: Bounds = ((0, 255), (0, 255));

const ZERO: Sum = (0, 0, 0, 0);

const UP: Sum = (0, 0, 0, 1_000_000);

const DOWN: Sum = (1_000_000_000, 0, 0, -1_000_000);

// B - C
const APART: Sum = (0, 1, -1, 0);

// B and C both become the old A.
const MOVES: Lefts = (Left::OldA, Left::OldA, Left::OldBc);

const GREAT_STEPS: &[Step] = &[
    (UP, ZERO, u32::MAX, KEEPS, BYTES, BYTES, true),
    (DOWN, ZERO, 0, KEEPS, BYTES, BYTES, false),
    (ZERO, DOWN, 0, KEEPS, BYTES, BYTES, true),
    (ZERO, UP, 0, KEEPS, BYTES, BYTES, false),
    // B - C after both became the old A: the two merge to 0.
    (ZERO, APART, 0, MOVES, BYTES, BYTES, true),
    (ZERO, APART, 0, KEEPS, BYTES, BYTES, false),
];

#[test]
fn the_arithmetic_does_not_wrap(rt: HostRuntime) {
    for (place, step) in GREAT_STEPS.iter().enumerate() {
        assert!(rt; is_as_told(&rt, step), "step {place}");
    }
}

// B - 5, B - 6 and 6 - B
const FIVE: Sum = (-5, 1, 0, 0);

const SIX: Sum = (-6, 1, 0, 0);

const MINUS_SIX: Sum = (6, -1, 0, 0);

const LOWERS: Lefts = (Left::LoweredB, Left::OldC, Left::OldBc);

// Bounds before a step with B 5 and C from 0 to 255.
const B_IS_FIVE: Bounds = ((5, 5), (0, 255));

/// What a step leaves, the bounds before it, a fact, and whether the fact holds after the step without another fact.
const VANISHING: &[(Lefts, Bounds, Sum, bool)] = &[
    (
        (Left::Constant(5), Left::OldC, Left::OldBc),
        BYTES,
        FIVE,
        true,
    ),
    (
        (Left::Constant(4), Left::OldC, Left::OldBc),
        BYTES,
        FIVE,
        false,
    ),
    (UNKNOWN, BYTES, FIVE, false),
    (MOVES, BYTES, APART, true),
    (KEEPS, BYTES, APART, false),
    // B is unchanged and was 5, so the fact is 5 - 5. So it is if C becomes the old B; but not 5 - 6.
    (KEEPS, B_IS_FIVE, FIVE, true),
    (KEEPS, BYTES, FIVE, false),
    (KEEPS, B_IS_FIVE, SIX, false),
    (BOTH_B, B_IS_FIVE, APART, true),
    (UNKNOWN, B_IS_FIVE, FIVE, false),
];

// B and C both become the old B.
const BOTH_B: Lefts = (Left::OldB, Left::OldB, Left::OldBc);

// C - 5
const C_IS_FIVE: Sum = (-5, 0, 1, 0);

/// What a step leaves, the bounds before it, a fact, another fact, and whether the first holds after the step if the
/// other held before.
const BECOMING: &[(Lefts, Bounds, Sum, Sum, bool)] = &[
    (LOWERS, BYTES, FIVE, SIX, true),
    (LOWERS, BYTES, FIVE, MINUS_SIX, true),
    (LOWERS, BYTES, FIVE, FIVE, false),
    (KEEPS, BYTES, FIVE, SIX, false),
    (
        (Left::OldC, Left::OldB, Left::OldBc),
        BYTES,
        APART,
        APART,
        true,
    ),
    (UNKNOWN, BYTES, APART, APART, false),
    // With B left at 5, B - C is 5 - C, the negation of C - 5, and no longer B - C.
    (KEEPS, B_IS_FIVE, APART, C_IS_FIVE, true),
    (KEEPS, B_IS_FIVE, APART, APART, false),
    (KEEPS, BYTES, APART, C_IS_FIVE, false),
];

#[test]
fn facts_are_rewritten(rt: HostRuntime) {
    for (place, &(lefts, from, fact, wanted)) in VANISHING.iter().enumerate() {
        let found = vanishes(&linear(&rt, fact), &effect(lefts), &known(from));
        assert!(rt; found == wanted, "fact {place}");
    }
    for (place, &(lefts, from, fact, given, wanted)) in BECOMING.iter().enumerate() {
        let (fact, given) = (linear(&rt, fact), linear(&rt, given));
        let found = becomes(&fact, &effect(lefts), &known(from), &given);
        assert!(rt; found == wanted, "pair {place}");
    }
}

/// The range after tightening by a fact, where all variables are equal.
fn tightened(fact: &Linear, range: (u16, u16)) -> Option<(u16, u16)> {
    let mut state = Equal {
        range: words(range),
    };
    if tighten(fact, &mut state) {
        Some((state.range.low(), state.range.high()))
    } else {
        None
    }
}

/// A fact, the range before it, and the range that it leaves.
const CUTS: &[(Sum, (u16, u16), Option<(u16, u16)>)] = &[
    ((-5, 1, 0, 0), (0, 10), Some((5, 5))),
    ((-5, 1, 0, 0), (6, 10), None),
    // 3 * B = 10 has no integer solution: 10 / 3 is rounded up and down, inwards.
    ((-10, 3, 0, 0), (0, 10), None),
    ((10, -5, 0, 0), (0, 10), Some((2, 2))),
    // 2 * B = C: B is at most half of 10, and then C, like all, at most 5.
    ((0, 2, -1, 0), (0, 10), Some((0, 5))),
    // 2 * B - C - 3 = 0: B from 3 / 2 to 13 / 2, inwards 2 to 6; then C from 1 to 9, which leaves 2 to 6.
    ((-3, 2, -1, 0), (0, 10), Some((2, 6))),
    // B + C - 30 = 0: B at least 20, so nothing above 10 is enough.
    ((-30, 1, 1, 0), (0, 10), None),
    ((-30, 1, 1, 0), (0, 20), Some((10, 20))),
    // B + C + 1 = 0 has no solution in natural numbers; a fact without terms cuts nothing.
    ((1, 1, 1, 0), (0, 65_535), None),
    ((5, 0, 0, 0), (7, 9), Some((7, 9))),
    // B - C = 0 says nothing new about equal variables.
    ((0, 1, -1, 0), (7, 9), Some((7, 9))),
];

#[test]
fn a_fact_cuts_its_variables(rt: HostRuntime) {
    for (place, &(fact, range, left)) in CUTS.iter().enumerate() {
        assert!(rt;
            tightened(&linear(&rt, fact), range) == left,
            "fact {place}"
        );
    }
}

/// The state keeps the cuts before the one that fails.
#[test]
fn what_a_refused_fact_leaves(rt: HostRuntime) {
    // 2 * B - C - 19 = 0: B from 19 / 2 to 29 / 2, inwards 10 to 14, which leaves 10 of 0 to 10; then C is 1.
    let fact = linear(&rt, (-19, 2, -1, 0));
    let mut state = Equal {
        range: words((0, 10)),
    };
    assert!(rt; !tighten(&fact, &mut state));
    assert!(rt; state.range.low() == 10 && state.range.high() == 10);
}
