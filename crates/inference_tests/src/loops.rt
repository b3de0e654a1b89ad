// Loops, and what joins keep and lose.

use crate::instructions::{
    copy_byte, count_down, load, load_bc, load_de, load_hl, push_hl, raise_hl,
};
use crate::sums::{after_all, are, linear, run};
use affine::Space;
use loop_bounds::{Change, Effect, Part, SlotNumber, Variable};

/// The body of a loop that clears memory: LD (HL),A; INC HL; DJNZ.
fn clear_body() -> [Effect; 3] {
    [Effect::unchanged(), raise_hl(), count_down()]
}

/// LD HL,4000; LD B,20; then at the loop's head, after the first turn came back.
fn clear_head() -> Space {
    let mut head = after_all(&[load_hl(0x4000), load(Variable::B, 0x20)]);
    let back = run(&head, &clear_body());
    head.join(&back);
    head
}

/// In the body, between INC HL and DJNZ, the sum is one more. With two steps of HL a turn B counts twice.
#[test]
fn a_clear_loop_keeps_a_sum(rt: HostRuntime) {
    let before = after_all(&[load_hl(0x4000), load(Variable::B, 0x20)]);
    assert!(rt; are(&before.relations(), &[]) && before.constant(Variable::Hl) == Some(0x4000));
    let mut head = clear_head();
    let wanted = linear(-0x4020, &[(1, Variable::B), (1, Variable::Hl)]);
    assert!(rt; are(&head.relations(), &[wanted]) && head.constant(Variable::Hl).is_none());
    let inside = head.after(&raise_hl(), 0);
    let one_more = linear(-0x4021, &[(1, Variable::B), (1, Variable::Hl)]);
    assert!(rt; are(&inside.relations(), &[one_more]));
    assert!(rt; !head.join(&run(&head, &clear_body())));
    assert!(rt; are(&head.relations(), &[wanted]));
    let mut by_two = before;
    assert!(rt; by_two.join(&run(&before, &[raise_hl(), raise_hl(), count_down()])));
    let twice = linear(-0x4040, &[(2, Variable::B), (1, Variable::Hl)]);
    assert!(rt; are(&by_two.relations(), &[twice]));
}

/// LD HL,4000; LD DE,5000; LD BC,100; LDIR.
#[test]
fn a_block_copy_keeps_three_sums(rt: HostRuntime) {
    let mut at = after_all(&[load_hl(0x4000), load_de(0x5000), load_bc(0x100)]);
    let turn = at.after(&copy_byte(), 0);
    assert!(rt; at.join(&turn));
    let wanted = [
        linear(-0x5100, &[(1, Variable::Bc), (1, Variable::De)]),
        linear(-0x4100, &[(1, Variable::Bc), (1, Variable::Hl)]),
        linear(-0x1000, &[(1, Variable::De), (-1, Variable::Hl)]),
    ];
    assert!(rt; are(&at.relations(), &wanted));
    let turn = at.after(&copy_byte(), 0);
    assert!(rt; !at.join(&turn));
    assert!(rt; are(&at.triples(Variable::Hl), &[]));
}

/// The head of a loop to which two call sites lead. Each gives HL and B.
fn joined(one: (u16, u16), other: (u16, u16)) -> Space {
    let mut head = after_all(&[load_hl(one.0), load(Variable::B, one.1)]);
    head.join(&after_all(&[load_hl(other.0), load(Variable::B, other.1)]));
    head
}

/// The head of a clear loop, after the first turn came back.
fn turned(head: Space) -> Space {
    let mut turned = head;
    turned.join(&run(&head, &clear_body()));
    turned
}

/// Two call sites with (HL, B) = (4010, 20) and (4110, 20): B stays a constant until the loop moves it.
#[test]
fn two_call_sites_lose_a_sum(rt: HostRuntime) {
    let head = joined((0x4010, 0x20), (0x4110, 0x20));
    assert!(rt; are(&head.relations(), &[]));
    assert!(rt; head.constant(Variable::B) == Some(0x20) && head.constant(Variable::Hl).is_none());
    let back = turned(head);
    assert!(rt; are(&back.relations(), &[]) && back.constant(Variable::B).is_none());
}

/// Two call sites with (HL, B) = (4010, 20) and (4020, 10) have one sum of the two, and one of B and L, which INC HL
/// makes unknown.
#[test]
fn two_call_sites_keep_a_sum(rt: HostRuntime) {
    let head = joined((0x4010, 0x20), (0x4020, 0x10));
    let low = linear(-0x30, &[(1, Variable::B), (1, Variable::L)]);
    let whole = linear(-0x4030, &[(1, Variable::B), (1, Variable::Hl)]);
    assert!(rt; are(&head.relations(), &[low, whole]) && head.constant(Variable::H) == Some(0x40));
    let mut back = turned(head);
    assert!(rt; are(&back.relations(), &[whole]) && back.constant(Variable::H).is_none());
    assert!(rt; !back.join(&run(&back, &clear_body())));
}

/// A call site with another sum. Then what one side does not know, the join does not know: A is fetched on one side.
#[test]
fn a_join_loses_what_one_side_does_not_know(rt: HostRuntime) {
    let mut head = clear_head();
    assert!(rt; head.join(&after_all(&[load_hl(0x4001), load(Variable::B, 0x20)])));
    assert!(rt; are(&head.relations(), &[]) && !head.join(&clear_head()));
    let mut known = after_all(&[load(Variable::A, 1), load(Variable::B, 2)]);
    let fetch_a = Effect {
        a: Change::Unknown,
        ..Effect::unchanged()
    };
    assert!(rt; known.join(&known.after(&fetch_a, 0)));
    assert!(rt; known.constant(Variable::A).is_none() && known.constant(Variable::B) == Some(2));
    assert!(rt; !Space::full().join(&known));
}

/// PUSH HL; LD B,20; then the clear loop from an unknown address: HL is the pushed word and what was counted.
fn pushed_loop() -> Option<bool> {
    let slot = SlotNumber::new(0)?;
    let pushed = Space::full().after(&push_hl(slot), 1);
    let mut head = pushed.after(&load(Variable::B, 0x20), 1);
    let back = head.after(&raise_hl(), 1).after(&count_down(), 1);
    head.join(&back);
    let word = Variable::Slot(slot, Part::Word);
    let wanted = linear(-0x20, &[(1, Variable::B), (1, Variable::Hl), (-1, word)]);
    Some(
        are(&head.relations(), &[])
            && are(&head.triples(Variable::Hl), &[wanted])
            && are(&head.triples(word), &[wanted])
            && are(&head.triples(Variable::A), &[]),
    )
}

#[test]
fn a_loop_from_a_pushed_word_keeps_a_sum_of_three(rt: HostRuntime) {
    assert!(rt; pushed_loop() == Some(true));
}
