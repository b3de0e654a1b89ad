// Copies of what is not known: loads between registers, pushes and pops.

use crate::instructions::{
    copy_c_to_b, count_down, exchange, load, load_hl, pop_de, push_hl, raise_hl,
};
use crate::sums::{after_all, are, linear, run};
use affine::Space;
use loop_bounds::{Change, Effect, Part, SlotNumber, Variable};

/// LD B,C leaves B = C, and INC B then makes B one more.
#[test]
fn a_copy_is_equal(rt: HostRuntime) {
    let copied = after_all(&[copy_c_to_b()]);
    let equal = linear(0, &[(1, Variable::B), (-1, Variable::C)]);
    assert!(rt; are(&copied.relations(), &[equal]));
    let raise_b = Effect {
        b: Change::Raised(Variable::B),
        bc: Change::Unknown,
        ..Effect::unchanged()
    };
    let one_more = linear(-1, &[(1, Variable::B), (-1, Variable::C)]);
    assert!(rt; are(&copied.after(&raise_b, 0).relations(), &[one_more]));
}

/// LD B,C; LD C,5: B is the old C. Nothing else is known of the old C.
#[test]
fn an_overwritten_source_is_forgotten(rt: HostRuntime) {
    let mut lost = after_all(&[copy_c_to_b(), load(Variable::C, 5)]);
    assert!(rt; are(&lost.relations(), &[]));
    assert!(rt; lost.constant(Variable::C) == Some(5) && lost.constant(Variable::B).is_none());
    assert!(rt; !lost.join(&after_all(&[load(Variable::C, 5), load(Variable::B, 7)])));
}

/// EX DE,HL takes a sum along, also where nothing else is known of the two.
#[test]
fn an_exchange_moves_a_sum(rt: HostRuntime) {
    assert!(rt; are(&after_all(&[exchange()]).relations(), &[]));
    let mut head = after_all(&[load_hl(0x4000), load(Variable::B, 0x20)]);
    let back = run(&head, &[raise_hl(), count_down()]);
    head.join(&back);
    let wanted = linear(-0x4020, &[(1, Variable::B), (1, Variable::De)]);
    assert!(rt; are(&head.after(&exchange(), 0).relations(), &[wanted]));
}

/// PUSH HL; INC HL; POP DE. With LD HL,4000 in the place of INC HL the word is back, and nothing is known of it.
fn pushed_and_popped() -> Option<bool> {
    let slot = SlotNumber::new(0)?;
    let word = Variable::Slot(slot, Part::Word);
    let pushed = Space::full().after(&push_hl(slot), 1);
    let bytes = [
        linear(
            0,
            &[(1, Variable::H), (-1, Variable::Slot(slot, Part::High))],
        ),
        linear(
            0,
            &[(1, Variable::L), (-1, Variable::Slot(slot, Part::Low))],
        ),
        linear(0, &[(1, Variable::Hl), (-1, word)]),
    ];
    let raised = pushed.after(&raise_hl(), 1);
    let one_more = linear(-1, &[(1, Variable::Hl), (-1, word)]);
    let popped = raised.after(&pop_de(slot), 0);
    let one_less = linear(1, &[(1, Variable::De), (-1, Variable::Hl)]);
    let loaded = pushed.after(&load_hl(0x4000), 1);
    let back = loaded.after(&pop_de(slot), 0);
    Some(
        are(&pushed.relations(), &bytes)
            && are(&raised.relations(), &[one_more])
            && are(&popped.relations(), &[one_less])
            && are(&loaded.relations(), &[])
            && are(&back.relations(), &[])
            && back.constant(Variable::Hl) == Some(0x4000)
            && back.constant(Variable::De).is_none(),
    )
}

#[test]
fn a_push_keeps_the_word(rt: HostRuntime) {
    assert!(rt; pushed_and_popped() == Some(true));
}
