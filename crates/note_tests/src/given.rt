// What annotations say that no command prints.

use annotations::{Annotations, Given};
use cert_lines::BoardMap;
use intervals::WordRange;
use loop_bounds::Variable;
use std::alloc::Global;
use std::test::Fail;
use z80_decode::Register8;

/// Nothing is required of annotations for a writer that infers.
fn nothing_is_required(alloc: Global) -> Result<bool, Fail> {
    let given = Given::read(alloc, b"")?;
    Ok(
        given.low == None
            && given.top == None
            && given.nmi == None
            && given.budget == None
            && given.board == None
            && given.facts.is_empty()
            && given.loops.is_empty()
            && given.ranges.is_empty()
            && given.contexts.is_empty()
            && given.turns.is_empty(),
    )
}

fn a_routine_may_have_no_budget(alloc: Global) -> Result<bool, Fail> {
    let given = Given::read(alloc, b"nmi = true\nmap = \"raised\"\nlow = 0x4380")?;
    let alone = Given::read(alloc, b"budget = 3000")?;
    Ok(
        given.nmi == Some(true)
            && given.budget == None
            && given.board == Some(BoardMap::Raised)
            && given.low == Some(17_280)
            && alone.nmi == None
            && alone.budget == Some(3000),
    )
}

fn a_fact_may_name_a_part(alloc: Global) -> Result<bool, Fail> {
    let text =
        b"fact = [{ at = 9, sum = [[\"A\", 1]], is = 4, part = 2 }, { at = 3, sum = [], is = 0 }]";
    let given = Given::read(alloc, text)?;
    Ok(match given.facts.as_slice() {
        [first, second] => {
            (first.at, first.part) == (3, None) && (second.at, second.part) == (9, Some(2))
        }
        _ => false,
    })
}

fn a_counter_may_go_up(alloc: Global) -> Result<bool, Fail> {
    let text = b"loop = [{ at = 9, counter = \"-HL\" }, { at = 3, counter = \"B\" }]";
    let given = Given::read(alloc, text)?;
    Ok(match given.loops.as_slice() {
        [first, second] => {
            first.at == 3
                && first.counter == Variable::B
                && !first.rises
                && second.at == 9
                && second.counter == Variable::Hl
                && second.rises
        }
        _ => false,
    })
}

fn ranges_contexts_and_turns(alloc: Global) -> Result<bool, Fail> {
    let text = b"range = [{ at = 9, variable = \"HL\", lo = 0x4000, hi = 0x43FF }]\n\
        context = [{ at = 9 }, { at = 3 }, { at = 9 }]\n\
        turns = [{ at = 8, count = 2, until = 14 }]\n";
    let given = Given::read(alloc, text)?;
    Ok(match (given.ranges.as_slice(), given.turns.as_slice()) {
        ([range], [turns]) => {
            range.at == 9
                && range.variable == Variable::Hl
                && WordRange::new(0x4000, 0x43FF) == Some(range.range)
                && given.contexts.as_slice() == &[3, 9][..]
                && (turns.head, turns.turns, turns.until) == (8, 2, 14)
        }
        _ => false,
    })
}

/// The parts of a split may be none.
fn a_split_may_have_no_parts(alloc: Global) -> Result<bool, Fail> {
    let text = b"low = 1\ntop = 2\n[[split]]\nat = 8\nregister = \"H\"\nparts = []\nuntil = 7\n\
        [[split]]\nat = 0x69\nregister = \"B\"\nparts = [[0, 0], [1, 255]]\nuntil = 0x6B\n";
    let said = Annotations::read(alloc, text)?;
    Ok(match said.splits() {
        [first, _] => {
            first.at == 8
                && first.register == Register8::H
                && first.until == 7
                && first.parts.is_empty()
        }
        _ => false,
    })
}

#[test]
fn what_is_given(rt: HostRuntime) -> Result<(), Fail> {
    let alloc = rt.alloc();
    for (what, is_right) in [
        ("nothing", nothing_is_required(alloc)?),
        ("no budget", a_routine_may_have_no_budget(alloc)?),
        ("a part", a_fact_may_name_a_part(alloc)?),
        ("a rising counter", a_counter_may_go_up(alloc)?),
        (
            "ranges, contexts and turns",
            ranges_contexts_and_turns(alloc)?,
        ),
        ("a split without parts", a_split_may_have_no_parts(alloc)?),
    ] {
        assert!(rt; is_right, "{what}");
    }
    Ok(())
}
