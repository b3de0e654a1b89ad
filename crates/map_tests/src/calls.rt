// Tests of the order of procedures and of depths, worked by hand.
ghost use Rattle.std.specs.Prelude.{◌<◌, Contains};

use call_graph::{Edge, GraphFault, Held, ProcId, depths, order};
use std::alloc::Global;
use std::test::Fail;

/// Calls, each written as caller and callee.
macro_rules! calls {
    ($($caller:literal $callee:literal),*) => {
        &[$(Edge { caller: $caller, callee: $callee }),*]
    };
}

/// The outcome of a test call.
#[derive(Clone, Copy, PartialEq, Eq)]
enum Came {
    /// The answer is the expected one.
    Right,
    Refused,
    Wrong,
}

fn right_if(is_wanted: bool) -> Came {
    if is_wanted { Came::Right } else { Came::Wrong }
}

/// The outcome of `order`, with the expected procedures: an order, or a cycle.
fn ordered(alloc: Global, calls: &[Edge], wanted: &[ProcId], is_cycle: bool) -> Came {
    match order(alloc, calls) {
        Ok(list) => right_if(!is_cycle && list.as_slice() == wanted),
        Err(GraphFault::Cycle(list)) => right_if(is_cycle && list.as_slice() == wanted),
        Err(GraphFault::NoMemory) => Came::Refused,
    }
}

/// Calls, and their procedures with callees first.
const ORDERS: &[(&[Edge], &[ProcId])] = &[
    (calls!(), &[]),
    (calls!(0 2, 2 1, 0 1, 0 2), &[1, 2, 0]),
    // The highest number.
    (calls!(65_535 0), &[0, 65_535]),
];

#[test]
fn callees_first(rt: HostRuntime) {
    for (place, &(calls, wanted)) in ORDERS.iter().enumerate() {
        assert!(rt;
            ordered(rt.alloc(), calls, wanted, false) == Came::Right,
            "calls {place}"
        );
    }
}

/// Calls, and the cycle reported for them.
const CYCLES: &[(&[Edge], &[ProcId])] = &[
    // A procedure that calls itself.
    (calls!(7 7), &[7]),
    // The highest number.
    (calls!(65_535 0, 0 65_535), &[0, 65_535]),
    // Of the cycles 9 4 8 and 3 5 6 1 the second has the lowest procedure, 1. From 1 a way of two calls leads back,
    // through 6, and one of four. Procedure 0 only leads there.
    (
        calls!(9 4, 4 8, 8 9, 0 9, 0 1, 1 3, 3 5, 5 6, 6 1, 1 6),
        &[1, 6],
    ),
    // The walk first meets the cycle 8 9, then 4 5 6 with 4 as its lowest; 4 6 is shorter. 1, 2 and 3 are on the way.
    (
        calls!(1 8, 8 9, 9 8, 1 2, 2 3, 3 6, 6 4, 4 5, 5 6, 4 6),
        &[4, 6],
    ),
    // Of the two shortest cycles through 0, those through 1 and through 2, the one through 1 is lower, whatever the
    // order of the calls. The longer way through 1 and 2 is not a shortest one.
    (calls!(0 2, 0 1, 2 0, 1 0), &[0, 1]),
    (calls!(0 1, 0 2, 1 0, 2 0), &[0, 1]),
    (calls!(2 0, 1 0, 0 2, 0 1), &[0, 1]),
    (calls!(1 0, 2 0, 0 2, 0 1), &[0, 1]),
    // From 3 the ways 4 8 5, 4 9 5 and 6 7 5 lead back in four calls. The lowest is 3 4 8 5, though the call 9 5 comes
    // first.
    (
        calls!(3 6, 6 7, 7 5, 9 5, 4 9, 3 4, 8 5, 4 8, 5 3),
        &[3, 4, 8, 5],
    ),
];

/// The lowest of the shortest cycles.
#[test]
fn cycles_are_told(rt: HostRuntime) {
    for (place, &(calls, cycle)) in CYCLES.iter().enumerate() {
        assert!(rt;
            ordered(rt.alloc(), calls, cycle, true) == Came::Right,
            "cycle {place}"
        );
    }
}

/// Makes the calls 0 1, 1 2 and so on; 1023 calls 0.
fn link(calls: &mut [Edge]) {
    let mut number = 0u16;
    for call in calls.iter_mut() {
        call.caller = number;
        number = number.wrapping_add(1) % 1024;
        call.callee = number;
    }
}

/// The numbers from `first` in steps of `step`, modulo 65,536.
fn numbers(first: u16, step: u16) -> [ProcId; 1024] {
    let mut numbers = [0; 1024];
    let mut number = first;
    for place in numbers.iter_mut() {
        *place = number;
        number = number.wrapping_add(step);
    }
    numbers
}

const CALL: Edge = Edge {
    caller: 0,
    callee: 0,
};

#[test]
fn a_chain_of_all_and_a_cycle(rt: HostRuntime) {
    let (mut chain, mut cycle) = ([CALL; 1023], [CALL; 1024]);
    link(&mut chain);
    link(&mut cycle);
    assert!(rt; ordered(rt.alloc(), &chain, &numbers(1023, 0xFFFF), false) == Came::Right);
    assert!(rt; ordered(rt.alloc(), &cycle, &numbers(0, 1), true) == Came::Right);
}

/// Procedure 0 calls 1 with 4 bytes held, and 2 with 2; 1 calls 2 with 6.
fn held_calls() -> [Held; 3]
    ensures { (call : Held) → Contains result call → (call.caller < 4) × (call.callee < 4) }
{
    [
        Held {
            caller: 0,
            callee: 1,
            held: 4,
        },
        Held {
            caller: 0,
            callee: 2,
            held: 2,
        },
        Held {
            caller: 1,
            callee: 2,
            held: 6,
        },
    ]
}

/// The outcome of `depths` for those calls, with the own bytes of the procedures and the expected depths.
fn deepened(alloc: Global, own: [u32; 4], wanted: [u64; 4]) -> Came {
    match depths(alloc, &own, &held_calls()) {
        Ok(list) => right_if(list.as_slice() == wanted.as_slice()),
        Err(GraphFault::Cycle(_)) => Came::Wrong,
        Err(GraphFault::NoMemory) => Came::Refused,
    }
}

/// 2 needs its own 5; 1 the greater of its own 3 and 6 + 5; 0 the greatest of its own, 4 + 11 and 2 + 5.
#[test]
fn least_depths(rt: HostRuntime) {
    assert!(rt; deepened(rt.alloc(), [20, 3, 5, 9], [20, 11, 5, 9]) == Came::Right);
    assert!(rt; deepened(rt.alloc(), [1, 3, 5, 9], [15, 11, 5, 9]) == Came::Right);
}

/// Procedure 1 calls itself, with 2 bytes held.
fn held_cycle() -> [Held; 1]
    ensures { (call : Held) → Contains result call → (call.caller < 4) × (call.callee < 4) }
{
    [Held {
        caller: 1,
        callee: 1,
        held: 2,
    }]
}

fn is_cycle_of_one(alloc: Global) -> bool {
    match depths(alloc, &[1, 3, 5, 9], &held_cycle()) {
        Err(GraphFault::Cycle(list)) => list.as_slice() == [1].as_slice(),
        _ => false,
    }
}

#[test]
fn no_depths_on_a_cycle(rt: HostRuntime) {
    assert!(rt; is_cycle_of_one(rt.alloc()));
}

/// With one growth refused (`tools/memory.sh map_tests`), one call answers `NoMemory`, and the next one is not
/// affected. The test prints a line for a refusal.
#[test]
fn refused_memory(rt: HostRuntime) -> Result<(), Fail> {
    let alloc = rt.alloc();
    let mut refused = 0u8;
    for _ in 0..3 {
        let all = [
            ordered(alloc, calls!(2 3, 3 1), &[1, 3, 2], false),
            ordered(alloc, calls!(2 3, 3 2), &[2, 3], true),
            deepened(alloc, [1, 3, 5, 9], [15, 11, 5, 9]),
        ];
        for came in all.iter() {
            assert!(rt; *came != Came::Wrong);
            if *came == Came::Refused {
                println!(rt; "refused in order or depths")?;
                refused = refused.wrapping_add(1);
            }
        }
    }
    assert!(rt; refused <= 1);
    Ok(())
}
