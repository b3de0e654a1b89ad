// The effects of instructions.

use loop_bounds::{Change, Effect, Part, SlotChange, SlotNumber, Variable};

/// LD of A, B or C with a number.
pub fn load(register: Variable, value: u16) -> Effect {
    let mut effect = Effect::unchanged();
    match register {
        Variable::A => effect.a = Change::Constant(value),
        Variable::B => {
            effect.b = Change::Constant(value);
            effect.bc = Change::Unknown;
        }
        _ => {
            effect.c = Change::Constant(value);
            effect.bc = Change::Unknown;
        }
    }
    effect
}

pub fn load_bc(value: u16) -> Effect {
    let [high, low] = value.to_be_bytes();
    Effect {
        b: Change::Constant(u16::from(high)),
        c: Change::Constant(u16::from(low)),
        bc: Change::Constant(value),
        ..Effect::unchanged()
    }
}

pub fn load_de(value: u16) -> Effect {
    let [high, low] = value.to_be_bytes();
    Effect {
        d: Change::Constant(u16::from(high)),
        e: Change::Constant(u16::from(low)),
        de: Change::Constant(value),
        ..Effect::unchanged()
    }
}

pub fn load_hl(value: u16) -> Effect {
    let [high, low] = value.to_be_bytes();
    Effect {
        h: Change::Constant(u16::from(high)),
        l: Change::Constant(u16::from(low)),
        hl: Change::Constant(value),
        ..Effect::unchanged()
    }
}

/// INC HL.
pub fn raise_hl() -> Effect {
    Effect {
        h: Change::Unknown,
        l: Change::Unknown,
        hl: Change::Raised(Variable::Hl),
        ..Effect::unchanged()
    }
}

/// DJNZ, where it jumps.
pub fn count_down() -> Effect {
    Effect {
        b: Change::Lowered(Variable::B),
        bc: Change::Unknown,
        ..Effect::unchanged()
    }
}

/// One turn of LDIR: one byte from (HL) to (DE).
pub fn copy_byte() -> Effect {
    Effect {
        b: Change::Unknown,
        c: Change::Unknown,
        d: Change::Unknown,
        e: Change::Unknown,
        h: Change::Unknown,
        l: Change::Unknown,
        bc: Change::Lowered(Variable::Bc),
        de: Change::Raised(Variable::De),
        hl: Change::Raised(Variable::Hl),
        ..Effect::unchanged()
    }
}

/// LD B,C.
pub fn copy_c_to_b() -> Effect {
    Effect {
        b: Change::Old(Variable::C),
        bc: Change::Unknown,
        ..Effect::unchanged()
    }
}

/// EX DE,HL.
pub fn exchange() -> Effect {
    Effect {
        d: Change::Old(Variable::H),
        e: Change::Old(Variable::L),
        h: Change::Old(Variable::D),
        l: Change::Old(Variable::E),
        de: Change::Old(Variable::Hl),
        hl: Change::Old(Variable::De),
        ..Effect::unchanged()
    }
}

/// A push that writes the slot of this number with a pair and its halves.
pub fn push(number: SlotNumber, word: Variable, high: Variable, low: Variable) -> Effect {
    Effect {
        slot: Some(SlotChange {
            number,
            word: Change::Old(word),
            high: Change::Old(high),
            low: Change::Old(low),
        }),
        ..Effect::unchanged()
    }
}

/// PUSH HL, which writes the slot of this number.
pub fn push_hl(number: SlotNumber) -> Effect {
    push(number, Variable::Hl, Variable::H, Variable::L)
}

/// POP DE, which takes the slot of this number.
pub fn pop_de(number: SlotNumber) -> Effect {
    Effect {
        d: Change::Old(Variable::Slot(number, Part::High)),
        e: Change::Old(Variable::Slot(number, Part::Low)),
        de: Change::Old(Variable::Slot(number, Part::Word)),
        ..Effect::unchanged()
    }
}
