// Where a step leaves what a variable was before it.

use abs_state::AbsState;
use check_claims::StepSource;
use loop_bounds::{Change, Part, Ranges, Variable};

/// The most images of a variable.
pub(crate) const IMAGES: usize = 3;

/// What a variable was before a step: a variable after it, or 0, and a number.
#[derive(Clone, Copy)]
pub(crate) struct Image {
    pub variable: Option<Variable>,
    pub plus: i32,
}

/// The images of one variable, the first ones first.
pub(crate) type Images = [Option<Image>; IMAGES];

/// The registers and pairs, those with the least numbers first.
const REGISTERS: [Variable; 12] = [
    Variable::A,
    Variable::B,
    Variable::C,
    Variable::D,
    Variable::E,
    Variable::H,
    Variable::L,
    Variable::Bc,
    Variable::De,
    Variable::Hl,
    Variable::Ix,
    Variable::Iy,
];

/// The image 0.
pub(crate) const NOTHING: Image = Image {
    variable: None,
    plus: 0,
};

/// Whether a state has a variable: each but a slot beyond its shape.
pub(crate) fn is_there(state: &AbsState, variable: &Variable) -> bool {
    match *variable {
        Variable::Slot(number, _) => usize::from(number.number()) < state.shape.len(),
        _ => true,
    }
}

/// What a variable was, if this change of a variable makes of it what `now` is.
fn image_by(change: Change, variable: Variable, now: Variable) -> Option<Image> {
    let (old, plus) = match change {
        Change::Old(old) => (old, 0),
        Change::Raised(old) => (old, -1),
        Change::Lowered(old) => (old, 1),
        _ => return None,
    };
    if old == variable {
        Some(Image {
            variable: Some(now),
            plus,
        })
    } else {
        None
    }
}

/// Whether the linear effect of a step is what tells a variable.
fn is_made_linear(source: &StepSource, variable: &Variable) -> bool {
    match source.linear {
        Some(effect) => effect.variable == *variable,
        None => false,
    }
}

/// Adds an image at a variable after the step, if it is one.
fn add_at(
    images: &mut Images,
    source: &StepSource,
    after: &AbsState,
    variable: Variable,
    now: Variable,
) {
    if !is_there(after, &now) || is_made_linear(source, &now) {
        return;
    }
    if let Some(image) = image_by(source.moved.change(now), variable, now) {
        add(images, image);
    }
}

/// Adds an image where there is room.
fn add(images: &mut Images, image: Image) {
    for place in 0..IMAGES {
        if images[place].is_none() {
            images[place] = Some(image);
            return;
        }
    }
}

/// Where a step leaves a variable, in the state after it: first in the variable itself, then in the others. If nowhere,
/// its one value before the step, if it has one.
pub(crate) fn images_of(source: &StepSource, after: &AbsState, variable: Variable) -> Images {
    let mut images: Images = [None; IMAGES];
    add_at(&mut images, source, after, variable, variable);
    for register in REGISTERS {
        if register != variable {
            add_at(&mut images, source, after, variable, register);
        }
    }
    if let Some(slot) = source.moved.slot {
        for part in [Part::Word, Part::High, Part::Low] {
            let now = Variable::Slot(slot.number, part);
            if now != variable {
                add_at(&mut images, source, after, variable, now);
            }
        }
    }
    if images[0].is_none() {
        if let Some(value) = source.before.range(variable).value() {
            images[0] = Some(Image {
                variable: None,
                plus: i32::from(value),
            });
        }
    }
    images
}
