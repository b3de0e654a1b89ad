// The environment of one event.

ghost use Rattle.board_step.specs.Env.{IsEnv, IsInputs};

/// The bytes that one read may find outside the machine: the three input ports, and the byte of an open address.
#[derive(Clone, Copy, PartialEq, Eq)]
pub struct Inputs {
    pub in0: u8,
    pub in1: u8,
    pub in2: u8,
    pub bus: u8,
}

/// What one event takes from outside the machine (docs/BOARD.md, "Environment").
#[derive(Clone, Copy, PartialEq, Eq)]
pub struct Env {
    /// The inputs for the event's first data read, and for its later one.
    pub inputs: [Inputs; 2],
    /// The noise byte: bit k of it is bit k of F wherever the manual leaves that flag undefined.
    pub noise: u8,
    /// The byte that LD A,R loads.
    pub r: u8,
    /// The latch bit: whether the vertical blank meets the NMI enable set, in an event that changes the enable.
    pub latch: bool,
}

impl Inputs {
    /// A law: each input is a byte.
    pub fn are_bytes(self)
        ensures { IsInputs self }
    {}
}

impl Env {
    /// A law: an environment has two sets of inputs, and each of its numbers is a byte.
    pub fn is_in_range(self)
        ensures { IsEnv self }
    {
        let [first, second] = self.inputs;
        first.are_bytes();
        second.are_bytes();
    }
}
