// Laws of the moves with stack accesses: each keeps the abstract draft true of the draft and of the words on the stack.

ghost use Rattle.abs_laws.specs.StackLaws.{PushesFitPushed, PushesFitCalled, PopsFitPopped, PopsFitReturned, ExchangesFit};

/// A law: a push keeps the abstract draft true, with its word on top. For a call that is not inline the return address
/// is not on the shape.
pub fn pushes_fit()
    ensures pushed { PushesFitPushed }
    ensures called { PushesFitCalled }
{}

/// A law: a pop of the top word keeps the abstract draft true, if that is the word at SP. So does a return without a
/// word of its own on the stack, which goes to its return address.
pub fn pops_fit()
    ensures popped { PopsFitPopped }
    ensures returned { PopsFitReturned }
{}

/// A law: an exchange of a register with the top word keeps the abstract draft true, if that is the word at SP.
pub fn exchanges_fit()
    ensures { ExchangesFit }
{}
