// Restarts: LD SP,nn with which a called procedure without a time leaves all that called it.

ghost use Rattle.std.specs.Prelude.{◌≡◌};
ghost use Rattle.check_steps.specs.Restarts.{is_sub, loads_sp, restarted, restarts_by, without_origin, without_origins};

use abs_state::{AbsState, Pairs};
use cert_lines::{Proc, ProcKind, Version};
use intervals::Pair;
use stack_shape::Shape;
use z80_decode::{DecodeFault, Instr, Register16};

fn is_sub(kind: ProcKind) -> bool
    ensures { result ≡ is_sub kind }
{
    match kind {
        ProcKind::Main | ProcKind::Nmi => false,
        ProcKind::Sub => true,
    }
}

/// Whether an instruction is LD SP,nn.
fn loads_sp(instr: &Instr) -> bool
    ensures { result ≡ loads_sp instr.now }
{
    match instr {
        Instr::LoadPair(Register16::Sp, _) => true,
        _ => false,
    }
}

/// Whether what is decoded in a procedure is a restart: in version 3, LD SP,nn in a called procedure without a time.
/// Reason 20 refuses words other than the region's top.
pub fn restarts_by(version: Version, proc: &Proc, decoded: &Result<Instr, DecodeFault>) -> bool
    ensures { result ≡ restarts_by version proc.now decoded.now }
{
    match (version, decoded) {
        (Version::Three, Ok(instr)) => {
            is_sub(proc.kind) && proc.time.is_none() && loads_sp(instr)
        }
        _ => false,
    }
}

fn without_origin(pair: Pair) -> Pair
    ensures { result ≡ without_origin pair }
{
    Pair {
        origin: None,
        ..pair
    }
}

fn without_origins(pairs: &Pairs) -> Pairs
    ensures { result ≡ without_origins pairs.now }
{
    Pairs {
        af: without_origin(pairs.af),
        bc: without_origin(pairs.bc),
        de: without_origin(pairs.de),
        hl: without_origin(pairs.hl),
        ix: without_origin(pairs.ix),
        iy: without_origin(pairs.iy),
        alternate_af: without_origin(pairs.alternate_af),
        alternate_bc: without_origin(pairs.alternate_bc),
        alternate_de: without_origin(pairs.alternate_de),
        alternate_hl: without_origin(pairs.alternate_hl),
    }
}

/// A state with its ranges, mode and armed cells, without origins and without words on the stack.
pub fn restarted(state: &AbsState) -> AbsState
    ensures { result ≡ restarted state.now }
{
    AbsState {
        mode: state.mode,
        armed: state.armed,
        pairs: without_origins(&state.pairs),
        flag: None,
        shape: Shape::empty(),
    }
}
