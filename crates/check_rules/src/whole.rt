// The reasons of a certificate as a whole: 1, 2 and 3 before its rows, 11 and 18 after them.

ghost use Rattle.std.specs.Prelude.{◌≡◌, ◌↔◌, ◌<◌, ◌≤◌, ℕ, [], IsTrue, IfSome, MatchOption, None};
ghost use Rattle.std.specs.List.{All};
ghost use Rattle.check_cover.specs.Arrival.{entry_refinement, first_arrival};
ghost use Rattle.check_cover.specs.Covering.{Covered, CoversMain, CoversNmi};
ghost use Rattle.address_map.specs.WorkRam.{work_start};
ghost use Rattle.loop_bounds.specs.Effect.{unchanged};
ghost use Rattle.cert_form.specs.Contents.{nmi_of};
ghost use Rattle.check_rules.specs.Acceptance.{CoversEntries, EntryFails, FitsRom, HasDepth, LiesOutside, RegionFits, HasBudget, depth_of, main_depth};

use abs_state::{AbsState, KeptCell};
use address_map::{Map, Region, Rom};
use cert_contents::Certificate;
use cert_lines::{Proc, Version, WORK_LEN};
use check_cover::{Arrival, Coverer, Refinement};
use flag_conditions::StepConditions;
use linear_effects::LinearEffect;
use loop_bounds::Effect;
use t_states::MAX_BUDGET;
use z80_moves::NMI_ADDRESS;

/// The bytes as the certificate's ROM. None if there are 0 or more than 16,384 bytes, or not as many as it says.
pub(crate) fn rom_for<'r>(bytes: &'r [u8], certificate: &Certificate) -> Option<Rom<'r>>
    ensures none { result ≡ None → FitsRom bytes.now certificate.now → ⊥ }
    ensures some { IfSome result (λ rom. (rom ≡ bytes.now) × FitsRom bytes.now certificate.now) }
{
    match Rom::of(bytes) {
        Some(rom) if rom.len() == certificate.rom_len() => Some(rom),
        _ => None,
    }
}

/// Whether a stack region is not empty, lies in the first 400h addresses of work RAM, and has none of the kept cells in
/// it: reason 2 does not apply. There may be more cells than a certificate can have.
pub fn region_fits(map: &Map, region: Region, cells: &[KeptCell]) -> bool
    ensures { IsTrue result ↔ RegionFits (work_start map.now) region cells.now }
{
    let start = map.work_start();
    start <= region.low
        && region.low < region.top
        && u32::from(region.top) <= u32::from(start) + u32::from(WORK_LEN)
        && all_outside(region, cells)
}

fn all_outside(region: Region, cells: &[KeptCell]) -> bool
    ensures { IsTrue result ↔ All (LiesOutside region) cells.now }
{
    cells.iter().all(|cell| lies_outside(region, cell))
}

fn lies_outside(region: Region, cell: &KeptCell) -> bool
    ensures { IsTrue result ↔ LiesOutside region cell.now }
{
    cell.at < region.low || region.top <= cell.at
}

/// The address of the first entry whose state is not covered: 0 for main, 0066 for the NMI routine.
pub(crate) fn uncovered_entry(certificate: &Certificate, coverer: &mut Coverer) -> Option<u16>
    requires { coverer.old ≡ certificate.now }
    ensures told { MatchOption result (CoversEntries certificate.now) (EntryFails certificate.now) }
    ensures same { coverer.new ≡ coverer.old }
{
    if !main_is_covered(certificate, coverer) {
        return Some(0);
    }
    if certificate.budget().is_some() && !nmi_is_covered(certificate, coverer) {
        return Some(NMI_ADDRESS);
    }
    None
}

/// Whether the state at the entry of main is covered.
fn main_is_covered(certificate: &Certificate, coverer: &mut Coverer) -> bool
    requires { coverer.old ≡ certificate.now }
    ensures exact { IsTrue result ↔ CoversMain coverer.old }
    ensures same { coverer.new ≡ coverer.old }
{
    entry_is_covered(coverer, certificate.version(), 0, 0, &AbsState::of_main())
}

/// Whether the state at the entry of the NMI routine is covered.
fn nmi_is_covered(certificate: &Certificate, coverer: &mut Coverer) -> bool
    requires { coverer.old ≡ certificate.now }
    ensures exact { IsTrue result ↔ CoversNmi coverer.old }
    ensures same { coverer.new ≡ coverer.old }
{
    // By the form, there are at most 256 cells.
    certificate.is_in_form();
    let cells = certificate.cells().len() as u16;
    let state = AbsState::of_nmi(cells);
    entry_is_covered(coverer, certificate.version(), 1, NMI_ADDRESS, &state)
}

/// Whether a state is covered at an entry; no row is before it.
fn entry_is_covered(
    coverer: &mut Coverer,
    version: Version,
    proc: u16,
    address: u16,
    state: &AbsState,
) -> bool
    ensures exact { IsTrue result
        ↔ Covered coverer.old (first_arrival version proc address state.now) state.now }
    ensures same { coverer.new ≡ coverer.old }
{
    let effect = Effect::unchanged();
    let linear = None;
    let conditions = StepConditions::none();
    let arrival = first_arrival(version, proc, address, state, &effect, &linear, &conditions);
    coverer.covers(&arrival, state)
}

/// The arrival at an entry, by a step that changes nothing and tells nothing of the flags.
fn first_arrival<'s>(
    version: Version,
    proc: u16,
    address: u16,
    state: &'s AbsState,
    effect: &'s Effect,
    linear: &'s Option<LinearEffect>,
    conditions: &'s StepConditions,
) -> Arrival<'s, 's>
    requires effect { effect.now ≡ unchanged }
    requires linear { linear.now ≡ None }
    requires conditions { conditions.now ≡ record { before = []; after = [] } }
    ensures { result ≡ first_arrival version proc address state.now }
{
    Arrival {
        proc,
        address,
        facts: &[],
        before: state,
        effect,
        refined: entry_refinement(version, effect, linear, conditions),
    }
}

/// What version 3 adds at an entry.
fn entry_refinement<'s>(
    version: Version,
    effect: &'s Effect,
    linear: &'s Option<LinearEffect>,
    conditions: &'s StepConditions,
) -> Option<Refinement<'s>>
    requires effect { effect.now ≡ unchanged }
    requires linear { linear.now ≡ None }
    requires conditions { conditions.now ≡ record { before = []; after = [] } }
    ensures { result ≡ entry_refinement version }
{
    match version {
        Version::One | Version::Two => None,
        Version::Three => Some(Refinement {
            moved: effect,
            linear,
            conditions,
        }),
    }
}

/// Whether the region has room for main and, on top of it, the NMI routine.
pub(crate) fn has_depth(certificate: &Certificate) -> bool
    requires { certificate.now.region.low < certificate.now.region.top }
    ensures { IsTrue result ↔ HasDepth certificate.now }
{
    let region = certificate.region();
    let depth = u32::from(main_depth(certificate)) + u32::from(nmi_depth(certificate));
    depth <= u32::from(region.top - region.low)
}

/// The bytes of stack that main needs. Main is the first procedure.
pub fn main_depth(certificate: &Certificate) -> u16
    ensures { result ≡ main_depth certificate.now.procs }
{
    match certificate.procs().first() {
        Some(main) => main.depth,
        None => 0,
    }
}

/// The bytes of stack that the NMI routine needs; 0 without one.
pub fn nmi_depth(certificate: &Certificate) -> u16
    ensures { result ≡ depth_of (nmi_of certificate.now) }
{
    match nmi_of(certificate) {
        Some(nmi) => nmi.depth,
        None => 0,
    }
}

/// The NMI routine, which is the second procedure; None without one.
pub fn nmi_of(certificate: &Certificate) -> Option<Proc>
    ensures { result ≡ nmi_of certificate.now }
{
    match certificate.budget() {
        Some(_) => certificate.proc(1),
        None => None,
    }
}

/// Whether the NMI routine's time is at most the budget, and the budget at most 50,665 T-states.
pub(crate) fn has_budget(certificate: &Certificate) -> bool
    ensures { IsTrue result ↔ HasBudget certificate.now }
{
    match certificate.budget() {
        Some(budget) => {
            let budget = u32::from(budget);
            budget <= MAX_BUDGET && nmi_time(certificate) <= budget
        }
        None => true,
    }
}

/// The NMI routine's time in T-states; 0 without one.
fn nmi_time(certificate: &Certificate) -> u32
    ensures { (budget : ℕ)
        → (result ≤ budget)
        ↔ IfSome (nmi_of certificate.now) (λ proc. IfSome proc.time (λ time. time ≤ budget)) }
{
    match nmi_of(certificate) {
        Some(nmi) => nmi.time.unwrap_or(0),
        None => 0,
    }
}
