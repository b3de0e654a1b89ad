// Events of the checked step in one environment. The timings and the vectors share this loop.

ghost use Rattle.std.specs.Prelude.{◌≡◌, length};

use address_map::Rom;
use board_step::{Board, Env, Event, Profile, Trap};

/// Runs `events` events in one environment and returns the last of them. None if `events` is 0. The error is the trap
/// that stopped it.
pub fn last_step(
    board: &mut Board,
    rom: &Rom,
    profile: &Profile,
    env: &Env,
    events: u64,
) -> Result<Option<Event>, Trap>
    requires { profile.now.map.now.rom_len ≡ length rom.now }
{
    let mut last = None;
    for _ in 0..events {
        last = Some(board.step_checked(rom, profile, env)?);
    }
    Ok(last)
}
