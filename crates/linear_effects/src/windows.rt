// The window of a result that is computed modulo a size.
ghost use Rattle.std.specs.Prelude.{◌≡◌, ◌*◌, ◌<◌, ◌≤◌, IfSome};
ghost use Rattle.linear_effects.specs.Windows.{window_number};

/// The number of the window in which all whole numbers from `low` to `high` lie, if there is one.
pub(crate) fn window_number(size: u32, low: u32, high: u32) -> Option<u32>
    requires { 0 < size }
    ensures value { result ≡ window_number size low high }
    ensures within { IfSome result (λ q. q * size ≤ low) }
{
    let number = low / size;
    if number == high / size {
        Some(number)
    } else {
        None
    }
}
