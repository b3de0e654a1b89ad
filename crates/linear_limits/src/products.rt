// The values of a range whose product with a coefficient has a bound.
ghost use Rattle.std.specs.Prelude.{◌≡◌, ◌<◌, ◌^◌, ℤ, pos, unsigned_abs};
ghost use Rattle.loop_bounds.specs.Tighten.{quotient_up};
ghost use Rattle.linear_limits.specs.Products.{multiples_up_to, multiples_from, products_up_to, products_from};

use intervals::WordRange;

/// The least natural number whose product with `factor` is not below `value`.
fn quotient_up(value: i128, factor: u32) -> u128
    requires factor { 0 < factor }
    requires small { unsigned_abs value < 2 ^ 64 }
    ensures { result ≡ quotient_up value factor }
{
    if value > 0 {
        value.unsigned_abs().div_ceil(u128::from(factor))
    } else {
        0
    }
}

/// The values of a range whose product with `factor` is at most `to`.
fn multiples_up_to(to: i128, factor: u32, range: WordRange) -> Option<WordRange>
    requires { 0 < factor }
    ensures { result ≡ multiples_up_to to factor range }
{
    if to < 0 {
        return None;
    }
    let high = u128::from(range.high()).min(to.unsigned_abs() / u128::from(factor));
    WordRange::new(range.low(), high as u16)
}

/// The values of a range whose product with `factor` is at least `from`.
fn multiples_from(from: i128, factor: u32, range: WordRange) -> Option<WordRange>
    requires factor { 0 < factor }
    requires small { unsigned_abs from < 2 ^ 64 }
    ensures { result ≡ multiples_from from factor range }
{
    let low = u128::from(range.low()).max(quotient_up(from, factor));
    if low > u128::from(range.high()) {
        return None;
    }
    WordRange::new(low as u16, range.high())
}

/// The values of a range whose product with `coefficient` is at most `to`.
pub(crate) fn products_up_to(coefficient: i32, to: i128, range: WordRange) -> Option<WordRange>
    requires coefficient { 0 < unsigned_abs coefficient }
    requires small { unsigned_abs to < 2 ^ 63 }
    ensures { result ≡ products_up_to coefficient to range }
{
    let factor = coefficient.unsigned_abs();
    if coefficient > 0 {
        multiples_up_to(to, factor, range)
    } else {
        multiples_from(-to, factor, range)
    }
}

/// The values of a range whose product with `coefficient` is at least `from`.
pub(crate) fn products_from(coefficient: i32, from: i128, range: WordRange) -> Option<WordRange>
    requires coefficient { 0 < unsigned_abs coefficient }
    requires small { unsigned_abs from < 2 ^ 63 }
    ensures { result ≡ products_from coefficient from range }
{
    let factor = coefficient.unsigned_abs();
    if coefficient > 0 {
        multiples_from(from, factor, range)
    } else {
        multiples_up_to(-from, factor, range)
    }
}
