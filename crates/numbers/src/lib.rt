#![tactic(auto)]

ghost use Rattle.std.specs.Prelude.{◌≡◌, ◌<◌, ◌^◌};
ghost use Rattle.std.specs.Int.Signed.{mag};
ghost use Rattle.numbers.specs.Rounding.{floor, nearest};
ghost use Rattle.numbers.specs.Room.{on_side_of, Roundable};

// n of n, and n of -1 - n.
fn size_of(z: i64) -> u64
    ensures { result ≡ mag z }
{
    if 0 <= z { z as u64 } else { (-1 - z) as u64 }
}

// n, or -1 - n if z is below zero.
fn on_side_of(z: i64, n: u64) -> i64
    requires { n < 2 ^ 63 }
    ensures { result ≡ on_side_of z n }
{
    if 0 <= z { n as i64 } else { -1 - n as i64 }
}

// The largest whole number that is at most z / divisor. (`div_euclid` takes no divisor of 2^63 or more.)
pub fn floor_of(z: i64, divisor: u64) -> i64
    requires { 0 < divisor }
    ensures { result ≡ floor z divisor }
{
    on_side_of(z, size_of(z) / divisor)
}

// z / divisor to the nearest whole number, halves upward.
#[tactic(auto, unfolding(crate::specs::Rounding::nearest))]
pub fn nearest_of(z: i64, divisor: u64) -> i64
    requires { Roundable z divisor }
    ensures { result ≡ nearest z divisor }
{
    floor_of(z * 2 + divisor as i64, 2 * divisor)
}
