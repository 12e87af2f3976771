// One double: tests, its size, and its clamp.
ghost use Rattle.std.specs.Prelude.{◌≡◌};
ghost use Rattle.geometry.specs.Double.{is_finite, absolute, clamp, on_map};

// The Rust's EPSILON: two points this near are one.
pub const EPSILON: f64 = 1e-9;

// The largest size of a coordinate, 2 ^ 26.
pub const FARTHEST: f64 = 67108864.0;

// No NaN and no infinity.
#[tactic(auto, using(crate::proofs::Doubles::finite_below, crate::proofs::Doubles::infinite_above))]
pub fn is_finite(x: f64) -> bool
    ensures { result ≡ is_finite x }
{
    f64::NEG_INFINITY < x && x < f64::INFINITY
}

// By the pattern: -0 has the size 0, which no comparison tells.
#[tactic(auto, using(crate::proofs::Doubles::nan_size_is, crate::proofs::Doubles::no_nan, crate::proofs::Doubles::no_nan_size, crate::proofs::Doubles::size_of))]
pub fn abs(x: f64) -> f64
    ensures { result ≡ absolute x }
{
    if x != x {
        return x;
    }
    f64::from_bits(f64::to_bits(x) % 9223372036854775808)
}

// Rust's clamp: a NaN and a zero's sign stay.
#[tactic(auto, unfolding(crate::specs::Double::clamp))]
pub fn clamp(x: f64, low: f64, high: f64) -> f64
    ensures { result ≡ clamp x low high }
{
    let y = if x < low { low } else { x };
    if high < y { high } else { y }
}

// Finite, and at most 2 ^ 26 in size.
#[tactic(auto, unfolding(crate::specs::Double::on_map))]
pub fn on_map(x: f64) -> bool
    ensures { result ≡ on_map x }
{
    is_finite(x) && abs(x) <= FARTHEST
}
