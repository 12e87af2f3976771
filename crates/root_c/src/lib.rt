// The root for callers in other languages: the static library's exports, each with the contract of the function that it calls.
#![tactic(auto)]

ghost use Rattle.std.specs.Prelude.{◌≡◌};
ghost use Rattle.std.specs.Float.{binary64};
ghost use Rattle.std.specs.Float.Ieee.{of_bits, to_bits};
ghost use Rattle.root.specs.Root.{square_root};

// squareRoot on bit patterns.
#[unsafe(no_mangle)]
pub extern "C" fn square_root_bits(b: u64) -> u64
    ensures { result ≡ to_bits binary64 (square_root (of_bits binary64 b)) }
{
    root::square_root_bits(b)
}

#[unsafe(no_mangle)]
pub extern "C" fn square_root(x: f64) -> f64
    ensures { result ≡ square_root x }
{
    root::square_root(x)
}
