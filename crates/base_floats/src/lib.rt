// Floats and their bit patterns, for records and lists of energies.
#![tactic(auto)]

ghost use Rattle.std.specs.Prelude.{◌≡◌};
ghost use Rattle.std.specs.Float.{binary64};
ghost use Rattle.std.specs.Float.Ieee.{of_bits, to_bits, is_nan};

// The pattern of infinity. Below it are the patterns of the finite floats that are not negative, and no NaN's.
pub const INFINITY_PATTERN: u64 = 0x7FF0_0000_0000_0000;

// The one pattern that NaN is given, as document 01 writes it.
pub const NAN_PATTERN: u64 = 0x7FF8_0000_0000_0000;

// Whether x is a NaN.
pub fn is_nan(x: f64) -> bool
    ensures { result ≡ is_nan x }
{
    x.is_nan()
}

// The float that a pattern stands for. Every NaN pattern stands for NaN: but for the sign they are those past infinity's.
pub fn float_of(pattern: u64) -> f64
    ensures { result ≡ of_bits binary64 pattern }
{
    if pattern % 0x8000_0000_0000_0000 <= INFINITY_PATTERN {
        return f64::from_bits(pattern);
    }
    f64::NAN
}

// The pattern of a float.
pub fn pattern_of(x: f64) -> u64
    ensures { result ≡ to_bits binary64 x }
{
    if x.is_nan() {
        return NAN_PATTERN;
    }
    x.to_bits()
}
