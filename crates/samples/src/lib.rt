// Samples as floats.
#![tactic(auto)]

ghost use Rattle.std.specs.Prelude.{◌≡◌, List, length, map, Float};
ghost use Rattle.samples.specs.Sample.{sample_of16, sample_of_f32};
ghost use Rattle.samples.specs.Kinds.{Samples, i16s, f32s, size_of, as_f64, as_f32};
ghost use Rattle.samples.specs.Laws.{i16_size, i16_f64, i16_f32, f32_size, f32_f64, f32_f32};

pub mod fills;

// A kind of samples: the floats that a sample becomes, for peaks and weighting and for the interpolator.
pub trait Sample: Copy {
    // A call's samples of this kind.
    ghost lent: { List Self → Samples };

    ghost in_f64: { Self → Float };

    ghost in_f32: { Self → Float };

    fn to_f64(self) -> f64
        ensures { result ≡ in_f64 self };

    fn to_f32(self) -> f32
        ensures { result ≡ in_f32 self };

    // A sample becomes one float, and a call's floats are those of its samples.
    ghost sizes: { (samples : List Self) → size_of (lent samples) ≡ length samples };

    ghost wide: { (samples : List Self) → as_f64 (lent samples) ≡ map in_f64 samples };

    ghost narrow: { (samples : List Self) → as_f32 (lent samples) ≡ map in_f32 samples };
}

impl Sample for i16 {
    ghost lent = { i16s };

    ghost in_f64 = { sample_of16 };

    ghost in_f32 = { sample_of16 };

    ghost sizes = { i16_size };

    ghost wide = { i16_f64 };

    ghost narrow = { i16_f32 };

    fn to_f64(self) -> f64 {
        i16_to_f64(self)
    }

    fn to_f32(self) -> f32 {
        i16_to_f32(self)
    }
}

impl Sample for f32 {
    ghost lent = { f32s };

    ghost in_f64 = { sample_of_f32 };

    // As it stands.
    ghost in_f32 = { λ x. x };

    ghost sizes = { f32_size };

    ghost wide = { f32_f64 };

    ghost narrow = { f32_f32 };

    fn to_f64(self) -> f64 {
        f32_to_f64(self)
    }

    fn to_f32(self) -> f32 {
        self
    }
}

// s/32768. Both formats hold it exactly.
pub fn i16_to_f64(s: i16) -> f64
    ensures { result ≡ sample_of16 s }
{
    s as f64 / 32768.0
}

pub fn i16_to_f32(s: i16) -> f32
    ensures { result ≡ sample_of16 s }
{
    s as f32 / 32768.0
}

// The same value at the wider format, subnormals included. NaN gives NaN.
pub fn f32_to_f64(x: f32) -> f64
    ensures { result ≡ sample_of_f32 x }
{
    std::num::f32_to_f64_with_nan(x)
}
