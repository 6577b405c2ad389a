// Stretches filled with samples as floats.
ghost use Rattle.std.specs.Prelude.{◌≡◌, map};
ghost use Rattle.std.proofs.lemmas.List.Edits.{sets};

use crate::Sample;

// The places of a run of samples on their way to a seed call's weighting. At eight channels they are 16 frames.
pub const RUN: usize = 128;

// The samples as floats in the stretch's first places, as many as both have. Its other places stay.
// Stays a loop over a number: over `iter_mut().zip()` an invariant cannot name the stretch as it stands.
pub fn fill<S: Sample>(stretch: &mut [f64], from: &[S])
    ensures { stretch.new ≡ sets stretch.old 0 (map S.in_f64 from.now) }
{
    let n = stretch.len().min(from.len());
    for i in 0..n {
        stretch[i] = from[i].to_f64();
    }
}

pub fn fill_f32<S: Sample>(stretch: &mut [f32], from: &[S])
    ensures { stretch.new ≡ sets stretch.old 0 (map S.in_f32 from.now) }
{
    let n = from.len().min(stretch.len());
    for i in 0..n {
        stretch[i] = from[i].to_f32();
    }
}
