// The functions of the C interface of the interpolator; exports_interp_c has them for C, as include/xelamphoun.h declares them.
#![tactic(auto)]

ghost use Rattle.std.specs.Prelude.{◌≡◌};
ghost use Rattle.true_peak_interp.specs.Interp.{fourfold, twofold};
ghost use Rattle.true_peak_interp.specs.Phase.{phases};

use true_peak_interp::Interp;

// The phases of a frame by factor 4, from its own sample and the 11 before it, newest first.
pub fn xel_phases_fourfold(samples: &[f32; 12], out: &mut [f32; 4])
    ensures { out.new ≡ phases fourfold samples.now }
{
    *out = Interp::fourfold_phases(samples);
}

// The phases of a frame by factor 2, from its own sample and the 23 before it, newest first.
pub fn xel_phases_twofold(samples: &[f32; 24], out: &mut [f32; 2])
    ensures { out.new ≡ phases twofold samples.now }
{
    *out = Interp::twofold_phases(samples);
}
