// The C functions of exports_interp, for the archive: each calls that crate's of its name, with the same clauses. include/xelamphoun.h declares them.
#![tactic(auto)]

ghost use Rattle.std.specs.Prelude.{◌≡◌};
ghost use Rattle.true_peak_interp.specs.Interp.{fourfold, twofold};
ghost use Rattle.true_peak_interp.specs.Phase.{phases};

// The phases of a frame by factor 4, from its own sample and the 11 before it, newest first.
#[unsafe(no_mangle)]
pub extern "C" fn xel_phases_fourfold(samples: &[f32; 12], out: &mut [f32; 4])
    ensures { out.new ≡ phases fourfold samples.now }
{
    exports_interp::xel_phases_fourfold(samples, out)
}

// The phases of a frame by factor 2, from its own sample and the 23 before it, newest first.
#[unsafe(no_mangle)]
pub extern "C" fn xel_phases_twofold(samples: &[f32; 24], out: &mut [f32; 2])
    ensures { out.new ≡ phases twofold samples.now }
{
    exports_interp::xel_phases_twofold(samples, out)
}
