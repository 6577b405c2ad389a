// The interpolator: which one a rate has, its coefficients, and its phases at a frame.
#![tactic(auto)]

ghost use Rattle.std.specs.Prelude.{◌≡◌, ◌*◌, ◌<◌, ◌≤◌, length};
ghost use Rattle.true_peak_interp.specs.Interp.{fourfold, twofold, kind_of, said};
ghost use Rattle.true_peak_interp.specs.Phase.{coefficients, phase, phases, phases_by};

mod taps;

// Document 01 names this form: a type of its own, with associated constants and constructors that take no self.
#[derive(Clone, Copy)]
pub struct Interp {
    pub factor: usize,
    pub taps: usize,
}

impl Interp {
    // How many coefficients each factor has: its taps times itself.
    pub const COEFFICIENTS: usize = 48;

    pub const FOURFOLD: usize = 4;

    pub const FOURFOLD_TAPS: usize = 12;

    pub const TWOFOLD: usize = 2;

    pub const TWOFOLD_TAPS: usize = 24;
    // The rate edges: factor 4 below the first, factor 2 below the second.
    pub const FOURFOLD_BELOW: u32 = 96_000;

    pub const TWOFOLD_BELOW: u32 = 192_000;

    pub fn fourfold() -> Interp
        ensures { result ≡ fourfold }
    {
        Interp {
            factor: Interp::FOURFOLD,
            taps: Interp::FOURFOLD_TAPS,
        }
    }

    pub fn twofold() -> Interp
        ensures { result ≡ twofold }
    {
        Interp {
            factor: Interp::TWOFOLD,
            taps: Interp::TWOFOLD_TAPS,
        }
    }

    // The interpolator of a rate, or none where there is no true peak.
    pub fn of_rate(rate: u32) -> Option<Interp>
        ensures { said result ≡ kind_of rate }
    {
        if rate < Interp::FOURFOLD_BELOW {
            return Some(Interp::fourfold());
        }
        if rate < Interp::TWOFOLD_BELOW {
            return Some(Interp::twofold());
        }
        None
    }

    // All coefficients. NaN where there are none.
    pub fn coefficients(self) -> [f32; Interp::COEFFICIENTS]
        ensures { result ≡ coefficients self.factor }
    {
        if self.factor == Interp::FOURFOLD {
            return taps::FOURFOLD;
        }
        if self.factor == Interp::TWOFOLD {
            return taps::TWOFOLD;
        }
        [0.0 / 0.0; Interp::COEFFICIENTS]
    }

    // The four phases at a frame by factor 4, from its own sample and the 11 before it, newest first.
    pub fn fourfold_phases(samples: &[f32; Interp::FOURFOLD_TAPS]) -> [f32; Interp::FOURFOLD]
        ensures { result ≡ phases fourfold samples.now }
    {
        phases(&taps::FOURFOLD, samples)
    }

    // The two phases by factor 2, from its own sample and the 23 before it.
    pub fn twofold_phases(samples: &[f32; Interp::TWOFOLD_TAPS]) -> [f32; Interp::TWOFOLD]
        ensures { result ≡ phases twofold samples.now }
    {
        phases(&taps::TWOFOLD, samples)
    }
}

// The phases at a frame by a table of taps, from as many samples as the factor has taps, newest first.
fn phases<const FACTOR: usize, const TAPS: usize>(
    taps: &[f32; Interp::COEFFICIENTS],
    samples: &[f32; TAPS],
) -> [f32; FACTOR]
    requires { TAPS * FACTOR ≤ 48 }
    ensures { result ≡ phases_by taps.now (record { factor = FACTOR; taps = TAPS }) samples.now }
{
    let mut all = [0.0; FACTOR];
    for (f, p) in all.iter_mut().enumerate() {
        *p = phase(taps, FACTOR, samples, f);
    }
    all
}

// Phase f of these samples, newest first, by a table of taps. Product and sum are rounded each by itself, in the order that document 01 has.
fn phase(taps: &[f32; Interp::COEFFICIENTS], factor: usize, samples: &[f32], f: usize) -> f32
    requires { (f < factor) × (length samples.now * factor ≤ 48) }
    ensures { result ≡ phase taps.now factor samples.now f }
{
    let mut sum = 0.0;
    for (i, x) in samples.iter().enumerate() {
        sum = sum + *x * taps[i * factor + f];
    }
    sum
}
