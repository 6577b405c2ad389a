// The largest absolute phase over the frames of a line: what the true peak is made of.
#![tactic(auto)]

ghost use Rattle.std.specs.Prelude.{◌≡◌, ℕ, ◌+◌, ◌*◌, ◌<◌, ◌≤◌, min, length, get_or};
ghost use Rattle.std.specs.Float.{nan};
ghost use Rattle.true_peak_interp.specs.Interp.{fourfold, twofold};
ghost use Rattle.true_peak_interp.specs.Phase.{plus, phases_by};
ghost use Rattle.base_floats.specs.Largest.{magnitude, greater, largest};
ghost use Rattle.true_peak_scan.specs.Line.{stretch, back, phases_over};
ghost use Rattle.true_peak_scan.specs.Inner.{Table};

use true_peak_interp::Interp;

// How many frames of a channel are taken at a time.
pub const STRETCH: usize = 128;

// A channel's history and a stretch of its samples, oldest first.
pub const LINE: usize = 151;

// Where a frame's own sample stands in its window.
const OWN: usize = Interp::TWOFOLD_TAPS - 1;

// A value replaces the peak only if it is greater. A NaN never is.
fn greater(peak: f32, v: f32) -> f32
    ensures { result ≡ greater peak v }
{
    if peak < v { v } else { peak }
}

// A frame's sums, a phase each, carried on by a sample of its window and the taps from place j on: product and sum are rounded each by itself.
fn carry_on<const N: usize>(
    sums: &mut [f32; N],
    x: f32,
    taps: &[f32; Interp::COEFFICIENTS],
    j: usize,
)
    requires { j + N ≤ 48 }
    ensures size { length sums.new ≡ N }
    ensures each { (f : ℕ) → f < N → get_or sums.new f nan ≡ plus (get_or sums.old f nan) x (get_or taps.now (j + f) nan) }
{
    for (f, sum) in sums.iter_mut().enumerate() {
        *sum = *sum + x * taps[j + f];
    }
}

// A frame's phases, all of them sample by sample, the first window beginning at the line's first place.
fn frame<const N: usize, const TAPS: usize>(
    taps: &[f32; Interp::COEFFICIENTS],
    line: &[f32; LINE],
    at: usize,
) -> [f32; N]
    requires at_lt_stretch { at < stretch }
    requires table { Table N TAPS }
    ensures { result ≡ phases_by taps.now (record { factor = N; taps = TAPS }) (back line.now at twofold.taps) }
{
    let mut sums = [0.0; N];
    for i in 0..TAPS {
        carry_on(&mut sums, line[at + OWN - i], taps, i * N);
    }
    sums
}

// The phases of a frame each raise a peak of their own.
fn raise<const N: usize>(peaks: &mut [f32; N], phases: &[f32; N])
    ensures size { length peaks.new ≡ N }
    ensures each { (f : ℕ) → f < N → get_or peaks.new f nan ≡ greater (get_or peaks.old f nan) (magnitude (get_or phases.now f nan)) }
{
    for (f, peak) in peaks.iter_mut().enumerate() {
        *peak = greater(*peak, phases[f].abs());
    }
}

// The peak after n frames of a line, the first window beginning at its first place, by a table of taps. The phases of a place raise a peak of their own, so that no phase waits
// for its neighbour.
fn scan<const N: usize, const TAPS: usize>(
    taps: &[f32; Interp::COEFFICIENTS],
    line: &[f32; LINE],
    n: usize,
    peak: f32,
) -> f32
    requires { Table N TAPS }
    ensures { result ≡ largest peak (phases_over (phases_by taps.now (record { factor = N; taps = TAPS })) line.now 0 (min n stretch)) }
{
    let mut peaks = [peak; N];
    for at in 0..n.min(STRETCH) {
        raise(&mut peaks, &frame::<N, TAPS>(taps, line, at));
    }
    let mut highest = peak;
    for p in &peaks {
        highest = greater(highest, *p);
    }
    highest
}

// By a table of taps of factor 4.
pub fn scan_fourfold(
    taps: &[f32; Interp::COEFFICIENTS],
    line: &[f32; LINE],
    n: usize,
    peak: f32,
) -> f32
    ensures { result ≡ largest peak (phases_over (phases_by taps.now fourfold) line.now 0 (min n stretch)) }
{
    scan::<{ Interp::FOURFOLD }, { Interp::FOURFOLD_TAPS }>(taps, line, n, peak)
}

// The same, of factor 2.
pub fn scan_twofold(
    taps: &[f32; Interp::COEFFICIENTS],
    line: &[f32; LINE],
    n: usize,
    peak: f32,
) -> f32
    ensures { result ≡ largest peak (phases_over (phases_by taps.now twofold) line.now 0 (min n stretch)) }
{
    scan::<{ Interp::TWOFOLD }, { Interp::TWOFOLD_TAPS }>(taps, line, n, peak)
}
