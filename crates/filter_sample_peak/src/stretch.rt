// The sample peak over one stretch of samples as floats, channel by channel.
ghost use Rattle.std.specs.Prelude.{◌≡◌, false, ℕ, ◌/◌, ◌<◌, ◌≤◌, length, get_or};
ghost use Rattle.std.specs.Float.{nan};
ghost use Rattle.std.specs.Float.Ieee.{lt};
ghost use Rattle.samples.specs.Frames.{column};
ghost use Rattle.samples.specs.Stretches.{Framed};
ghost use Rattle.samples.specs.Stretches.{Reach};
ghost use Rattle.base_floats.specs.Entry.{plus_zero};
ghost use Rattle.base_floats.specs.Largest.{magnitude, greater, largest};
ghost use Rattle.filter_sample_peak.specs.Peak.{over_channels};
ghost use Rattle.filter_sample_peak.specs.Inner.{most_lanes};

use super::{Peaks, greater_of};

// The greater of top and the magnitude of x, by comparison: a NaN is greater than nothing.
fn raise(top: f64, x: f64) -> f64
    requires { lt top plus_zero ≡ false }
    ensures { result ≡ greater top (magnitude x) }
{
    let high = greater_of(top, x);
    greater_of(high, -x)
}

// Lane j of n has the largest magnitude of every n-th place from j on. Where n is a multiple of the channels, a lane is of one channel.
#[derive(Drop)]
struct Lanes {
    values: [f64; 24],
}

// The most lanes. Of 1, 2, 3, 4, 6 and 8 channels they are a multiple.
const LANES: usize = 24;

// One place more in each lane that the turn has a place for.
fn raise_turn(tops: Lanes, turn: &[f64]) -> Lanes
    requires few { length turn.now ≤ most_lanes }
    requires by_index { (j : ℕ) → j < length turn.now → lt (get_or tops.values j nan) plus_zero ≡ false }
    ensures { result.values ≡ over_channels (λ j top. greater top (magnitude (get_or turn.now j nan))) (length turn.now) 0 tops.values }
{
    let mut w = tops;
    for (j, x) in turn.iter().enumerate() {
        w.values[j] = raise(w.values[j], *x);
    }
    w
}

// As many turns as the stretch has, each with one place for every lane.
fn raise_turns(lanes: usize, stretch: &[f64]) -> Lanes
    requires lanes_nonzero { 0 < lanes }
    requires lanes_le_most_lanes { lanes ≤ most_lanes }
    ensures values_len { length result.values ≡ most_lanes }
    ensures by_index { (j : ℕ) → j < lanes → get_or result.values j nan ≡ largest plus_zero (column stretch.now j lanes (length stretch.now / lanes)) }
{
    let mut w = Lanes { values: [0.0; 24] };
    for turn in stretch.chunks_exact(lanes) {
        w = raise_turn(w, turn);
    }
    w
}

// The same, with all the lanes that there are as a case of their own: a loop of a known length is unrolled.
fn lanes_of(lanes: usize, stretch: &[f64]) -> Lanes
    requires lanes_nonzero { 0 < lanes }
    requires lanes_le_most_lanes { lanes ≤ most_lanes }
    ensures values_len { length result.values ≡ most_lanes }
    ensures by_index { (j : ℕ) → j < lanes → get_or result.values j nan ≡ largest plus_zero (column stretch.now j lanes (length stretch.now / lanes)) }
{
    if lanes == LANES {
        return raise_turns(LANES, stretch);
    }
    raise_turns(lanes, stretch)
}

// A channel's frames one after another.
fn largest_on(top: f64, stretch: &[f64], first: usize, step: usize, count: usize) -> f64
    requires plus_zero_value { lt top plus_zero ≡ false }
    requires reach { Reach first step count (length stretch.now) }
    ensures { result ≡ largest top (column stretch.now first step count) }
{
    let mut high = top;
    for turn in 0..count {
        high = raise(high, stretch[first + turn * step]);
    }
    high
}

// Every channel's frames of a stretch: its lanes, and the few frames that are left.
pub(crate) fn peak_stretch(tops: Peaks, channels: usize, stretch: &[f64]) -> Peaks
    requires whole { Framed channels (length stretch.now) }
    requires by_index { (k : ℕ) → k < channels → lt (get_or tops.values k nan) plus_zero ≡ false }
    ensures { result.values ≡ over_channels (λ k top. largest top (column stretch.now k channels (length stretch.now / channels))) channels 0 tops.values }
{
    let each = LANES / channels;
    let count = stretch.len() / channels;
    let done = count / each * each;
    let lanes = lanes_of(each * channels, stretch);
    let mut w = tops;
    for k in 0..channels {
        let high = largest_on(w.values[k], &lanes.values, k, channels, each);
        w.values[k] = largest_on(high, stretch, k + done * channels, channels, count - done);
    }
    w
}
