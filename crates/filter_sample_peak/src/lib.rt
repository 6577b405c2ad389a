// The sample peak of a call: every channel's largest magnitude.
#![tactic(auto)]

ghost use Rattle.std.specs.Prelude.{◌≡◌, ℕ, ◌/◌, ◌<◌, ◌≤◌, length, get_or, map};
ghost use Rattle.std.specs.Float.{nan};
ghost use Rattle.base_refusals.specs.Answer.{said};
ghost use Rattle.base_refusals.specs.Outcome.{said_by, kept_by};
ghost use Rattle.samples.specs.Frames.{column, most_channels};
ghost use Rattle.samples.specs.Stretches.{Framed};
ghost use Rattle.base_floats.specs.Entry.{plus_zero};
ghost use Rattle.base_floats.specs.Largest.{greater, largest};
ghost use Rattle.filter_sample_peak.specs.Peak.{over_channels, raised};

use base_refusals::Answer;
use samples::Sample;

mod stretch;

// The sample peaks, channel c's at place c.
#[derive(Clone, Copy)]
pub struct Peaks {
    pub values: [f64; 8],
}

// What a call answers, beside the peaks. A refused call leaves them as given.
#[derive(Clone, Copy)]
pub struct Peaked {
    pub answer: Answer,
    pub peaks: Peaks,
}

// The places of a stretch. At eight channels they are 128 frames.
const STRETCH: usize = 1024;

// Every channel's largest magnitude over all frames.
fn largest_all<S: Sample>(channels: usize, samples: &[S]) -> Peaks
    requires { Framed channels (length samples.now) }
    ensures { (k : ℕ) → k < channels → get_or result.values k nan ≡ largest plus_zero (column (map S.in_f64 samples.now) k channels (length samples.now / channels)) }
{
    let mut stretch: [f64; STRETCH] = [0.0; STRETCH];
    let mut tops = Peaks { values: [0.0; 8] };
    for part in samples.chunks(STRETCH / channels * channels) {
        samples::fills::fill(&mut stretch, part);
        tops = stretch::peak_stretch(tops, channels, &stretch[..part.len()]);
    }
    tops
}

// Not the library's `max`: a stored NaN stays, and no NaN replaces a number.
fn greater_of(stored: f64, top: f64) -> f64
    ensures { result ≡ greater stored top }
{
    if stored < top { top } else { stored }
}

// The stored peaks, each replaced only by a greater one.
fn raise_peaks(stored: Peaks, tops: Peaks, channels: usize) -> Peaks
    requires { channels ≤ most_channels }
    ensures { result.values ≡ over_channels (λ k peak. greater peak (get_or tops.values k nan)) channels 0 stored.values }
{
    let mut w = stored;
    for k in 0..channels {
        w.values[k] = greater_of(w.values[k], tops.values[k]);
    }
    w
}

// One call over interleaved samples. Unused channels have peaks too.
pub fn process<S: Sample>(stored: Peaks, channels: usize, samples: &[S]) -> Peaked
    ensures answer_value { said result.answer ≡ said_by (raised channels (map S.in_f64 samples.now) stored) }
    ensures peaks_value { result.peaks ≡ kept_by stored (raised channels (map S.in_f64 samples.now) stored) }
{
    match filter_checks::refused_frames(channels, samples.len()) {
        Err(refusal) => Peaked {
            answer: Err(refusal),
            peaks: stored,
        },
        Ok(()) => Peaked {
            answer: Ok(()),
            peaks: raise_peaks(stored, largest_all(channels, samples), channels),
        },
    }
}
