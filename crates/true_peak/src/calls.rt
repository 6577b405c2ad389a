// The true peak of a call over samples of whatever kind, batch by batch: each becomes an f32 where a channel's samples are gathered.
ghost use Rattle.std.specs.Prelude.{◌≡◌, ◌+◌, ◌*◌, ◌<◌, ◌≤◌, length, map};
ghost use Rattle.base_refusals.specs.Answer.{said};
ghost use Rattle.base_refusals.specs.Outcome.{said_by, kept_by};
ghost use Rattle.base_refusals.specs.Rows.{number_of};
ghost use Rattle.filter_checks.specs.Calls.{frame_rows};
ghost use Rattle.samples.specs.Frames.{most_channels};
ghost use Rattle.true_peak_interp.specs.Interp.{kind_of};
ghost use Rattle.true_peak_state.specs.Channel.{past};
ghost use Rattle.true_peak_state.specs.TruePeak.{measured};
ghost use Rattle.true_peak.specs.TruePeak.{processed, seeded};
ghost use Rattle.true_peak.specs.CallsInner.{places};

use crate::Measured;
use samples::Sample;
use true_peak_state::TruePeak;

// The places of a batch, and the frames that the interpolator takes at a time: a batch is whole runs of them.
const BATCH: usize = 4096;

const RUN: usize = true_peak_scan::STRETCH;

// How many frames a batch takes.
fn most(channels: usize) -> usize
    requires { (0 < channels) × (channels ≤ most_channels) }
    ensures { (0 < result) × (result * channels ≤ places) }
{
    BATCH / (RUN * channels) * RUN
}

// The state of these values: cutting a call into batches counts on each channel's places.
fn state_of(memory: [f32; 184], peaks: [f32; 8]) -> TruePeak
    ensures value { result ≡ record { memory = memory; peaks = peaks } }
    ensures memory_len { (length memory ≡ most_channels * past) × (length peaks ≡ most_channels) }
{
    TruePeak { memory, peaks }
}

// The state after all samples, batch by batch: each channel goes over a batch by itself, and a batch stays near the processor.
fn measure<S: Sample>(rate: u32, t: TruePeak, channels: usize, samples: &[S]) -> TruePeak
    requires { number_of (frame_rows channels (length samples.now)) ≡ 0 }
    ensures { result ≡ measured (kind_of rate) (record { channels = channels; samples = map S.in_f32 samples.now }) t }
{
    let batch = most(channels) * channels;
    let mut w = state_of(t.memory, t.peaks);
    for part in samples.chunks(batch) {
        w = crate::measure(rate, w, channels, part);
    }
    w
}

// The true peaks after a call over interleaved samples. Calls may be cut between any two frames.
pub fn process<S: Sample>(rate: u32, t: TruePeak, channels: usize, samples: &[S]) -> Measured
    ensures answer_value { said result.answer ≡ said_by (processed rate (record { channels = channels; samples = map S.in_f32 samples.now }) t) }
    ensures state_value { result.state ≡ kept_by t (processed rate (record { channels = channels; samples = map S.in_f32 samples.now }) t) }
{
    match filter_checks::refused_frames(channels, samples.len()) {
        Err(refusal) => Measured {
            answer: Err(refusal),
            state: t,
        },
        Ok(()) => Measured {
            answer: Ok(()),
            state: measure(rate, t, channels, samples),
        },
    }
}

// The memory after a call whose peaks are not wanted.
pub fn seed<S: Sample>(rate: u32, t: TruePeak, channels: usize, samples: &[S]) -> Measured
    ensures answer_value { said result.answer ≡ said_by (seeded rate (record { channels = channels; samples = map S.in_f32 samples.now }) t) }
    ensures state_value { result.state ≡ kept_by t (seeded rate (record { channels = channels; samples = map S.in_f32 samples.now }) t) }
{
    match filter_checks::refused_frames(channels, samples.len()) {
        Err(refusal) => Measured {
            answer: Err(refusal),
            state: t,
        },
        Ok(()) => {
            let peaks = t.peaks;
            let mut moved = measure(rate, t, channels, samples);
            moved.peaks = peaks;
            Measured {
                answer: Ok(()),
                state: moved,
            }
        }
    }
}
