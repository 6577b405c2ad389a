// True peak: the largest absolute phase of each channel, over interleaved samples.
#![tactic(auto)]

ghost use Rattle.std.specs.Prelude.{◌≡◌, ◌+◌, ◌*◌, ◌<◌, ◌≤◌, length, map};
ghost use Rattle.std.proofs.lemmas.List.Edits.{sets};
ghost use Rattle.true_peak_interp.specs.Interp.{upsampled, kind_of, Known};
ghost use Rattle.true_peak_interp.specs.Phase.{coefficients, phases};
ghost use Rattle.base_floats.specs.Largest.{largest};
ghost use Rattle.true_peak_scan.specs.Line.{back, stretch, phases_over};
ghost use Rattle.true_peak_state.specs.Channel.{channel, heard, past};
ghost use Rattle.samples.specs.Frames.{column, most_channels};
ghost use Rattle.true_peak_state.specs.TruePeak.{history_at, channel_of, with_channel, measured};
ghost use Rattle.true_peak.specs.Inner.{OneOfTwo};

use base_refusals::Answer;
use samples::Sample;
use true_peak_interp::Interp;
use true_peak_state::TruePeak;

pub mod calls;

pub use calls::process;

// What a call answers, beside the state.
#[derive(Clone, Copy)]
pub struct Measured {
    pub answer: Answer,
    pub state: TruePeak,
}

// An interpolator with its coefficients, which a call takes once.
#[derive(Clone, Copy)]
struct Kernel {
    i: Interp,
    taps: [f32; Interp::COEFFICIENTS],
    ghost known: { OneOfTwo i },
    ghost own: { taps ≡ coefficients i.factor },
}

impl Kernel {
    // The peak after n frames of a line, the first window beginning at its first place.
    fn scan(&self, line: &[f32; true_peak_scan::LINE], n: usize, peak: f32) -> f32
        requires { n ≤ stretch }
        ensures { result ≡ largest peak (phases_over (phases self.now.i) line.now 0 n) }
    {
        if self.i.factor == Interp::FOURFOLD {
            return true_peak_scan::scan_fourfold(&self.taps, line, n, peak);
        }
        true_peak_scan::scan_twofold(&self.taps, line, n, peak)
    }
}

// A channel's history, newest first in the memory, to the line's first places, oldest first.
fn recall(memory: &[f32; 184], c: usize, line: &mut [f32; true_peak_scan::LINE])
    requires { c < most_channels }
    ensures { back line.new 0 past ≡ history_at memory.now c }
{
    for k in 0..TruePeak::PAST {
        line[TruePeak::PAST - 1 - k] = memory[c * TruePeak::PAST + k];
    }
}

// n samples of a channel, from place first on, to the line after the history.
fn gather<S: Sample>(
    samples: &[S],
    first: usize,
    step: usize,
    n: usize,
    line: &mut [f32; true_peak_scan::LINE],
)
    requires n_le_stretch { n ≤ stretch }
    requires step_in_bounds { first + n * step < length samples.now + step }
    ensures { line.new ≡ sets line.old past (column (map S.in_f32 samples.now) first step n) }
{
    for k in 0..n {
        line[TruePeak::PAST + k] = samples[first + k * step].to_f32();
    }
}

// The last 23 samples of a line with n new ones become its first.
fn carry(line: &mut [f32; true_peak_scan::LINE], n: usize)
    requires { n ≤ stretch }
    ensures { back line.new 0 past ≡ back line.old n past }
{
    for k in 0..TruePeak::PAST {
        line[k] = line[n + k];
    }
}

// The line's first places back to the memory.
fn keep(line: &[f32; true_peak_scan::LINE], c: usize, memory: &mut [f32; 184])
    requires { c < most_channels }
    ensures { memory.new ≡ sets memory.old (c * past) (back line.now 0 past) }
{
    for k in 0..TruePeak::PAST {
        memory[c * TruePeak::PAST + k] = line[TruePeak::PAST - 1 - k];
    }
}

// A channel hears n samples from place first on, its history in the line's first places. Answers its peak.
fn hear_stretch<S: Sample>(
    kernel: &Kernel,
    samples: &[S],
    first: usize,
    channels: usize,
    n: usize,
    line: &mut [f32; true_peak_scan::LINE],
    peak: f32,
) -> f32
    requires n_le_stretch { n ≤ stretch }
    requires channels_in_bounds { first + n * channels < length samples.now + channels }
    ensures { channel (back line.new 0 past) result ≡ heard kernel.now.i (channel (back line.old 0 past) peak) (column (map S.in_f32 samples.now) first channels n) }
{
    gather(samples, first, channels, n, line);
    let loud = kernel.scan(line, n, peak);
    carry(line, n);
    loud
}

// One channel hears its samples, stretch by stretch. Answers its peak.
fn one_channel<S: Sample>(
    kernel: &Kernel,
    samples: &[S],
    channels: usize,
    frames: usize,
    c: usize,
    memory: &mut [f32; 184],
    peak: f32,
) -> f32
    requires c_lt_channels { (c < channels) × (channels ≤ most_channels) }
    requires channels_in_bounds { frames * channels ≤ length samples.now }
    ensures { let after = heard kernel.now.i (channel (history_at memory.old c) peak) (column (map S.in_f32 samples.now) c channels frames) in
        (result ≡ after.peak) × (memory.new ≡ sets memory.old (c * past) after.history) }
{
    let mut line = [0.0; true_peak_scan::LINE];
    recall(memory, c, &mut line);
    let mut loud = peak;
    let mut first = c;
    let mut left = frames;
    // Stays a while loop: it moves by a stretch, and what it leaves, the last stretch, is not empty unless the call is.
    while true_peak_scan::STRETCH < left {
        loud = hear_stretch(
            kernel,
            samples,
            first,
            channels,
            true_peak_scan::STRETCH,
            &mut line,
            loud,
        );
        first += true_peak_scan::STRETCH * channels;
        left -= true_peak_scan::STRETCH;
    }
    loud = hear_stretch(kernel, samples, first, channels, left, &mut line, loud);
    keep(&line, c, memory);
    loud
}

// Channel c hears its samples.
fn listen<S: Sample>(
    kernel: &Kernel,
    t: TruePeak,
    samples: &[S],
    channels: usize,
    frames: usize,
    c: usize,
) -> TruePeak
    requires c_lt_channels { (c < channels) × (channels ≤ most_channels) }
    requires channels_in_bounds { frames * channels ≤ length samples.now }
    ensures { result ≡ with_channel t c (heard kernel.now.i (channel_of t c) (column (map S.in_f32 samples.now) c channels frames)) }
{
    let mut w = t;
    let peak = w.peaks[c];
    let loud = one_channel(kernel, samples, channels, frames, c, &mut w.memory, peak);
    w.peaks[c] = loud;
    w
}

// Every channel hears its samples.
fn all_channels<S: Sample>(i: Interp, t: TruePeak, channels: usize, samples: &[S]) -> TruePeak
    requires known { Known i }
    requires channels_nonzero { (0 < channels) × (channels ≤ most_channels) }
    ensures { result ≡ measured (upsampled i) (record { channels = channels; samples = map S.in_f32 samples.now }) t }
{
    let frames = samples.len() / channels;
    let kernel = Kernel {
        i,
        taps: i.coefficients(),
    };
    let mut w = t;
    for c in 0..channels {
        w = listen(&kernel, w, samples, channels, frames, c);
    }
    w
}

fn measure<S: Sample>(rate: u32, t: TruePeak, channels: usize, samples: &[S]) -> TruePeak
    requires { (0 < channels) × (channels ≤ most_channels) }
    ensures { result ≡ measured (kind_of rate) (record { channels = channels; samples = map S.in_f32 samples.now }) t }
{
    match Interp::of_rate(rate) {
        Some(i) => all_channels(i, t, channels, samples),
        None => t,
    }
}
