// One call of the filter: sample peak, true peak and weighting over interleaved samples, each switched on by itself.
#![tactic(auto)]

ghost use Rattle.std.specs.Prelude.{◌≡◌};
ghost use Rattle.base_refusals.specs.Answer.{said};
ghost use Rattle.base_refusals.specs.Outcome.{said_by, kept_by};
ghost use Rattle.samples.specs.Sample.{samples_by};
ghost use Rattle.filter_sample_peak.specs.declared.Peaks.{Peaks};
ghost use Rattle.filter_sample_peak.specs.Peak.{raised};
ghost use Rattle.true_peak_state.specs.declared.TruePeak.{TruePeak};
ghost use Rattle.true_peak_state.specs.TruePeak.{Heard};
ghost use Rattle.true_peak.specs.TruePeak as trues;
ghost use Rattle.filter.specs.Filter.{resting, with_arrays};
ghost use Rattle.filter.specs.Call.{Call, standing, kept};
ghost use Rattle.filter.specs.Process.{processed};

use base_refusals::Answer;
use filter::{Filter, Filtered, Switches};
use filter_checks::Sizes;
use filter_recurrence::Coefficients;
use filter_sample_peak::Peaks;
use samples::Sample;
use true_peak_state::TruePeak;

// The sample peaks after the call.
fn raise<S: Sample>(peaks: &mut [f64; 8], channels: usize, samples: &[S])
    ensures { (let stored : Peaks = record { values = peaks.old } in
        peaks.new ≡ (kept_by stored (raised channels (samples_by S.in_f64 samples.now) stored)).values) }
{
    let m = filter_sample_peak::process(Peaks { values: *peaks }, channels, samples);
    let after = m.peaks.values;
    *peaks = after;
}

// The true peaks and the interpolator's memory after the call.
fn listen<S: Sample>(
    rate: u32,
    memory: &mut [f32; 184],
    peaks: &mut [f32; 8],
    channels: usize,
    samples: &[S],
)
    ensures { (let stored : TruePeak = record { memory = memory.old; peaks = peaks.old } in
        let heard : Heard = record { channels = channels; samples = samples_by S.in_f32 samples.now } in
        let after = kept_by stored (trues.processed rate heard stored) in
        (memory.new ≡ after.memory) × (peaks.new ≡ after.peaks)) }
{
    let stored = TruePeak {
        memory: *memory,
        peaks: *peaks,
    };
    let m = true_peak::calls::process(rate, stored, channels, samples);
    let memory_after = m.state.memory;
    *memory = memory_after;
    let peaks_after = m.state.peaks;
    *peaks = peaks_after;
}

// One call on arrays that are lent each by itself. Everything is checked before anything moves, and what is off is neither looked at nor copied.
pub fn process_lent<S: Sample>(
    channels: usize,
    rate: u32,
    switches: Switches,
    a: &[f64; 5],
    b: &[f64; 5],
    state: &mut [f64; 40],
    peaks: &mut [f64; 8],
    memory: &mut [f32; 184],
    true_peaks: &mut [f32; 8],
    samples: &[S],
    map: &[u8],
    dest: &mut [f64],
    start: usize,
) -> Answer
    ensures { (let rest = resting channels rate switches (record { a = a.now; b = b.now }) in
        let filter = with_arrays rest (record { state = state.old; peaks = peaks.old; memory = memory.old; true_peaks = true_peaks.old }) in
        let left = standing rest (record { state = state.new; peaks = peaks.new; memory = memory.new; true_peaks = true_peaks.new }) dest.new in
        let call : Call = record { filter = filter; samples = S.lent samples.now; map = map.now; dest = dest.old; start = start } in
        (said result ≡ said_by (processed call)) × (left ≡ kept processed call)) }
{
    let loudness = switches.loudness;
    let sizes = Sizes {
        channels,
        samples: samples.len(),
        room: dest.len(),
        start,
    };
    filter_checks::refused_process(loudness, sizes, map)?;
    if switches.peak {
        raise(peaks, channels, samples);
    }
    if switches.true_peak {
        listen(rate, memory, true_peaks, channels, samples);
    }
    if loudness {
        let c = Coefficients { a: *a, b: *b };
        // What would refuse the weighting has refused the call.
        let _ = filter_weighting::process_lent(c, state, channels, samples, map, dest, start);
    }
    Ok(())
}

// One call over interleaved samples: the sample peaks, the true peaks, and the weighting into each used channel's equal part of `dest`,
// from index `start` of the part on. A map byte of 0 is an unused channel, 1 a used one.
pub fn process<S: Sample>(
    mut filter: Filter,
    data: &[S],
    map: &[u8],
    dest: &mut [f64],
    start: usize,
) -> Filtered
    ensures { (let call : Call = record { filter = filter; samples = S.lent «data».now; map = map.now; dest = dest.old; start = start } in
        (said result.answer ≡ said_by (processed call))
        × (result.filter ≡ (kept processed call).filter)
        × (dest.new ≡ (kept processed call).dest)) }
{
    let c = filter.coefficients;
    let answer = process_lent(
        filter.channels,
        filter.rate,
        filter.switches,
        &c.a,
        &c.b,
        &mut filter.state.values,
        &mut filter.peaks.values,
        &mut filter.true_peak.memory,
        &mut filter.true_peak.peaks,
        data,
        map,
        dest,
        start,
    );
    Filtered { answer, filter }
}
