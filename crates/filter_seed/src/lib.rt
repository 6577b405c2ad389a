// A call of the filter that moves the weighting's state and the interpolator's memory: no peak and no destination is written.
#![tactic(auto)]

ghost use Rattle.std.specs.Prelude.{◌≡◌};
ghost use Rattle.base_refusals.specs.Answer.{said};
ghost use Rattle.base_refusals.specs.Outcome.{said_by, kept_by};
ghost use Rattle.samples.specs.Sample.{samples_by};
ghost use Rattle.filter_recurrence.specs.declared.states.State.{State};
ghost use Rattle.filter_recurrence.specs.Channels as recurrence;
ghost use Rattle.filter_weighting.specs.Seeding as seeding;
ghost use Rattle.true_peak_state.specs.declared.TruePeak.{TruePeak};
ghost use Rattle.true_peak_state.specs.TruePeak.{Heard};
ghost use Rattle.true_peak.specs.TruePeak as trues;
ghost use Rattle.filter.specs.Filter.{resting, with_arrays};
ghost use Rattle.filter.specs.Call.{seed_of, kept};
ghost use Rattle.filter.specs.Seed.{seeded};

use base_refusals::Answer;
use filter::{Filter, Filtered, Switches};
use filter_recurrence::Coefficients;
use filter_recurrence::states::State;
use samples::Sample;
use true_peak_state::TruePeak;

// The interpolator's memory after the call.
fn remember<S: Sample>(
    rate: u32,
    memory: &mut [f32; 184],
    peaks: &[f32; 8],
    channels: usize,
    samples: &[S],
)
    ensures { (let stored : TruePeak = record { memory = memory.old; peaks = peaks.now } in
        let heard : Heard = record { channels = channels; samples = samples_by S.in_f32 samples.now } in
        memory.new ≡ (kept_by stored (trues.seeded rate heard stored)).memory) }
{
    let stored = TruePeak {
        memory: *memory,
        peaks: *peaks,
    };
    let m = true_peak::calls::seed(rate, stored, channels, samples);
    let after = m.state.memory;
    *memory = after;
}

// The state after the call.
fn advance<S: Sample>(
    c: Coefficients,
    state: &mut [f64; 40],
    channels: usize,
    samples: &[S],
    map: &[u8],
)
    ensures { (let stored : State = record { values = state.old } in
        let call = recurrence.weighing_of c stored channels (samples_by S.in_f64 samples.now) map.now in
        state.new ≡ (kept_by stored (seeding.moved call)).values) }
{
    let stored = State { values: *state };
    let m = filter_weighting::seeding::seed(c, stored, channels, samples, map);
    let after = m.state.values;
    *state = after;
}

// One call on arrays that are lent each by itself. Everything is checked before anything moves, and what is off is not looked at.
// The peaks say which filter it is, and stay.
pub fn seed_lent<S: Sample>(
    channels: usize,
    rate: u32,
    switches: Switches,
    a: &[f64; 5],
    b: &[f64; 5],
    state: &mut [f64; 40],
    peaks: &[f64; 8],
    memory: &mut [f32; 184],
    true_peaks: &[f32; 8],
    samples: &[S],
    map: &[u8],
) -> Answer
    ensures { let rest = resting channels rate switches (record { a = a.now; b = b.now }) in
        let filter = with_arrays rest (record { state = state.old; peaks = peaks.now; memory = memory.old; true_peaks = true_peaks.now }) in
        let left = with_arrays rest (record { state = state.new; peaks = peaks.now; memory = memory.new; true_peaks = true_peaks.now }) in
        let call = seed_of filter (S.lent samples.now) map.now in
        (said result ≡ said_by (seeded call)) × (left ≡ (kept seeded call).filter) }
{
    filter_checks::refused_seed(channels, samples.len(), map)?;
    if switches.true_peak {
        remember(rate, memory, true_peaks, channels, samples);
    }
    if switches.loudness {
        let c = Coefficients { a: *a, b: *b };
        advance(c, state, channels, samples, map);
    }
    Ok(())
}

// One call over interleaved samples. A map byte of 0 is an unused channel, 1 a used one.
pub fn seed<S: Sample>(mut filter: Filter, data: &[S], map: &[u8]) -> Filtered
    ensures { let call = seed_of filter (S.lent «data».now) map.now in
        (said result.answer ≡ said_by (seeded call)) × (result.filter ≡ (kept seeded call).filter) }
{
    let c = filter.coefficients;
    let peaks = filter.peaks;
    let true_peaks = filter.true_peak.peaks;
    let answer = seed_lent(
        filter.channels,
        filter.rate,
        filter.switches,
        &c.a,
        &c.b,
        &mut filter.state.values,
        &peaks.values,
        &mut filter.true_peak.memory,
        &true_peaks,
        data,
        map,
    );
    Filtered { answer, filter }
}
