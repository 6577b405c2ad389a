// The cases of the filter: the interpolator's phases, single calls, and impulses.
ghost use Rattle.std.specs.Prelude.{ℕ, ◌≤◌};
ghost use Rattle.std.proofs.Common.{rules};

use filter::{Filter, Filtered, Switches};
use filter_recurrence::Coefficients;
use filter_recurrence::states::State;
use filter_sample_peak::Peaks;
use samples::Sample;
use true_peak_interp::Interp;
use true_peak_state::TruePeak;

// The numbers by which a case tells a call's operation, its kind of samples and its switches, and the factor of its phases.
const PROCESS: usize = 0;

const I16: usize = 0;

const LOUDNESS: u64 = 1;

const PEAK: u64 = 2;

const TRUE_PEAK: u64 = 4;

const FOURFOLD: u64 = 4;

// ---- what a case has at a place
fn count_at(case: &[u8], at: usize) -> usize {
    base_fields::number_at(case, at, 2) as usize
}

// A value that stands in a case by its pattern.
trait Value: Copy {
    ghost WIDTH: { ℕ };

    // The bytes of its field.
    const WIDTH: usize;

    // The pattern of 0.5, and of no more than its low bytes.
    const HALF: u64;

    fn of(pattern: u64) -> Self;

    // Whether it is what the pattern stands for.
    fn is(self, pattern: u64) -> bool;

    ghost few: { WIDTH ≤ 8 };
}

impl Value for f64 {
    ghost WIDTH = { 8 };

    const WIDTH: usize = 8;

    const HALF: u64 = 0x3FE0_0000_0000_0000;

    ghost few = { Prim.search rules };

    fn of(pattern: u64) -> f64 {
        base_floats::float_of(pattern)
    }

    fn is(self, pattern: u64) -> bool {
        base_floats::pattern_of(self) == pattern
    }
}

// A pattern of 32 bits. No two floats have the same widened pattern, but for NaN.
impl Value for f32 {
    ghost WIDTH = { 4 };

    const WIDTH: usize = 4;

    const HALF: u64 = 0x3F00_0000;

    ghost few = { Prim.search rules };

    fn of(pattern: u64) -> f32 {
        float_of((pattern % 4294967296) as u32)
    }

    fn is(self, pattern: u64) -> bool {
        base_floats::pattern_of(samples::f32_to_f64(self))
            == base_floats::pattern_of(samples::f32_to_f64(f32::of(pattern)))
    }
}

// An i16 stands in the low bytes of a field of 4 bytes.
impl Value for i16 {
    ghost WIDTH = { 4 };

    const WIDTH: usize = 4;

    const HALF: u64 = 0x3F00_0000;

    ghost few = { Prim.search rules };

    fn of(pattern: u64) -> i16 {
        ((pattern % 65536) as u16).cast_signed()
    }

    fn is(self, pattern: u64) -> bool {
        self == i16::of(pattern)
    }
}

// The float that a pattern of 32 bits stands for. Every NaN pattern stands for NaN.
fn float_of(pattern: u32) -> f32 {
    let field = pattern % 0x8000_0000 / 0x0080_0000;
    let digits = pattern % 0x0080_0000;
    if field != 255 || digits == 0 {
        return f32::from_bits(pattern);
    }
    f32::NAN
}

// Place `place` of a list: of the first `count` places the case has the patterns from `from` on, each other place holds 0.5.
fn pattern_at<V: Value>(case: &[u8], from: usize, count: usize, place: usize) -> u64 {
    if count <= place {
        return V::HALF;
    }
    if 4096 < from || 4096 < place {
        return 0;
    }
    base_fields::number_at(case, from + V::WIDTH * place, V::WIDTH)
}

// ---- lists of values: taken from a case, and whether they are a case's
fn fill<V: Value>(case: &[u8], from: usize, count: usize, values: &mut [V]) {
    for (place, value) in values.iter_mut().enumerate() {
        *value = V::of(pattern_at::<V>(case, from, count, place));
    }
}

fn all_same<V: Value>(case: &[u8], from: usize, count: usize, values: &[V]) -> bool {
    values.iter().enumerate().all(|(place, value)| value.is(pattern_at::<V>(
        case, from, count, place,
    )))
}

fn coefficients_of(case: &[u8]) -> Coefficients {
    let mut a: [f64; 5] = [0.0; 5];
    let mut b: [f64; 5] = [0.0; 5];
    fill(case, 72, 5, &mut a);
    fill(case, 112, 5, &mut b);
    Coefficients { a, b }
}

// ---- phases
// u16 factor; u32 patterns of 24 samples, newest first; u32 patterns of 4 phases. Factor 4 looks at 12 samples, factor 2 has 2 phases: the others are 0.
pub(crate) fn phases_same(case: &[u8]) -> bool {
    match base_fields::number_at(case, 0, 2) {
        FOURFOLD => fourfold_same(case),
        _ => twofold_same(case),
    }
}

// A function for each factor: the check does not cover a bound `Fn` over arrays whose lengths are parameters.
fn fourfold_same(case: &[u8]) -> bool {
    let mut samples = [0.0; Interp::FOURFOLD_TAPS];
    fill(case, 2, Interp::FOURFOLD_TAPS, &mut samples);
    all_same(
        case,
        98,
        Interp::FOURFOLD,
        &Interp::fourfold_phases(&samples),
    )
}

fn twofold_same(case: &[u8]) -> bool {
    let mut samples = [0.0; Interp::TWOFOLD_TAPS];
    fill(case, 2, Interp::TWOFOLD_TAPS, &mut samples);
    all_same(case, 98, Interp::TWOFOLD, &Interp::twofold_phases(&samples))
}

// ---- calls
// One call: u16 operation (0 process, 1 seed), u16 kind (0 i16, 1 f32), u16 channels, u16 switches, u32 rate, u16 numbers of samples, of map bytes and of places,
// u16 start; 12 times u32 sample (an i16 in the low bytes); 4 map bytes; u64 patterns of a and b; what passes from call to call; then the answers: u16 refusal
// (0: none), what passes on, and u64 patterns of the 16 places that the destination is the first part of. What passes on is of three channels: u64 patterns of
// 15 states and 3 sample peaks, u32 patterns of 69 remembered samples and 3 true peaks. All other places hold 0.5, before and afterwards.
pub(crate) fn call_same(case: &[u8]) -> bool {
    let mut dest = [0.5; 16];
    call_into(case, &mut dest) && all_same(case, 1018, count_at(case, 16), &dest)
}

// The places that the case has.
fn call_into(case: &[u8], dest: &mut [f64]) -> bool {
    let places = count_at(case, 16);
    if dest.len() < places {
        return false;
    }
    call_mapped(case, &mut dest[..places])
}

// The map's bytes stand in the case.
fn call_mapped(case: &[u8], dest: &mut [f64]) -> bool {
    let bytes = count_at(case, 14);
    if 4 < bytes {
        return false;
    }
    if case.len() < 72 {
        return false;
    }
    let map = &case[68..68 + bytes];
    match count_at(case, 2) {
        I16 => call_of(case, &mut [0i16; 1024], map, dest),
        _ => call_of(case, &mut [0.0f32; 12], map, dest),
    }
}

// A call of at most as many samples as there is data for. The case has the first 12, the others are 0.
fn call_of<S: Sample + Value>(case: &[u8], data: &mut [S], map: &[u8], dest: &mut [f64]) -> bool {
    let samples = count_at(case, 12);
    if data.len() < samples {
        return false;
    }
    fill(case, 20, 12, data);
    heard(case, &data[..samples], map, dest)
}

fn heard<S: Sample>(case: &[u8], data: &[S], map: &[u8], dest: &mut [f64]) -> bool {
    let given = filter_of(case);
    let filtered = match count_at(case, 0) {
        PROCESS => filter_process::process(given, data, map, dest, count_at(case, 18)),
        _ => filter_seed::seed(given, data, map),
    };
    filtered_same(case, filtered)
}

fn filter_of(case: &[u8]) -> Filter {
    let mut state: [f64; 40] = [0.0; 40];
    let mut peaks: [f64; 8] = [0.0; 8];
    fill(case, 152, 15, &mut state);
    fill(case, 272, 3, &mut peaks);
    let on = base_fields::number_at(case, 6, 2);
    Filter {
        channels: count_at(case, 4),
        rate: (base_fields::number_at(case, 8, 4) % 4294967296) as u32,
        switches: Switches {
            loudness: on & LOUDNESS != 0,
            peak: on & PEAK != 0,
            true_peak: on & TRUE_PEAK != 0,
        },
        coefficients: coefficients_of(case),
        state: State { values: state },
        peaks: Peaks { values: peaks },
        true_peak: true_peak_of(case),
    }
}

fn true_peak_of(case: &[u8]) -> TruePeak {
    let mut memory: [f32; 184] = [0.0; 184];
    let mut peaks: [f32; 8] = [0.0; 8];
    fill(case, 296, 69, &mut memory);
    fill(case, 572, 3, &mut peaks);
    TruePeak { memory, peaks }
}

fn filtered_same(case: &[u8], filtered: Filtered) -> bool {
    let filter = filtered.filter;
    u64::from(base_refusals::codes::number_of(filtered.answer))
        == base_fields::number_at(case, 584, 2)
        && all_same(case, 586, 15, &filter.state.values)
        && all_same(case, 706, 3, &filter.peaks.values)
        && all_same(case, 730, 69, &filter.true_peak.memory)
        && all_same(case, 1006, 3, &filter.true_peak.peaks)
}

// ---- impulses
// Calls of one channel in the same form: one i16 sample and then zeros, at most 1,024 in all. The destination has 1,024 places, and the first of the 16
// is what the last of them holds.
pub(crate) fn impulse_same(case: &[u8]) -> bool {
    let mut dest = [0.5; 1024];
    call_into(case, &mut dest)
        && base_floats::pattern_of(dest[1023]) == base_fields::number_at(case, 1018, 8)
}
