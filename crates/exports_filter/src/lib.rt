// The functions of the C interface of the filter; exports_filter_c has them for C, as include/xelamphoun.h declares them.
#![tactic(auto)]

ghost use Rattle.std.specs.Prelude.{◌≡◌};
ghost use Rattle.samples.specs.Kinds.{i16s, f32s};
ghost use Rattle.base_refusals.specs.Codes.{code};
ghost use Rattle.filter.specs.Filter.{no_peaks, resting, with_arrays};
ghost use Rattle.filter.specs.Call.{Call, seed_of, standing, kept};
ghost use Rattle.filter.specs.Process.{processed};
ghost use Rattle.filter.specs.Seed.{seeded};
ghost use Rattle.exports_filter.specs.Switches.{switches_of};

use base_refusals::codes::number_of;
use filter::Switches;

fn switches_of(on: u8) -> Switches
    ensures { result ≡ switches_of on }
{
    Switches {
        loudness: on % 2 == 1,
        peak: on / 2 % 2 == 1,
        true_peak: on / 4 % 2 == 1,
    }
}

pub fn xel_process_i16(
    channels: usize,
    rate: u32,
    on: u8,
    a: &[f64; 5],
    b: &[f64; 5],
    state: &mut [f64; 40],
    peaks: &mut [f64; 8],
    memory: &mut [f32; 184],
    true_peaks: &mut [f32; 8],
    data: &[i16],
    map: &[u8],
    dest: &mut [f64],
    start: usize,
) -> u8
    ensures { (let rest = resting channels rate (switches_of on) (record { a = a.now; b = b.now }) in
        let filter = with_arrays rest (record { state = state.old; peaks = peaks.old; memory = memory.old; true_peaks = true_peaks.old }) in
        let left = standing rest (record { state = state.new; peaks = peaks.new; memory = memory.new; true_peaks = true_peaks.new }) dest.new in
        let call : Call = record { filter = filter; samples = i16s «data».now; map = map.now; dest = dest.old; start = start } in
        (result ≡ code (processed call)) × (left ≡ kept processed call)) }
{
    let answer = filter_process::process_lent(
        channels,
        rate,
        switches_of(on),
        a,
        b,
        state,
        peaks,
        memory,
        true_peaks,
        data,
        map,
        dest,
        start,
    );
    number_of(answer)
}

pub fn xel_process_f32(
    channels: usize,
    rate: u32,
    on: u8,
    a: &[f64; 5],
    b: &[f64; 5],
    state: &mut [f64; 40],
    peaks: &mut [f64; 8],
    memory: &mut [f32; 184],
    true_peaks: &mut [f32; 8],
    data: &[f32],
    map: &[u8],
    dest: &mut [f64],
    start: usize,
) -> u8
    ensures { (let rest = resting channels rate (switches_of on) (record { a = a.now; b = b.now }) in
        let filter = with_arrays rest (record { state = state.old; peaks = peaks.old; memory = memory.old; true_peaks = true_peaks.old }) in
        let left = standing rest (record { state = state.new; peaks = peaks.new; memory = memory.new; true_peaks = true_peaks.new }) dest.new in
        let call : Call = record { filter = filter; samples = f32s «data».now; map = map.now; dest = dest.old; start = start } in
        (result ≡ code (processed call)) × (left ≡ kept processed call)) }
{
    let answer = filter_process::process_lent(
        channels,
        rate,
        switches_of(on),
        a,
        b,
        state,
        peaks,
        memory,
        true_peaks,
        data,
        map,
        dest,
        start,
    );
    number_of(answer)
}

// A seed call looks at no output coefficient and at no peak.
pub fn xel_seed_i16(
    channels: usize,
    rate: u32,
    on: u8,
    a: &[f64; 5],
    state: &mut [f64; 40],
    memory: &mut [f32; 184],
    data: &[i16],
    map: &[u8],
) -> u8
    ensures { let rest = resting channels rate (switches_of on) (record { a = a.now; b = a.now }) in
        let filter = with_arrays rest (record { state = state.old; peaks = no_peaks; memory = memory.old; true_peaks = no_peaks }) in
        let left = with_arrays rest (record { state = state.new; peaks = no_peaks; memory = memory.new; true_peaks = no_peaks }) in
        let call = seed_of filter (i16s «data».now) map.now in
        (result ≡ code (seeded call)) × (left ≡ (kept seeded call).filter) }
{
    let no_peaks: [f64; 8] = [0.0; 8];
    let no_true_peaks: [f32; 8] = [0.0; 8];
    let answer = filter_seed::seed_lent(
        channels,
        rate,
        switches_of(on),
        a,
        a,
        state,
        &no_peaks,
        memory,
        &no_true_peaks,
        data,
        map,
    );
    number_of(answer)
}

pub fn xel_seed_f32(
    channels: usize,
    rate: u32,
    on: u8,
    a: &[f64; 5],
    state: &mut [f64; 40],
    memory: &mut [f32; 184],
    data: &[f32],
    map: &[u8],
) -> u8
    ensures { let rest = resting channels rate (switches_of on) (record { a = a.now; b = a.now }) in
        let filter = with_arrays rest (record { state = state.old; peaks = no_peaks; memory = memory.old; true_peaks = no_peaks }) in
        let left = with_arrays rest (record { state = state.new; peaks = no_peaks; memory = memory.new; true_peaks = no_peaks }) in
        let call = seed_of filter (f32s «data».now) map.now in
        (result ≡ code (seeded call)) × (left ≡ (kept seeded call).filter) }
{
    let no_peaks: [f64; 8] = [0.0; 8];
    let no_true_peaks: [f32; 8] = [0.0; 8];
    let answer = filter_seed::seed_lent(
        channels,
        rate,
        switches_of(on),
        a,
        a,
        state,
        &no_peaks,
        memory,
        &no_true_peaks,
        data,
        map,
    );
    number_of(answer)
}
