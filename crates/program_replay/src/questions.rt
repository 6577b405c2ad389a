// The cases of questions: the gate, the range and gated energy of a set of up to 4 histories, and the first's relative threshold.
// A case: u16 number of histories; 4 times u16 kind (0 a histogram, 1 a queue), start, maximum, head and held; 8 times u16 bin and u32 count;
// u64 patterns of 24 energies. Then the answers: u16 refusal of the gate (0: none), u64 blocks, u64 pattern of their sum; u16 code of the range, u64 patterns
// of its two energies; u64 patterns of the 24 places to work in, all 0 before; u16 refusal of gated energy, u64 pattern of it; u16 code of the threshold
// (130: a loudness), u64 pattern of it. What is not answered is 0.
use base_refusals::Refusal;
use bins::Count;
use gate::blocks::Totals;
use gate::threshold::Threshold;
use history_queue::Queue;
use history_set::set::{Entry, Histories, Shape};
use range_ranks::spans::Span;

// The codes of an answer that is no two energies, and of a threshold that is a loudness.
const NOTHING: u64 = 128;

const NOT_A_NUMBER: u64 = 129;

const LOUDNESS: u64 = 130;

pub(crate) fn answers_same(case: &[u8]) -> bool {
    let mut counters: [Count; 1000] = [0; 1000];
    let mut energies = [0.0; 24];
    fill_counters(case, &mut counters);
    fill_energies(case, &mut energies);
    let entries = entries_of(case);
    let count = number_at(case, 0).min(entries.len());
    let set = Histories {
        entries: &entries[..count],
        counters: &counters,
        energies: &energies,
    };
    gated_same(case, gate::gate(set))
        && range_same(case, set)
        && energy_same(case, gate::energy::gated_energy(set))
        && threshold_same(case, &counters, &energies)
}

fn number_at(case: &[u8], at: usize) -> usize {
    base_fields::number_at(case, at, 2) as usize
}

// The entry of ten bytes at a place.
fn entry_at(case: &[u8], at: usize) -> Entry {
    if 1000 < at {
        return Entry {
            shape: Shape::Histogram(0),
        };
    }
    let start = number_at(case, at + 2);
    let maximum = number_at(case, at + 4);
    let head = number_at(case, at + 6);
    let held = number_at(case, at + 8);
    if number_at(case, at) == 0 {
        return Entry {
            shape: Shape::Histogram(start),
        };
    }
    Entry {
        shape: Shape::Queue(
            start,
            Queue {
                maximum,
                head,
                held,
            },
        ),
    }
}

// The first four places; those that do not count repeat the first. With all 17 the set has one history more than a set takes.
fn entries_of(case: &[u8]) -> [Entry; 17] {
    let mut entries = [entry_at(case, 2); 17];
    entries[1] = entry_at(case, 12);
    entries[2] = entry_at(case, 22);
    entries[3] = entry_at(case, 32);
    entries
}

fn fill_counters(case: &[u8], counters: &mut [Count]) {
    for at in (42..90).step_by(6) {
        let count = (base_fields::number_at(case, at + 2, 4) % 4294967296) as Count;
        if let Some(counter) = counters.get_mut(number_at(case, at)) {
            *counter = count;
        }
    }
}

fn fill_energies(case: &[u8], energies: &mut [f64; 24]) {
    for (place, energy) in energies.iter_mut().enumerate() {
        *energy = base_floats::float_of(base_fields::number_at(case, 90 + 8 * place, 8));
    }
}

fn gated_same(case: &[u8], gated: Result<Totals, Refusal>) -> bool {
    let refusal = base_fields::number_at(case, 282, 2);
    let blocks = base_fields::number_at(case, 284, 8);
    let sum = base_fields::number_at(case, 292, 8);
    match gated {
        Ok(totals) => {
            refusal == 0 && blocks == totals.count && sum == base_floats::pattern_of(totals.sum)
        }
        Err(refused) => refusal == refused as u64,
    }
}

fn range_same(case: &[u8], set: Histories<'_>) -> bool {
    let mut work = [0.0; 24];
    let range = range::loudness_range(set, &mut work);
    ranged_same(case, range) && work_same(case, &work)
}

// Whether the places to work in have the case's patterns.
fn work_same(case: &[u8], work: &[f64; 24]) -> bool {
    for (place, energy) in work.iter().enumerate() {
        if base_floats::pattern_of(*energy) != base_fields::number_at(case, 318 + 8 * place, 8) {
            return false;
        }
    }
    true
}

fn ranged_same(case: &[u8], range: Span) -> bool {
    let code = base_fields::number_at(case, 300, 2);
    let low = base_fields::number_at(case, 302, 8);
    let high = base_fields::number_at(case, 310, 8);
    match range {
        Span::Found(lower, higher) => {
            code == 0
                && low == base_floats::pattern_of(lower)
                && high == base_floats::pattern_of(higher)
        }
        Span::Nothing => code == NOTHING,
        Span::NotANumber => code == NOT_A_NUMBER,
        Span::Refused(refused) => code == refused as u64,
    }
}

fn energy_same(case: &[u8], energy: Result<f64, Refusal>) -> bool {
    let refusal = base_fields::number_at(case, 510, 2);
    let pattern = base_fields::number_at(case, 512, 8);
    match energy {
        Ok(mean) => refusal == 0 && pattern == base_floats::pattern_of(mean),
        Err(refused) => refusal == refused as u64,
    }
}

fn threshold_same(case: &[u8], counters: &[Count], energies: &[f64]) -> bool {
    let code = base_fields::number_at(case, 520, 2);
    let pattern = base_fields::number_at(case, 522, 8);
    match gate::threshold::relative_threshold(entry_at(case, 2), counters, energies) {
        Ok(Threshold::Energy(energy)) => code == 0 && pattern == base_floats::pattern_of(energy),
        Ok(Threshold::Loudness(loudness)) => code == LOUDNESS
            && pattern == base_floats::pattern_of(loudness),
        Err(refused) => code == refused as u64,
    }
}
