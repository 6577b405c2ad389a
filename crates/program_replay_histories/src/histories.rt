// The cases of histories: adds to a histogram, merges of two, adds to a queue.
use bins::Count;
use history_queue::Queue;
use history_queue::adding::Queued;

// The bytes of a case from a place on, and none past its end.
fn after(case: &[u8], place: usize) -> &[u8] {
    &case[place.min(case.len())..]
}

// A bin past the last has no count.
fn count_at(counters: &[Count], bin: usize) -> u64 {
    counters.get(bin).map_or(0, |count| bins::wide(*count))
}

// ---- adds to a histogram
// 64 times u64 pattern of an energy, u16 its bin, u16 the count there afterwards; then u16 how many bins have a count.
// An energy that is dropped has a bin past the last, with count 0.
pub(crate) fn adds_same(case: &[u8]) -> bool {
    let mut counters: [Count; bins::BINS] = [0; bins::BINS];
    all_added(case, &mut counters) && bins_hit(&counters) == base_fields::number_at(case, 768, 2)
}

fn all_added(case: &[u8], counters: &mut [Count]) -> bool {
    for add in case.chunks(12).take(64) {
        if !added(counters, add) {
            return false;
        }
    }
    true
}

// Whether the energy is counted, and its bin has the count afterwards.
fn added(counters: &mut [Count], add: &[u8]) -> bool {
    let energy = base_floats::float_of(base_fields::number_at(add, 0, 8));
    let bin = base_fields::number_at(add, 8, 2) as usize;
    history_histogram::add(counters, energy).is_ok()
        && count_at(counters, bin) == base_fields::number_at(add, 10, 2)
}

fn bins_hit(counters: &[Count]) -> u64 {
    counters.iter().filter(|count| **count != 0).count() as u64
}

// ---- merges
// u16 refusal (0: merged), u16 how many counters are added; then 16 times u16 bin, u32 its count in one histogram, in the other, and in the first afterwards.
pub(crate) fn merge_same(case: &[u8]) -> bool {
    let mut into: [Count; bins::BINS] = [0; bins::BINS];
    let mut from: [Count; bins::BINS] = [0; bins::BINS];
    fill(case, 2, &mut into);
    fill(case, 6, &mut from);
    merged(case, &mut into, &from) && all_counted(case, &into)
}

fn merged(case: &[u8], into: &mut [Count], from: &[Count]) -> bool {
    match from.get(..base_fields::number_at(case, 2, 2) as usize) {
        Some(part) => {
            let answer = history_histogram::merging::merge(into, part);
            base_refusals::codes::number_of(answer) as u64 == base_fields::number_at(case, 0, 2)
        }
        None => false,
    }
}

// Every bin of the case gets the count that stands at this place of its 14 bytes. A number that is no count stands for none.
fn fill(case: &[u8], at: usize, counters: &mut [Count]) {
    for bin in after(case, 4).chunks(14).take(16) {
        let count = Count::try_from(base_fields::number_at(bin, at, 4)).unwrap_or(0);
        if let Some(counter) = counters.get_mut(base_fields::number_at(bin, 0, 2) as usize) {
            *counter = count;
        }
    }
}

fn all_counted(case: &[u8], counters: &[Count]) -> bool {
    after(case, 4).chunks(14).take(16).all(|bin| {
        count_at(counters, base_fields::number_at(bin, 0, 2) as usize)
            == base_fields::number_at(bin, 10, 4)
    })
}

// ---- adds to a queue
// u16 maximum, u16 places of the store, at most 8 and all 0, u16 head, u16 held; then 12 times u64 pattern of an energy, u16 refusal, u16 head and u16 held afterwards;
// then the 8 patterns of the store.
pub(crate) fn queue_same(case: &[u8]) -> bool {
    let mut store = [0.0; 8];
    part_queued(case, &mut store) && patterns_same(after(case, 176), &store)
}

fn part_queued(case: &[u8], store: &mut [f64]) -> bool {
    match store.get_mut(..base_fields::number_at(case, 2, 2) as usize) {
        Some(part) => all_queued(case, part),
        None => false,
    }
}

fn all_queued(case: &[u8], store: &mut [f64]) -> bool {
    let mut queue = Queue {
        maximum: base_fields::number_at(case, 0, 2) as usize,
        head: base_fields::number_at(case, 4, 2) as usize,
        held: base_fields::number_at(case, 6, 2) as usize,
    };
    for add in after(case, 8).chunks(14).take(12) {
        let energy = base_floats::float_of(base_fields::number_at(add, 0, 8));
        let queued = history_queue::adding::add(queue, store, energy);
        if !queued_same(add, queued) {
            return false;
        }
        queue = queued.queue;
    }
    true
}

// Whether the answer to the energy, and the queue afterwards, are the case's.
fn queued_same(add: &[u8], queued: Queued) -> bool {
    base_refusals::codes::number_of(queued.answer) as u64 == base_fields::number_at(add, 8, 2)
        && queued.queue.head as u64 == base_fields::number_at(add, 10, 2)
        && queued.queue.held as u64 == base_fields::number_at(add, 12, 2)
}

// Whether the floats have these patterns.
fn patterns_same(patterns: &[u8], values: &[f64]) -> bool {
    values.iter().zip(patterns.chunks(8)).all(|(value, pattern)| {
        base_floats::pattern_of(*value) == base_fields::number_at(pattern, 0, 8)
    })
}
