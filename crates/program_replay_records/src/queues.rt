// The cases of kinds 2 and 258: records read into a queue's store, and queues written.
use crate::{after, count_at};
use base_refusals::Refusal;
use history_queue::Queue;
use record_layout::{Kind, Model};

// Whether the kind asked for, which stands at a place of the case, is the third model's.
fn third(case: &[u8], at: usize) -> bool {
    record_layout::kind_of(base_fields::number_at(case, at, 2)) == Some(Kind::Queue(Model::Third))
}

// ---- reads
// The 96 bytes that the record is the first part of; u16 kind asked for, u16 number of bytes given, u16 places of the store, u16 refusal (0: none), u16
// maximum, u16 held; u64 patterns of the 10 places that the store is the first part of, afterwards. Before, each place holds 0.5.
pub(crate) fn read_same(case: &[u8]) -> bool {
    let mut store = [0.5; 10];
    read_part(case, &mut store) && store_same(case, &store)
}

// The bytes and places that the case has.
fn read_part(case: &[u8], store: &mut [f64]) -> bool {
    let Some(bytes) = case.get(..count_at(case, 98)) else {
        return false;
    };
    match store.get_mut(..count_at(case, 100)) {
        Some(part) => queue_same(case, read_kind(case, bytes, part)),
        None => false,
    }
}

fn read_kind(case: &[u8], bytes: &[u8], store: &mut [f64]) -> Result<Queue, Refusal> {
    if third(case, 96) {
        return record_queue_reader::read_third_queue(bytes, store);
    }
    record_queue_reader::read_queue(bytes, store)
}

// Whether a reader answered the refusal, or the queue, that the case has.
fn queue_same(case: &[u8], read: Result<Queue, Refusal>) -> bool {
    match read {
        Ok(queue) => {
            count_at(case, 102) == 0
                && queue.maximum == count_at(case, 104)
                && queue.head == 0
                && queue.held == count_at(case, 106)
        }
        Err(refused) => base_fields::number_at(case, 102, 2) == refused as u64,
    }
}

fn store_same(case: &[u8], store: &[f64]) -> bool {
    store.iter().zip(after(case, 108).chunks(8)).all(|(energy, pattern)| {
        base_floats::pattern_of(*energy) == base_fields::number_at(pattern, 0, 8)
    })
}

// ---- writes
// u16 kind asked for, u16 maximum, head and held, u16 places of the store, u16 places of the output, u16 refusal, u16 bytes written; u64 patterns of the 10
// places that the store is the first part of; the 96 bytes that the output is the first part of, afterwards. Before, each byte is 5A hex.
pub(crate) fn write_same(case: &[u8]) -> bool {
    let mut store = [0.0; 10];
    let mut out = [0x5Au8; 96];
    fill_store(case, &mut store);
    write_part(case, &store, &mut out) && output_same(case, 96, &out)
}

fn fill_store(case: &[u8], store: &mut [f64]) {
    for (energy, pattern) in store.iter_mut().zip(after(case, 16).chunks(8)) {
        *energy = base_floats::float_of(base_fields::number_at(pattern, 0, 8));
    }
}

// The places that the case has.
fn write_part(case: &[u8], store: &[f64], out: &mut [u8]) -> bool {
    let Some(store) = store.get(..count_at(case, 8)) else {
        return false;
    };
    match out.get_mut(..count_at(case, 10)) {
        Some(part) => crate::written_same(case, 12, 14, write_kind(case, store, part)),
        None => false,
    }
}

fn write_kind(case: &[u8], store: &[f64], out: &mut [u8]) -> Result<usize, Refusal> {
    let queue = Queue {
        maximum: count_at(case, 2),
        head: count_at(case, 4),
        held: count_at(case, 6),
    };
    if third(case, 0) {
        return record_queue_writer::write_third_queue(queue, store, out);
    }
    record_queue_writer::write_queue(queue, store, out)
}

// Whether the output is as the case has it from `from` on.
pub(crate) fn output_same(case: &[u8], from: usize, out: &[u8]) -> bool {
    crate::histograms::as_told(out, out.len(), after(case, from), 0, 0)
}
