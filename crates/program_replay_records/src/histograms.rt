// The cases of kinds 1 and 257: records read into counters, and counters written.
// A histogram or a record is told by what is not 0 in it: 16 times u16 bin and u32 count, or 64 times u16 place and u8 byte.
use crate::{after, count_at};
use base_refusals::{Answer, Refusal};
use bins::Count;
use record_layout::{Kind, Model};

// What stands in every counter and in every byte of an output before a call.
const COUNTER: Count = 0xA5A5_A5A5;

const BYTE: u8 = 0x5A;

// ---- what a case tells
fn fill_counters(case: &[u8], from: usize, counters: &mut [Count]) {
    for told in after(case, from).chunks(6).take(16) {
        let count = Count::try_from(base_fields::number_at(told, 2, 4)).unwrap_or(0);
        if let Some(counter) = counters.get_mut(count_at(told, 0)) {
            *counter = count;
        }
    }
}

pub(crate) fn fill_bytes(case: &[u8], from: usize, bytes: &mut [u8]) {
    for told in after(case, from).chunks(3).take(64) {
        let byte = told.get(2).copied().unwrap_or(0);
        if let Some(place) = bytes.get_mut(count_at(told, 0)) {
            *place = byte;
        }
    }
}

// Whether the first places are as told, 0 where nothing is told of one, and those past what was written as they were before.
pub(crate) fn as_told<T: Copy + PartialEq>(
    now: &[T],
    written: usize,
    told: &[T],
    zero: T,
    before: T,
) -> bool {
    for (place, value) in now.iter().enumerate() {
        let expected = if place < written {
            told.get(place).copied().unwrap_or(zero)
        } else {
            before
        };
        if *value != expected {
            return false;
        }
    }
    true
}

// Whether the kind asked for is the third model's.
fn third(case: &[u8]) -> bool {
    record_layout::kind_of(base_fields::number_at(case, 0, 2))
        == Some(Kind::Histogram(Model::Third))
}

// ---- reads
// u16 kind asked for, u16 number of bytes given, u16 counters of the store, u16 refusal (0: none); the bytes; the counters afterwards.
pub(crate) fn read_same(case: &[u8]) -> bool {
    let mut bytes = program_io::buffer();
    let mut counters = [COUNTER; 1001];
    fill_bytes(case, 8, &mut bytes);
    read_part(case, &bytes, &mut counters)
}

// The bytes and counters that the case has.
fn read_part(case: &[u8], bytes: &[u8], counters: &mut [Count]) -> bool {
    let Some(bytes) = bytes.get(..count_at(case, 2)) else {
        return false;
    };
    match counters.get_mut(..count_at(case, 4)) {
        Some(part) => {
            crate::answer_same(case, 6, read_kind(case, bytes, part)) && counters_same(case, part)
        }
        None => false,
    }
}

fn read_kind(case: &[u8], bytes: &[u8], counters: &mut [Count]) -> Answer {
    if third(case) {
        return record_histogram::reader::read_third_histogram(bytes, counters);
    }
    record_histogram::reader::read_histogram(bytes, counters)
}

// A refusal leaves every counter as it was.
fn counters_same(case: &[u8], counters: &[Count]) -> bool {
    let mut told: [Count; bins::BINS] = [0; bins::BINS];
    fill_counters(case, 200, &mut told);
    let read = if count_at(case, 6) == 0 {
        counters.len()
    } else {
        0
    };
    as_told(counters, read, &told, 0, COUNTER)
}

// ---- writes
// u16 kind asked for, u16 places of the output, u16 counters of the store, u16 refusal, u16 bytes written; the counters; the bytes written.
pub(crate) fn write_same(case: &[u8]) -> bool {
    let mut counters: [Count; 1001] = [0; 1001];
    let mut out = [BYTE; 4096];
    fill_counters(case, 10, &mut counters);
    write_part(case, &counters, &mut out) && output_same(case, 106, &out)
}

// The counters and places that the case has.
fn write_part(case: &[u8], counters: &[Count], out: &mut [u8]) -> bool {
    let Some(counters) = counters.get(..count_at(case, 4)) else {
        return false;
    };
    match out.get_mut(..count_at(case, 2)) {
        Some(part) => crate::written_same(case, 6, 8, write_kind(case, counters, part)),
        None => false,
    }
}

fn write_kind(case: &[u8], counters: &[Count], out: &mut [u8]) -> Result<usize, Refusal> {
    if third(case) {
        return record_histogram::writer::write_third_histogram(counters, out);
    }
    record_histogram::writer::write_histogram(counters, out)
}

// The number of bytes written stands at place 8 of the case, what is told of them from `from` on. A byte past what is written stays as it was.
pub(crate) fn output_same(case: &[u8], from: usize, out: &[u8]) -> bool {
    let mut told = program_io::buffer();
    fill_bytes(case, from, &mut told);
    as_told(out, count_at(case, 8), &told, 0, BYTE)
}
