// Replays the answers of a reader, writer and conversion of records from the words of document 01 and change request 3 alone, kept as a list on standard
// input, and prints for each operation how many are the same. The list has the form that `program_sections` says.
#![tactic(auto)]

mod conversions;
mod histograms;
mod queues;

use base_refusals::{Answer, Refusal};
use program_sections::Replayed;
use std::io;

// The operations by their numbers in the list. They are matched once, below: an enum would be made for that match alone.
const HISTOGRAM_READS: u64 = 11;

const HISTOGRAM_WRITES: u64 = 12;

const QUEUE_READS: u64 = 13;

const QUEUE_WRITES: u64 = 14;

const HISTOGRAM_CONVERTS: u64 = 15;

const QUEUE_CONVERTS: u64 = 16;

fn main(rt: HostRuntime) -> io::Result<()> {
    program_sections::replay(&rt, &mut rt.stdin(), &Ours)?;
    Ok(())
}

// Our own answers, by the operations.
struct Ours;

impl Replayed for Ours {
    fn same(&self, operation: u64, case: &[u8]) -> bool {
        match operation {
            HISTOGRAM_READS => histograms::read_same(case),
            HISTOGRAM_WRITES => histograms::write_same(case),
            QUEUE_READS => queues::read_same(case),
            QUEUE_WRITES => queues::write_same(case),
            HISTOGRAM_CONVERTS => conversions::histogram_same(case),
            QUEUE_CONVERTS => conversions::queue_same(case),
            _ => false,
        }
    }
}

// The bytes of a case from a place on, and none past its end.
fn after(case: &[u8], place: usize) -> &[u8] {
    &case[place.min(case.len())..]
}

fn count_at(case: &[u8], at: usize) -> usize {
    base_fields::number_at(case, at, 2) as usize
}

// Whether a reader answered the refusal that stands at a place of the case.
fn answer_same(case: &[u8], refusal_at: usize, answer: Answer) -> bool {
    base_refusals::codes::number_of(answer) as u64 == base_fields::number_at(case, refusal_at, 2)
}

// Whether a writer answered the refusal and the number of bytes that stand at two places of the case.
fn written_same(
    case: &[u8],
    refusal_at: usize,
    bytes_at: usize,
    written: Result<usize, Refusal>,
) -> bool {
    let refusal = base_fields::number_at(case, refusal_at, 2);
    match written {
        Ok(bytes) => refusal == 0 && bytes == count_at(case, bytes_at),
        Err(refused) => refusal == refused as u64,
    }
}
