// Replays the oracle's answers on histories, kept as a list on standard input, and prints for each operation how many are the same.
// The list has the form that `program_sections` says.
#![tactic(auto)]

mod histories;

use program_sections::Replayed;
use std::io;

// The operations by their numbers in the list. They are matched once, below: an enum would be made for that match alone.
const HISTOGRAM_ADDS: u64 = 4;

const MERGES: u64 = 5;

const QUEUE_ADDS: u64 = 6;

fn main(rt: HostRuntime) -> io::Result<()> {
    program_sections::replay(&rt, &mut rt.stdin(), &Ours)?;
    Ok(())
}

// Our own answers, by the operations.
struct Ours;

impl Replayed for Ours {
    fn same(&self, operation: u64, case: &[u8]) -> bool {
        match operation {
            HISTOGRAM_ADDS => histories::adds_same(case),
            MERGES => histories::merge_same(case),
            QUEUE_ADDS => histories::queue_same(case),
            _ => false,
        }
    }
}
