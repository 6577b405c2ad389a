// Replays the oracle's answers on the filter, kept as a list on standard input, and prints for each operation how many are the same.
// The list has the form that `program_sections` says.
#![tactic(auto)]

mod filters;

use program_sections::Replayed;
use std::io;

// The operations by their numbers in the list. They are matched once, below: an enum would be made for that match alone.
const PHASES: u64 = 8;

const FILTER_CALLS: u64 = 9;

const IMPULSES: u64 = 10;

fn main(rt: HostRuntime) -> io::Result<()> {
    program_sections::replay(&rt, &mut rt.stdin(), &Ours)?;
    Ok(())
}

// Our own answers, by the operations.
struct Ours;

impl Replayed for Ours {
    fn same(&self, operation: u64, case: &[u8]) -> bool {
        match operation {
            PHASES => filters::phases_same(case),
            FILTER_CALLS => filters::call_same(case),
            IMPULSES => filters::impulse_same(case),
            _ => false,
        }
    }
}
