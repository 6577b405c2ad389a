// Replays the oracle's answers on bins, readings and questions, kept as a list on standard input, and prints for each operation how many are the same.
// The list has the form that `program_sections` says.
#![tactic(auto)]

mod questions;

use program_sections::Replayed;
use std::io;

// The operations by their numbers in the list. They are matched once, below: an enum would be made for that match alone.
const TABLES: u64 = 1;

const BINS: u64 = 2;

const READINGS: u64 = 3;

const QUESTIONS: u64 = 7;

fn main(rt: HostRuntime) -> io::Result<()> {
    program_sections::replay(&rt, &mut rt.stdin(), &Ours)?;
    Ok(())
}

// Our own answers, by the operations.
struct Ours;

impl Replayed for Ours {
    fn same(&self, operation: u64, case: &[u8]) -> bool {
        match operation {
            TABLES => table_same(case),
            BINS => bin_same(case),
            READINGS => reading_same(case),
            QUESTIONS => questions::answers_same(case),
            _ => false,
        }
    }
}

// u16 table (0 boundaries, 1 energies), u16 place, u64 pattern
fn table_same(case: &[u8]) -> bool {
    let place = base_fields::number_at(case, 2, 2) as usize;
    let entry = if base_fields::number_at(case, 0, 2) == 0 {
        bins::boundary(place)
    } else {
        bins::energy(place)
    };
    base_floats::pattern_of(entry) == base_fields::number_at(case, 4, 8)
}

// u64 pattern of the energy, u16 bin
fn bin_same(case: &[u8]) -> bool {
    let energy = base_floats::float_of(base_fields::number_at(case, 0, 8));
    bins::search::find_histogram_index(energy) as u64 == base_fields::number_at(case, 8, 2)
}

// u64 pattern of the energy, u16 refusal (0 where there is none), u16 tenths above -700
fn reading_same(case: &[u8]) -> bool {
    let energy = base_floats::float_of(base_fields::number_at(case, 0, 8));
    let refusal = base_fields::number_at(case, 8, 2);
    let above = base_fields::number_at(case, 10, 2);
    match bins::search::reading(energy) {
        Ok(tenths) => refusal == 0 && tenths == from_lowest(above),
        Err(refused) => refusal == refused as u64,
    }
}

// A tenth that is not on the scale stands for none of our answers.
fn from_lowest(above: u64) -> i32 {
    if 1000 < above {
        return 1000;
    }
    -700 + above as i32
}
