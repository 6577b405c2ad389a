// The blocks of a histogram from a bin upward, how many they are and the sum of their energies, and the bin where a gate starts.
ghost use Rattle.std.specs.Prelude.{◌≡◌, ◌+◌, ◌*◌, ◌<◌, ◌≤◌, length, MatchOption};
ghost use Rattle.std.specs.Float.{binary64};
ghost use Rattle.std.specs.Float.Ieee.{mul};
ghost use Rattle.bins.specs.Bin.{bins};
ghost use Rattle.history_histogram.specs.Histogram.{largest_count};
ghost use Rattle.history_set.specs.Set.{counters_at};
ghost use Rattle.gate.specs.Totals.{most_blocks, none, mean_of, blocks_in, from_bin};
ghost use Rattle.gate.specs.Start.{start_bin};

use crate::table::BinEnergies;
use bins::Count;

// A running count of blocks and the sum of their energies.
#[derive(Clone, Copy)]
pub struct Totals {
    pub count: u64,
    pub sum: f64,
}

impl Totals {
    // The mean energy of the blocks.
    pub(crate) fn mean(self) -> f64
        ensures { result ≡ mean_of self }
    {
        self.sum / std::num::nearest_u64_to_f64(self.count)
    }
}

// How many blocks bins have.
pub(crate) fn count_blocks(blocks: &[Count]) -> u64
    requires { length blocks.now ≤ bins }
    ensures { (result ≡ blocks_in blocks.now) × (result ≤ length blocks.now * largest_count) }
{
    let mut all: u64 = 0;
    for count in blocks {
        all += bins::wide(*count);
    }
    all
}

// The counters of the histogram that starts at a place, if there are as many.
pub(crate) fn counters_at(counters: &[Count], start: usize) -> Option<&[Count]>
    ensures { MatchOption result (length counters.now < start + bins)
        (λ at. (start + bins ≤ length counters.now) × (at.now ≡ counters_at counters.now start)) }
{
    counters.get(start..)?.get(..bins::BINS)
}

// Where a gate starts in a histogram, by a table of its own.
pub fn start_bin(threshold: f64) -> usize
    ensures { result ≡ start_bin threshold }
{
    BinEnergies::new().start(threshold)
}

// The blocks of a histogram, and the bin where a gate starts.
#[derive(Clone, Copy)]
pub struct Start {
    pub totals: Totals,
    pub bin: usize,
}

// All blocks of the histogram whose counters start at a place, and the bin where a gate starts that is this share of their mean energy.
pub fn started(counters: &[Count], start: usize, share: f64) -> Start
    ensures { (result.totals ≡ from_bin none.sum counters.now start 0) × (result.totals.count ≤ most_blocks)
        × (result.bin ≡ start_bin (mul binary64 share (mean_of result.totals))) }
{
    let energies = BinEnergies::new();
    let totals = energies.from_bin(0.0, counters, start, 0);
    Start {
        totals,
        bin: energies.start(share * totals.mean()),
    }
}
