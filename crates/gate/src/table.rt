// The energies that stand for the bins, what blocks come to by them, and the bin where a gate starts.
ghost use Rattle.std.specs.Prelude.{◌≡◌, ◌+◌, ◌*◌, ◌≤◌, length};
ghost use Rattle.bins.specs.Bin.{bins};
ghost use Rattle.bins_tables.specs.Tables.{energies as bin_energies};
ghost use Rattle.history_histogram.specs.Histogram.{largest_count};
ghost use Rattle.gate.specs.Totals.{most_blocks, on_top_of, bins_from, from_bin};
ghost use Rattle.gate.specs.Inner.{sum_from, onwards, Steady};
ghost use Rattle.gate.specs.Start.{start_bin};

use crate::blocks::Totals;
use bins::Count;

// So many bins are passed over at once where none of them has a block.
const STRETCH: usize = 20;

// The table, which a question takes once and lends to its loops.
#[derive(Drop)]
pub(crate) struct BinEnergies {
    table: [f64; 1000],
    ghost taken: { table ≡ bin_energies },
}

impl BinEnergies {
    pub(crate) fn new() -> Self {
        BinEnergies {
            table: bins_tables::all_energies(),
        }
    }

    // Where a gate starts in a histogram: the first bin whose energy is not below the threshold. It may be past the last bin.
    pub(crate) fn start(&self, threshold: f64) -> usize
        ensures { result ≡ start_bin threshold }
    {
        self.table.partition_point(|energy| *energy < threshold)
    }

    // The energies of the blocks that bins have, from one upward, on top of a sum.
    // Not put into its callers: there the counters of a stretch would be kept for it while they are counted, one by one and not as vectors.
    #[inline(never)]
    fn add_energies(&self, mut sum: f64, blocks: &[Count], first: usize) -> f64
        requires { first + length blocks.now ≤ bins }
        ensures { result ≡ sum_from sum first blocks.now }
    {
        for (i, count) in blocks.iter().enumerate() {
            sum += (*count as f64) * self.table[first + i];
        }
        sum
    }

    // What bins add to running totals, from one upward: nothing where they have no block.
    fn add_bins(&self, totals: Totals, blocks: &[Count], first: usize) -> Totals
        requires { (first + length blocks.now ≤ bins) × (totals.count ≤ first * largest_count) × Steady totals.sum }
        ensures { (result ≡ bins_from totals first blocks.now) × (result.count ≤ (first + length blocks.now) * largest_count) }
    {
        let count = crate::blocks::count_blocks(blocks);
        if count == 0 {
            return totals;
        }
        Totals {
            count: totals.count + count,
            sum: self.add_energies(totals.sum, blocks, first),
        }
    }

    // The blocks of a histogram from a bin upward, on top of a sum: the rest of its stretch, and the stretches above.
    fn add_counters(&self, sum: f64, counters: &[Count], start: usize) -> Totals
        requires { (length counters.now ≡ bins) × Steady sum }
        ensures { (result ≡ onwards (on_top_of sum) start counters.now) × (result.count ≤ most_blocks) }
    {
        let none = Totals { count: 0, sum };
        if start >= bins::BINS {
            return none;
        }
        let next = start / STRETCH + 1;
        let mut totals = self.add_bins(none, &counters[start..next * STRETCH], start);
        for i in next..bins::BINS / STRETCH {
            let first = i * STRETCH;
            totals = self.add_bins(totals, &counters[first..first + STRETCH], first);
        }
        totals
    }

    // The blocks of the histogram whose counters start at a place, from a bin upward: their number, and their energies on top of a running sum.
    // Where there are not 1,000 counters from that place on, there is no block.
    pub(crate) fn from_bin(&self, sum: f64, counters: &[Count], start: usize, bin: usize) -> Totals
        requires { Steady sum }
        ensures { (result ≡ from_bin sum counters.now start bin) × (result.count ≤ most_blocks) }
    {
        match crate::blocks::counters_at(counters, start) {
            Some(counters) => self.add_counters(sum, counters, bin),
            None => Totals { count: 0, sum },
        }
    }
}
