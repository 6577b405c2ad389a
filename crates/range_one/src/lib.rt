// The loudness range of the counters of all bins, one histogram's or several added up: the bins of the two ranks among the blocks that the gate leaves.
#![tactic(auto)]

ghost use Rattle.std.specs.Prelude.{◌≡◌, ◌+◌, ◌-◌, ◌*◌, ◌^◌, ◌≤◌, ℕ, length, map, min, take};
ghost use Rattle.base_refusals.specs.Outcome.{says};
ghost use Rattle.bins.specs.Bin.{bins};
ghost use Rattle.range_ranks.specs.Span.{said};
ghost use Rattle.range_one.specs.Counted.{
  most_in_bin,
  AtMost,
  blocks_in,
  running_from,
  first_past,
  left_in,
  span_at,
  Short,
};

use bins::Count;
use range_ranks::spans::Span;

// So many bins are counted together where the rank lies beyond them.
const GROUP: usize = 20;

// A bin's counter: of 32 bits in a histogram, of 64 where several are added up.
pub trait Counter: Copy {
    // The blocks that it counts.
    ghost counted: { Self → ℕ };

    fn wide(self) -> u64
        ensures { result ≡ counted self };
}

impl Counter for u32 {
    ghost counted = { λ count. count };

    fn wide(self) -> u64 {
        bins::wide(self)
    }
}

impl Counter for u64 {
    ghost counted = { λ count. count };

    fn wide(self) -> u64 {
        self
    }
}

// The counters of all bins. None has more blocks than a bin of 16 histograms.
#[derive(Drop)]
pub struct Bins<'a, C: Counter> {
    pub counters: &'a [C],
    ghost all: { length counters.now ≡ bins },
    ghost few: { AtMost most_in_bin (map C.counted counters.now) },
}

// All bins, and how many blocks they have together.
#[derive(Drop)]
pub struct Blocks<'a, C: Counter> {
    pub bins: Bins<'a, C>,
    pub count: u64,
    ghost together: { count ≡ blocks_in (map C.counted bins.counters.now) },
}

// A bin, and how many blocks stand below it.
#[derive(Clone, Copy)]
struct Place {
    bin: usize,
    before: u64,
}

// How many blocks some bins have. They are so few that no look is needed whether 64 bits hold them.
fn blocks_of_bins<C: Counter>(counters: &[C]) -> u64
    requires { blocks_in (map C.counted counters.now) ≤ bins * most_in_bin }
    ensures { result ≡ blocks_in (map C.counted counters.now) }
{
    let mut blocks: u64 = 0;
    for count in counters {
        blocks += count.wide();
    }
    blocks
}

// How many blocks any counters have, and the most that 64 bits tell where they have more.
pub fn blocks_of<C: Counter>(counters: &[C]) -> u64
    ensures { result ≡ min (blocks_in (map C.counted counters.now)) (2 ^ 64 - 1) }
{
    let mut told: u64 = 0;
    for count in counters {
        told = told.saturating_add(count.wide());
    }
    told
}

impl<'a, C: Counter> Bins<'a, C> {
    // Groups of bins are passed by as long as the rank lies beyond them.
    fn pass_by(&self, from: Place, rank: u64) -> Place
        requires { Short (map C.counted self.now.counters.now) rank from }
        ensures { Short (map C.counted self.now.counters.now) rank result }
    {
        let mut near = from;
        for group in self.counters[from.bin..].chunks_exact(GROUP) {
            let before = near.before + blocks_of_bins(group);
            if rank < before {
                return near;
            }
            near = Place {
                bin: near.bin + group.len(),
                before,
            };
        }
        near
    }

    // The first bin whose running count passes the rank. The running counts stand nowhere, so that they are gone through upward and not by halving.
    fn first_past(&self, from: Place, rank: u64) -> Place
        requires { Short (map C.counted self.now.counters.now) rank from }
        ensures { (result.bin ≡ first_past rank 0 (running_from 0 (map C.counted self.now.counters.now))) × Short (map C.counted self.now.counters.now) rank result }
    {
        let near = self.pass_by(from, rank);
        let mut before = near.before;
        for bin in near.bin..bins::BINS {
            let next = before + self.counters[bin].wide();
            if rank < next {
                return Place { bin, before };
            }
            before = next;
        }
        Place {
            bin: bins::BINS,
            before,
        }
    }

    // How many blocks all bins have.
    pub fn blocks(&self) -> u64
        ensures { result ≡ blocks_in (map C.counted self.now.counters.now) }
    {
        blocks_of_bins(self.counters)
    }
}

impl<'a, C: Counter> Blocks<'a, C> {
    // The energies at the two ranks among the blocks from a bin on. The low rank is not above the high one, whose search goes on from there.
    pub fn ranked(&self, start: usize) -> Span
        ensures { said result ≡ says (left_in (map C.counted self.now.bins.counters.now) (blocks_in (take start (map C.counted self.now.bins.counters.now)))
            (self.now.count - blocks_in (take start (map C.counted self.now.bins.counters.now)))) }
    {
        let bin = start.min(bins::BINS);
        let before = blocks_of_bins(&self.bins.counters[..bin]);
        let left = self.count - before;
        if left == 0 {
            return Span::Nothing;
        }
        let gate = Place { bin, before };
        let low = self
            .bins
            .first_past(gate, range_ranks::low_rank(left - 1) + before);
        let high = self
            .bins
            .first_past(low, range_ranks::high_rank(left - 1) + before);
        range_ranks::spans::of_bins(low.bin, high.bin)
    }
}

// The range of the histogram whose counters start at a place. There is none where 1,000 counters do not stand there.
pub fn of_counters(counters: &[Count], start: usize) -> Span
    ensures { said result ≡ says (span_at counters.now start) }
{
    let started = gate::blocks::started(counters, start, range_ranks::spans::gate_share());
    if started.totals.count == 0 {
        return Span::Nothing;
    }
    let histogram = Bins {
        counters: &counters[start..start + bins::BINS],
    };
    let blocks = Blocks {
        bins: histogram,
        count: started.totals.count,
    };
    blocks.ranked(started.bin)
}

#[cfg(test)]
mod tests {
    use super::*;

    // Counters of either width, no counter, and more blocks than 64 bits tell.
    #[test]
    fn blocks_of_any_counters(rt: HostRuntime) {
        let none: [u32; 0] = [];
        let few: [u32; 3] = [3, 0, u32::MAX];
        let added: [u64; 2] = [u64::MAX - 1, 1];
        let more: [u64; 3] = [1, u64::MAX, 5];
        assert_eq!(rt; blocks_of(&none), 0);
        assert_eq!(rt; blocks_of(&few), 4294967298);
        assert_eq!(rt; blocks_of(&added), u64::MAX);
        assert_eq!(rt; blocks_of(&more), u64::MAX);
    }
}
