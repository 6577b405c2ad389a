// The loudness range over the histograms of a set: their counters added bin by bin, and the bins of the two ranks among the blocks that the gate leaves.
#![tactic(auto)]

ghost use Rattle.std.specs.Prelude.{◌≡◌, [], ℕ, ◌+◌, ◌-◌, ◌*◌, ◌≤◌, pos, length, take};
ghost use Rattle.std.specs.Float.{binary64};
ghost use Rattle.std.specs.Float.Ieee.{of_int};
ghost use Rattle.base_refusals.specs.Outcome.{says, said_by};
ghost use Rattle.bins.specs.Bin.{bins};
ghost use Rattle.history_histogram.specs.Histogram.{largest_count, empty, sums};
ghost use Rattle.history_set.specs.Lent.{lent};
ghost use Rattle.history_set.specs.Set.{most_histories, counters_end, counters_inside, shows, all_show};
ghost use Rattle.gate.specs.Totals.{none, bins_from};
ghost use Rattle.range_ranks.specs.Span.{said};
ghost use Rattle.range_histograms.specs.Counted.{most_in_bin, AtMost, with_history, added_to, counted_span, histogram_range};

use bins::Count;
use gate::blocks::Totals;
use history_set::set::{Entry, Histories, Shape};
use range_one::{Bins, Blocks};
use range_ranks::spans::Span;

// A histogram's counters are added, bin by bin.
fn add_counters(added: &mut [u64; bins::BINS], counters: &[Count])
    requires { (length counters.now ≡ bins) × AtMost (15 * largest_count) added.old }
    ensures { added.new ≡ sums added.old counters.now }
{
    for (bin, sum) in added.iter_mut().enumerate() {
        *sum += bins::wide(counters[bin]);
    }
}

// The counters of a history are added, where it is a histogram.
fn add_history(added: &mut [u64; bins::BINS], entry: Entry, counters: &[Count])
    requires { (counters_end entry.shape ≤ length counters.now) × AtMost (15 * largest_count) added.old }
    ensures { (added.new ≡ with_history added.old (shows counters.now [] entry))
        × ((most : ℕ) → AtMost most added.old → AtMost (most + largest_count) added.new) }
{
    if let Shape::Histogram(start) = entry.shape {
        add_counters(added, &counters[start..start + bins::BINS]);
    }
}

// The blocks of a bin as a float, by way of a signed number: x86-64 has no conversion of unsigned numbers of 64 bits.
fn float(blocks: u64) -> f64
    requires { blocks ≤ most_in_bin }
    ensures { result ≡ of_int binary64 (pos blocks) }
{
    (blocks as i64) as f64
}

// The blocks of all bins and the sum of their energies, bins upward.
fn sum_up(added: &Bins<'_, u64>) -> Totals
    ensures { result ≡ bins_from none 0 added.now.counters.now }
{
    let energies = bins_tables::all_energies();
    let mut count = 0;
    let mut sum = 0.0;
    for (bin, blocks) in added.counters.iter().enumerate() {
        sum = sum + float(*blocks) * energies[bin];
        count += *blocks;
    }
    Totals { count, sum }
}

// The range of added counters.
fn span_of(added: Bins<'_, u64>) -> Span
    ensures { said result ≡ says (counted_span added.entry.counters.now) }
{
    let totals = sum_up(&added);
    if totals.count == 0 {
        return Span::Nothing;
    }
    let start = gate::blocks::start_bin(range_ranks::spans::gate_energy(totals));
    let blocks = Blocks {
        bins: added,
        count: totals.count,
    };
    blocks.ranked(start)
}

// The range of a single history, to which nothing is added.
fn alone(entry: Entry, counters: &[Count]) -> Span
    requires { counters_end entry.shape ≤ length counters.now }
    ensures { said result ≡ says (counted_span (with_history empty (shows counters.now [] entry))) }
{
    match entry.shape {
        Shape::Histogram(start) => range_one::of_counters(counters, start),
        Shape::Queue(_, _) => Span::Nothing,
    }
}

// The range of several, their counters added up. Not put into its caller: the room for the sums, 8 KB of stack, is for what one history does not need.
#[inline(never)]
fn together(entries: &[Entry], counters: &[Count]) -> Span
    requires { (length entries.now ≤ most_histories) × counters_inside (length counters.now) entries.now }
    ensures { said result ≡ says (counted_span (added_to empty (all_show counters.now [] entries.now))) }
{
    let mut added = [0; bins::BINS];
    for entry in entries {
        add_history(&mut added, *entry, counters);
    }
    span_of(Bins { counters: &added })
}

// The range over the histograms of a set. Its queues play no part.
pub fn of_histograms(set: Histories<'_>) -> Span
    ensures { said result ≡ said_by (histogram_range (lent set.entry)) }
{
    if let Err(refusal) = set.check() {
        return Span::Refused(refusal);
    }
    if let [entry] = set.entries {
        return alone(*entry, set.counters);
    }
    together(set.entries, set.counters)
}
