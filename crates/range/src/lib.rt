// The loudness range over a set of histories: over its histograms or over its queues, which may not be mixed.
#![tactic(auto)]

ghost use Rattle.std.specs.Prelude.{◌≡◌, List, ℕ, Float};
ghost use Rattle.base_refusals.specs.Outcome.{said_by, kept_by};
ghost use Rattle.history_set.specs.Lent.{lent};
ghost use Rattle.history_set.specs.Set.{all_show};
ghost use Rattle.range_ranks.specs.Span.{said};
ghost use Rattle.range.specs.Range.{queues_in, range_of};

use base_refusals::Refusal;
use history_set::set::{Entry, Histories, Shape};
use range_ranks::spans::Span;

// How many of the entries are queues.
fn queues_in(entries: &[Entry]) -> usize
    ensures { (counters : List ℕ) (energies : List Float) → result ≡ queues_in (all_show counters energies entries.now) }
{
    let mut queues = 0;
    for entry in entries {
        if let Shape::Queue(_, _) = entry.shape {
            queues += 1;
        }
    }
    queues
}

// The range over a set of histories. One over queues orders their energies in the work slice.
pub fn loudness_range(set: Histories<'_>, work: &mut [f64]) -> Span
    ensures { (said result ≡ said_by (range_of (lent set.entry) work.old))
        × (work.new ≡ kept_by work.old (range_of (lent set.entry) work.old)) }
{
    let queues = queues_in(set.entries);
    let only_histograms = queues == 0;
    let only_queues = queues == set.entries.len();
    if only_histograms {
        return range_histograms::of_histograms(set);
    }
    if only_queues {
        return range_queues::of_queues(set, work);
    }
    match set.check() {
        Err(refusal) => Span::Refused(refusal),
        Ok(()) => Span::Refused(Refusal::MODE),
    }
}
