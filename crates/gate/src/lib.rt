// The relative gate over a set of histories: the blocks at or above it and the sum of their energies.
// A question takes the bins' energies once, and lends them to all that it asks.
#![tactic(auto)]

ghost use Rattle.std.specs.Prelude.{◌≡◌, ◌≤◌, true, false, length};
ghost use Rattle.base_refusals.specs.Answer.{said};
ghost use Rattle.base_refusals.specs.Outcome.{said_by};
ghost use Rattle.base_refusals.specs.Rows.{number_of};
ghost use Rattle.history_set.specs.Lent.{lent};
ghost use Rattle.history_set.specs.Set.{is_outside, is_sound, shows, histories_of, set_rows};
ghost use Rattle.gate.specs.Totals.{most_blocks, on_top_of, none};
ghost use Rattle.gate.specs.Inner.{Steady};
ghost use Rattle.gate.specs.Start.{start_bin};
ghost use Rattle.gate.specs.Gate.{gated_of, all_gated, gate_of, gate_over};

use base_refusals::Refusal;
use blocks::Totals;
use history_set::set::{Entry, Histories, Shape};
use table::BinEnergies;

pub mod blocks;
pub mod energy;
mod held;
mod kept;
mod sums;
mod table;
pub mod threshold;

// What one history of a set has at or above the gate, on top of a running sum.
fn history_gated(
    table: &BinEnergies,
    sum: f64,
    set: Histories<'_>,
    entry: Entry,
    threshold: f64,
    bin: usize,
) -> Totals
    requires { (is_outside (length set.counters.now) (length set.energies.now) entry ≡ false) × (is_sound set.energies.now entry ≡ true)
        × (bin ≡ start_bin threshold) × Steady sum }
    ensures { (result ≡ gated_of threshold (on_top_of sum) (shows set.entry.counters.now set.entry.energies.now entry)) × (result.count ≤ most_blocks)
        × Steady result.sum }
{
    match entry.shape {
        Shape::Histogram(start) => table.from_bin(sum, set.counters, start, bin),
        Shape::Queue(start, queue) => kept::of_queue(sum, set.energies, start, queue, threshold),
    }
}

// What all histories have at or above the gate: one running sum passes over them in order.
fn all_gated(table: &BinEnergies, set: Histories<'_>, threshold: f64) -> Totals
    requires { number_of (set_rows (lent set)) ≡ 0 }
    ensures { result ≡ all_gated threshold none (histories_of (lent set.entry)) }
{
    let bin = table.start(threshold);
    let mut count: u64 = 0;
    let mut sum = 0.0;
    for entry in set.entries {
        let gated = history_gated(table, sum, set, *entry, threshold, bin);
        count += gated.count;
        sum = gated.sum;
    }
    Totals { count, sum }
}

// The answer, by what all blocks come to and what the gate leaves of them.
fn answer(all: Totals, left: Totals) -> Result<Totals, Refusal>
    ensures { said result ≡ said_by (gate_over all left) }
{
    if all.count == 0 {
        return Err(Refusal::NONE);
    }
    if all.sum.is_nan() {
        return Err(Refusal::NAN);
    }
    if left.count == 0 {
        return Err(Refusal::NONE);
    }
    Ok(left)
}

// The gate question: the blocks at or above the gate and the sum of their energies.
pub fn gate(set: Histories<'_>) -> Result<Totals, Refusal>
    ensures { said result ≡ said_by (gate_of (lent set.entry)) }
{
    let table = BinEnergies::new();
    let all = sums::of_set(&table, set)?;
    let left = all_gated(&table, set, threshold::threshold_of(all));
    answer(all, left)
}
