// How many blocks histories have and the sum of their energies, which a gate's threshold is taken from, and what refuses the histories.
ghost use Rattle.std.specs.Prelude.{◌≡◌, ◌+◌, ◌≤◌, true, false, ◌&&◌, length, MatchOption, MatchResult};
ghost use Rattle.base_refusals.specs.Answer.{said};
ghost use Rattle.base_refusals.specs.Outcome.{said_by};
ghost use Rattle.history_queue.specs.Queue.{held_of};
ghost use Rattle.history_set.specs.Lent.{lent};
ghost use Rattle.history_set.specs.Set.{queue_at, is_outside, none_below, shape_sound, is_sound, shows};
ghost use Rattle.history_set.specs.declared.set.Shape.TheVariants.{Queue as Queue-at};
ghost use Rattle.gate.specs.Totals.{most_blocks, none};
ghost use Rattle.gate.specs.Sums.{totals_of};
ghost use Rattle.gate.specs.Inner.{sum_onto, sums_of};

use crate::blocks::Totals;
use crate::held::held_parts;
use crate::table::BinEnergies;
use base_refusals::Refusal;
use history_queue::Queue;
use history_set::set::{Entry, Histories, Shape};

// Energies on top of a sum, where none of them is below boundary 0. They are looked at and added in one pass.
fn add_sound(mut sum: f64, energies: &[f64]) -> Option<f64>
    ensures { MatchOption result (none_below energies.now ≡ false)
        (λ all. (none_below energies.now ≡ true) × (all ≡ sum_onto sum energies.now)) }
{
    let least = bins::lowest_boundary();
    let mut sound = true;
    for energy in energies {
        sound &= !(*energy < least);
        sum += *energy;
    }
    if sound { Some(sum) } else { None }
}

// The sum of the energies that a queue of a set holds, oldest first, where its store is sound.
fn queue_sum(energies: &[f64], start: usize, queue: Queue) -> Option<f64>
    requires { start + queue.maximum ≤ length energies.now }
    ensures { MatchOption result (shape_sound energies.now (Queue-at start queue) ≡ false)
        (λ sum. (shape_sound energies.now (Queue-at start queue) ≡ true) × (sum ≡ sum_onto none.sum (held_of (queue_at energies.now start queue)))) }
{
    if !queue.suits(queue.maximum) {
        return None;
    }
    let (older, newer) = held_parts(energies, start, queue);
    let sum = add_sound(0.0, older)?;
    add_sound(sum, newer)
}

// The blocks of a history of a set, which is inside its slice, and the sum of their energies. STORE refuses it where its store is not sound.
fn of_history(table: &BinEnergies, set: Histories<'_>, entry: Entry) -> Result<Totals, Refusal>
    requires { is_outside (length set.counters.now) (length set.energies.now) entry ≡ false }
    ensures { MatchResult result
        (λ totals. (is_sound set.entry.energies.now entry ≡ true) × (totals ≡ totals_of (shows set.entry.counters.now set.entry.energies.now entry))
        × (totals.count ≤ most_blocks))
        (λ refusal. (is_sound set.entry.energies.now entry ≡ false) × (refusal ≡ Refusal.STORE)) }
{
    match entry.shape {
        Shape::Histogram(start) => Ok(table.from_bin(0.0, set.counters, start, 0)),
        Shape::Queue(start, queue) => {
            let sum = queue_sum(set.energies, start, queue).ok_or(Refusal::STORE)?;
            Ok(Totals {
                count: queue.held as u64,
                sum,
            })
        }
    }
}

// Those of a set of histories, added history by history from 0.
pub(crate) fn of_set(table: &BinEnergies, set: Histories<'_>) -> Result<Totals, Refusal>
    ensures { said result ≡ said_by (sums_of (lent set.entry)) }
{
    if set.outside() {
        return Err(Refusal::SET);
    }
    let mut count: u64 = 0;
    let mut sum = 0.0;
    for entry in set.entries {
        let one = of_history(table, set, *entry)?;
        count += one.count;
        sum += one.sum;
    }
    Ok(Totals { count, sum })
}
