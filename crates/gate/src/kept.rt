// What a queue keeps at a gate: the energies that are not below the threshold.
ghost use Rattle.std.specs.Prelude.{◌≡◌, ◌+◌, ◌≤◌, length};
ghost use Rattle.history_queue.specs.Queue.{longest, parts_of, in_parts};
ghost use Rattle.gate.specs.Totals.{on_top_of};
ghost use Rattle.gate.specs.Inner.{energy_kept, blocks_kept, counted_from, summed_from, added_from};

use crate::blocks::Totals;
use crate::held::held_parts;
use history_queue::Queue;

// What an energy adds to the sum of those kept: itself, or 0 below the threshold.
fn kept_energy(energy: f64, threshold: f64) -> f64
    ensures { result ≡ energy_kept threshold energy }
{
    if !(energy < threshold) {
        return energy;
    }
    0.0
}

// And to their number.
fn kept_blocks(energy: f64, threshold: f64) -> u64
    ensures { result ≡ blocks_kept threshold energy }
{
    if energy < threshold {
        return 0;
    }
    1
}

// How many energies are kept, on top of a count. They are counted in a loop of their own: one loop for both took a branch.
fn add_blocks(mut count: u64, energies: &[f64], threshold: f64) -> u64
    requires { count + length energies.now ≤ longest }
    ensures { (result ≡ counted_from threshold count energies.now) × (result ≤ count + length energies.now) }
{
    for energy in energies {
        count += kept_blocks(*energy, threshold);
    }
    count
}

// And their sum on top of another.
fn add_energies(mut sum: f64, energies: &[f64], threshold: f64) -> f64
    ensures { result ≡ summed_from threshold sum energies.now }
{
    for energy in energies {
        sum += kept_energy(*energy, threshold);
    }
    sum
}

// What energies add to running totals.
fn add_kept(totals: Totals, energies: &[f64], threshold: f64) -> Totals
    requires { totals.count + length energies.now ≤ longest }
    ensures { (result ≡ added_from threshold totals energies.now) × (result.count ≤ totals.count + length energies.now) }
{
    Totals {
        count: add_blocks(totals.count, energies, threshold),
        sum: add_energies(totals.sum, energies, threshold),
    }
}

// What the queue keeps whose store starts at a place: how many of its energies, and these on top of a running sum, oldest first.
// Where the store does not suit the queue or ends outside the energies, there is no block.
pub(crate) fn of_queue(
    sum: f64,
    energies: &[f64],
    start: usize,
    queue: Queue,
    threshold: f64,
) -> Totals
    ensures { result ≡ added_from threshold (on_top_of sum) (in_parts (parts_of queue start (length energies.now)) energies.now) }
{
    let (older, newer) = held_parts(energies, start, queue);
    let none = Totals { count: 0, sum };
    add_kept(add_kept(none, older, threshold), newer, threshold)
}
