// The histogram: 1,000 counters in a lent slice, one for each bin.
#![tactic(auto)]

ghost use Rattle.std.specs.Prelude.{◌≡◌};
ghost use Rattle.base_refusals.specs.Outcome.{said_by, kept_by};
ghost use Rattle.base_refusals.specs.Answer.{said};
ghost use Rattle.history_histogram.specs.Histogram.{add_to, cleared};

use base_refusals::{Answer, Refusal};
use bins::Count;

pub mod merging;

// The largest count of a bin: what a counter of 32 bits holds.
pub const LARGEST_COUNT: Count = 4294967295;

// A block of this energy is counted in its bin. Below boundary 0 it is dropped.
#[tactic(auto, using(bins::proofs::Bins::bin_below), unfolding(crate::specs::Histogram::add_to))]
pub fn add(counters: &mut [Count], energy: f64) -> Answer
    ensures { (said result ≡ said_by (add_to counters.old energy))
        × (counters.new ≡ kept_by counters.old (add_to counters.old energy)) }
{
    if counters.len() != bins::BINS {
        return Err(Refusal::STORE);
    }
    if energy < bins::lowest_boundary() {
        return Ok(());
    }
    let bin = bins::search::find_histogram_index(energy);
    let count = counters[bin];
    if count == LARGEST_COUNT {
        return Err(Refusal::FULL);
    }
    counters[bin] = count + 1;
    Ok(())
}

// Every counter becomes 0.
#[tactic(auto, using(crate::proofs::Counters::all_zero), unfolding(crate::specs::Histogram::cleared))]
pub fn reset(counters: &mut [Count]) -> Answer
    ensures { (said result ≡ said_by (cleared counters.old))
        × (counters.new ≡ kept_by counters.old (cleared counters.old)) }
{
    if counters.len() != bins::BINS {
        return Err(Refusal::STORE);
    }
    counters.fill(0);
    Ok(())
}
