// One histogram added to another, bin by bin, where every bin has room.
ghost use Rattle.std.specs.Prelude.{◌≡◌, true, length};
ghost use Rattle.base_refusals.specs.Outcome.{said_by, kept_by};
ghost use Rattle.base_refusals.specs.Answer.{said};
ghost use Rattle.history_histogram.specs.Histogram.{sums};
ghost use Rattle.history_histogram.specs.Merge.{room, merge_into};

use base_refusals::{Answer, Refusal};
use bins::Count;

// Whether no two counters add up to more than the largest count, by a look at every bin.
#[tactic(auto, using(crate::proofs::Room::look_turn, crate::proofs::Room::look_end))]
fn has_room(into: &[Count], from: &[Count]) -> bool
    requires { length into.now ≡ length from.now }
    ensures { result ≡ room into.now from.now }
{
    let mut fits = true;
    for (bin, count) in into.iter().enumerate() {
        fits &= from[bin] <= crate::LARGEST_COUNT - *count;
    }
    fits
}

#[tactic(auto, using(crate::proofs::Sums::sums_all, crate::proofs::Sums::sums_turn))]
fn add_all(into: &mut [Count], from: &[Count])
    requires { (length into.old ≡ length from.now) × (room into.old from.now ≡ true) }
    ensures { into.new ≡ sums into.old from.now }
{
    for (bin, sum) in into.iter_mut().enumerate() {
        *sum += from[bin];
    }
}

// The counters of `from` are added to those of `into`, or none is.
#[tactic(auto, unfolding(crate::specs::Merge::merge_into))]
pub fn merge(into: &mut [Count], from: &[Count]) -> Answer
    ensures { (said result ≡ said_by (merge_into into.old from.now))
        × (into.new ≡ kept_by into.old (merge_into into.old from.now)) }
{
    if into.len() != bins::BINS || from.len() != bins::BINS {
        return Err(Refusal::STORE);
    }
    if !has_room(into, from) {
        return Err(Refusal::FULL);
    }
    add_all(into, from);
    Ok(())
}
