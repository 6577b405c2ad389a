// What refuses a set of histories: after SET, which `set` asks, STORE, entry by entry. A store is sound where it suits its queue and holds no energy below boundary 0.
ghost use Rattle.std.specs.Prelude.{◌≡◌, ◌&&◌, ◌≤◌, length};
ghost use Rattle.base_refusals.specs.Codes.{number_said};
ghost use Rattle.base_refusals.specs.Rows.{number_of};
ghost use Rattle.history_queue.specs.Queue.{over, suits, held_of};
ghost use Rattle.history_set.specs.Lent.{lent};
ghost use Rattle.history_set.specs.Set.{stores_inside, store_end, none_below, is_sound, all_sound, set_rows};

use crate::set::{Entry, Histories, Shape};
use base_refusals::{Answer, Refusal};
use history_queue::Queue;

// Whether none of the energies is below boundary 0. All of them are looked at.
#[tactic(auto, using(std::proofs::lemmas::List::drop_more), unfolding(crate::specs::Set::none_below))]
fn none_below(held: &[f64]) -> bool
    ensures { result ≡ none_below held.now }
{
    let least = bins::lowest_boundary();
    let mut fine = true;
    for energy in held {
        fine &= !(*energy < least);
    }
    fine
}

// Whether a store is this queue's and holds no energy below boundary 0.
#[tactic(auto, using(history_queue::proofs::Standing::parts_within, history_queue::proofs::Standing::held_in_store, crate::proofs::Entries::none_below_append))]
pub fn sound_queue(queue: Queue, store: &[f64]) -> bool
    ensures { result ≡ (suits queue (length store.now) && none_below (held_of (over queue store.now))) }
{
    if queue.suits(store.len()) {
        let parts = queue.parts(0, store.len());
        none_below(&store[parts.from..parts.until]) & none_below(&store[parts.start..parts.end])
    } else {
        false
    }
}

// Whether the store of an entry that is inside its slice is as it has to be.
fn sound(entry: Entry, energies: &[f64]) -> bool
    requires { store_end entry.shape ≤ length energies.now }
    ensures { result ≡ is_sound energies.now entry }
{
    match entry.shape {
        Shape::Histogram(_) => true,
        Shape::Queue(start, queue) => sound_queue(queue, &energies[start..start + queue.maximum]),
    }
}

// Whether the stores of all entries are.
#[tactic(auto, using(std::proofs::lemmas::List::drop_more), unfolding(crate::specs::Set::all_sound))]
fn all_sound(entries: &[Entry], energies: &[f64]) -> bool
    requires { stores_inside (length energies.now) entries.now }
    ensures { result ≡ all_sound energies.now entries.now }
{
    for entry in entries {
        if !sound(*entry, energies) {
            return false;
        }
    }
    true
}

impl Histories<'_> {
    // The first refusal that the set gets.
    pub fn check(self) -> Answer
        ensures { number_said result ≡ number_of (set_rows (lent self.entry)) }
    {
        if self.outside() {
            return Err(Refusal::SET);
        }
        if all_sound(self.entries, self.energies) {
            Ok(())
        } else {
            Err(Refusal::STORE)
        }
    }
}
