// An energy added to a queue.
ghost use Rattle.std.specs.Prelude.{◌≡◌, ◌+◌, ◌%◌, ◌<◌};
ghost use Rattle.base_refusals.specs.Outcome.{said_by, kept_by};
ghost use Rattle.base_refusals.specs.Answer.{said};
ghost use Rattle.history_queue.specs.Queue.{over};
ghost use Rattle.history_queue.specs.Adding.{enqueued};

use crate::Queue;
use base_refusals::{Answer, Refusal};

// The answer of `add`, with the queue as it is afterwards. Beside each other and no Result, since a refusal too hands the queue back, as it was given.
#[derive(Clone, Copy)]
pub struct Queued {
    pub answer: Answer,
    pub queue: Queue,
}

// The place on the ring of a store, from one that is no more than a turn too far: a choice of two numbers, which is quicker than a remainder.
fn on_ring(place: usize, maximum: usize) -> usize
    requires { place < maximum + maximum }
    ensures { result ≡ place % maximum }
{
    if place < maximum {
        place
    } else {
        place - maximum
    }
}

// The place after the head, on the ring: after the last place comes the first. It is `on_ring` of the next place, and stays by itself for time: each add to a full
// queue waits for the head of the one before, and a choice of 0 is there sooner than a number that is still to be taken away.
fn after(head: usize, maximum: usize) -> usize
    requires { head < maximum }
    ensures { result ≡ (head + 1) % maximum }
{
    let next = head + 1;
    if next < maximum { next } else { 0 }
}

// The energy is the newest in the queue, and takes the place of a full queue's oldest. Below boundary 0 the energy is dropped.
#[tactic(auto, using(crate::proofs::Ring::suited), unfolding(crate::specs::Adding::enqueued))]
pub fn add(queue: Queue, store: &mut [f64], energy: f64) -> Queued
    ensures { (said result.answer ≡ said_by (enqueued (over queue store.old) energy))
        × (over result.queue store.new ≡ kept_by (over queue store.old) (enqueued (over queue store.old) energy)) }
{
    if !queue.suits(store.len()) {
        return Queued {
            answer: Err(Refusal::STORE),
            queue,
        };
    }
    if energy < bins::lowest_boundary() {
        return Queued {
            answer: Ok(()),
            queue,
        };
    }
    let maximum = queue.maximum;
    let queue = if queue.held < maximum {
        store[on_ring(queue.head + queue.held, maximum)] = energy;
        Queue {
            held: queue.held + 1,
            ..queue
        }
    } else {
        store[queue.head] = energy;
        Queue {
            head: after(queue.head, maximum),
            ..queue
        }
    };
    Queued {
        answer: Ok(()),
        queue,
    }
}
