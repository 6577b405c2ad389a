// The functions of the C interface of the histories; exports_histories_c has them for C, as include/xelamphoun.h declares them.
#![tactic(auto)]

ghost use Rattle.std.specs.Prelude.{◌≡◌};
ghost use Rattle.base_refusals.specs.Outcome.{kept_by};
ghost use Rattle.base_refusals.specs.Codes.{code};
ghost use Rattle.history_histogram.specs.Histogram.{add_to, cleared};
ghost use Rattle.history_histogram.specs.Merge.{merge_into};
ghost use Rattle.history_queue.specs.Adding.{enqueued};
ghost use Rattle.exports_histories.specs.Queues.{queue_over, after_add};

use base_refusals::codes::number_of;
use bins::Count;
use history_queue::Queue;

#[tactic(auto, using(base_refusals::proofs::Told::answer_told))]
pub fn xel_histogram_add(counters: &mut [Count], energy: f64) -> u8
    ensures { (result ≡ code (add_to counters.old energy))
        × (counters.new ≡ kept_by counters.old (add_to counters.old energy)) }
{
    number_of(history_histogram::add(counters, energy))
}

#[tactic(auto, using(base_refusals::proofs::Told::answer_told))]
pub fn xel_histogram_merge(into: &mut [Count], from: &[Count]) -> u8
    ensures { (result ≡ code (merge_into into.old from.now))
        × (into.new ≡ kept_by into.old (merge_into into.old from.now)) }
{
    number_of(history_histogram::merging::merge(into, from))
}

#[tactic(auto, using(base_refusals::proofs::Told::answer_told))]
pub fn xel_histogram_reset(counters: &mut [Count]) -> u8
    ensures { (result ≡ code (cleared counters.old))
        × (counters.new ≡ kept_by counters.old (cleared counters.old)) }
{
    number_of(history_histogram::reset(counters))
}

// A refused call stores nothing: head, held and store may be read-only, or be read meanwhile.
#[tactic(auto, using(base_refusals::proofs::Told::answer_told))]
pub fn xel_queue_add(
    maximum: usize,
    head: &mut usize,
    held: &mut usize,
    store: &mut [f64],
    energy: f64,
) -> u8
    ensures { (result ≡ code (enqueued (queue_over maximum head.old held.old store.old) energy))
        × (head.new ≡ (after_add (queue_over maximum head.old held.old store.old) energy).queue.head)
        × (held.new ≡ (after_add (queue_over maximum head.old held.old store.old) energy).queue.held)
        × (store.new ≡ (after_add (queue_over maximum head.old held.old store.old) energy).store) }
{
    let given = Queue {
        maximum,
        head: *head,
        held: *held,
    };
    let queued = history_queue::adding::add(given, store, energy);
    if queued.answer.is_ok() {
        *head = queued.queue.head;
        *held = queued.queue.held;
    }
    number_of(queued.answer)
}
