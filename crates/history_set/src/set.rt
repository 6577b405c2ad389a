// A set of histories, as a question takes it: up to 16 entries, over one lent slice of counters and one of energies. Entries may overlap or repeat.
ghost use Rattle.std.specs.Prelude.{◌≡◌};
ghost use Rattle.history_set.specs.Lent.{lent};
ghost use Rattle.history_set.specs.Set.{is_outside, any_outside, outside_set};

use bins::Count;
use history_queue::Queue;

// The most histories of a set.
pub const MOST: usize = 16;

// Where a history lies.
#[derive(Clone, Copy)]
pub enum Shape {
    // The first of its 1,000 counters in the counter slice.
    Histogram(usize),
    // The start of its store in the energy slice, and the queue.
    Queue(usize, Queue),
}

#[derive(Clone, Copy)]
pub struct Entry {
    pub shape: Shape,
}

// Whether the entry reaches outside so many counters, or so many energies.
fn outside(entry: Entry, counters: usize, energies: usize) -> bool
    ensures { result ≡ is_outside counters energies entry }
{
    match entry.shape {
        Shape::Histogram(start) => counters < start || counters - start < bins::BINS,
        Shape::Queue(start, queue) => energies < start || energies - start < queue.maximum,
    }
}

// The entries, and the slices that they lie in.
#[derive(Clone, Copy)]
pub struct Histories<'a> {
    pub entries: &'a [Entry],
    pub counters: &'a [Count],
    pub energies: &'a [f64],
}

// Whether any of the entries does.
#[tactic(auto, using(std::proofs::lemmas::List::drop_more), unfolding(crate::specs::Set::any_outside))]
fn any_outside(entries: &[Entry], counters: usize, energies: usize) -> bool
    ensures { result ≡ any_outside counters energies entries.now }
{
    for entry in entries {
        if outside(*entry, counters, energies) {
            return true;
        }
    }
    false
}

impl<'a> Histories<'a> {
    // Whether SET refuses the set: too many entries, or one that reaches outside.
    pub fn outside(self) -> bool
        ensures { result ≡ outside_set (lent self.entry) }
    {
        self.entries.len() > MOST
            || any_outside(self.entries, self.counters.len(), self.energies.len())
    }
}
