// The queue: the last energies, oldest first, in a lent store that is gone through round and round.
#![tactic(auto)]

ghost use Rattle.std.specs.Prelude.{◌≡◌};
ghost use Rattle.history_queue.specs.Queue.{suits, started, first_part, stands, parts_of};

pub mod adding;

// The longest queue: an hour of blocks, one every 100 ms.
pub const LONGEST: usize = 36000;

// A queue of at most `maximum` energies: the oldest stands at place `head` of the store, and `held` are there.
#[derive(Clone, Copy)]
pub struct Queue {
    pub maximum: usize,
    pub head: usize,
    pub held: usize,
}

// Where the energies that a queue holds stand in a slice of energies: the older ones from a place up to another, and after them the newer ones.
// Four numbers and no two ranges, since the definitions of specs/Queue.antt name them so; nowhere is an answer, with nothing in either part.
#[derive(Clone, Copy)]
pub struct Parts {
    pub from: usize,
    pub until: usize,
    pub start: usize,
    pub end: usize,
}

impl Queue {
    // A queue with no energy.
    pub fn new(maximum: usize) -> Self
        ensures { result ≡ started maximum }
    {
        Queue {
            maximum,
            head: 0,
            held: 0,
        }
    }

    // The queue with no energy. Its store may hold anything.
    pub fn reset(self) -> Self
        ensures { result ≡ started self.maximum }
    {
        Queue::new(self.maximum)
    }

    // Whether a store of `length` places is this queue's.
    #[tactic(auto, unfolding(crate::specs::Queue::suits))]
    pub fn suits(self, length: usize) -> bool
        ensures { result ≡ suits self length }
    {
        1 <= self.maximum
            && self.maximum <= LONGEST
            && self.maximum == length
            && self.head < self.maximum
            && self.held <= self.maximum
    }

    // How many of the held energies stand between the head and the end of the store. The others stand at its start.
    fn first_part(self) -> usize
        ensures { result ≡ first_part self }
    {
        self.held.min(self.maximum.saturating_sub(self.head))
    }

    // Whether the queue's store, which starts at a place, suits it and ends within so many places.
    fn stands(self, start: usize, places: usize) -> bool
        ensures { result ≡ stands self start places }
    {
        start <= places && self.maximum <= places - start && self.suits(self.maximum)
    }

    // Where the held energies stand then: the older ones up to the end of the store, the newer ones from its start. Nowhere if it does not.
    #[tactic(auto, using(crate::proofs::Standing::stands_well), unfolding(crate::specs::Queue::parts_of))]
    pub fn parts(self, start: usize, places: usize) -> Parts
        ensures { result ≡ parts_of self start places }
    {
        if self.stands(start, places) {
            let first = self.first_part();
            let from = start + self.head;
            return Parts {
                from,
                until: from + first,
                start,
                end: start + (self.held - first),
            };
        }
        Parts {
            from: 0,
            until: 0,
            start: 0,
            end: 0,
        }
    }
}
