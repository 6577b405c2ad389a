// A set of histories as the C interface takes it: five numbers an entry.
#![tactic(auto)]

ghost use Rattle.std.specs.Prelude.{◌≡◌, ◌≤◌, get_or, length, MatchResult};
ghost use Rattle.history_set.specs.Set.{most_histories};
ghost use Rattle.exports_entries.specs.Sets.{entry_at, entries_from, entries_of, Whole};

use base_refusals::Refusal;
use history_queue::Queue;
use history_set::set::{Entry, MOST, Shape};

// How many numbers an entry has.
pub const NUMBERS: usize = 5;

// What the first number of an entry says.
const HISTOGRAM: usize = 0;

const QUEUE: usize = 1;

// An entry of another kind: a histogram at a place that no slice reaches.
const NOWHERE: Entry = Entry {
    shape: Shape::Histogram(usize::MAX),
};

// Room for the entries of a set. What stands in it is not read.
pub const ROOM: [Entry; MOST] = [Entry {
    shape: Shape::Histogram(0),
}; MOST];

// A number past the end counts as 0.
fn number_at(numbers: &[usize], place: usize) -> usize
    ensures { result ≡ get_or numbers.now place 0 }
{
    numbers.get(place).copied().unwrap_or(0)
}

// The entry whose numbers start at a place: kind, start, maximum, head, held.
#[tactic(auto, unfolding(crate::specs::Sets::entry_at))]
fn entry_at(numbers: &[usize], place: usize) -> Entry
    requires { place ≤ 75 }
    ensures { result ≡ entry_at numbers.now place }
{
    let kind = number_at(numbers, place);
    let start = number_at(numbers, place + 1);
    let maximum = number_at(numbers, place + 2);
    let head = number_at(numbers, place + 3);
    let held = number_at(numbers, place + 4);
    match kind {
        HISTOGRAM => Entry {
            shape: Shape::Histogram(start),
        },
        QUEUE => Entry {
            shape: Shape::Queue(
                start,
                Queue {
                    maximum,
                    head,
                    held,
                },
            ),
        },
        _ => NOWHERE,
    }
}

// The first entry.
pub fn first_of(numbers: &[usize]) -> Entry
    ensures { result ≡ entry_at numbers.now 0 }
{
    entry_at(numbers, 0)
}

// So many entries, one after the other.
fn read(entries: &mut [Entry], numbers: &[usize])
    requires { length entries.old ≤ most_histories }
    ensures { entries.new ≡ entries_from numbers.now 0 (length entries.old) }
{
    for (i, entry) in entries.iter_mut().enumerate() {
        *entry = entry_at(numbers, i * NUMBERS);
    }
}

// Sixteen entries, of which as many count as there are numbers for.
pub fn entries_of(numbers: &[usize]) -> [Entry; 16]
    ensures { result ≡ entries_from numbers.now 0 most_histories }
{
    let mut entries = ROOM;
    read(&mut entries, numbers);
    entries
}

// As many entries as there are numbers for, in the room that is lent. SET where the numbers are not whole entries, or more than there is room for.
pub fn entries_in<'a>(
    room: &'a mut [Entry; MOST],
    numbers: &[usize],
) -> Result<&'a [Entry], Refusal>
    ensures { MatchResult result
        (λ entries. Whole numbers.now × (entries.now ≡ entries_of numbers.now))
        (λ refusal. (Whole numbers.now → ⊥) × (refusal ≡ Refusal.SET)) }
{
    let count = numbers.len() / NUMBERS;
    if numbers.len() % NUMBERS != 0 || count > MOST {
        return Err(Refusal::SET);
    }
    let entries = &mut room[..count];
    read(entries, numbers);
    Ok(entries)
}
