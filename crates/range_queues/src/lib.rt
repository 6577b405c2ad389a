// The loudness range over the queues of a set: their energies are put in rising order in a lent work slice.
#![tactic(auto)]

ghost use Rattle.std.specs.Prelude.{◌≡◌, true, cond, Some, None, IfSome, ◌+◌, ◌≤◌, ◌++◌, length};
ghost use Rattle.std.proofs.lemmas.List.Edits.{sets};
ghost use Rattle.base_refusals.specs.Outcome.{said_by, kept_by};
ghost use Rattle.history_queue.specs.Queue.{longest, in_parts};
ghost use Rattle.history_set.specs.Lent.{lent};
ghost use Rattle.history_set.specs.Set.{most_histories, store_end, stores_inside, none_below, is_sound, all_sound};
ghost use Rattle.range_ranks.specs.Span.{said};
ghost use Rattle.range_queues.specs.Listed.{queue_range};
ghost use Rattle.range_queues.specs.Inner.{most_held, held_in, held_at, suits_at, parts_at, with_seen, seen_of, listed_range};

use base_refusals::Refusal;
use history_set::set::{Entry, Histories, Shape};
use range_ranks::spans::Span;

mod rising;

// The energies that an entry holds: the older ones and the newer ones. A histogram holds none.
fn held_parts(entry: Entry, energies: &[f64]) -> (&[f64], &[f64])
    ensures { (result.0.now ++ result.1.now ≡ in_parts (parts_at entry.shape (length energies.now)) energies.now)
        × (length result.0.now + length result.1.now ≤ longest) }
{
    match entry.shape {
        Shape::Histogram(_) => (&energies[..0], &energies[..0]),
        Shape::Queue(start, queue) => {
            let parts = queue.parts(start, energies.len());
            (
                &energies[parts.from..parts.until],
                &energies[parts.start..parts.end],
            )
        }
    }
}

// Whether the entry is a histogram or a queue that suits its store.
fn suits(entry: Entry) -> bool
    ensures { result ≡ suits_at entry.shape }
{
    match entry.shape {
        Shape::Histogram(_) => true,
        Shape::Queue(_, queue) => queue.suits(queue.maximum),
    }
}

// How many energies were looked at, and whether one is NaN.
#[derive(Clone, Copy)]
struct Seen {
    blocks: usize,
    nan: bool,
}

// A look at energies, after what was seen before. None where one is below boundary 0.
fn look_at(before: Seen, energies: &[f64]) -> Option<Seen>
    requires { before.blocks + length energies.now ≤ most_held }
    ensures { result ≡ cond (none_below energies.now) (Some (with_seen before energies.now)) None }
{
    let least = bins::lowest_boundary();
    let mut fine = true;
    let mut nan = before.nan;
    for energy in energies {
        fine &= !(*energy < least);
        nan |= *energy != *energy;
    }
    if fine {
        Some(Seen {
            blocks: before.blocks + energies.len(),
            nan,
        })
    } else {
        None
    }
}

// At those that an entry holds. None where it does not suit its store, too.
fn look_in(before: Seen, entry: Entry, energies: &[f64]) -> Option<Seen>
    requires { (store_end entry.shape ≤ length energies.now) × (before.blocks + longest ≤ most_held) }
    ensures seen { result ≡ cond (is_sound energies.now entry) (Some (with_seen before (held_at energies.now entry))) None }
    ensures few { IfSome result (λ seen. seen.blocks ≤ before.blocks + longest) }
{
    if suits(entry) {
        let (older, newer) = held_parts(entry, energies);
        look_at(look_at(before, older)?, newer)
    } else {
        None
    }
}

// At all that are held.
fn look(entries: &[Entry], energies: &[f64]) -> Option<Seen>
    requires { (length entries.now ≤ most_histories) × (stores_inside (length energies.now) entries.now) }
    ensures { result ≡ cond (all_sound energies.now entries.now) (Some (seen_of (held_in energies.now entries.now))) None }
{
    let mut seen = Seen {
        blocks: 0,
        nan: false,
    };
    for entry in entries {
        seen = look_in(seen, *entry, energies)?;
    }
    Some(seen)
}

// Energies go to the work slice, from a place of it on. Stays a loop: the library's copy is a call of `memmove`, which the range's archive asks for nowhere else.
fn copy(work: &mut [f64], at: usize, energies: &[f64])
    requires { at + length energies.now ≤ length work.old }
    ensures { work.new ≡ sets work.old at energies.now }
{
    for (i, energy) in energies.iter().enumerate() {
        work[at + i] = *energy;
    }
}

// Those that an entry holds, oldest first. Answers the place after them.
fn copy_held(work: &mut [f64], at: usize, entry: Entry, energies: &[f64]) -> usize
    requires { (store_end entry.shape ≤ length energies.now) × (suits_at entry.shape ≡ true)
        × (at + length (held_at energies.now entry) ≤ length work.old) }
    ensures { (work.new ≡ sets work.old at (held_at energies.now entry)) × (result ≡ at + length (held_at energies.now entry)) }
{
    let (older, newer) = held_parts(entry, energies);
    let middle = at + older.len();
    copy(work, at, older);
    copy(work, middle, newer);
    middle + newer.len()
}

// All held energies, entry by entry, from the first place of the work slice on.
fn copy_all(entries: &[Entry], energies: &[f64], work: &mut [f64])
    requires { (stores_inside (length energies.now) entries.now) × (all_sound energies.now entries.now ≡ true)
        × (length (held_in energies.now entries.now) ≤ length work.old) }
    ensures { work.new ≡ sets work.old 0 (held_in energies.now entries.now) }
{
    let mut at = 0;
    for entry in entries {
        at = copy_held(work, at, *entry, energies);
    }
}

// The range of the queues of a set that SET and STORE do not refuse, by what was seen of it.
fn in_order(entries: &[Entry], energies: &[f64], work: &mut [f64], seen: Seen) -> Span
    requires { (stores_inside (length energies.now) entries.now) × (all_sound energies.now entries.now ≡ true)
        × (seen ≡ seen_of (held_in energies.now entries.now)) }
    ensures { (said result ≡ said_by (listed_range (held_in energies.now entries.now) work.old))
        × (work.new ≡ kept_by work.old (listed_range (held_in energies.now entries.now) work.old)) }
{
    let blocks = seen.blocks;
    if work.len() < blocks {
        return Span::Refused(Refusal::ROOM);
    }
    if seen.nan {
        return Span::NotANumber;
    }
    copy_all(entries, energies, work);
    order::order(&mut work[..blocks]);
    crate::rising::span_in_order(&work[..blocks])
}

// The range over the queues of a set. Its histograms play no part.
pub fn of_queues(set: Histories<'_>, work: &mut [f64]) -> Span
    ensures { (said result ≡ said_by (queue_range (lent set.entry) work.old))
        × (work.new ≡ kept_by work.old (queue_range (lent set.entry) work.old)) }
{
    if set.outside() {
        return Span::Refused(Refusal::SET);
    }
    match look(set.entries, set.energies) {
        Some(seen) => in_order(set.entries, set.energies, work, seen),
        None => Span::Refused(Refusal::STORE),
    }
}
