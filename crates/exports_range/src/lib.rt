// The functions of the C interface of the range; exports_range_c has them for C, as include/xelamphoun.h declares them.
#![tactic(auto)]

ghost use Rattle.std.specs.Prelude.{◌≡◌};
ghost use Rattle.base_refusals.specs.Outcome.{said_by, kept_by};
ghost use Rattle.range_ranks.specs.Span.{said};
ghost use Rattle.exports_range.specs.Spans.{range_asked, span_code, low_or, high_or};

use base_refusals::Refusal;
use bins::Count;
use history_set::set::Histories;
use range_ranks::spans::Span;

// The codes of a range that answers no energies, as include/xelamphoun.h has them.
const NOTHING: u8 = 128;

const NOT_A_NUMBER: u8 = 129;

// The range of the set of these numbers, and SET where they are not whole entries, or more than a set may have.
fn asked(numbers: &[usize], counters: &[Count], energies: &[f64], work: &mut [f64]) -> Span
    ensures { (said result ≡ said_by (range_asked numbers.now counters.now energies.now work.old))
        × (work.new ≡ kept_by work.old (range_asked numbers.now counters.now energies.now work.old)) }
{
    // Before the room is made, which takes longer.
    if numbers.len() % exports_entries::NUMBERS != 0 {
        return Span::Refused(Refusal::SET);
    }
    let mut room = exports_entries::ROOM;
    match exports_entries::entries_in(&mut room, numbers) {
        Ok(entries) => range::loudness_range(
            Histories {
                entries,
                counters,
                energies,
            },
            work,
        ),
        Err(refusal) => Span::Refused(refusal),
    }
}

pub fn xel_loudness_range(
    entries: &[usize],
    counters: &[Count],
    energies: &[f64],
    work: &mut [f64],
    low: &mut f64,
    high: &mut f64,
) -> u8
    ensures { (result ≡ span_code (range_asked entries.now counters.now energies.now work.old))
        × (work.new ≡ kept_by work.old (range_asked entries.now counters.now energies.now work.old))
        × (low.new ≡ low_or low.old (range_asked entries.now counters.now energies.now work.old))
        × (high.new ≡ high_or high.old (range_asked entries.now counters.now energies.now work.old)) }
{
    match asked(entries, counters, energies, work) {
        Span::Found(lower, higher) => {
            *low = lower;
            *high = higher;
            0
        }
        Span::Nothing => NOTHING,
        Span::NotANumber => NOT_A_NUMBER,
        Span::Refused(refusal) => u8::from(refusal),
    }
}
