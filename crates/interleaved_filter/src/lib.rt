// `process` and `seed` over an `Interleaved`: thin above the filter's calls over a slice.
#![tactic(auto)]

ghost use Rattle.std.specs.Prelude.{◌≡◌};
ghost use Rattle.base_refusals.specs.Answer.{said};
ghost use Rattle.base_refusals.specs.Outcome.{said_by};
ghost use Rattle.filter.specs.Call.{Call, seed_of};
ghost use Rattle.filter.specs.Process.{processed};
ghost use Rattle.filter.specs.Seed.{seeded};
ghost use Rattle.interleaved_filter.specs.Over.{over, left};
ghost use Rattle.interleaved_filter.specs.Said.{said_of, as_taken};

use base_refusals::Refusal;
use filter::{Filter, Filtered};
use interleaved::Interleaved;
use samples::Sample;

// A call that is not refused is done, or the source has other channels than the filter, and nothing is altered.
#[derive(Clone, Copy, Debug, PartialEq, Eq)]
pub enum Took {
    Done,
    OtherChannels,
}

// What a call comes to, with the filter as it is afterwards.
#[derive(Clone, Copy)]
pub struct Heard {
    pub answer: Result<Took, Refusal>,
    pub filter: Filter,
}

impl From<Filtered> for Heard {
    ghost from_gives = { λ f h. (said_of h.answer ≡ as_taken (said f.answer)) × (h.filter ≡ f.filter) };

    fn from(f: Filtered) -> Heard {
        Heard {
            answer: f.answer.map(|()| Took::Done),
            filter: f.filter,
        }
    }
}

fn other_channels(filter: Filter) -> Heard
    ensures { (result.answer ≡ Ok Took.OtherChannels) × (result.filter ≡ filter) }
{
    Heard {
        answer: Ok(Took::OtherChannels),
        filter,
    }
}

// The filter's `process` over the samples of an `Interleaved` of the filter's number of channels.
pub fn process<'a, S: Sample>(
    filter: Filter,
    source: Interleaved<'a, S>,
    map: &[u8],
    dest: &mut [f64],
    start: usize,
) -> Heard
    ensures { (let call : Call = record { filter = filter; samples = S.lent source.entry.samples.now; map = map.now; dest = dest.old; start = start } in
        (said_of result.answer ≡ said_by (over processed source.entry.channels call))
        × (result.filter ≡ (left processed source.entry.channels call).filter)
        × (dest.new ≡ (left processed source.entry.channels call).dest)) }
{
    if source.channels != filter.channels {
        return other_channels(filter);
    }
    Heard::from(filter_process::process(filter, source.samples, map, dest, start))
}

// The filter's `seed`, likewise.
pub fn seed<'a, S: Sample>(filter: Filter, source: Interleaved<'a, S>, map: &[u8]) -> Heard
    ensures { let call = seed_of filter (S.lent source.entry.samples.now) map.now in
        (said_of result.answer ≡ said_by (over seeded source.entry.channels call)) × (result.filter ≡ (left seeded source.entry.channels call).filter) }
{
    if source.channels != filter.channels {
        return other_channels(filter);
    }
    Heard::from(filter_seed::seed(filter, source.samples, map))
}
