// The weighting of a call: the state after it, and every used channel's outputs in the destination.
#![tactic(auto)]

ghost use Rattle.std.specs.Prelude.{◌≡◌};
ghost use Rattle.base_refusals.specs.Answer.{said};
ghost use Rattle.base_refusals.specs.Outcome.{said_by};
ghost use Rattle.samples.specs.Sample.{samples_by};
ghost use Rattle.filter_recurrence.specs.Channels.{weighing_of};
ghost use Rattle.filter_weighting.specs.Weighting.{weighed, kept};

use base_refusals::Answer;
use channels::Work;
use filter_checks::Sizes;
use filter_recurrence::Coefficients;
use samples::Sample;

mod channels;
pub mod seeding;
mod seeding_channels;

// One call over interleaved samples of one kind, on a state that is lent. Each used channel's outputs go to its own equal part of `dest`, from
// index `start` of the part on. A map byte of 0 is an unused channel, 1 a used one.
pub fn process_lent<S: Sample>(
    c: Coefficients,
    state: &mut [f64; 40],
    channels: usize,
    samples: &[S],
    map: &[u8],
    dest: &mut [f64],
    start: usize,
) -> Answer
    ensures { let call = weighing_of c (record { values = state.old }) channels (samples_by S.in_f64 samples.now) map.now in
        (said result ≡ said_by (weighed call dest.old start))
        × (state.new ≡ (kept call dest.old start).state.values)
        × (dest.new ≡ (kept call dest.old start).dest) }
{
    let sizes = Sizes {
        channels,
        samples: samples.len(),
        room: dest.len(),
        start,
    };
    filter_checks::refused_process(true, sizes, map)?;
    let work = Work {
        c,
        channels,
        frames: samples.len() / channels,
        part: dest.len() / channels,
        place: start,
    };
    work.weigh_all(state, samples, map, dest);
    Ok(())
}
