// The weighting's state after a call whose outputs are not wanted.
ghost use Rattle.std.specs.Prelude.{◌≡◌};
ghost use Rattle.base_refusals.specs.Answer.{said};
ghost use Rattle.base_refusals.specs.Outcome.{said_by, kept_by};
ghost use Rattle.samples.specs.Sample.{samples_by};
ghost use Rattle.filter_recurrence.specs.Channels.{weighing_of};
ghost use Rattle.filter_weighting.specs.Seeding.{moved};

use base_refusals::Answer;
use filter_recurrence::Coefficients;
use filter_recurrence::states::State;
use samples::Sample;

// What a call answers, beside the state. A refused call leaves it as given.
#[derive(Clone, Copy)]
pub struct Seeded {
    pub answer: Answer,
    pub state: State,
}

// The same on a state that is lent.
fn seed_lent<S: Sample>(
    c: Coefficients,
    state: &mut [f64; 40],
    channels: usize,
    samples: &[S],
    map: &[u8],
) -> Answer
    ensures { let call = weighing_of c (record { values = state.old }) channels (samples_by S.in_f64 samples.now) map.now in
        (said result ≡ said_by (moved call)) × (state.new ≡ (kept_by call.state (moved call)).values) }
{
    filter_checks::refused_seed(channels, samples.len(), map)?;
    crate::seeding_channels::advance_all(c.a, state, samples, map);
    Ok(())
}

// One call over interleaved samples of one kind. A map byte of 0 is an unused channel, 1 a used one.
pub fn seed<S: Sample>(
    c: Coefficients,
    s: State,
    channels: usize,
    samples: &[S],
    map: &[u8],
) -> Seeded
    ensures answer_value { said result.answer ≡ said_by (moved (weighing_of c s channels (samples_by S.in_f64 samples.now) map.now)) }
    ensures state_value { result.state ≡ kept_by s (moved (weighing_of c s channels (samples_by S.in_f64 samples.now) map.now)) }
{
    let mut state = s;
    let answer = seed_lent(c, &mut state.values, channels, samples, map);
    Seeded { answer, state }
}
