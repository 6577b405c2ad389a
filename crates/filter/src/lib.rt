// The filter of a measurement: what it keeps between its calls, at rest and afterwards. Crates `filter_process` and `filter_seed` have its calls, `peaks` what is read of it.
#![tactic(auto)]

ghost use Rattle.std.specs.Prelude.{◌≡◌};
ghost use Rattle.true_peak_state.specs.TruePeak.{silent};
ghost use Rattle.filter.specs.Filter.{at_rest, no_peaks, resting, moved};

use base_refusals::Answer;
use filter_recurrence::Coefficients;
use filter_recurrence::states::State;
use filter_sample_peak::Peaks;
use true_peak_state::TruePeak;

pub mod peaks;

// What a call works out. What is off alters nothing.
#[derive(Clone, Copy)]
pub struct Switches {
    pub loudness: bool,
    pub peak: bool,
    pub true_peak: bool,
}

// Everything that a measurement keeps between its calls. `true_peak` has the true peaks and the interpolator's memory.
#[derive(Clone, Copy)]
pub struct Filter {
    pub channels: usize,
    pub rate: u32,
    pub switches: Switches,
    pub coefficients: Coefficients,
    pub state: State,
    pub peaks: Peaks,
    pub true_peak: TruePeak,
}

// What a call comes to, with the filter as it is afterwards. A refused call leaves it as given.
#[derive(Clone, Copy)]
pub struct Filtered {
    pub answer: Answer,
    pub filter: Filter,
}

// A filter at rest. A channel count that is 0 or above 8 is refused by each call.
pub fn new(channels: usize, rate: u32, switches: Switches, coefficients: Coefficients) -> Filter
    ensures { result ≡ resting channels rate switches coefficients }
{
    Filter {
        channels,
        rate,
        switches,
        coefficients,
        state: State { values: [0.0; 40] },
        peaks: Peaks { values: [0.0; 8] },
        true_peak: TruePeak::new(),
    }
}

// The filter with another state, other peaks and other true peaks.
pub fn with(filter: Filter, state: State, peaks: Peaks, trues: TruePeak) -> Filter
    ensures { result ≡ moved filter state peaks trues }
{
    Filter {
        state,
        peaks,
        true_peak: trues,
        ..filter
    }
}

// The filter with peaks of 0, a state at rest and an interpolator that has heard nothing.
pub fn reset(filter: Filter) -> Filter
    ensures { result ≡ moved filter at_rest (record { values = no_peaks }) silent }
{
    new(
        filter.channels,
        filter.rate,
        filter.switches,
        filter.coefficients,
    )
}

// The filter with peaks of 0.
pub fn reset_peaks(filter: Filter) -> Filter
    ensures { result ≡ moved filter filter.state (record { values = no_peaks }) (record { memory = filter.true_peak.memory; peaks = no_peaks }) }
{
    let trues = TruePeak {
        peaks: [0.0; 8],
        ..filter.true_peak
    };
    with(filter, filter.state, Peaks { values: [0.0; 8] }, trues)
}
