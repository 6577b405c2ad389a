// The weighting's flat state: each channel's memory in its own five places.
ghost use Rattle.std.specs.Prelude.{◌≡◌};
ghost use Rattle.filter_recurrence.specs.Channels.{memory_of, with_memory};

use crate::Memory;

// The weighting's memory: channel c's s0 to s4 at places 5c to 5c + 4. The flat form is document 01's.
#[derive(Clone, Copy)]
pub struct State {
    pub values: [f64; 40],
}

// The places of a channel. A state has room for as many channels as its places hold.
const PLACES: usize = 5;

// What is read where a state has no places.
const NOWHERE: Memory = Memory {
    s0: f64::NAN,
    s1: f64::NAN,
    s2: f64::NAN,
    s3: f64::NAN,
    s4: f64::NAN,
};

impl Memory {
    // Channel k's memory. A channel that the state has no places for has NaN for each value.
    pub fn load(state: &[f64; 40], k: usize) -> Memory
        ensures { result ≡ memory_of state.now k }
    {
        if state.len() / PLACES <= k {
            return NOWHERE;
        }
        let at = k * PLACES;
        Memory {
            s0: state[at],
            s1: state[at + 1],
            s2: state[at + 2],
            s3: state[at + 3],
            s4: state[at + 4],
        }
    }

    // Put into channel k's places, where the state has places for the channel.
    pub fn store(self, state: &mut [f64; 40], k: usize)
        ensures { state.new ≡ with_memory state.old k self }
    {
        if state.len() / PLACES <= k {
            return;
        }
        let at = k * PLACES;
        state[at] = self.s0;
        state[at + 1] = self.s1;
        state[at + 2] = self.s2;
        state[at + 3] = self.s3;
        state[at + 4] = self.s4;
    }
}
