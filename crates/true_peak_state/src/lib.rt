// What the true peak keeps from one call to the next. What a call makes of it is defined here, and `true_peak` has its code.
#![tactic(auto)]

ghost use Rattle.std.specs.Prelude.{◌≡◌};
ghost use Rattle.true_peak_state.specs.TruePeak.{silent};

use true_peak_interp::Interp;

// The memory and the peaks of eight channels.
#[derive(Clone, Copy)]
pub struct TruePeak {
    // Channel c's last 23 samples, newest first, from place c * 23 on.
    pub memory: [f32; 184],
    pub peaks: [f32; 8],
}

impl TruePeak {
    // The samples before a frame's own that 24 taps reach.
    pub const PAST: usize = Interp::TWOFOLD_TAPS - 1;

    // Before the start: zeros.
    pub fn new() -> TruePeak
        ensures { result ≡ silent }
    {
        TruePeak {
            memory: [0.0; 184],
            peaks: [0.0; 8],
        }
    }
}
