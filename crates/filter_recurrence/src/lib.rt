// The recurrence of the weighting: a channel's memory, and one frame of it.
#![tactic(auto)]

ghost use Rattle.std.specs.Prelude.{◌≡◌};
ghost use Rattle.filter_recurrence.specs.Recurrence.{head, output, shift};

pub mod flushing;
pub mod states;

// The weighting's coefficients, as the Rust names them: `a` weighs the state, `b` the output.
#[derive(Clone, Copy)]
pub struct Coefficients {
    pub a: [f64; 5],
    pub b: [f64; 5],
}

// The memory of one channel.
#[derive(Clone, Copy)]
pub struct Memory {
    pub s0: f64,
    pub s1: f64,
    pub s2: f64,
    pub s3: f64,
    pub s4: f64,
}

// The sums stand from left to right, each operation rounded: document 01 names this form.
impl Memory {
    // The new s0 at a sample.
    pub fn head(self, a: [f64; 5], x: f64) -> f64
        ensures { result ≡ head a self x }
    {
        x - a[1] * self.s1 - a[2] * self.s2 - a[3] * self.s3 - a[4] * self.s4
    }

    // The output at the new s0.
    pub fn output(self, b: [f64; 5], s0: f64) -> f64
        ensures { result ≡ output b self s0 }
    {
        b[0] * s0 + b[1] * self.s1 + b[2] * self.s2 + b[3] * self.s3 + b[4] * self.s4
    }

    // The memory after a frame.
    pub fn shifted(self, s0: f64) -> Memory
        ensures { result ≡ shift self s0 }
    {
        Memory {
            s0,
            s1: s0,
            s2: self.s1,
            s3: self.s2,
            s4: self.s3,
        }
    }
}
