// Interleaved samples as the Rust has them: a struct that keeps its reference to the lent slice beside the number of channels, for samples of every kind.
// Each function is thin: it takes the struct apart and calls a function on the slice and the numbers. Document 01 names this form.
#![tactic(auto)]

ghost use Rattle.std.specs.Prelude.{◌≡◌, length, map};
ghost use Rattle.base_refusals.specs.Answer.{said};
ghost use Rattle.base_refusals.specs.Outcome.{said_by};
ghost use Rattle.interleaved_slices.specs.Shown.{frames_in, sample_in};
ghost use Rattle.interleaved_slices.specs.Said.{sample_said};
ghost use Rattle.interleaved_slices.specs.Parts.{up_to, from_on};

use base_refusals::Refusal;
use interleaved_slices::parts;
use samples::Sample;

#[derive(Clone, Copy)]
pub struct Interleaved<'a, S> {
    pub samples: &'a [S],
    pub channels: usize,
}

impl<'a, S: Sample> Interleaved<'a, S> {
    // What the Rust refuses here, the questions refuse.
    pub fn new(samples: &'a [S], channels: usize) -> Interleaved<'a, S>
        ensures { (result.samples ≡ samples.entry) × (result.channels ≡ channels) }
    {
        Interleaved { samples, channels }
    }

    pub fn channels(self) -> usize
        ensures { result ≡ self.entry.channels }
    {
        self.channels
    }

    pub fn frames(self) -> Result<usize, Refusal>
        ensures { said result ≡ said_by (frames_in self.entry.channels (length self.entry.samples.now)) }
    {
        interleaved_slices::frames_of(self.channels, self.samples.len())
    }

    // A channel's sample in a frame, and none past the end.
    pub fn sample(self, channel: usize, frame: usize) -> Result<Option<f64>, Refusal>
        ensures { sample_said result ≡ said_by (sample_in self.entry.channels (map S.in_f64 self.entry.samples.now) channel frame) }
    {
        interleaved_slices::sample_at(self.samples, self.channels, channel, frame)
    }

    // The frames before a frame: the first of the Rust's `split_at`. Past the end it is the whole.
    pub fn up_to(self, frame: usize) -> Interleaved<'a, S>
        ensures { (result.samples.now ≡ up_to self.entry.channels frame self.entry.samples.now) × (result.channels ≡ self.entry.channels) }
    {
        Interleaved {
            samples: parts::up_to(self.samples, self.channels, frame),
            ..self
        }
    }

    // The frames from a frame on: the second of the Rust's `split_at`. Past the end it is empty.
    pub fn from(self, frame: usize) -> Interleaved<'a, S>
        ensures { (result.samples.now ≡ from_on self.entry.channels frame self.entry.samples.now) × (result.channels ≡ self.entry.channels) }
    {
        Interleaved {
            samples: parts::from_on(self.samples, self.channels, frame),
            ..self
        }
    }
}
