// Interleaved samples by number: how many frames there are, and a channel's sample in a frame.
// Every branch of the two questions stands here; the struct asks them of the slice that it holds.
#![tactic(auto)]

ghost use Rattle.std.specs.Prelude.{◌≡◌, map};
ghost use Rattle.base_refusals.specs.Answer.{said};
ghost use Rattle.base_refusals.specs.Outcome.{said_by};
ghost use Rattle.interleaved_slices.specs.Shown.{frames_in, sample_in};
ghost use Rattle.interleaved_slices.specs.Said.{sample_said};

use base_refusals::Refusal;
use samples::Sample;

pub mod parts;

// How many frames there are.
pub fn frames_of(channels: usize, samples: usize) -> Result<usize, Refusal>
    ensures { said result ≡ said_by (frames_in channels samples) }
{
    filter_checks::refused_frames(channels, samples)?;
    Ok(samples / channels)
}

// A channel's sample in a frame, and none past the end.
pub fn sample_at<S: Sample>(
    samples: &[S],
    channels: usize,
    channel: usize,
    frame: usize,
) -> Result<Option<f64>, Refusal>
    ensures { sample_said result ≡ said_by (sample_in channels (map S.in_f64 samples.now) channel frame) }
{
    let frames = frames_of(channels, samples.len())?;
    if channels <= channel || frames <= frame {
        return Ok(None);
    }
    Ok(Some(samples[frame * channels + channel].to_f64()))
}
