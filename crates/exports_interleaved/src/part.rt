// Interleaved samples of which a part is asked about. Each function makes the struct and asks it.
ghost use Rattle.std.specs.Prelude.{◌≡◌};
ghost use Rattle.base_refusals.specs.Codes.{code, value_or};
ghost use Rattle.samples.specs.Sample.{samples_by};
ghost use Rattle.exports_interleaved.specs.Part.{part_of, frames_of_part, sample_of_part, place_code, sample_else};

use interleaved::Interleaved;
use samples::Sample;

// The code of a channel or a frame past the end.
const PAST_THE_END: u8 = 130;

fn part<'a, S: Sample>(
    data: &'a [S],
    channels: usize,
    first: usize,
    end: usize,
) -> Interleaved<'a, S>
    ensures { (result.samples.now ≡ (part_of channels first end «data».now).samples) × (result.channels ≡ (part_of channels first end «data».now).channels) }
{
    Interleaved::new(data, channels).up_to(end).from(first)
}

pub(crate) fn channels<S: Sample>(data: &[S], channels: usize, first: usize, end: usize) -> usize
    ensures { result ≡ (part_of channels first end «data».now).channels }
{
    part(data, channels, first, end).channels()
}

pub(crate) fn frames<S: Sample>(
    data: &[S],
    channels: usize,
    first: usize,
    end: usize,
    frames: &mut usize,
) -> u8
    ensures { (result ≡ code (frames_of_part (part_of channels first end «data».now)))
        × (frames.new ≡ value_or frames.old (frames_of_part (part_of channels first end «data».now))) }
{
    match part(data, channels, first, end).frames() {
        Ok(number) => {
            *frames = number;
            0
        }
        Err(refusal) => refusal as u8,
    }
}

pub(crate) fn sample<S: Sample>(
    data: &[S],
    channels: usize,
    first: usize,
    end: usize,
    channel: usize,
    frame: usize,
    sample: &mut f64,
) -> u8
    ensures { (result ≡ place_code (sample_of_part (samples_by S.in_f64) (part_of channels first end «data».now) channel frame))
        × (sample.new ≡ sample_else sample.old (sample_of_part (samples_by S.in_f64) (part_of channels first end «data».now) channel frame)) }
{
    match part(data, channels, first, end).sample(channel, frame) {
        Ok(Some(x)) => {
            *sample = x;
            0
        }
        Ok(None) => PAST_THE_END,
        Err(refusal) => refusal as u8,
    }
}
