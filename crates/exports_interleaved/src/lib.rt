// The functions of the C interface of `Interleaved`; exports_interleaved_c has them for C, as include/xelamphoun.h declares them. C hands over
// no `Interleaved`: each takes the slice and the numbers, makes the struct, and asks it; `part` does so for samples of every kind.
#![tactic(auto)]

ghost use Rattle.std.specs.Prelude.{◌≡◌};
ghost use Rattle.samples.specs.Sample.{samples_of16, samples_of_f32};
ghost use Rattle.base_refusals.specs.Codes.{code, value_or};
ghost use Rattle.exports_interleaved.specs.Part.{part_of, frames_of_part, sample_of_part, place_code, sample_else};

mod part;

pub fn xel_interleaved_channels_i16(
    data: &[i16],
    channels: usize,
    first: usize,
    end: usize,
) -> usize
    ensures { result ≡ (part_of channels first end «data».now).channels }
{
    part::channels(data, channels, first, end)
}

pub fn xel_interleaved_frames_i16(
    data: &[i16],
    channels: usize,
    first: usize,
    end: usize,
    frames: &mut usize,
) -> u8
    ensures { (result ≡ code (frames_of_part (part_of channels first end «data».now)))
        × (frames.new ≡ value_or frames.old (frames_of_part (part_of channels first end «data».now))) }
{
    part::frames(data, channels, first, end, frames)
}

pub fn xel_interleaved_sample_i16(
    data: &[i16],
    channels: usize,
    first: usize,
    end: usize,
    channel: usize,
    frame: usize,
    sample: &mut f64,
) -> u8
    ensures { (result ≡ place_code (sample_of_part samples_of16 (part_of channels first end «data».now) channel frame))
        × (sample.new ≡ sample_else sample.old (sample_of_part samples_of16 (part_of channels first end «data».now) channel frame)) }
{
    part::sample(data, channels, first, end, channel, frame, sample)
}

pub fn xel_interleaved_channels_f32(
    data: &[f32],
    channels: usize,
    first: usize,
    end: usize,
) -> usize
    ensures { result ≡ (part_of channels first end «data».now).channels }
{
    part::channels(data, channels, first, end)
}

pub fn xel_interleaved_frames_f32(
    data: &[f32],
    channels: usize,
    first: usize,
    end: usize,
    frames: &mut usize,
) -> u8
    ensures { (result ≡ code (frames_of_part (part_of channels first end «data».now)))
        × (frames.new ≡ value_or frames.old (frames_of_part (part_of channels first end «data».now))) }
{
    part::frames(data, channels, first, end, frames)
}

pub fn xel_interleaved_sample_f32(
    data: &[f32],
    channels: usize,
    first: usize,
    end: usize,
    channel: usize,
    frame: usize,
    sample: &mut f64,
) -> u8
    ensures { (result ≡ place_code (sample_of_part samples_of_f32 (part_of channels first end «data».now) channel frame))
        × (sample.new ≡ sample_else sample.old (sample_of_part samples_of_f32 (part_of channels first end «data».now) channel frame)) }
{
    part::sample(data, channels, first, end, channel, frame, sample)
}
