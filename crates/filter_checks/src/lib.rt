// The checks of a call over samples, in the order of the table. Each answers the first refusal.
#![tactic(auto)]

ghost use Rattle.std.specs.Prelude.{◌≡◌, ◌<◌};
ghost use Rattle.base_refusals.specs.Codes.{number_said};
ghost use Rattle.base_refusals.specs.Rows.{number_of};
ghost use Rattle.filter_checks.specs.Calls.{all_admitted, frame_rows, map_rows, dest_rows, seed_rows, process_rows};

use base_refusals::{Answer, Refusal};

// The channels that states and peaks have places for.
const MOST_CHANNELS: usize = 8;

// What a call with a destination is checked by: how many samples it has, the destination's length, and the index in each part that it starts at.
#[derive(Clone, Copy)]
pub struct Sizes {
    pub channels: usize,
    pub samples: usize,
    pub room: usize,
    pub start: usize,
}

fn all_admitted(map: &[u8]) -> bool
    ensures { result ≡ all_admitted map.now }
{
    map.iter().all(|byte| *byte <= 1)
}

// CHANNELS and SAMPLES, for every call. `samples` is their number.
#[tactic(auto, unfolding(crate::specs::Calls::frame_rows))]
pub fn refused_frames(channels: usize, samples: usize) -> Answer
    ensures { number_said result ≡ number_of (frame_rows channels samples) }
{
    if channels == 0 || MOST_CHANNELS < channels {
        return Err(Refusal::CHANNELS);
    }
    if samples % channels != 0 {
        return Err(Refusal::SAMPLES);
    }
    Ok(())
}

#[tactic(auto, unfolding(crate::specs::Calls::map_rows))]
fn refused_map(channels: usize, map: &[u8]) -> Answer
    ensures { number_said result ≡ number_of (map_rows channels map.now) }
{
    if map.len() != channels || !all_admitted(map) {
        return Err(Refusal::MAP);
    }
    Ok(())
}

// No sum is formed that could wrap.
#[tactic(auto, unfolding(crate::specs::Calls::dest_rows))]
fn refused_dest(loudness: bool, sizes: Sizes) -> Answer
    requires { 0 < sizes.channels }
    ensures { number_said result ≡ number_of (dest_rows loudness sizes) }
{
    if !loudness {
        return Ok(());
    }
    if sizes.room == 0 || sizes.room % sizes.channels != 0 {
        return Err(Refusal::DEST);
    }
    let frames = sizes.samples / sizes.channels;
    let part = sizes.room / sizes.channels;
    if part < frames || part - frames < sizes.start {
        return Err(Refusal::DEST);
    }
    Ok(())
}

// CHANNELS, SAMPLES and MAP, for a call without a destination.
pub fn refused_seed(channels: usize, samples: usize, map: &[u8]) -> Answer
    ensures { number_said result ≡ number_of (seed_rows channels samples map.now) }
{
    refused_frames(channels, samples)?;
    refused_map(channels, map)
}

// CHANNELS, SAMPLES, MAP and, with loudness on, DEST.
pub fn refused_process(loudness: bool, sizes: Sizes, map: &[u8]) -> Answer
    ensures { number_said result ≡ number_of (process_rows loudness sizes map.now) }
{
    refused_seed(sizes.channels, sizes.samples, map)?;
    refused_dest(loudness, sizes)
}
