// The two parts of interleaved samples that are split at a frame. Past the end the first part is the whole.
ghost use Rattle.std.specs.Prelude.{◌≡◌, min};
ghost use Rattle.interleaved_slices.specs.Parts.{place_of, up_to, from_on};

// How many samples stand before a frame, and all where the frame lies past the end. No product is formed that could wrap.
fn before(channels: usize, frame: usize, samples: usize) -> usize
    ensures { result ≡ min (place_of channels frame) samples }
{
    if channels == 0 {
        return 0;
    }
    if samples / channels < frame {
        return samples;
    }
    frame * channels
}

pub fn up_to<S>(samples: &[S], channels: usize, frame: usize) -> &[S]
    ensures { result.now ≡ up_to channels frame samples.now }
{
    &samples[..before(channels, frame, samples.len())]
}

pub fn from_on<S>(samples: &[S], channels: usize, frame: usize) -> &[S]
    ensures { result.now ≡ from_on channels frame samples.now }
{
    &samples[before(channels, frame, samples.len())..]
}
