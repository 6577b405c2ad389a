// What a filter's caller reads of it: a channel's peaks.
ghost use Rattle.std.specs.Prelude.{◌≡◌, cond, ltb, slice_get, None};
ghost use Rattle.filter.specs.Peaks.{peak_of};

use crate::Filter;

// A channel's place among eight, where there is such a channel.
fn stored<T: Copy>(channels: usize, places: &[T; 8], channel: usize) -> Option<T>
    ensures { result ≡ cond (ltb channel channels) (slice_get places.now channel) None }
{
    if channels <= channel {
        return None;
    }
    places.get(channel).copied()
}

// A channel's sample peak, and 0 where the filter has no such channel.
pub fn sample_peak(filter: Filter, channel: usize) -> f64
    ensures { result ≡ peak_of filter filter.peaks.values channel }
{
    stored(filter.channels, &filter.peaks.values, channel).unwrap_or(0.0)
}

// A channel's true peak, and 0 where the filter has no such channel.
pub fn true_peak(filter: Filter, channel: usize) -> f32
    ensures { result ≡ peak_of filter filter.true_peak.peaks channel }
{
    stored(filter.channels, &filter.true_peak.peaks, channel).unwrap_or(0.0)
}
