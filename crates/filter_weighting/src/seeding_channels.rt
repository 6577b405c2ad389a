// The weighting's state after a call, run by run and channel by channel, with no outputs. A channel has a byte of the map.
ghost use Rattle.std.specs.Prelude.{◌≡◌, cond, ◌/◌, ◌<◌, ◌≤◌, map, length};
ghost use Rattle.samples.specs.Frames.{column, most_channels};
ghost use Rattle.samples.specs.Stretches.{Reach};
ghost use Rattle.samples.specs.Stretches.{Framed};
ghost use Rattle.filter_checks.specs.Calls.{used};
ghost use Rattle.filter_recurrence.specs.Recurrence.{after, flushed};
ghost use Rattle.filter_recurrence.specs.Channels.{memory_of, with_memory, over_used};

use filter_recurrence::Memory;
use samples::Sample;
use samples::fills::RUN;

// Channel k's frames of a run: its memory after them.
// By the frames' numbers and not `chunks_exact`: there the compiler does not know how many turns it has, and takes one frame a turn (up to a tenth of the time).
fn advance(a: [f64; 5], m: Memory, run: &[f64], channels: usize, frames: usize, k: usize) -> Memory
    requires { Reach k channels frames (length run.now) }
    ensures { result ≡ after a m (column run.now k channels frames) }
{
    let mut w = m;
    for frame in 0..frames {
        w = w.shifted(w.head(a, run[k + frame * channels]));
    }
    w
}

// Channel k at its map byte. An unused one keeps its memory.
fn advance_channel(
    a: [f64; 5],
    state: &mut [f64; 40],
    byte: u8,
    run: &[f64],
    channels: usize,
    frames: usize,
    k: usize,
)
    requires { Reach k channels frames (length run.now) }
    ensures { let v = state.old in state.new ≡ cond (used byte) (with_memory v k (after a (memory_of v k) (column run.now k channels frames))) v }
{
    if byte == 0 {
        return;
    }
    let m = Memory::load(state, k);
    advance(a, m, run, channels, frames, k).store(state, k);
}

// Every channel's memory after its frames of a run.
fn advance_run(a: [f64; 5], state: &mut [f64; 40], run: &[f64], bytes: &[u8])
    requires some { 0 < length bytes.now }
    requires few { length bytes.now ≤ most_channels }
    ensures { state.new ≡ over_used (λ k m. after a m (column run.now k (length bytes.now) (length run.now / length bytes.now))) bytes.now 0 state.old }
{
    let channels = bytes.len();
    let frames = run.len() / channels;
    for (k, byte) in bytes.iter().enumerate() {
        advance_channel(a, state, *byte, run, channels, frames, k);
    }
}

// Every channel's memory after its frames, flushed at the end of the call. The samples of a run become floats once, for all channels.
pub(crate) fn advance_all<S: Sample>(
    a: [f64; 5],
    state: &mut [f64; 40],
    samples: &[S],
    bytes: &[u8],
)
    requires { Framed (length bytes.now) (length samples.now) }
    ensures { let src = map S.in_f64 samples.now in let channels = length bytes.now in
        state.new ≡ over_used (λ k m. flushed (after a m (column src k channels (length src / channels)))) bytes.now 0 state.old }
{
    let channels = bytes.len();
    let mut run: [f64; RUN] = [0.0; RUN];
    for part in samples.chunks(RUN / channels * channels) {
        samples::fills::fill(&mut run, part);
        advance_run(a, state, &run[..part.len()], bytes);
    }
    filter_recurrence::flushing::flush_used(state, bytes);
}
