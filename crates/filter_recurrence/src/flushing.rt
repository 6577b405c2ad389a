// The flush of the weighting's state at the end of a call.
ghost use Rattle.std.specs.Prelude.{◌≡◌, cond};
ghost use Rattle.filter_checks.specs.Calls.{used};
ghost use Rattle.filter_recurrence.specs.Recurrence.{flush, flushed};
ghost use Rattle.filter_recurrence.specs.Channels.{memory_of, with_memory, over_used};

use crate::Memory;

// 2^-1022, the smallest normal f64, and its negative bound the values that are flushed. Two comparisons are fewer operations than the library's `abs` and one.
fn flush_one(v: f64) -> f64
    ensures { result ≡ flush v }
{
    if -f64::MIN_POSITIVE < v && v < f64::MIN_POSITIVE {
        0.0
    } else {
        v
    }
}

impl Memory {
    // Every value of a memory, flushed.
    fn flushed(self) -> Memory
        ensures { result ≡ flushed self }
    {
        Memory {
            s0: flush_one(self.s0),
            s1: flush_one(self.s1),
            s2: flush_one(self.s2),
            s3: flush_one(self.s3),
            s4: flush_one(self.s4),
        }
    }
}

// Channel k at its map byte.
fn flush_channel(state: &mut [f64; 40], byte: u8, k: usize)
    ensures { let v = state.old in state.new ≡ cond (used byte) (with_memory v k (flushed (memory_of v k))) v }
{
    if byte != 0 {
        Memory::load(state, k).flushed().store(state, k);
    }
}

// Every used channel's memory, flushed. A map byte of 0 is an unused channel.
pub fn flush_used(state: &mut [f64; 40], map: &[u8])
    ensures { state.new ≡ over_used (λ _ m. flushed m) map.now 0 state.old }
{
    for (k, byte) in map.iter().enumerate() {
        flush_channel(state, *byte, k);
    }
}
