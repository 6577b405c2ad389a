// The weighting of a call, channel by channel. Two used channels are weighed side by side: one channel's sums wait on themselves, and two channels' do not wait on each other.
ghost use Rattle.std.specs.Prelude.{◌≡◌, true, cond, ◌+◌, ◌*◌, ◌<◌, ◌≤◌, map, length, set, drop, get_or};
ghost use Rattle.std.specs.Float.{nan};
ghost use Rattle.std.proofs.lemmas.List.Edits.{sets};
ghost use Rattle.filter_checks.specs.Calls.{used};
ghost use Rattle.samples.specs.Stretches.{Reach};
ghost use Rattle.samples.specs.Frames.{most_channels};
ghost use Rattle.filter_recurrence.specs.Recurrence.{next, out, flushed};
ghost use Rattle.filter_recurrence.specs.Channels.{each_used, over_used};
ghost use Rattle.filter_weighting.specs.Weighting.{over_parts};
ghost use Rattle.filter_weighting.specs.Inner.{memory_in, outs_in, given_in, place_of, kept_of, weigh_one, Parts};

use filter_recurrence::{Coefficients, Memory};
use samples::Sample;

// What a call's frames are weighed by, and where their outputs go: from `place` of each channel's part of the destination on.
#[derive(Clone, Copy)]
pub(crate) struct Work {
    pub(crate) c: Coefficients,
    pub(crate) channels: usize,
    pub(crate) frames: usize,
    pub(crate) part: usize,
    pub(crate) place: usize,
}

// A frame of one channel, by its sample.
fn frame(c: Coefficients, m: Memory, x: f64, dest: &mut [f64], j: usize) -> Memory
    requires { j < length dest.old }
    ensures value { result ≡ next c.a m x }
    ensures dest_after { dest.new ≡ set dest.old j (out c.a c.b m x) }
{
    let s0 = m.head(c.a, x);
    dest[j] = m.output(c.b, s0);
    m.shifted(s0)
}

// The memories of two channels that are weighed side by side.
#[derive(Clone, Copy)]
struct Pair {
    one: Memory,
    two: Memory,
}

impl Pair {
    // A frame of two channels side by side, the second's output `part` places after the first's.
    fn frame<S: Sample>(
        self,
        c: Coefficients,
        samples: &[S],
        i: usize,
        dest: &mut [f64],
        j: usize,
        part: usize,
    ) -> Pair
        requires i_in_bounds { i + 1 < length samples.now }
        requires part_in_bounds { j + part < length dest.old }
        ensures { let src = map S.in_f64 samples.now in let x = get_or src i nan in let y = get_or src (i + 1) nan in
            ((result.one ≡ next c.a self.one x) × (result.two ≡ next c.a self.two y))
            × (dest.new ≡ set (set dest.old j (out c.a c.b self.one x)) (j + part) (out c.a c.b self.two y)) }
    {
        let m = self.one;
        let n = self.two;
        let x = samples[i].to_f64();
        let y = samples[i + 1].to_f64();
        let s = m.head(c.a, x);
        let t = n.head(c.a, y);
        let u = m.output(c.b, s);
        let v = n.output(c.b, t);
        dest[j] = u;
        dest[j + part] = v;
        Pair {
            one: m.shifted(s),
            two: n.shifted(t),
        }
    }
}

impl Work {
    // Channel k's frames, two a turn: its memory after them, and their outputs in its part. Both samples of a turn are taken first.
    fn weigh<S: Sample>(self, m: Memory, samples: &[S], k: usize, dest: &mut [f64]) -> Memory
        requires reach { Reach k self.channels self.frames (length samples.now) }
        requires frames_in_bounds { place_of self k + self.frames ≤ length dest.old }
        ensures value { result ≡ memory_in self (map S.in_f64 samples.now) k m }
        ensures dest_after { let src = map S.in_f64 samples.now in dest.new ≡ sets dest.old (place_of self k) (outs_in self src k m) }
    {
        let c = self.c;
        let step = self.channels;
        let first = k * self.part + self.place;
        let turns = self.frames / 2;
        let mut w = m;
        for turn in 0..turns {
            let done = turn * 2;
            let i = k + done * step;
            let x = samples[i].to_f64();
            let y = samples[i + step].to_f64();
            w = frame(c, w, x, dest, first + done);
            w = frame(c, w, y, dest, first + done + 1);
        }
        let last = turns * 2;
        if last < self.frames {
            let x = samples[k + last * step].to_f64();
            w = frame(c, w, x, dest, first + last);
        }
        w
    }

    // The frames of channels k and k + 1, two a turn: their memories after them, and their outputs in their parts.
    fn weigh_two<S: Sample>(self, p: Pair, samples: &[S], k: usize, dest: &mut [f64]) -> Pair
        requires reach { Reach (k + 1) self.channels self.frames (length samples.now) }
        requires frames_le_part { (self.frames ≤ self.part) × (place_of self k + self.part + self.frames ≤ length dest.old) }
        ensures fact { let src = map S.in_f64 samples.now in (result.one ≡ memory_in self src k p.one) × (result.two ≡ memory_in self src (k + 1) p.two) }
        ensures dest_after { let src = map S.in_f64 samples.now in
            let first = sets dest.old (place_of self k) (outs_in self src k p.one) in
            dest.new ≡ sets first (place_of self k + self.part) (outs_in self src (k + 1) p.two) }
    {
        let c = self.c;
        let step = self.channels;
        let part = self.part;
        let first = k * part + self.place;
        let turns = self.frames / 2;
        let mut w = p;
        for turn in 0..turns {
            let done = turn * 2;
            let i = k + done * step;
            let j = first + done;
            w = w.frame(c, samples, i, dest, j, part);
            w = w.frame(c, samples, i + step, dest, j + 1, part);
        }
        let last = turns * 2;
        if last < self.frames {
            w = w.frame(c, samples, k + last * step, dest, first + last, part);
        }
        w
    }

    // Channel k at its map byte. An unused one keeps state and destination.
    fn weigh_channel<S: Sample>(
        self,
        state: &mut [f64; 40],
        byte: u8,
        samples: &[S],
        k: usize,
        dest: &mut [f64],
    )
        requires reach { Reach k self.channels self.frames (length samples.now) }
        requires frames_in_bounds { place_of self k + self.frames ≤ length dest.old }
        ensures { let given = kept_of state.old dest.old in
            kept_of state.new dest.new ≡ cond (used byte) (weigh_one self (map S.in_f64 samples.now) k given) given }
    {
        if byte == 0 {
            return;
        }
        let m = Memory::load(state, k);
        self.weigh(m, samples, k, dest).store(state, k);
    }

    // Channels k and k + 1, both used.
    fn weigh_pair<S: Sample>(self, state: &mut [f64; 40], samples: &[S], k: usize, dest: &mut [f64])
        requires k_bound { k + 1 < most_channels }
        requires reach { Reach (k + 1) self.channels self.frames (length samples.now) }
        requires frames_le_part { (self.frames ≤ self.part) × (place_of self k + self.part + self.frames ≤ length dest.old) }
        ensures { let s = map S.in_f64 samples.now in
            kept_of state.new dest.new ≡ weigh_one self s (k + 1) (weigh_one self s k (kept_of state.old dest.old)) }
    {
        let p = Pair {
            one: Memory::load(state, k),
            two: Memory::load(state, k + 1),
        };
        let after = self.weigh_two(p, samples, k, dest);
        after.one.store(state, k);
        after.two.store(state, k + 1);
    }

    // Channel k, and the one after it where both are used. Answers the channel after them: what is left to weigh gives what it gave before.
    fn weigh_next<S: Sample>(
        self,
        state: &mut [f64; 40],
        samples: &[S],
        bytes: &[u8],
        dest: &mut [f64],
        k: usize,
    ) -> usize
        requires k_lt_channels { k < self.channels }
        requires channels_in_bounds { self.frames * self.channels ≤ length samples.now }
        requires parts { Parts self (length bytes.now) (length dest.old) }
        ensures lower_bound { (k < result) × (result ≤ self.channels) }
        ensures dest_after { let step = weigh_one self (map S.in_f64 samples.now) in
            each_used step (drop result bytes.now) result (kept_of state.new dest.new)
            ≡ each_used step (drop k bytes.now) k (kept_of state.old dest.old) }
    {
        if both_used(bytes, k) {
            self.weigh_pair(state, samples, k, dest);
            return k + 2;
        }
        self.weigh_channel(state, bytes[k], samples, k, dest);
        k + 1
    }

    // Every channel's frames, up to two steps a turn. Each memory is flushed at the end of the call. `bytes` is the map.
    pub(crate) fn weigh_all<S: Sample>(
        self,
        state: &mut [f64; 40],
        samples: &[S],
        bytes: &[u8],
        dest: &mut [f64],
    )
        requires channels_in_bounds { self.frames * self.channels ≤ length samples.now }
        requires parts { Parts self (length bytes.now) (length dest.old) }
        ensures state_after { let src = map S.in_f64 samples.now in
            state.new ≡ over_used (λ k m. flushed (memory_in self src k m)) bytes.now 0 state.old }
        ensures dest_after { let src = map S.in_f64 samples.now in let given = given_in self src state.old in
            dest.new ≡ over_parts given self.part self.place bytes.now 0 dest.old }
    {
        // Stays a while loop: a step takes one channel or two. It stands at two places, so that the compiler keeps it a function of its own.
        let mut k = 0;
        while k < self.channels {
            k = self.weigh_next(state, samples, bytes, dest, k);
            if k < self.channels {
                k = self.weigh_next(state, samples, bytes, dest, k);
            }
        }
        filter_recurrence::flushing::flush_used(state, bytes);
    }
}

// Whether channel k and the one after it are both used.
fn both_used(bytes: &[u8], k: usize) -> bool
    requires { k < length bytes.now }
    ensures { result ≡ true → (k + 1 < length bytes.now) × ((used (get_or bytes.now k 0) ≡ true) × (used (get_or bytes.now (k + 1) 0) ≡ true)) }
{
    bytes[k] != 0 && 1 < bytes.len() - k && bytes[k + 1] != 0
}
