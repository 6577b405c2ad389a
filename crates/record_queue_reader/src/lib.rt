// Records of kinds 2 and 258: the energies of a queue, oldest first, read.
#![tactic(auto)]

ghost use Rattle.std.specs.Prelude.{◌≡◌, ℕ, Bool, true, ◌-◌, ◌*◌, ◌/◌, ◌≤◌, length};
ghost use Rattle.std.specs.Float.{binary64};
ghost use Rattle.std.specs.Float.Ieee.{of_bits};
ghost use Rattle.base_refusals.specs.Outcome.{said_by, kept_by};
ghost use Rattle.base_refusals.specs.Answer.{said};
ghost use Rattle.record_layout.specs.Layout.{length_width, energy_width, least_length, numbers_in, length_in};
ghost use Rattle.record_queue_reader.specs.QueueRecord.{
  numbers_fit,
  pattern_fits,
  every,
  all_fit,
  energies_of,
  check_queue,
  read_energies,
  read_queue,
  read_third_queue,
};
ghost use Rattle.record_queue_reader.specs.Inner.{finite_fits, body_checked};

use base_fields::Order;
use base_floats::{INFINITY_PATTERN, NAN_PATTERN};
use base_refusals::Refusal;
use history_queue::Queue;
use record_layout::{Kind, Model};

// The bytes of a number, and of an energy.
pub const NUMBER: usize = 4;

pub const ENERGY: usize = 8;

// Where the fields of the body start: the maximum, the number of energies held, and the energies.
pub const MAXIMUM_AT: usize = record_layout::HEAD;

pub const HELD_AT: usize = MAXIMUM_AT + NUMBER;

pub const ENERGIES_AT: usize = HELD_AT + NUMBER;

#[tactic(auto, unfolding(crate::specs::QueueRecord::numbers_fit))]
fn numbers_fit(maximum: usize, held: usize) -> bool
    ensures { result ≡ numbers_fit maximum held }
{
    1 <= maximum && maximum <= history_queue::LONGEST && held <= maximum
}

// Whether a pattern is that of a finite energy from boundary 0 on, as almost every one is.
fn finite_fits(pattern: u64) -> bool
    ensures { result ≡ finite_fits pattern }
{
    pattern < INFINITY_PATTERN && f64::from_bits(pattern) >= bins::lowest_boundary()
}

// Whether a pattern may stand in a record: that of an energy from boundary 0 on, or NaN's.
fn pattern_fits(pattern: u64) -> bool
    ensures { result ≡ pattern_fits pattern }
{
    finite_fits(pattern) | (pattern == INFINITY_PATTERN) | (pattern == NAN_PATTERN)
}

// The energy of a pattern that fits: every pattern but NaN's own is read as it is. `base_floats::float_of` would look for every NaN's.
fn energy_of(pattern: u64) -> f64
    requires { pattern_fits pattern ≡ true }
    ensures { result ≡ of_bits binary64 pattern }
{
    if pattern == NAN_PATTERN {
        return f64::NAN;
    }
    f64::from_bits(pattern)
}

// Whether a test lets the patterns in fields of eight bytes pass. Every pattern is looked at, also past one that does not.
fn every<F: Fn(u64) -> bool>(order: Order, fields: &[u8], test: F) -> bool
    requires { F.IsAlwaysCallable test }
    ensures { (told : ℕ → Bool) → ((pattern : ℕ) (passes : Bool) → F.post test pattern passes → passes ≡ told pattern)
        → result ≡ every told (numbers_in order energy_width (length fields.now / energy_width) fields.now) }
{
    let (patterns, _) = fields.as_chunks::<ENERGY>();
    let mut all = true;
    for pattern in patterns {
        all &= test(base_fields::words::double_word(order, pattern));
    }
    all
}

// Infinity and NaN are rare, and the test that lets them in takes longer.
fn energies_fit(order: Order, fields: &[u8]) -> bool
    ensures { result ≡ all_fit (numbers_in order energy_width (length fields.now / energy_width) fields.now) }
{
    every(order, fields, finite_fits) || every(order, fields, pattern_fits)
}

fn read_energies(order: Order, fields: &[u8], store: &mut [f64])
    requires { (energy_width * length store.old ≤ length fields.now)
        × (all_fit (numbers_in order energy_width (length store.old) fields.now) ≡ true) }
    ensures { store.new ≡ energies_of (numbers_in order energy_width (length store.old) fields.now) }
{
    let (patterns, _) = fields.as_chunks::<ENERGY>();
    for (i, energy) in store.iter_mut().enumerate() {
        *energy = energy_of(base_fields::words::double_word(order, &patterns[i]));
    }
}

// What comes after the length and the kind.
fn check_body(model: Model, bytes: &[u8]) -> Result<Queue, Refusal>
    requires { (least_length ≤ length bytes.now) × (length_in bytes.now ≡ length bytes.now - length_width) }
    ensures { said result ≡ said_by (body_checked model bytes.now) }
{
    let order = record_layout::order_of(Kind::Queue(model));
    let maximum = base_fields::words::word(order, &bytes[MAXIMUM_AT..HELD_AT]) as usize;
    let held = base_fields::words::word(order, &bytes[HELD_AT..ENERGIES_AT]) as usize;
    if !numbers_fit(maximum, held) {
        return Err(Refusal::CONTENT);
    }
    if bytes.len() != ENERGIES_AT + ENERGY * held {
        return Err(Refusal::LENGTH);
    }
    if !energies_fit(order, &bytes[ENERGIES_AT..]) {
        return Err(Refusal::CONTENT);
    }
    Ok(Queue {
        maximum,
        head: 0,
        held,
    })
}

// The queue that a model's record has, whatever store it is to be read into, or the refusal that comes first.
pub fn check_queue(model: Model, bytes: &[u8]) -> Result<Queue, Refusal>
    ensures { said result ≡ said_by (check_queue model bytes.now) }
{
    record_layout::frame(Kind::Queue(model), bytes)?;
    check_body(model, bytes)
}

// The queue of a model's record, its energies from the store's first place on. Every check is made before an energy is written.
fn read_of(model: Model, bytes: &[u8], store: &mut [f64]) -> Result<Queue, Refusal>
    ensures { (said result ≡ said_by (read_energies model bytes.now store.old))
        × (store.new ≡ kept_by store.old (read_energies model bytes.now store.old)) }
{
    let queue = check_queue(model, bytes)?;
    if store.len() != queue.maximum {
        return Err(Refusal::STORE);
    }
    let order = record_layout::order_of(Kind::Queue(model));
    read_energies(order, &bytes[ENERGIES_AT..], &mut store[..queue.held]);
    Ok(queue)
}

// Kind 2. Documents 01 and 02 tell the two kinds apart by name; `read_of` is the one reader behind them.
pub fn read_queue(bytes: &[u8], store: &mut [f64]) -> Result<Queue, Refusal>
    ensures { (said result ≡ said_by (read_queue bytes.now store.old))
        × (store.new ≡ kept_by store.old (read_queue bytes.now store.old)) }
{
    read_of(Model::Ours, bytes, store)
}

// Kind 258.
pub fn read_third_queue(bytes: &[u8], store: &mut [f64]) -> Result<Queue, Refusal>
    ensures { (said result ≡ said_by (read_third_queue bytes.now store.old))
        × (store.new ≡ kept_by store.old (read_third_queue bytes.now store.old)) }
{
    read_of(Model::Third, bytes, store)
}
