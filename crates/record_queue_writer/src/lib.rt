// Records of kinds 2 and 258: the energies of a queue, oldest first, written.
#![tactic(auto)]

ghost use Rattle.std.specs.Prelude.{◌≡◌, true, ◌*◌, length};
ghost use Rattle.base_refusals.specs.Outcome.{said_by, kept_by};
ghost use Rattle.base_refusals.specs.Answer.{said};
ghost use Rattle.base_fields.specs.Field.{low_bytes, bytes_of};
ghost use Rattle.history_queue.specs.Queue.{over, suits, held_of};
ghost use Rattle.record_layout.specs.Layout.{energy_width, all_bytes};
ghost use Rattle.record_queue_reader.specs.QueueRecord.{patterns_of};
ghost use Rattle.record_queue_writer.specs.Writing.{write_energies, write_queue, write_third_queue};

use base_fields::Order;
use base_refusals::Refusal;
use history_queue::Queue;
use record_layout::{Kind, Model};
use record_queue_reader::{ENERGIES_AT, ENERGY, HELD_AT, MAXIMUM_AT};

// The pattern whose bytes low byte first are this one's in an order. Bytes that are written low byte first are one store.
fn low_first(order: Order, pattern: u64) -> u64
    ensures { low_bytes energy_width result ≡ bytes_of order energy_width pattern }
{
    match order {
        Order::LowFirst => pattern,
        Order::HighFirst => base_fields::words::turned_double_word(pattern),
    }
}

// Each energy's pattern goes into its eight bytes.
fn write_energies(order: Order, energies: &[f64], fields: &mut [u8])
    requires { length fields.old ≡ energy_width * length energies.now }
    ensures { fields.new ≡ all_bytes order energy_width (patterns_of energies.now) }
{
    for (i, energy) in energies.iter().enumerate() {
        let at = ENERGY * i;
        let number = low_first(order, base_floats::pattern_of(*energy));
        base_fields::put_number(Order::LowFirst, &mut fields[at..at + ENERGY], number);
    }
}

// The held energies, oldest first: those up to the store's end, then those at its start.
fn write_held(order: Order, queue: Queue, store: &[f64], fields: &mut [u8])
    requires { (suits queue (length store.now) ≡ true) × (length fields.old ≡ energy_width * queue.held) }
    ensures { fields.new ≡ all_bytes order energy_width (patterns_of (held_of (over queue store.now))) }
{
    let parts = queue.parts(0, store.len());
    let older = &store[parts.from..parts.until];
    let newer = &store[parts.start..parts.end];
    let next = ENERGY * older.len();
    write_energies(order, older, &mut fields[..next]);
    write_energies(order, newer, &mut fields[next..]);
}

// The record of a queue as a model has it, at the output's first places, and how many bytes it has.
fn write_of(model: Model, queue: Queue, store: &[f64], out: &mut [u8]) -> Result<usize, Refusal>
    ensures { (said result ≡ said_by (write_energies model (over queue store.now) out.old))
        × (out.new ≡ kept_by out.old (write_energies model (over queue store.now) out.old)) }
{
    if !history_set::stores::sound_queue(queue, store) {
        return Err(Refusal::STORE);
    }
    let length = ENERGIES_AT + ENERGY * queue.held;
    if out.len() < length {
        return Err(Refusal::ROOM);
    }
    let kind = Kind::Queue(model);
    let order = record_layout::order_of(kind);
    let maximum = queue.maximum as u64;
    let held = queue.held as u64;
    record_layout::put_head(kind, (length - record_layout::LENGTH_BYTES) as u64, out);
    base_fields::put_number(order, &mut out[MAXIMUM_AT..HELD_AT], maximum);
    base_fields::put_number(order, &mut out[HELD_AT..ENERGIES_AT], held);
    write_held(order, queue, store, &mut out[ENERGIES_AT..length]);
    Ok(length)
}

// Kind 2. Two names, and one writer behind them, as in reading.
pub fn write_queue(queue: Queue, store: &[f64], out: &mut [u8]) -> Result<usize, Refusal>
    ensures { (said result ≡ said_by (write_queue (over queue store.now) out.old))
        × (out.new ≡ kept_by out.old (write_queue (over queue store.now) out.old)) }
{
    write_of(Model::Ours, queue, store, out)
}

// Kind 258.
pub fn write_third_queue(queue: Queue, store: &[f64], out: &mut [u8]) -> Result<usize, Refusal>
    ensures { (said result ≡ said_by (write_third_queue (over queue store.now) out.old))
        × (out.new ≡ kept_by out.old (write_third_queue (over queue store.now) out.old)) }
{
    write_of(Model::Third, queue, store, out)
}
