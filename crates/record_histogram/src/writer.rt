// Records of kinds 1 and 257: the 1,000 counters of a histogram, written.
ghost use Rattle.std.specs.Prelude.{◌≡◌, ◌*◌, length};
ghost use Rattle.base_refusals.specs.Outcome.{said_by, kept_by};
ghost use Rattle.base_refusals.specs.Answer.{said};
ghost use Rattle.base_fields.specs.Field.{low_bytes, bytes_of};
ghost use Rattle.bins.specs.Bin.{bins};
ghost use Rattle.record_layout.specs.Layout.{count_width, all_bytes};
ghost use Rattle.record_histogram.specs.Writing.{write_counters, write_histogram, write_third_histogram};

use crate::reader::COUNT;
use base_fields::Order;
use base_refusals::Refusal;
use bins::Count;
use record_layout::{Kind, Model};

// The bytes of a whole record.
const RECORD: usize = record_layout::LENGTH_BYTES + record_layout::HISTOGRAM_LENGTH as usize;

// The word whose bytes low byte first are this one's in an order. Bytes that are written low byte first are one store.
fn low_first(order: Order, word: u32) -> u32
    ensures { low_bytes count_width result ≡ bytes_of order count_width word }
{
    match order {
        Order::LowFirst => word,
        Order::HighFirst => base_fields::words::turned_word(word),
    }
}

// Each word's number goes into its four bytes.
fn write_words(order: Order, words: &[u32], fields: &mut [u8])
    requires { length fields.old ≡ count_width * length words.now }
    ensures { fields.new ≡ all_bytes order count_width words.now }
{
    for (i, word) in words.iter().enumerate() {
        let at = COUNT * i;
        let number = u64::from(low_first(order, *word));
        base_fields::put_number(Order::LowFirst, &mut fields[at..at + COUNT], number);
    }
}

// By way of places of its own, as in reading.
fn write_by_places(order: Order, counters: &[Count], fields: &mut [u8])
    requires { (length counters.now ≡ bins) × (length fields.old ≡ count_width * bins) }
    ensures { fields.new ≡ all_bytes order count_width counters.now }
{
    let mut places = [0u32; bins::BINS];
    places.copy_from_slice(counters);
    write_words(order, &places, fields);
}

fn write_counters(order: Order, counters: &[Count], fields: &mut [u8])
    requires { (length counters.now ≡ bins) × (length fields.old ≡ count_width * bins) }
    ensures { fields.new ≡ all_bytes order count_width counters.now }
{
    match order {
        Order::LowFirst => write_by_places(order, counters, fields),
        Order::HighFirst => write_words(order, counters, fields),
    }
}

// The record of a histogram as a model has it, at the output's first places, and how many bytes it has.
fn write_of(model: Model, counters: &[Count], out: &mut [u8]) -> Result<usize, Refusal>
    ensures { (said result ≡ said_by (write_counters model counters.now out.old))
        × (out.new ≡ kept_by out.old (write_counters model counters.now out.old)) }
{
    if counters.len() != bins::BINS {
        return Err(Refusal::STORE);
    }
    if out.len() < RECORD {
        return Err(Refusal::ROOM);
    }
    let kind = Kind::Histogram(model);
    record_layout::put_head(kind, record_layout::HISTOGRAM_LENGTH, out);
    write_counters(
        record_layout::order_of(kind),
        counters,
        &mut out[record_layout::HEAD..RECORD],
    );
    Ok(RECORD)
}

// Kind 1. Two names, and one writer behind them, as in reading.
pub fn write_histogram(counters: &[Count], out: &mut [u8]) -> Result<usize, Refusal>
    ensures { (said result ≡ said_by (write_histogram counters.now out.old))
        × (out.new ≡ kept_by out.old (write_histogram counters.now out.old)) }
{
    write_of(Model::Ours, counters, out)
}

// Kind 257.
pub fn write_third_histogram(counters: &[Count], out: &mut [u8]) -> Result<usize, Refusal>
    ensures { (said result ≡ said_by (write_third_histogram counters.now out.old))
        × (out.new ≡ kept_by out.old (write_third_histogram counters.now out.old)) }
{
    write_of(Model::Third, counters, out)
}
