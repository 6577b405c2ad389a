// Records of kinds 1 and 257: the 1,000 counters of a histogram, read.
ghost use Rattle.std.specs.Prelude.{◌≡◌, ◌*◌, ◌≤◌, length};
ghost use Rattle.base_refusals.specs.Outcome.{said_by, kept_by};
ghost use Rattle.base_refusals.specs.Answer.{said};
ghost use Rattle.bins.specs.Bin.{bins};
ghost use Rattle.record_layout.specs.Layout.{count_width, numbers_in};
ghost use Rattle.record_histogram.specs.Record.{read_counters, read_histogram, read_third_histogram};

use base_fields::Order;
use base_refusals::{Answer, Refusal};
use bins::Count;
use record_layout::{Kind, Model};

// The bytes of each counter.
pub const COUNT: usize = 4;

// Each word becomes the number in its four bytes.
fn read_words(order: Order, fields: &[u8], words: &mut [u32])
    requires { count_width * length words.old ≤ length fields.now }
    ensures { words.new ≡ numbers_in order count_width (length words.old) fields.now }
{
    let (chunks, _) = fields.as_chunks::<COUNT>();
    for (i, word) in words.iter_mut().enumerate() {
        *word = base_fields::words::word(order, &chunks[i]);
    }
}

// By way of places of its own, which no lent slice overlaps.
fn read_by_places(order: Order, fields: &[u8], counters: &mut [Count])
    requires { (count_width * bins ≤ length fields.now) × (length counters.old ≡ bins) }
    ensures { counters.new ≡ numbers_in order count_width bins fields.now }
{
    let mut places = [0u32; bins::BINS];
    read_words(order, fields, &mut places);
    counters.copy_from_slice(&places);
}

// The counters in the fields of a body. High byte first every counter is turned on its way, so that places of its own would be a copy more.
fn read_counters(order: Order, fields: &[u8], counters: &mut [Count])
    requires { (count_width * bins ≤ length fields.now) × (length counters.old ≡ bins) }
    ensures { counters.new ≡ numbers_in order count_width bins fields.now }
{
    match order {
        Order::LowFirst => read_by_places(order, fields, counters),
        Order::HighFirst => read_words(order, fields, counters),
    }
}

// The counters of a model's record, or the refusal that comes first. Every check is made before a counter is written.
fn read_of(model: Model, bytes: &[u8], counters: &mut [Count]) -> Answer
    ensures { (said result ≡ said_by (read_counters model bytes.now counters.old))
        × (counters.new ≡ kept_by counters.old (read_counters model bytes.now counters.old)) }
{
    let kind = Kind::Histogram(model);
    record_layout::frame(kind, bytes)?;
    if counters.len() != bins::BINS {
        return Err(Refusal::STORE);
    }
    read_counters(
        record_layout::order_of(kind),
        &bytes[record_layout::HEAD..],
        counters,
    );
    Ok(())
}

// Kind 1. Documents 01 and 02 tell the two kinds apart by name; `read_of` is the one reader behind them.
pub fn read_histogram(bytes: &[u8], counters: &mut [Count]) -> Answer
    ensures { (said result ≡ said_by (read_histogram bytes.now counters.old))
        × (counters.new ≡ kept_by counters.old (read_histogram bytes.now counters.old)) }
{
    read_of(Model::Ours, bytes, counters)
}

// Kind 257.
pub fn read_third_histogram(bytes: &[u8], counters: &mut [Count]) -> Answer
    ensures { (said result ≡ said_by (read_third_histogram bytes.now counters.old))
        × (counters.new ≡ kept_by counters.old (read_third_histogram bytes.now counters.old)) }
{
    read_of(Model::Third, bytes, counters)
}
