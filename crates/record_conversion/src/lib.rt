// Records converted over their bytes alone: kinds 1 and 257 to each other, and kinds 2 and 258.
#![tactic(auto)]

ghost use Rattle.std.specs.Prelude.{◌≡◌, ◌*◌, ◌≤◌, length};
ghost use Rattle.base_refusals.specs.Outcome.{said_by, kept_by};
ghost use Rattle.base_refusals.specs.Answer.{said};
ghost use Rattle.base_fields.specs.Field.{number_in};
ghost use Rattle.record_layout.specs.declared.Kind.TheVariants.{Histogram, Queue};
ghost use Rattle.record_conversion.specs.Conversion.{other_model, converted, converted_asked};
ghost use Rattle.record_conversion.specs.Inner.{width_of, each_turned};

use base_fields::Order;
use base_refusals::Refusal;
use record_layout::{Kind, Model};
use record_queue_reader::ENERGIES_AT;

// The fields that records have: a counter or a number of four bytes, an energy of eight.
#[derive(Clone, Copy)]
enum Field {
    Word,
    DoubleWord,
}

impl Field {
    fn width(self) -> usize
        ensures { result ≡ width_of self }
    {
        match self {
            Field::Word => 4,
            Field::DoubleWord => 8,
        }
    }

    // The number of a field, its first byte the high one.
    fn number_in(self, bytes: &[u8]) -> u64
        ensures { result ≡ number_in Order.HighFirst (width_of self) bytes.now }
    {
        match self {
            Field::Word => u64::from(base_fields::words::word(Order::HighFirst, bytes)),
            Field::DoubleWord => base_fields::words::double_word(Order::HighFirst, bytes),
        }
    }

    // So many fields go to the same places of the output, each with its last byte first: the number is read before a byte of it is written.
    fn turn(self, bytes: &[u8], count: usize, out: &mut [u8])
        requires { (width_of self * count ≤ length bytes.now) × (length out.old ≡ width_of self * count) }
        ensures { out.new ≡ each_turned (width_of self) count bytes.now }
    {
        let width = self.width();
        for i in 0..count {
            let at = width * i;
            let number = self.number_in(&bytes[at..at + width]);
            base_fields::put_number(Order::LowFirst, &mut out[at..at + width], number);
        }
    }
}

// A function here and no method: no other crate turns a model into the other.
fn other_model(model: Model) -> Model
    ensures { result ≡ other_model model }
{
    match model {
        Model::Ours => Model::Third,
        Model::Third => Model::Ours,
    }
}

// Not one function with `convert_queue`: what checks the record and which fields it has are all that they do.
fn convert_histogram(model: Model, bytes: &[u8], out: &mut [u8]) -> Result<usize, Refusal>
    ensures { (said result ≡ said_by (converted (Histogram model) bytes.now out.old))
        × (out.new ≡ kept_by out.old (converted (Histogram model) bytes.now out.old)) }
{
    record_layout::frame(Kind::Histogram(model), bytes)?;
    let length = bytes.len();
    if out.len() < length {
        return Err(Refusal::ROOM);
    }
    let kind = Kind::Histogram(other_model(model));
    record_layout::put_head(kind, record_layout::HISTOGRAM_LENGTH, out);
    Field::Word.turn(
        &bytes[record_layout::HEAD..],
        bins::BINS,
        &mut out[record_layout::HEAD..length],
    );
    Ok(length)
}

// The energies' patterns are turned as they are: no store is needed.
fn convert_queue(model: Model, bytes: &[u8], out: &mut [u8]) -> Result<usize, Refusal>
    ensures { (said result ≡ said_by (converted (Queue model) bytes.now out.old))
        × (out.new ≡ kept_by out.old (converted (Queue model) bytes.now out.old)) }
{
    let queue = record_queue_reader::check_queue(model, bytes)?;
    let length = bytes.len();
    if out.len() < length {
        return Err(Refusal::ROOM);
    }
    let kind = Kind::Queue(other_model(model));
    record_layout::put_head(kind, (length - record_layout::LENGTH_BYTES) as u64, out);
    Field::Word.turn(
        &bytes[record_layout::HEAD..],
        2,
        &mut out[record_layout::HEAD..ENERGIES_AT],
    );
    Field::DoubleWord.turn(
        &bytes[ENERGIES_AT..],
        queue.held,
        &mut out[ENERGIES_AT..length],
    );
    Ok(length)
}

// A record of the kind becomes one of the other model's, at the output's first places, or the refusal that comes first. Every check is made before a byte is
// written.
pub fn convert(kind: Kind, bytes: &[u8], out: &mut [u8]) -> Result<usize, Refusal>
    ensures { (said result ≡ said_by (converted kind bytes.now out.old))
        × (out.new ≡ kept_by out.old (converted kind bytes.now out.old)) }
{
    match kind {
        Kind::Histogram(model) => convert_histogram(model, bytes, out),
        Kind::Queue(model) => convert_queue(model, bytes, out),
    }
}

// The same of a kind that is asked for by its number.
pub fn convert_asked(number: u64, bytes: &[u8], out: &mut [u8]) -> Result<usize, Refusal>
    ensures { (said result ≡ said_by (converted_asked number bytes.now out.old))
        × (out.new ≡ kept_by out.old (converted_asked number bytes.now out.old)) }
{
    match record_layout::kind_of(number) {
        Some(kind) => convert(kind, bytes, out),
        None if bytes.len() < record_layout::HEAD => Err(Refusal::LENGTH),
        None => Err(Refusal::KIND),
    }
}
