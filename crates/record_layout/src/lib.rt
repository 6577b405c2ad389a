// What records have in common: the length and the kind in front, and how a record is written.
#![tactic(auto)]

ghost use Rattle.std.specs.Prelude.{◌≡◌};
ghost use Rattle.base_refusals.specs.Outcome.{said_by};
ghost use Rattle.base_refusals.specs.Answer.{said};
ghost use Rattle.record_layout.specs.Layout.{kind_number, known_of, order_of, can_be, frame_of, with_head};

use base_fields::Order;
use base_refusals::{Answer, Refusal};

// The bytes of the length, and of length and kind.
pub const LENGTH_BYTES: usize = 4;

pub const HEAD: usize = 6;

// The length of a histogram's record, and the least of a queue's: what follows the length field.
pub const HISTOGRAM_LENGTH: u64 = 4002;

const QUEUE_LEAST: u64 = 10;

// Whose records they are: our own, or those of the third model.
#[derive(Clone, Copy, Debug, PartialEq, Eq)]
pub enum Model {
    Ours,
    Third,
}

// The kinds of record.
#[derive(Clone, Copy, Debug, PartialEq, Eq)]
pub enum Kind {
    Histogram(Model),
    Queue(Model),
}

// The number that stands for a kind in its records.
impl From<Kind> for u64 {
    ghost from_gives = { λ kind number. number ≡ kind_number kind };

    fn from(kind: Kind) -> u64 {
        match kind {
            Kind::Histogram(Model::Ours) => 1,
            Kind::Queue(Model::Ours) => 2,
            Kind::Histogram(Model::Third) => 257,
            Kind::Queue(Model::Third) => 258,
        }
    }
}

// The kind that has a number, where one has. An Option and no TryFrom: of a number that no kind has there is nothing more to say.
pub fn kind_of(number: u64) -> Option<Kind>
    ensures { result ≡ known_of number }
{
    match number {
        1 => Some(Kind::Histogram(Model::Ours)),
        2 => Some(Kind::Queue(Model::Ours)),
        257 => Some(Kind::Histogram(Model::Third)),
        258 => Some(Kind::Queue(Model::Third)),
        _ => None,
    }
}

// The order of the bytes in the fields of a body: it follows from the kind.
pub fn order_of(kind: Kind) -> Order
    ensures { result ≡ order_of kind }
{
    let (Kind::Histogram(model) | Kind::Queue(model)) = kind;
    match model {
        Model::Ours => Order::LowFirst,
        Model::Third => Order::HighFirst,
    }
}

// Whether a record of the kind may have this length.
fn can_be(kind: Kind, length: u64) -> bool
    ensures { result ≡ can_be kind length }
{
    match kind {
        Kind::Histogram(_) => length == HISTOGRAM_LENGTH,
        Kind::Queue(_) => QUEUE_LEAST <= length,
    }
}

// Whether these bytes start as a record of the kind, and its length is theirs.
pub fn frame(kind: Kind, bytes: &[u8]) -> Answer
    ensures { said result ≡ said_by (frame_of kind bytes.now) }
{
    if bytes.len() < HEAD {
        return Err(Refusal::LENGTH);
    }
    if base_fields::number_at(bytes, LENGTH_BYTES, 2) != u64::from(kind) {
        return Err(Refusal::KIND);
    }
    let length = base_fields::number_at(bytes, 0, LENGTH_BYTES);
    if length != (bytes.len() - LENGTH_BYTES) as u64 {
        return Err(Refusal::LENGTH);
    }
    if !can_be(kind, length) {
        return Err(Refusal::LENGTH);
    }
    Ok(())
}

// The length and the kind go to the first places of an output that has room for them.
pub fn put_head(kind: Kind, length: u64, out: &mut [u8])
    ensures { out.new ≡ with_head kind length out.old }
{
    if HEAD <= out.len() {
        base_fields::put_number(Order::LowFirst, &mut out[..LENGTH_BYTES], length);
        base_fields::put_number(
            Order::LowFirst,
            &mut out[LENGTH_BYTES..HEAD],
            u64::from(kind),
        );
    }
}
