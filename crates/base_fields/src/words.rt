// The numbers in fields of four and of eight bytes, as records have them one after the other.
ghost use Rattle.std.specs.Prelude.{◌≡◌};
ghost use Rattle.base_fields.specs.Field.{number_in, turned_round, word_width, widest};

use crate::Order;

// The number in a field's first four bytes, and in its first eight: no loop and no test a byte where it has so many.
pub fn word(order: Order, field: &[u8]) -> u32
    ensures { result ≡ number_in order word_width field.now }
{
    match field.first_chunk::<4>() {
        Some(bytes) => match order {
            Order::LowFirst => u32::from_le_bytes(*bytes),
            Order::HighFirst => u32::from_be_bytes(*bytes),
        },
        None => crate::number_of(order, field) as u32,
    }
}

pub fn double_word(order: Order, field: &[u8]) -> u64
    ensures { result ≡ number_in order widest field.now }
{
    match field.first_chunk::<8>() {
        Some(bytes) => match order {
            Order::LowFirst => u64::from_le_bytes(*bytes),
            Order::HighFirst => u64::from_be_bytes(*bytes),
        },
        None => crate::number_of(order, field),
    }
}

// The number whose bytes are a word's the other way round.
pub fn turned_word(word: u32) -> u32
    ensures { result ≡ turned_round word_width word }
{
    word.swap_bytes()
}

// The same of eight bytes.
pub fn turned_double_word(number: u64) -> u64
    ensures { result ≡ turned_round widest number }
{
    number.swap_bytes()
}
