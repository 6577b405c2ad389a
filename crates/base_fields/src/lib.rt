// Numbers in bytes: the fields of records and of lists of energies.
#![tactic(auto)]

ghost use Rattle.std.specs.Prelude.{◌≡◌, ◌+◌, ◌*◌, ◌^◌, ◌<◌, ◌≤◌, length};
ghost use Rattle.base_fields.specs.Field.{field_at, widest, narrowed, number_in, bytes_of};

pub mod words;

// The order in which the bytes of a field stand.
#[derive(Clone, Copy, Debug, PartialEq, Eq)]
pub enum Order {
    LowFirst,
    HighFirst,
}

const WIDEST: usize = 8;

// The number in the field of `width` bytes at a place, low byte first, and of the first eight where it is wider. A byte past the end counts as 0: those that
// are there tell the number.
pub fn number_at(bytes: &[u8], at: usize, width: usize) -> u64
    ensures { result ≡ field_at bytes.now at (narrowed width) }
{
    let start = at.min(bytes.len());
    let end = start + width.min(WIDEST).min(bytes.len() - start);
    number_of(Order::LowFirst, &bytes[start..end])
}

// A number of one byte more, the low one.
fn longer(number: u64, low: u8) -> u64
    requires { number < 2 ^ 56 }
    ensures { result ≡ low + 256 * number }
{
    u64::from(low) + 256 * number
}

// The number in all the bytes of a field, from the high one on.
fn number_of(order: Order, field: &[u8]) -> u64
    requires { length field.now ≤ widest }
    ensures { result ≡ number_in order (length field.now) field.now }
{
    let mut number = 0;
    match order {
        Order::LowFirst => {
            for place in (0..field.len()).rev() {
                number = longer(number, field[place]);
            }
        }
        Order::HighFirst => {
            for low in field {
                number = longer(number, *low);
            }
        }
    }
    number
}

// The bytes of a number fill the lent field, whatever its width: what the field has no room for is left out, and further bytes are 0.
pub fn put_number(order: Order, field: &mut [u8], number: u64)
    ensures { field.new ≡ bytes_of order (length field.old) number }
{
    let mut left = number;
    for byte in field.iter_mut() {
        *byte = (left % 256) as u8;
        left /= 256;
    }
    match order {
        Order::LowFirst => {}
        Order::HighFirst => field.reverse(),
    }
}
