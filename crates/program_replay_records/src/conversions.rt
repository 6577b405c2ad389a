// The cases of conversions: a record of one kind given, the other kind of the same content in the output.
// Each begins: u16 kind asked for, u16 number of bytes given, u16 places of the output, u16 refusal (0: none), u16 bytes written. Before, each byte of the
// output is 5A hex.
use crate::{after, count_at};

// A histogram's record: the bytes given and the bytes written, each told by what is not 0 in it.
pub(crate) fn histogram_same(case: &[u8]) -> bool {
    let mut bytes = program_io::buffer();
    let mut out = [0x5Au8; 4096];
    crate::histograms::fill_bytes(case, 10, &mut bytes);
    part(case, &bytes, &mut out) && crate::histograms::output_same(case, 202, &out)
}

// A queue's record: the 96 bytes that it is the first part of; the 96 bytes that the output is the first part of, afterwards.
pub(crate) fn queue_same(case: &[u8]) -> bool {
    let mut out = [0x5Au8; 96];
    part(case, after(case, 10), &mut out) && crate::queues::output_same(case, 106, &out)
}

// The bytes and places that the case has.
fn part(case: &[u8], bytes: &[u8], out: &mut [u8]) -> bool {
    let Some(bytes) = bytes.get(..count_at(case, 2)) else {
        return false;
    };
    match out.get_mut(..count_at(case, 4)) {
        Some(part) => {
            let asked = base_fields::number_at(case, 0, 2);
            let written = record_conversion::convert_asked(asked, bytes, part);
            crate::written_same(case, 6, 8, written)
        }
        None => false,
    }
}
