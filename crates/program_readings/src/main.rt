// Prints the reading of each energy on standard input: a line of tenths of a LUFS, or `refused` and the number.
// An energy is the pattern of an f64, 8 bytes, low byte first.
#![tactic(auto)]

use std::io;
use std::io::Read;

fn main(rt: HostRuntime) -> io::Result<()> {
    let mut input = rt.stdin();
    // Nothing says that the input ends, so the turns are counted.
    for _ in 0..1_000_000_000u64 {
        if !read_one(&rt, &mut input)? {
            break;
        }
    }
    Ok(())
}

// Whether there was a whole energy.
fn read_one(rt: &impl Print, input: &mut impl Read) -> io::Result<bool> {
    let mut energy = [0u8; 8];
    if !program_io::read_whole(input, &mut energy, 8)? {
        return Ok(false);
    }
    print_reading(
        rt,
        base_floats::float_of(base_fields::number_at(&energy, 0, 8)),
    )?;
    Ok(true)
}

fn print_reading(rt: &impl Print, energy: f64) -> io::Result<()> {
    match bins::search::reading(energy) {
        Ok(tenths) => println!(rt; "{tenths}"),
        Err(refused) => println!(rt; "refused {}", refused as u8),
    }
}
