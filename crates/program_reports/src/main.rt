// Reports on each record of a list on standard input, with an empty line after each report. Before each record stands its length, a u32, low byte first.
#![tactic(auto)]

use record_report::Report;
use std::io;
use std::io::Read;

fn main(rt: HostRuntime) -> io::Result<()> {
    let mut list = rt.stdin();
    // Nothing says that the input ends, so the records are counted.
    for _ in 0..1_000_000u64 {
        if !report_one(&rt, &mut list)? {
            break;
        }
    }
    Ok(())
}

// Whether there was a length and all the bytes that it announces.
fn report_one(rt: &impl Print, list: &mut impl Read) -> io::Result<bool> {
    let mut length = [0u8; 4];
    if !program_io::read_whole(list, &mut length, 4)? {
        return Ok(false);
    }
    let size = base_fields::number_at(&length, 0, 4);
    let mut input = program_io::buffer();
    if !program_io::read_whole(list, &mut input, size)? {
        return Ok(false);
    }
    let report = Report {
        summary: record_summary::of_record(&input[..size as usize]),
    };
    println!(rt; "{report}")?;
    Ok(true)
}
