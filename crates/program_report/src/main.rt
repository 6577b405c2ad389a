// Reports on one histogram's record on standard input: the total of its blocks, the bins of its range and the range in tenths.
#![tactic(auto)]

use record_report::Report;
use std::io;

fn main(rt: HostRuntime) -> io::Result<()> {
    // The buffer is longer than a record, so that a longer input is seen to be one.
    let mut input = program_io::buffer();
    let length = program_io::read_full(&mut rt.stdin(), &mut input)?;
    let report = Report {
        summary: record_summary::of_record(&input[..length]),
    };
    print!(rt; "{report}")
}
