// The text of a report on a record: its lines, as document 01 has them.
#![tactic(auto)]

ghost use Rattle.std.specs.Prelude.{Some};
ghost use Rattle.record_report.specs.Lines.{lines_of};

use base_refusals::Refusal;
use record_summary::Summary;
use std::fmt;
use std::fmt::Write;

// A report: the figures of a record, or what refused it.
#[derive(Clone, Copy)]
pub struct Report {
    pub summary: Result<Summary, Refusal>,
}

impl fmt::Display for Report {
    ghost output = { λ report. Some (lines_of report) };

    fn fmt<W: fmt::Write>(&self, f: &mut fmt::Formatter<W>) -> fmt::Result {
        match self.summary {
            Ok(
                Summary::Ranged {
                    blocks,
                    low,
                    high,
                    range,
                },
            ) => writeln!(f, "blocks {blocks}\nlow {low}\nhigh {high}\nrange {range}"),
            Ok(Summary::Rangeless(blocks)) => writeln!(f, "blocks {blocks}\nrange none"),
            Err(refusal) => writeln!(f, "refused {}", refusal as u8),
        }
    }
}
