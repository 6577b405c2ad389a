// The figures of a report on one histogram's record: how many blocks, the bins of the range's two energies, and the range in tenths.
#![tactic(auto)]

ghost use Rattle.std.specs.Prelude.{◌≡◌, length};
ghost use Rattle.base_refusals.specs.Outcome.{said_by};
ghost use Rattle.bins.specs.Bin.{bins};
ghost use Rattle.record_summary.specs.Summary.{said, figures_of, summary_of};

use base_refusals::Refusal;
use bins::Count;
use history_set::set::{Entry, Histories, Shape};
use range_one::Bins;
use range_ranks::spans::Span;

// What a report says.
#[derive(Clone, Copy)]
pub enum Summary {
    Ranged {
        blocks: u64,
        low: usize,
        high: usize,
        range: usize,
    },
    Rangeless(u64),
}

// The figures of a histogram, by the range's own question over it alone.
fn figures(counters: &[Count]) -> Result<Summary, Refusal>
    requires { length counters.now ≡ bins }
    ensures { said result ≡ said_by (figures_of counters.now) }
{
    let blocks = Bins { counters }.blocks();
    let entries = [Entry {
        shape: Shape::Histogram(0),
    }];
    let set = Histories {
        entries: &entries,
        counters,
        energies: &[],
    };
    match range::loudness_range(set, &mut []) {
        Span::Found(low, high) => {
            let low = bins::search::find_histogram_index(low);
            let high = bins::search::find_histogram_index(high);
            Ok(Summary::Ranged {
                blocks,
                low,
                high,
                range: high.saturating_sub(low),
            })
        }
        Span::Nothing => Ok(Summary::Rangeless(blocks)),
        Span::NotANumber => Ok(Summary::Rangeless(blocks)),
        Span::Refused(refusal) => Err(refusal),
    }
}

// The figures of the histogram in a record, or what refuses the record.
pub fn of_record(bytes: &[u8]) -> Result<Summary, Refusal>
    ensures { said result ≡ said_by (summary_of bytes.now) }
{
    let mut counters: [Count; bins::BINS] = [0; bins::BINS];
    record_histogram::reader::read_histogram(bytes, &mut counters)?;
    figures(&counters)
}
