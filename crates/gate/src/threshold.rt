// The relative threshold of the blocks of histories, and that of a single history.
ghost use Rattle.std.specs.Prelude.{◌≡◌};
ghost use Rattle.base_refusals.specs.Outcome.{answers, said_by};
ghost use Rattle.base_refusals.specs.Rows.{by_rows};
ghost use Rattle.gate.specs.Relative.{threshold_of, level_of, level_rows, relative_of, said};

use crate::blocks::Totals;
use crate::table::BinEnergies;
use base_refusals::Refusal;
use bins::Count;
use history_set::set::{Entry, Histories};

// The loudness of the absolute gate, which stands for a threshold where there is no block.
const LOWEST: f64 = -70.0;

// An energy, or where there is no block a loudness.
#[derive(Clone, Copy)]
pub enum Threshold {
    Loudness(f64),
    Energy(f64),
}

// The threshold of some blocks: a tenth of their mean energy, 10 LU down.
pub(crate) fn threshold_of(totals: Totals) -> f64
    ensures { result ≡ threshold_of totals }
{
    totals.mean() * 0.1
}

// The same where there may be none, or one that is NaN.
fn level(totals: Totals) -> Result<Threshold, Refusal>
    ensures { said result ≡ said_by (by_rows (level_rows totals) (answers (level_of totals))) }
{
    if totals.count == 0 {
        return Ok(Threshold::Loudness(LOWEST));
    }
    if totals.sum.is_nan() {
        return Err(Refusal::NAN);
    }
    Ok(Threshold::Energy(threshold_of(totals)))
}

// The relative threshold of a single history.
pub fn relative_threshold(
    entry: Entry,
    counters: &[Count],
    energies: &[f64],
) -> Result<Threshold, Refusal>
    ensures { said result ≡ said_by (relative_of entry counters.now energies.now) }
{
    let alone = Histories {
        entries: &[entry],
        counters,
        energies,
    };
    let totals = crate::sums::of_set(&BinEnergies::new(), alone)?;
    level(totals)
}
