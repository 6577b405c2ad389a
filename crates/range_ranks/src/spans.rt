// What a loudness range answers, and the gate that it is taken above.
ghost use Rattle.std.specs.Prelude.{◌≡◌};
ghost use Rattle.base_refusals.specs.Outcome.{says};
ghost use Rattle.bins_tables.specs.Tables.{energies as bin_energies, energy_at};
ghost use Rattle.range_ranks.specs.Span.{found, hundredth, gate_energy, said};

use base_refusals::Refusal;
use gate::blocks::Totals;

// The answer: the energies at the low and at the high rank. It stays an enum of its own, with the refusal as its last case: document 01 names this form.
#[derive(Clone, Copy)]
pub enum Span {
    Found(f64, f64),
    Nothing,
    NotANumber,
    Refused(Refusal),
}

// The share of the mean energy that the gate is: a hundredth, 20 LU down.
pub fn gate_share() -> f64
    ensures { result ≡ hundredth }
{
    0.01
}

// The gate of some blocks.
pub fn gate_energy(totals: Totals) -> f64
    ensures { result ≡ gate_energy totals }
{
    gate_share() * (totals.sum / std::num::nearest_u64_to_f64(totals.count))
}

// The energy that stands for a bin, by the lent table: `bins::energy` would make the table anew for each. NaN past its end.
fn energy_of(table: &[f64; 1000], bin: usize) -> f64
    requires { table.now ≡ bin_energies }
    ensures { result ≡ energy_at bin }
{
    if bin < 1000 { table[bin] } else { f64::NAN }
}

// The answer where the blocks of the two ranks are in these bins.
pub fn of_bins(low: usize, high: usize) -> Span
    ensures { said result ≡ says (found (energy_at low) (energy_at high)) }
{
    let table = bins_tables::all_energies();
    Span::Found(energy_of(&table, low), energy_of(&table, high))
}
