// The histogram's bins: where each begins, and the energy that stands for it.
#![tactic(auto)]

ghost use Rattle.std.specs.Prelude.{◌≡◌};
ghost use Rattle.bins_tables.specs.Tables.{boundary_at, energy_at};

pub mod search;

// The count of a bin.
pub type Count = u32;

// How many bins a histogram has.
pub const BINS: usize = 1000;

// The ends of the scale: boundary 0 and boundary 1000.
const LOWEST: f64 = 0.000000117246530458229809506033624374;

const HIGHEST: f64 = 1172.465304582295630098087713122367858887;

pub fn lowest_boundary() -> f64
    ensures { result ≡ boundary_at 0 }
{
    LOWEST
}

pub(crate) fn highest_boundary() -> f64
    ensures { result ≡ boundary_at 1000 }
{
    HIGHEST
}

// Boundary i, which stands at -70 + i/10 LUFS. NaN past the table's end.
pub fn boundary(i: usize) -> f64
    ensures { result ≡ boundary_at i }
{
    if i <= BINS {
        let boundaries = bins_tables::all_boundaries();
        boundaries[i]
    } else {
        f64::NAN
    }
}

// Energy i, which stands at -69.95 + i/10 LUFS. NaN past the table's end.
pub fn energy(i: usize) -> f64
    ensures { result ≡ energy_at i }
{
    if i < BINS {
        let energies = bins_tables::all_energies();
        energies[i]
    } else {
        f64::NAN
    }
}

// A bin's counter as a number that the blocks of many bins add up in.
pub fn wide(count: Count) -> u64
    ensures { result ≡ count }
{
    count as u64
}
