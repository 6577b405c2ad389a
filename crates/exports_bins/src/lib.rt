// The functions of the C interface of the tables, the bins and the readings; exports_bins_c has them for C, as include/xelamphoun.h declares them.
#![tactic(auto)]

ghost use Rattle.std.specs.Prelude.{◌≡◌};
ghost use Rattle.bins_tables.specs.Tables.{boundary_at, energy_at};
ghost use Rattle.bins.specs.Bin.{bin_of};
ghost use Rattle.bins.specs.Reading.{reading_of};
ghost use Rattle.base_refusals.specs.Codes.{code, value_or};

pub fn xel_boundary(i: usize) -> f64
    ensures { result ≡ boundary_at i }
{
    bins::boundary(i)
}

pub fn xel_energy(i: usize) -> f64
    ensures { result ≡ energy_at i }
{
    bins::energy(i)
}

pub fn xel_find_histogram_index(energy: f64) -> usize
    ensures { result ≡ bin_of energy }
{
    bins::search::find_histogram_index(energy)
}

pub fn xel_reading(energy: f64, tenths: &mut i32) -> u8
    ensures { (result ≡ code (reading_of energy)) × (tenths.new ≡ value_or tenths.old (reading_of energy)) }
{
    match bins::search::reading(energy) {
        Ok(t) => {
            *tenths = t;
            0
        }
        Err(refusal) => u8::from(refusal),
    }
}
