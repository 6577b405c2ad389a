// The C functions of exports_bins, for the archive: each calls that crate's of its name, with the same clauses. include/xelamphoun.h declares them.
#![tactic(auto)]

ghost use Rattle.std.specs.Prelude.{◌≡◌};
ghost use Rattle.bins_tables.specs.Tables.{boundary_at, energy_at};
ghost use Rattle.bins.specs.Bin.{bin_of};
ghost use Rattle.bins.specs.Reading.{reading_of};
ghost use Rattle.base_refusals.specs.Codes.{code, value_or};

#[unsafe(no_mangle)]
pub extern "C" fn xel_boundary(i: usize) -> f64
    ensures { result ≡ boundary_at i }
{
    exports_bins::xel_boundary(i)
}

#[unsafe(no_mangle)]
pub extern "C" fn xel_energy(i: usize) -> f64
    ensures { result ≡ energy_at i }
{
    exports_bins::xel_energy(i)
}

#[unsafe(no_mangle)]
pub extern "C" fn xel_find_histogram_index(energy: f64) -> usize
    ensures { result ≡ bin_of energy }
{
    exports_bins::xel_find_histogram_index(energy)
}

#[unsafe(no_mangle)]
pub extern "C" fn xel_reading(energy: f64, tenths: &mut i32) -> u8
    ensures { (result ≡ code (reading_of energy)) × (tenths.new ≡ value_or tenths.old (reading_of energy)) }
{
    exports_bins::xel_reading(energy, tenths)
}
