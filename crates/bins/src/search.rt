// The search for the bin of an energy, and the energy's reading: the nearest tenth, which is told from the bin and its table energy.
ghost use Rattle.std.specs.Prelude.{◌≡◌};
ghost use Rattle.base_refusals.specs.Outcome.{said_by};
ghost use Rattle.bins.specs.Bin.{bin_of};
ghost use Rattle.base_refusals.specs.Answer.{said};
ghost use Rattle.bins.specs.Reading.{nearest_tenth, reading_of};

use base_refusals::Refusal;

// The bin of an energy, as a hand finds it in the printed table (BOUNDARIES in bins_tables): go down the boundaries from place 1 on and stop at the first one above the energy;
// the bin is the place before. At place 1000 the table ends: an energy that comes so far is in bin 999. NaN is neither above nor below a boundary, and goes to bin 0.
// Document 01 names this form: a loop that hands the place out by `break`.
pub fn find_histogram_index(energy: f64) -> usize
    ensures { result ≡ bin_of energy }
{
    if base_floats::is_nan(energy) {
        return 0;
    }
    let boundaries = bins_tables::all_boundaries();
    let mut place = 1;
    let stopped = loop {
        if place == crate::BINS {
            break place;
        }
        if energy < boundaries[place] {
            break place;
        }
        place += 1;
    };
    stopped - 1
}

// The tenth nearest an energy of the scale, counted from -70.0 LUFS. The table energy stands in the middle of its bin; an energy equal to it takes the next tenth.
fn nearest_tenth(energy: f64) -> usize
    ensures { result ≡ nearest_tenth energy }
{
    let bin = find_histogram_index(energy);
    if energy < crate::energy(bin) {
        bin
    } else {
        bin + 1
    }
}

// The reading of an energy in tenths of a LUFS, or SCALE where the energy is off the table's scale.
pub fn reading(energy: f64) -> Result<i32, Refusal>
    ensures { said result ≡ said_by (reading_of energy) }
{
    if energy.is_nan() {
        return Err(Refusal::SCALE);
    }
    if energy < crate::lowest_boundary() {
        return Err(Refusal::SCALE);
    }
    if energy >= crate::highest_boundary() {
        return Err(Refusal::SCALE);
    }
    let tenth = nearest_tenth(energy);
    Ok(-700 + tenth as i32)
}
