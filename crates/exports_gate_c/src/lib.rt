// The C functions of exports_gate, for the archive: each calls that crate's of its name, with the same clauses. include/xelamphoun.h declares them.
#![tactic(auto)]

ghost use Rattle.std.specs.Prelude.{◌≡◌};
ghost use Rattle.gate.specs.Gate.{gate_of};
ghost use Rattle.gate.specs.GatedEnergy.{gated_energy_of};
ghost use Rattle.base_refusals.specs.Codes.{code, value_or};
ghost use Rattle.exports_entries.specs.Sets.{asked, asked_alone};
ghost use Rattle.exports_gate.specs.Measures.{totals_over};
ghost use Rattle.gate.specs.Relative.{relative_of};
ghost use Rattle.exports_gate.specs.Levels.{float_or};

use bins::Count;

#[unsafe(no_mangle)]
pub extern "C" fn xel_gate(
    entries: &[usize],
    counters: &[Count],
    energies: &[f64],
    blocks: &mut u64,
    sum: &mut f64,
) -> u8
    ensures { (result ≡ code (asked gate_of entries.now counters.now energies.now))
        × (blocks.new ≡ (value_or (totals_over blocks.old sum.old) (asked gate_of entries.now counters.now energies.now)).count)
        × (sum.new ≡ (value_or (totals_over blocks.old sum.old) (asked gate_of entries.now counters.now energies.now)).sum) }
{
    exports_gate::xel_gate(entries, counters, energies, blocks, sum)
}

#[unsafe(no_mangle)]
pub extern "C" fn xel_gated_energy(
    entries: &[usize],
    counters: &[Count],
    energies: &[f64],
    energy: &mut f64,
) -> u8
    ensures { (result ≡ code (asked gated_energy_of entries.now counters.now energies.now))
        × (energy.new ≡ value_or energy.old (asked gated_energy_of entries.now counters.now energies.now)) }
{
    exports_gate::xel_gated_energy(entries, counters, energies, energy)
}

#[unsafe(no_mangle)]
pub extern "C" fn xel_relative_threshold(
    entry: &[usize],
    counters: &[Count],
    energies: &[f64],
    value: &mut f64,
) -> u8
    ensures { (result ≡ code (asked_alone relative_of entry.now counters.now energies.now))
        × (value.new ≡ float_or value.old (asked_alone relative_of entry.now counters.now energies.now)) }
{
    exports_gate::xel_relative_threshold(entry, counters, energies, value)
}
