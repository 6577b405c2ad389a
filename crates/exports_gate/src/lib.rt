// The functions of the C interface of the gate question, of gated energy and of the relative threshold; exports_gate_c has them for C, as include/xelamphoun.h declares them.
#![tactic(auto)]

ghost use Rattle.std.specs.Prelude.{◌≡◌, length};
ghost use Rattle.base_refusals.specs.Codes.{code, value_or};
ghost use Rattle.history_set.specs.declared.set.Histories.{Histories as Lent};
ghost use Rattle.history_set.specs.Lent.{lent};
ghost use Rattle.history_set.specs.Set.{histories};
ghost use Rattle.gate.specs.Gate.{gate_of};
ghost use Rattle.gate.specs.GatedEnergy.{gated_energy_of};
ghost use Rattle.gate.specs.Relative.{relative_of};
ghost use Rattle.exports_entries.specs.Sets.{entries_of, Whole, asked, asked_alone};
ghost use Rattle.exports_gate.specs.Measures.{totals_over};
ghost use Rattle.exports_gate.specs.Levels.{float_or};

use base_refusals::Refusal;
use bins::Count;
use gate::threshold::Threshold;
use history_set::set::Histories;

// A question over the set of these numbers, and SET where they are none.
fn ask<V: Drop, Q: FnOnce(Histories<'_>) -> Result<V, Refusal>>(
    numbers: &[usize],
    counters: &[Count],
    energies: &[f64],
    question: Q,
) -> Result<V, Refusal>
    requires { Q.IsAlwaysCallable question }
    ensures whole { Whole numbers.now → (set : Lent)
        × (lent set ≡ histories (entries_of numbers.now) (length (entries_of numbers.now)) counters.now energies.now) × Q.post question set result }
    ensures part { (Whole numbers.now → ⊥) → result ≡ Err Refusal.SET }
{
    // Before the room is made, which takes longer.
    if numbers.len() % exports_entries::NUMBERS != 0 {
        return Err(Refusal::SET);
    }
    let mut room = exports_entries::ROOM;
    let entries = exports_entries::entries_in(&mut room, numbers)?;
    question(Histories {
        entries,
        counters,
        energies,
    })
}

pub fn xel_gate(
    entries: &[usize],
    counters: &[Count],
    energies: &[f64],
    blocks: &mut u64,
    sum: &mut f64,
) -> u8
    ensures { (result ≡ code (asked gate_of entries.now counters.now energies.now))
        × (blocks.new ≡ (value_or (totals_over blocks.old sum.old) (asked gate_of entries.now counters.now energies.now)).count)
        × (sum.new ≡ (value_or (totals_over blocks.old sum.old) (asked gate_of entries.now counters.now energies.now)).sum) }
{
    match ask(entries, counters, energies, gate::gate) {
        Ok(above) => {
            *blocks = above.count;
            *sum = above.sum;
            0
        }
        Err(refusal) => u8::from(refusal),
    }
}

pub fn xel_gated_energy(
    entries: &[usize],
    counters: &[Count],
    energies: &[f64],
    energy: &mut f64,
) -> u8
    ensures { (result ≡ code (asked gated_energy_of entries.now counters.now energies.now))
        × (energy.new ≡ value_or energy.old (asked gated_energy_of entries.now counters.now energies.now)) }
{
    match ask(entries, counters, energies, gate::energy::gated_energy) {
        Ok(mean) => {
            *energy = mean;
            0
        }
        Err(refused) => u8::from(refused),
    }
}

pub fn xel_relative_threshold(
    entry: &[usize],
    counters: &[Count],
    energies: &[f64],
    value: &mut f64,
) -> u8
    ensures { (result ≡ code (asked_alone relative_of entry.now counters.now energies.now))
        × (value.new ≡ float_or value.old (asked_alone relative_of entry.now counters.now energies.now)) }
{
    if entry.len() != exports_entries::NUMBERS {
        return u8::from(Refusal::SET);
    }
    let alone = exports_entries::first_of(entry);
    *value = match gate::threshold::relative_threshold(alone, counters, energies) {
        Ok(Threshold::Loudness(loudness)) => loudness,
        Ok(Threshold::Energy(energy)) => energy,
        Err(refusal) => return u8::from(refusal),
    };
    0
}
