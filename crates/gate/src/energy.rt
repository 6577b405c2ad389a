// Gated energy: the mean energy of the blocks at or above the relative gate.
ghost use Rattle.std.specs.Prelude.{◌≡◌};
ghost use Rattle.base_refusals.specs.Answer.{said};
ghost use Rattle.base_refusals.specs.Outcome.{said_by};
ghost use Rattle.history_set.specs.Lent.{lent};
ghost use Rattle.gate.specs.GatedEnergy.{gated_energy_of};

use base_refusals::Refusal;
use history_set::set::Histories;

// The mean energy of the blocks at or above the gate.
pub fn gated_energy(set: Histories<'_>) -> Result<f64, Refusal>
    ensures { said result ≡ said_by (gated_energy_of (lent set.entry)) }
{
    let gated = crate::gate(set)?;
    Ok(gated.mean())
}
