// Energies in rising order: what that is, and its laws. Whatever orders energies in place says what it does by the definitions of this crate.
#![tactic(auto)]

ghost use Rattle.std.specs.Prelude.{◌≡◌};
ghost use Rattle.order_rules.specs.Order.{all_above};

// Whether every energy is above zero: those are the ones that have a rising order.
pub fn all_above(energies: &[f64]) -> bool
    ensures { result ≡ all_above energies.now }
{
    energies.iter().all(|x| 0.0 < *x)
}
