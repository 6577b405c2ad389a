// The loudness range of energies in rising order: the energies at the two ranks among those that the gate leaves.
ghost use Rattle.std.specs.Prelude.{◌≡◌};
ghost use Rattle.base_refusals.specs.Outcome.{says};
ghost use Rattle.gate.specs.Totals.{none, energies_from};
ghost use Rattle.order_rules.specs.Arrangement.{Rising};
ghost use Rattle.range_ranks.specs.Span.{said};
ghost use Rattle.range_queues.specs.Rising.{listed_span};

use gate::blocks::Totals;
use range_ranks::spans::Span;

// The energies one after the other, from 0.
fn sum_of(rising: &[f64]) -> f64
    ensures { result ≡ (energies_from none rising.now).sum }
{
    let mut sum = 0.0;
    for energy in rising {
        sum += *energy;
    }
    sum
}

// The range of energies in rising order.
pub(crate) fn span_in_order(rising: &[f64]) -> Span
    requires { Rising rising.now }
    ensures { said result ≡ says (listed_span rising.now) }
{
    let count = rising.len();
    let gate = range_ranks::spans::gate_energy(Totals {
        count: count as u64,
        sum: sum_of(rising),
    });
    let first = rising.partition_point(|energy| *energy < gate);
    let left = count - first;
    if left == 0 {
        return Span::Nothing;
    }
    let last = (left - 1) as u64;
    let low = first + range_ranks::low_rank(last) as usize;
    let high = first + range_ranks::high_rank(last) as usize;
    Span::Found(rising[low], rising[high])
}
