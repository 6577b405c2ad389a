// Energies in rising order, in place, in n log n steps for every input: those that rise or fall already are not split.
#![tactic(auto)]

ghost use Rattle.std.specs.Prelude.{◌≡◌, true, ◌-◌, length};
ghost use Rattle.order_rules.specs.Order.{all_above, ordered};
ghost use Rattle.order_rules.specs.Arrangement.{Above, Rising};
ghost use Rattle.order.specs.Inner.{Steps, Falling};

// How many steps are looked at before a look may stop.
const STRETCH: usize = 64;

// Whether each energy and the next pass a test. Out of line, since it is otherwise unrolled whole, once for each test, and its registers run out.
#[inline(never)]
fn stretch_passes<F: Fn(f64, f64) -> bool>(energies: &[f64], test: &F) -> bool
    requires { F.IsAlwaysCallable test.now }
    ensures { result ≡ true → Steps (F.post test.now) (length energies.now - 1) energies.now }
{
    let mut fine = true;
    for pair in energies.windows(2) {
        fine = fine & test(pair[0], pair[1]);
    }
    fine
}

// The same of any number of them. It stops after a stretch where they do not.
// Stays a while loop: a stretch ends with the energy that the next begins with, so they are no chunks, and chunks side by side took 1.5 times the time.
fn all_pass<F: Fn(f64, f64) -> bool>(energies: &[f64], test: F) -> bool
    requires { F.IsAlwaysCallable test }
    ensures { result ≡ true → Steps (F.post test) (length energies.now - 1) energies.now }
{
    let mut rest = energies;
    while rest.len() > STRETCH {
        if !stretch_passes(&rest[..=STRETCH], &test) {
            return false;
        }
        rest = &rest[STRETCH..];
    }
    stretch_passes(rest, &test)
}

// Whether the energies are above zero and rise already.
fn rises(energies: &[f64]) -> bool
    ensures { result ≡ true → Above energies.now × Rising energies.now }
{
    match energies.first() {
        None => true,
        Some(first) => 0.0 < *first && all_pass(energies, |x, y| x <= y),
    }
}

// Whether they are above zero and fall.
fn falls(energies: &[f64]) -> bool
    ensures { result ≡ true → Above energies.now × Falling energies.now }
{
    match energies.last() {
        None => true,
        Some(last) => 0.0 < *last && all_pass(energies, |x, y| y <= x),
    }
}

// Orders the energies in place, rising, where each is above zero; else it touches nothing and answers false.
pub fn order(energies: &mut [f64]) -> bool
    ensures value { result ≡ all_above energies.old }
    ensures energies_after { energies.new ≡ ordered energies.old }
{
    if rises(energies) {
        return true;
    }
    if falls(energies) {
        energies.reverse();
        return true;
    }
    order_split::order(energies)
}
