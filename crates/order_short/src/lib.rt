// Up to 24 energies in rising order, in place, by counting out each one's place. No branch hangs on what the energies are.
#![tactic(auto)]

ghost use Rattle.std.specs.Prelude.{Bool, Float, ◌≡◌, true, ◌<◌, ◌≤◌, length};
ghost use Rattle.order_rules.specs.Order.{in_order, all_above};
ghost use Rattle.order_short.specs.Short.{short_above, short_ordered};
ghost use Rattle.order_short.specs.Inner.{count, place_of};

// The most energies that are ordered so.
pub const SHORT: usize = 24;

// How many energies pass a test.
fn count<F: Fn(f64) -> bool>(energies: &[f64], test: F) -> usize
    requires { F.IsAlwaysCallable test }
    ensures few { result ≤ length energies.now }
    ensures value { (p : Float → Bool) → ((x : Float) (b : Bool) → F.post test x b → b ≡ p x) → result ≡ count p energies.now }
{
    let mut found = 0;
    for energy in energies {
        if test(*energy) {
            found += 1;
        }
    }
    found
}

// The place of energy i in the order: of equal ones the earlier comes first.
fn place_of(part: &[f64], i: usize) -> usize
    requires { i < length part.now }
    ensures { result ≡ place_of part.now i }
{
    let x = part[i];
    let before = count(&part[..i], |y| y <= x);
    let after = count(&part[i..], |y| y < x);
    before + after
}

// Answers whether all are above zero. Only then do the places hold their order.
fn put_in_place(part: &[f64], places: &mut [f64]) -> bool
    requires { length places.old ≡ length part.now }
    ensures value { result ≡ all_above part.now }
    ensures places_after { all_above part.now ≡ true → places.new ≡ in_order part.now }
{
    let mut fine = true;
    for (i, x) in part.iter().enumerate() {
        fine = fine & (0.0 < *x);
        places[place_of(part, i)] = *x;
    }
    fine
}

// Orders the energies in place, rising, where there are at most 24 and each is above zero; else it touches nothing and answers false.
pub fn order(energies: &mut [f64]) -> bool
    ensures value { result ≡ short_above energies.old }
    ensures energies_after { energies.new ≡ short_ordered energies.old }
{
    if energies.len() > SHORT {
        return false;
    }
    let mut all_places = [0.0f64; SHORT];
    let places = &mut all_places[..energies.len()];
    if put_in_place(energies, places) {
        energies.copy_from_slice(places);
        return true;
    }
    false
}
