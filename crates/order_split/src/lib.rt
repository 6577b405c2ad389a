// Energies in rising order by splitting, in place, in n log n steps for every input.
// Parts are split around a pivot; a part whose splits go deeper than twice the binary digits of the length is ordered by a heap instead.
#![tactic(auto)]

ghost use Rattle.std.specs.Prelude.{◌≡◌, ◌+◌, ◌*◌, ◌<◌, length};
ghost use Rattle.std.specs.Float.Ieee.{size};
ghost use Rattle.order_rules.specs.Order.{all_above, ordered};
ghost use Rattle.base_floats.specs.Entry.{at};
ghost use Rattle.order_rules.specs.Arrangement.{Above, Ordered};
ghost use Rattle.order_split.specs.Inner.{Splits, Parting, Parted};

use std::ops::Range;

// The place, of three, whose energy lies between the other two.
fn middle(part: &[f64], i: usize, j: usize, k: usize) -> usize
    requires { (i < length part.now) × ((j < length part.now) × (k < length part.now)) }
    ensures { result < length part.now }
{
    let x = part[i];
    let y = part[j];
    let z = part[k];
    let up = x < y;
    if up == (y < z) {
        return j;
    }
    if up == (x < z) {
        return k;
    }
    i
}

// A place whose energy is likely to split the part evenly: the middle of three, or of three such middles.
// The nine places lie at uneven distances, so that no period in the energies makes them all alike.
fn pivot_place(part: &[f64]) -> usize
    requires { 0 < length part.now }
    ensures { result < length part.now }
{
    let n = part.len();
    if n < 128 {
        return middle(part, n / 4, n / 2, n - 1 - n / 4);
    }
    let low = middle(part, n / 19, n / 7, n / 4);
    let mid = middle(part, n / 3, n / 2, n - n / 3);
    let high = middle(part, n - n / 4, n - n / 8, n - n / 17);
    middle(part, low, mid, high)
}

// Brings the energy at a place to the front as the pivot, and behind it those that come first beside it, by a test of an energy and the pivot.
// Answers the place after them.
fn gather<F: Fn(f64, f64) -> bool>(part: &mut [f64], place: usize, comes_first: F) -> usize
    requires inside { place < length part.old }
    requires above { Above part.old }
    requires callable { F.IsAlwaysCallable comes_first }
    requires splits { Splits (F.post comes_first) }
    ensures { Parting (at part.old place) result (length part.new) part.old part.new }
{
    part.swap(0, place);
    let pivot = part[0];
    let mut low = 1;
    for i in 1..part.len() {
        let x = part[i];
        // Not `swap`, which asks which place comes first: the loop took 1.6 times the time.
        part[i] = part[low];
        part[low] = x;
        if comes_first(x, pivot) {
            low += 1;
        }
    }
    low
}

// Answers the places that the split settles.
fn split(part: &mut [f64]) -> Range<usize>
    requires { (0 < length part.old) × Above part.old }
    ensures { Parted result.start result.end part.old part.new }
{
    let pivot = pivot_place(part);
    let place = gather(part, pivot, |x, pivot| x < pivot) - 1;
    part.swap(0, place);
    if place > 0 {
        return place..place + 1;
    }
    let equal = gather(part, 0, |x, pivot| x <= pivot);
    0..equal
}

fn split_sort(part: &mut [f64], budget: usize)
    requires { Above part.old }
    ensures { Ordered part.old part.new }
{
    let n = part.len();
    if n <= order_short::SHORT {
        order_short::order(part);
        return;
    }
    if budget == 0 {
        order_heap::order(part);
        return;
    }
    let settled = split(part);
    split_sort(&mut part[..settled.start], budget - 1);
    split_sort(&mut part[settled.end..], budget - 1);
}

// Twice the binary digits of n: how deep splits may go before the heap takes over.
fn depth_for(n: usize) -> usize
    ensures { result ≡ 2 * size n }
{
    if n == 0 {
        return 0;
    }
    2 * (n.ilog2() as usize + 1)
}

// Orders the energies in place, rising, where each is above zero; else it touches nothing and answers false.
pub fn order(energies: &mut [f64]) -> bool
    ensures value { result ≡ all_above energies.old }
    ensures energies_after { energies.new ≡ ordered energies.old }
{
    if order_rules::all_above(energies) {
        let depth = depth_for(energies.len());
        split_sort(energies, depth);
        return true;
    }
    false
}
