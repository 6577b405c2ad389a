// Energies in rising order by a heap, in place: n log n steps for every input.
#![tactic(auto)]

ghost use Rattle.std.specs.Prelude.{◌≡◌, ◌+◌, ◌*◌, ◌<◌, length};
ghost use Rattle.order_rules.specs.Order.{all_above, ordered};
ghost use Rattle.order_rules.specs.Arrangement.{Above, Ordered};
ghost use Rattle.order_heap.specs.Inner.{Larger, HeapFrom, Heaped};

// That all energies are above zero is said of each lent part: a struct around it would be made anew for every part that is lent on, and show it at every store.

// The child of `parent` that no other child is above.
fn larger_child(heap: &[f64], parent: usize) -> usize
    requires { (2 * parent + 1 < length heap.now) × Above heap.now }
    ensures { Larger parent heap.now result }
{
    let left = 2 * parent + 1;
    let right = left + 1;
    if right >= heap.len() {
        return left;
    }
    if heap[left] < heap[right] {
        return right;
    }
    left
}

// Lets the energy at `from` sink until no child is above it.
fn sift(heap: &mut [f64], from: usize)
    requires { Above heap.old × HeapFrom (from + 1) heap.old }
    ensures { Heaped from heap.old heap.new }
{
    let end = heap.len() / 2;
    let mut at = from;
    while at < end {
        let child = larger_child(heap, at);
        let x = heap[at];
        let y = heap[child];
        if y <= x {
            return;
        }
        // Not `swap`, which asks which place comes first: the heap took 1.15 times the time.
        heap[at] = y;
        heap[child] = x;
        at = child;
    }
}

fn build_heap(part: &mut [f64])
    requires { Above part.old }
    ensures { Heaped 0 part.old part.new }
{
    for from in (0..part.len() / 2).rev() {
        sift(part, from);
    }
}

// The largest energy goes to the end, and what is left before it is made a heap again.
fn heap_sort(part: &mut [f64])
    requires { Above part.old }
    ensures { Ordered part.old part.new }
{
    build_heap(part);
    for left in (1..part.len()).rev() {
        part.swap(0, left);
        sift(&mut part[..left], 0);
    }
}

// Orders the energies in place, rising, where each is above zero; else it touches nothing and answers false.
pub fn order(energies: &mut [f64]) -> bool
    ensures value { result ≡ all_above energies.old }
    ensures energies_after { energies.new ≡ ordered energies.old }
{
    if order_rules::all_above(energies) {
        heap_sort(energies);
        return true;
    }
    false
}
