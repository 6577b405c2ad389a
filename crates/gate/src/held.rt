// The energies that a queue of a set holds.
ghost use Rattle.std.specs.Prelude.{◌≡◌, ◌+◌, ◌≤◌, ◌++◌, length};
ghost use Rattle.history_queue.specs.Queue.{longest, parts_of, in_parts};

use history_queue::Queue;

// The older ones and the newer ones, of a queue whose store starts at a place. None where the store does not suit the queue or ends outside the energies.
pub(crate) fn held_parts<'a>(
    energies: &'a [f64],
    start: usize,
    queue: Queue,
) -> (&'a [f64], &'a [f64])
    ensures { (result.0.now ++ result.1.now ≡ in_parts (parts_of queue start (length energies.now)) energies.now)
        × (length result.0.now + length result.1.now ≤ longest) }
{
    let parts = queue.parts(start, energies.len());
    (
        &energies[parts.from..parts.until],
        &energies[parts.start..parts.end],
    )
}
