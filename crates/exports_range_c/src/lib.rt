// The C functions of exports_range, for the archive: each calls that crate's of its name, with the same clauses. include/xelamphoun.h declares them.
#![tactic(auto)]

ghost use Rattle.std.specs.Prelude.{◌≡◌};
ghost use Rattle.base_refusals.specs.Outcome.{kept_by};
ghost use Rattle.exports_range.specs.Spans.{range_asked, span_code, low_or, high_or};

use bins::Count;

#[unsafe(no_mangle)]
pub extern "C" fn xel_loudness_range(
    entries: &[usize],
    counters: &[Count],
    energies: &[f64],
    work: &mut [f64],
    low: &mut f64,
    high: &mut f64,
) -> u8
    ensures { (result ≡ span_code (range_asked entries.now counters.now energies.now work.old))
        × (work.new ≡ kept_by work.old (range_asked entries.now counters.now energies.now work.old))
        × (low.new ≡ low_or low.old (range_asked entries.now counters.now energies.now work.old))
        × (high.new ≡ high_or high.old (range_asked entries.now counters.now energies.now work.old)) }
{
    exports_range::xel_loudness_range(entries, counters, energies, work, low, high)
}
