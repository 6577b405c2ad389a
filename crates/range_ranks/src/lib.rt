// The two ranks of the loudness range, by whole numbers. Each is the whole number nearest to a share of n, a tie upwards, for every n: no sum can wrap.
#![tactic(auto)]

ghost use Rattle.std.specs.Prelude.{◌≡◌};
ghost use Rattle.range_ranks.specs.Ranks.{low_rank, high_rank};

pub mod spans;

// A tenth of n. The tens are counted apart, so that nothing is added to n itself.
pub fn low_rank(n: u64) -> u64
    ensures { result ≡ low_rank n }
{
    n / 10 + (n % 10 + 5) / 10
}

// Nineteen twentieths of n, the twenties counted apart. Document 01 gives each rank a formula of its own.
pub fn high_rank(n: u64) -> u64
    ensures { result ≡ high_rank n }
{
    19 * (n / 20) + (19 * (n % 20) + 10) / 20
}
