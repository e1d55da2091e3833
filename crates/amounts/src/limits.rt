//! Limits that every kind of cost shares.
ghost use Rattle.std.specs.Prelude.{◌≡◌, ◌+◌, ◌^◌, ◌≤◌, ◌+ℤ◌, ◌-ℤ◌, unsigned_abs};
ghost use Rattle.amounts.specs.Amount.{fits};
ghost use Rattle.amounts.specs.Kinds.{field};

/// Sums and differences are exact while the sizes of the two total at most this.
pub const EXACT: u64 = 1 << 60;

/// Samples in a label's form stand below this.
pub const SAMPLES: u64 = 1 << 44;

/// Whether two sizes total at most the limit.
pub fn fit(a: u64, b: u64) -> bool
    ensures { result ≡ fits a b }
{
    a <= EXACT && b <= EXACT - a
}

/// A number as it stands in a page's field below `limit`: absent where it is too large or below zero.
pub fn in_field(a: i64, limit: u64) -> Option<u64>
    ensures { result ≡ field limit a }
{
    u64::try_from(a).ok().filter(|n| *n < limit)
}

// Kept: two functions, which differ in their operator; written in place, the operators got no proof in a label of two
// parts.

/// The sum of two numbers within the limit.
pub(crate) fn exact_sum(a: i64, b: i64) -> i64
    requires { unsigned_abs a + unsigned_abs b ≤ 2 ^ 60 }
    ensures { result ≡ a +ℤ b }
{
    a + b
}

/// The difference of two numbers within the limit.
pub(crate) fn exact_difference(a: i64, b: i64) -> i64
    requires { unsigned_abs a + unsigned_abs b ≤ 2 ^ 60 }
    ensures { result ≡ a -ℤ b }
{
    a - b
}
