//! Vectors of N lanes and their masks. A clause speaks of a vector by the function that gives its lanes.
ghost use Rattle.std.specs.Prelude.{◌≡◌, ℕ, ℤ, Bool, ◌+◌, ◌<◌, ◌≤◌, ◌||◌, ◌&&◌, length, int_lt, FitsSigned};
ghost use Rattle.std.specs.Bool.{MatchBool};
ghost use Rattle.std.specs.Int.{w64};
ghost use Rattle.std.specs.Int.Signed.{le_z};
ghost use Rattle.lane_kernels.specs.Columns.{entry};
ghost use Rattle.lane_kernels.specs.Lanes.{lanes, marks, SomeWithin, NoneWithin};

use std::simd::prelude::*;

/// How many entries a group has.
pub const GROUP: usize = 8;

// Each entry is read by itself, since a load of a slice tells no range of its lanes; the two reads become one load.
pub fn pair(column: &[i64], at: usize) -> i64x2
    requires { at + 2 ≤ length column.now }
    ensures value { result ≡ lanes (λ i. entry column.now (at + i)) 2 }
    ensures fits { (i : ℕ) → i < 2 → FitsSigned w64 (entry column.now (at + i)) }
{
    i64x2::from_array([column[at], column[at + 1]])
}

pub fn above<const N: usize>(vector: Simd<i64, N>, limit: i64) -> Mask<i64, N>
    ensures { (f : ℕ → ℤ) → vector.entry ≡ lanes f N → ((i : ℕ) → i < N → FitsSigned w64 (f i)) → result ≡ marks (λ i. int_lt limit (f i)) N }
{
    vector.simd_gt(Simd::splat(limit))
}

pub fn at_most<const N: usize>(vector: Simd<i64, N>, limit: i64) -> Mask<i64, N>
    ensures { (f : ℕ → ℤ) → vector.entry ≡ lanes f N → ((i : ℕ) → i < N → FitsSigned w64 (f i)) → result ≡ marks (λ i. le_z (f i) limit) N }
{
    vector.simd_le(Simd::splat(limit))
}

pub fn either<const N: usize>(a: Mask<i64, N>, b: Mask<i64, N>) -> Mask<i64, N>
    ensures { (p q : ℕ → Bool) → a.entry ≡ marks p N → b.entry ≡ marks q N → result ≡ marks (λ i. p i || q i) N }
{
    a | b
}

pub fn both<const N: usize>(a: Mask<i64, N>, b: Mask<i64, N>) -> Mask<i64, N>
    ensures { (p q : ℕ → Bool) → a.entry ≡ marks p N → b.entry ≡ marks q N → result ≡ marks (λ i. p i && q i) N }
{
    a & b
}

pub fn any<const N: usize>(mask: Mask<i64, N>) -> bool
    requires { N ≤ 64 }
    ensures { (p : ℕ → Bool) → mask.entry ≡ marks p N → MatchBool result (SomeWithin p 0 N) (NoneWithin p 0 N) }
{
    mask.any()
}
