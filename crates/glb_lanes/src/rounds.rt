//! The rounds of SHA-1 (FIPS 180-4, 4.1.1 and 6.1.2) on vectors: each lane goes through those of
//! its own block.
ghost use Rattle.std.specs.Prelude.{◌≡◌, ℕ, List, ◌+◌, ◌<◌, ◌≤◌, slice_index};
ghost use Rattle.std.specs.Int.{w32, rotate_left};
ghost use Rattle.sha1.specs.Sha1.{ch, parity, maj, round, rounds, add32};
ghost use Rattle.glb_lanes.specs.inner.Lanes.{lane, AreWords, HasRun};

use std::simd::Simd;

const CHOOSE: u32 = 0x5A82_7999;

const PARITY: u32 = 0x6ED9_EBA1;

const MAJORITY: u32 = 0x8F1B_BCDC;

const LAST: u32 = 0xCA62_C1D6;

pub(crate) fn add<const N: usize>(a: Simd<u32, N>, b: Simd<u32, N>) -> Simd<u32, N>
    ensures { (j : ℕ) → j < N
        → slice_index result j ≡ add32 (slice_index a.entry j) (slice_index b.entry j) }
{
    a + b
}

fn choose<const N: usize>(x: Simd<u32, N>, y: Simd<u32, N>, z: Simd<u32, N>) -> Simd<u32, N>
    ensures { (j : ℕ) → j < N
        → slice_index result j
        ≡ ch (slice_index x.entry j) (slice_index y.entry j) (slice_index z.entry j) }
{
    (x & y) ^ (!x & z)
}

fn parity<const N: usize>(x: Simd<u32, N>, y: Simd<u32, N>, z: Simd<u32, N>) -> Simd<u32, N>
    ensures { (j : ℕ) → j < N
        → slice_index result j
        ≡ parity (slice_index x.entry j) (slice_index y.entry j) (slice_index z.entry j) }
{
    x ^ y ^ z
}

fn majority<const N: usize>(x: Simd<u32, N>, y: Simd<u32, N>, z: Simd<u32, N>) -> Simd<u32, N>
    ensures { (j : ℕ) → j < N
        → slice_index result j
        ≡ maj (slice_index x.entry j) (slice_index y.entry j) (slice_index z.entry j) }
{
    (x & y) ^ (x & z) ^ (y & z)
}

pub(crate) fn rotate_left<const N: usize>(x: Simd<u32, N>, k: u32) -> Simd<u32, N>
    requires { (0 < k) × (k < 32) }
    ensures { (j : ℕ) → j < N → slice_index result j ≡ rotate_left w32 (slice_index x.entry j) k }
{
    (x << Simd::splat(k)) | (x >> Simd::splat(32 - k))
}

fn round<const N: usize>(
    v: [Simd<u32, N>; 5],
    f: Simd<u32, N>,
    k: u32,
    word: Simd<u32, N>,
) -> [Simd<u32, N>; 5]
    ensures { (j : ℕ) → j < N → lane j result
        ≡ round (lane j v.entry) (slice_index f.entry j) k (slice_index word.entry j) }
{
    let rotated = rotate_left(v[0], 5);
    let first = add(rotated, f);
    let second = add(first, v[4]);
    let third = add(second, Simd::splat(k));
    let temp = add(third, word);
    let lower = rotate_left(v[1], 30);
    // Element by element: the prover takes no array literal of vectors whose width is a parameter.
    let mut next = v;
    next[4] = v[3];
    next[3] = v[2];
    next[2] = lower;
    next[1] = v[0];
    next[0] = temp;
    next
}

fn choose_step<const N: usize>(v: [Simd<u32, N>; 5], word: Simd<u32, N>) -> [Simd<u32, N>; 5]
    ensures { (j t : ℕ) → j < N → t < 20 → (h ws : List ℕ) → lane j v.entry ≡ rounds h ws t
        → slice_index word.entry j ≡ slice_index ws t → lane j result ≡ rounds h ws (t + 1) }
{
    let f = choose(v[1], v[2], v[3]);
    round(v, f, CHOOSE, word)
}

fn parity_step<const N: usize>(v: [Simd<u32, N>; 5], word: Simd<u32, N>) -> [Simd<u32, N>; 5]
    ensures { (j t : ℕ) → j < N → 20 ≤ t → t < 40 → (h ws : List ℕ) → lane j v.entry ≡ rounds h ws t
        → slice_index word.entry j ≡ slice_index ws t → lane j result ≡ rounds h ws (t + 1) }
{
    let f = parity(v[1], v[2], v[3]);
    round(v, f, PARITY, word)
}

fn majority_step<const N: usize>(v: [Simd<u32, N>; 5], word: Simd<u32, N>) -> [Simd<u32, N>; 5]
    ensures { (j t : ℕ) → j < N → 40 ≤ t → t < 60 → (h ws : List ℕ) → lane j v.entry ≡ rounds h ws t
        → slice_index word.entry j ≡ slice_index ws t → lane j result ≡ rounds h ws (t + 1) }
{
    let f = majority(v[1], v[2], v[3]);
    round(v, f, MAJORITY, word)
}

fn last_step<const N: usize>(v: [Simd<u32, N>; 5], word: Simd<u32, N>) -> [Simd<u32, N>; 5]
    ensures { (j t : ℕ) → j < N → 60 ≤ t → (h ws : List ℕ) → lane j v.entry ≡ rounds h ws t
        → slice_index word.entry j ≡ slice_index ws t → lane j result ≡ rounds h ws (t + 1) }
{
    let f = parity(v[1], v[2], v[3]);
    round(v, f, LAST, word)
}

/// Five rounds: after five the variables are in their places again, so a loop needs no moves.
#[inline(always)]
pub(crate) fn choose_five<const N: usize>(
    v: [Simd<u32, N>; 5],
    words: [Simd<u32, N>; 5],
) -> [Simd<u32, N>; 5]
    ensures { (j t : ℕ) → j < N → t ≤ 15 → (b : List ℕ) → AreWords b (lane j words.entry) t
        → HasRun b (lane j v.entry) t → HasRun b (lane j result) (t + 5) }
{
    let v1 = choose_step(v, words[0]);
    let v2 = choose_step(v1, words[1]);
    let v3 = choose_step(v2, words[2]);
    let v4 = choose_step(v3, words[3]);
    choose_step(v4, words[4])
}

#[inline(always)]
pub(crate) fn parity_five<const N: usize>(
    v: [Simd<u32, N>; 5],
    words: [Simd<u32, N>; 5],
) -> [Simd<u32, N>; 5]
    ensures { (j t : ℕ) → j < N → 20 ≤ t → t ≤ 35 → (b : List ℕ) → AreWords b (lane j words.entry) t
        → HasRun b (lane j v.entry) t → HasRun b (lane j result) (t + 5) }
{
    let v1 = parity_step(v, words[0]);
    let v2 = parity_step(v1, words[1]);
    let v3 = parity_step(v2, words[2]);
    let v4 = parity_step(v3, words[3]);
    parity_step(v4, words[4])
}

#[inline(always)]
pub(crate) fn majority_five<const N: usize>(
    v: [Simd<u32, N>; 5],
    words: [Simd<u32, N>; 5],
) -> [Simd<u32, N>; 5]
    ensures { (j t : ℕ) → j < N → 40 ≤ t → t ≤ 55 → (b : List ℕ) → AreWords b (lane j words.entry) t
        → HasRun b (lane j v.entry) t → HasRun b (lane j result) (t + 5) }
{
    let v1 = majority_step(v, words[0]);
    let v2 = majority_step(v1, words[1]);
    let v3 = majority_step(v2, words[2]);
    let v4 = majority_step(v3, words[3]);
    majority_step(v4, words[4])
}

#[inline(always)]
pub(crate) fn last_five<const N: usize>(
    v: [Simd<u32, N>; 5],
    words: [Simd<u32, N>; 5],
) -> [Simd<u32, N>; 5]
    ensures { (j t : ℕ) → j < N → 60 ≤ t → (b : List ℕ) → AreWords b (lane j words.entry) t
        → HasRun b (lane j v.entry) t → HasRun b (lane j result) (t + 5) }
{
    let v1 = last_step(v, words[0]);
    let v2 = last_step(v1, words[1]);
    let v3 = last_step(v2, words[2]);
    let v4 = last_step(v3, words[3]);
    last_step(v4, words[4])
}
