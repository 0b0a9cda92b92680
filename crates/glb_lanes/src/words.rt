//! The 80 words that follow from a block (FIPS 180-4, 6.1.2), in each lane those of its own block.
ghost use Rattle.std.specs.Prelude.{◌≡◌, ℕ, List, ◌+◌, ◌<◌, ◌≤◌, slice_index, bit_xor};
ghost use Rattle.std.specs.Int.{w32, rotate_left};
ghost use Rattle.glb_lanes.specs.inner.Lanes.{lane, IsBlock, IsScheduled};

use super::rounds::rotate_left;
use std::simd::Simd;

fn next_word<const N: usize>(
    x: Simd<u32, N>,
    y: Simd<u32, N>,
    z: Simd<u32, N>,
    u: Simd<u32, N>,
) -> Simd<u32, N>
    ensures { (j : ℕ) → j < N → slice_index result j
        ≡ rotate_left w32 (bit_xor (bit_xor (bit_xor
        (slice_index x.entry j) (slice_index y.entry j))
        (slice_index z.entry j)) (slice_index u.entry j)) 1 }
{
    rotate_left(x ^ y ^ z ^ u, 1)
}

/// Puts the words of the blocks into the first sixteen places.
#[inline(always)]
pub(crate) fn lay_first<const N: usize>(start: &[Simd<u32, N>; 16], words: &mut [Simd<u32, N>; 80])
    ensures { (j : ℕ) → j < N → (b : List ℕ) → IsBlock b (lane j start.now)
        → IsScheduled b (lane j words.new) 16 }
{
    'first: for t in 0..16 {
        words[t] = start[t];
    }
}

/// Puts the word that follows into the place `t + 16`.
#[inline(always)]
pub(crate) fn lay_next<const N: usize>(words: &mut [Simd<u32, N>; 80], t: usize)
    requires { t < 64 }
    ensures { (j : ℕ) → j < N → (b : List ℕ) → IsScheduled b (lane j words.old) (t + 16)
        → IsScheduled b (lane j words.new) (t + 17) }
{
    words[t + 16] = next_word(words[t + 13], words[t + 8], words[t + 2], words[t]);
}

/// Puts the five words that follow into the places from `t + 16` on.
#[inline(always)]
pub(crate) fn lay_five<const N: usize>(words: &mut [Simd<u32, N>; 80], t: usize)
    requires { t + 5 ≤ 64 }
    ensures { (j : ℕ) → j < N → (b : List ℕ) → IsScheduled b (lane j words.old) (t + 16)
        → IsScheduled b (lane j words.new) (t + 21) }
{
    lay_next(words, t);
    lay_next(words, t + 1);
    lay_next(words, t + 2);
    lay_next(words, t + 3);
    lay_next(words, t + 4);
}
