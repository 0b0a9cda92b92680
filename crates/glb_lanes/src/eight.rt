//! Eight digests at a time. Eight lanes take two vectors a word, which leaves few registers, so all
//! words are laid out before the rounds.
ghost use Rattle.std.specs.Prelude.{◌≡◌, ℕ, List, ◌+◌, ◌^◌, ◌<◌, ◌≤◌, [], ◌++◌};
ghost use Rattle.std.specs.Prelude.{length, slice_index, slice_index_or};
ghost use Rattle.std.specs.Int.{w32, to_be_bytes};
ghost use Rattle.sha1.specs.Sha1.{sha1, compress, initial_hash, padding, word_at, digest_bytes};
ghost use Rattle.glb_lanes.specs.inner.Lanes.{lane, AreWords, IsBlock, IsScheduled, HasRun};
ghost use Rattle.glb_lanes.specs.inner.Rows.{IsShared};

use super::bytes::{digest, twenty, word};
use super::rounds::{add, choose_five, last_five, majority_five, parity_five};
use super::row;
use super::words::{lay_first, lay_next};
use std::simd::u32x8;

/// The block of the parent and a number in each lane. The padding of 24 bytes is one bit, zeros,
/// and the number of bits, which is 192.
fn blocks(parent: &[u8; 20], first: u32) -> [u32x8; 16]
    requires { first + 8 ≤ 2 ^ 32 }
    ensures { (j : ℕ) → j < 8
        → IsBlock (parent.now ++ (to_be_bytes w32 (first + j) ++ padding 24)) (lane j result) }
{
    let w0 = word(parent, 0);
    let w1 = word(parent, 4);
    let w2 = word(parent, 8);
    let w3 = word(parent, 12);
    let w4 = word(parent, 16);
    let zero = u32x8::splat(0);
    [
        u32x8::splat(w0),
        u32x8::splat(w1),
        u32x8::splat(w2),
        u32x8::splat(w3),
        u32x8::splat(w4),
        u32x8::from_array([
            first,
            first + 1,
            first + 2,
            first + 3,
            first + 4,
            first + 5,
            first + 6,
            first + 7,
        ]),
        u32x8::splat(0x8000_0000),
        zero,
        zero,
        zero,
        zero,
        zero,
        zero,
        zero,
        zero,
        u32x8::splat(192),
    ]
}

/// The word at a byte of each parent.
fn words_at(parents: &[[u8; 20]; 8], at: usize) -> u32x8
    requires { at + 4 ≤ 20 }
    ensures { (j : ℕ) → j < 8
        → slice_index result j ≡ word_at (slice_index_or parents.now j []) at }
{
    let w0 = word(&parents[0], at);
    let w1 = word(&parents[1], at);
    let w2 = word(&parents[2], at);
    let w3 = word(&parents[3], at);
    let w4 = word(&parents[4], at);
    let w5 = word(&parents[5], at);
    let w6 = word(&parents[6], at);
    let w7 = word(&parents[7], at);
    u32x8::from_array([w0, w1, w2, w3, w4, w5, w6, w7])
}

/// Does nothing: a caller learns that each parent has 20 bytes.
fn known(parents: &[[u8; 20]; 8])
    ensures { (j : ℕ) → j < 8 → length (slice_index_or parents.now j []) ≡ 20 }
{
    twenty(&parents[0]);
    twenty(&parents[1]);
    twenty(&parents[2]);
    twenty(&parents[3]);
    twenty(&parents[4]);
    twenty(&parents[5]);
    twenty(&parents[6]);
    twenty(&parents[7]);
}

/// The block of a parent and its number in each lane.
fn blocks_of(parents: &[[u8; 20]; 8], numbers: &[u32; 8]) -> [u32x8; 16]
    ensures { (j : ℕ) → j < 8
        → IsBlock (slice_index_or parents.now j []
        ++ (to_be_bytes w32 (slice_index numbers.now j) ++ padding 24)) (lane j result) }
{
    known(parents);
    let w0 = words_at(parents, 0);
    let w1 = words_at(parents, 4);
    let w2 = words_at(parents, 8);
    let w3 = words_at(parents, 12);
    let w4 = words_at(parents, 16);
    let zero = u32x8::splat(0);
    let bits = u32x8::splat(192);
    [
        w0,
        w1,
        w2,
        w3,
        w4,
        u32x8::from_array(*numbers),
        u32x8::splat(0x8000_0000),
        zero,
        zero,
        zero,
        zero,
        zero,
        zero,
        zero,
        zero,
        bits,
    ]
}

/// The five words from `t` on.
#[inline(always)]
fn five(words: &[u32x8; 80], t: usize) -> [u32x8; 5]
    requires { t + 5 ≤ 80 }
    ensures { (j : ℕ) → j < 8 → (b : List ℕ) → IsScheduled b (lane j words.now) (t + 5)
        → AreWords b (lane j result) t }
{
    [
        words[t],
        words[t + 1],
        words[t + 2],
        words[t + 3],
        words[t + 4],
    ]
}

/// The working variables before the rounds: the initial hash value in each lane.
#[inline(always)]
fn initial() -> [u32x8; 5]
    ensures { (j : ℕ) → j < 8 → lane j result ≡ initial_hash }
{
    [
        u32x8::splat(0x6745_2301),
        u32x8::splat(0xEFCD_AB89),
        u32x8::splat(0x98BA_DCFE),
        u32x8::splat(0x1032_5476),
        u32x8::splat(0xC3D2_E1F0),
    ]
}

/// The hash value in each lane after the rounds.
#[inline(always)]
fn after_rounds(v: [u32x8; 5]) -> [u32x8; 5]
    ensures { (j : ℕ) → j < 8 → (b : List ℕ) → HasRun b (lane j v) 80
        → lane j result ≡ compress initial_hash b }
{
    let first = initial();
    let s0 = add(first[0], v[0]);
    let s1 = add(first[1], v[1]);
    let s2 = add(first[2], v[2]);
    let s3 = add(first[3], v[3]);
    let s4 = add(first[4], v[4]);
    [s0, s1, s2, s3, s4]
}

/// The hash value after one block in each lane, from the initial one.
fn compress(start: [u32x8; 16]) -> [u32x8; 5]
    ensures { (j : ℕ) → j < 8 → (b : List ℕ) → IsBlock b (lane j start)
        → lane j result ≡ compress initial_hash b }
{
    let mut words = [u32x8::splat(0); 80];
    lay_first(&start, &mut words);
    'words: for t in 0..64 {
        lay_next(&mut words, t);
    }
    let mut v = initial();
    'choose: for group in 0..4 {
        let next = choose_five(v, five(&words, 5 * group));
        v = next;
    }
    'parity: for group in 4..8 {
        let next = parity_five(v, five(&words, 5 * group));
        v = next;
    }
    'majority: for group in 8..12 {
        let next = majority_five(v, five(&words, 5 * group));
        v = next;
    }
    'last: for group in 12..16 {
        let next = last_five(v, five(&words, 5 * group));
        v = next;
    }
    after_rounds(v)
}

/// The hash value after the blocks of eight numbers of which the first ends in three zero bits. The
/// words that the blocks have in common are laid beside the rounds, which wait for none of them.
fn compress_row(start: [u32; 80]) -> [u32x8; 5]
    ensures { (j : ℕ) → j < 8 → (b : List ℕ) → IsShared b j start 16
        → lane j result ≡ compress initial_hash b }
{
    let mut words = start;
    let mut v = initial();
    'choose: for group in 0..4 {
        row::lay_five(&mut words, 5 * group);
        let next = choose_five(v, row::joined_five(&words, 5 * group));
        v = next;
    }
    'parity: for group in 4..8 {
        row::lay_five(&mut words, 5 * group);
        let next = parity_five(v, row::joined_five(&words, 5 * group));
        v = next;
    }
    'majority: for group in 8..12 {
        row::lay_five(&mut words, 5 * group);
        let next = majority_five(v, row::joined_five(&words, 5 * group));
        v = next;
    }
    row::lay_four(&mut words);
    'last: for group in 12..16 {
        let next = last_five(v, row::joined_five(&words, 5 * group));
        v = next;
    }
    after_rounds(v)
}

/// The hash value of the parent followed by a number in each lane.
fn hash_values(parent: &[u8; 20], first: u32) -> [u32x8; 5]
    requires { first + 8 ≤ 2 ^ 32 }
    ensures { (j : ℕ) → j < 8 → lane j result
        ≡ compress initial_hash (parent.now ++ (to_be_bytes w32 (first + j) ++ padding 24)) }
{
    if first % 8 == 0 {
        compress_row(row::first_words(parent, first))
    } else {
        compress(blocks(parent, first))
    }
}

/// The digest in each lane.
#[inline(always)]
fn digests_of(state: &[u32x8; 5]) -> [[u8; 20]; 8]
    ensures { (j : ℕ) → j < 8
        → slice_index_or result j [] ≡ digest_bytes (lane j state.now) 5 }
{
    let d0 = digest(state, 0);
    let d1 = digest(state, 1);
    let d2 = digest(state, 2);
    let d3 = digest(state, 3);
    let d4 = digest(state, 4);
    let d5 = digest(state, 5);
    let d6 = digest(state, 6);
    let d7 = digest(state, 7);
    [d0, d1, d2, d3, d4, d5, d6, d7]
}

/// The digests of the parent followed by each of the eight numbers from `first` on.
pub fn children(parent: &[u8; 20], first: u32) -> [[u8; 20]; 8]
    requires { first + 8 ≤ 2 ^ 32 }
    ensures { (j : ℕ) → j < 8
        → slice_index_or result j [] ≡ sha1 (parent.now ++ to_be_bytes w32 (first + j)) }
{
    let state = hash_values(parent, first);
    digests_of(&state)
}

/// The digests of eight parents, each followed by its number.
pub fn digests(parents: &[[u8; 20]; 8], numbers: &[u32; 8]) -> [[u8; 20]; 8]
    ensures { (j : ℕ) → j < 8 → slice_index_or result j []
        ≡ sha1 (slice_index_or parents.now j [] ++ to_be_bytes w32 (slice_index numbers.now j)) }
{
    known(parents);
    let state = compress(blocks_of(parents, numbers));
    digests_of(&state)
}
