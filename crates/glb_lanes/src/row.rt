//! Eight children of one parent, numbered from a multiple of eight on. The words of a block follow
//! from its first sixteen by `xor` and rotation alone. So a word of such a child is the same word of
//! the first one, which all eight have in common, with what the last three bits of the child's
//! number add to it.
ghost use Rattle.std.specs.Prelude.{◌≡◌, ℕ, List, ◌+◌, ◌*◌, ◌^◌, ◌<◌, ◌≤◌, [], ◌++◌};
ghost use Rattle.std.specs.Prelude.{length, slice_index, slice_index_or, bit_xor};
ghost use Rattle.std.specs.Int.{w32, to_be_bytes};
ghost use Rattle.sha1.specs.Sha1.{padding, word_at};
ghost use Rattle.glb_lanes.specs.inner.Lanes.{lane, AreWords};
ghost use Rattle.glb_lanes.specs.inner.Rows.{added, IsShared};

use super::bytes::word;
use std::simd::u32x8;

/// What each of the numbers from 0 to 7 adds to each word.
static ADDED: [[u32; 8]; 80] = [
    [0, 0, 0, 0, 0, 0, 0, 0],
    [0, 0, 0, 0, 0, 0, 0, 0],
    [0, 0, 0, 0, 0, 0, 0, 0],
    [0, 0, 0, 0, 0, 0, 0, 0],
    [0, 0, 0, 0, 0, 0, 0, 0],
    [0, 1, 2, 3, 4, 5, 6, 7],
    [0, 0, 0, 0, 0, 0, 0, 0],
    [0, 0, 0, 0, 0, 0, 0, 0],
    [0, 0, 0, 0, 0, 0, 0, 0],
    [0, 0, 0, 0, 0, 0, 0, 0],
    [0, 0, 0, 0, 0, 0, 0, 0],
    [0, 0, 0, 0, 0, 0, 0, 0],
    [0, 0, 0, 0, 0, 0, 0, 0],
    [0, 0, 0, 0, 0, 0, 0, 0],
    [0, 0, 0, 0, 0, 0, 0, 0],
    [0, 0, 0, 0, 0, 0, 0, 0],
    [0, 0, 0, 0, 0, 0, 0, 0],
    [0, 0, 0, 0, 0, 0, 0, 0],
    [0, 0, 0, 0, 0, 0, 0, 0],
    [0, 2, 4, 6, 8, 0xA, 0xC, 0xE],
    [0, 0, 0, 0, 0, 0, 0, 0],
    [0, 2, 4, 6, 8, 0xA, 0xC, 0xE],
    [0, 4, 8, 0xC, 0x10, 0x14, 0x18, 0x1C],
    [0, 0, 0, 0, 0, 0, 0, 0],
    [0, 4, 8, 0xC, 0x10, 0x14, 0x18, 0x1C],
    [0, 8, 0x10, 0x18, 0x20, 0x28, 0x30, 0x38],
    [0, 0, 0, 0, 0, 0, 0, 0],
    [0, 0xC, 0x18, 0x14, 0x30, 0x3C, 0x28, 0x24],
    [0, 0x10, 0x20, 0x30, 0x40, 0x50, 0x60, 0x70],
    [0, 4, 8, 0xC, 0x10, 0x14, 0x18, 0x1C],
    [0, 0x10, 0x20, 0x30, 0x40, 0x50, 0x60, 0x70],
    [0, 0x20, 0x40, 0x60, 0x80, 0xA0, 0xC0, 0xE0],
    [0, 0, 0, 0, 0, 0, 0, 0],
    [0, 0x34, 0x68, 0x5C, 0xD0, 0xE4, 0xB8, 0x8C],
    [0, 0x40, 0x80, 0xC0, 0x100, 0x140, 0x180, 0x1C0],
    [0, 0x18, 0x30, 0x28, 0x60, 0x78, 0x50, 0x48],
    [0, 0x40, 0x80, 0xC0, 0x100, 0x140, 0x180, 0x1C0],
    [0, 0x8C, 0x118, 0x194, 0x230, 0x2BC, 0x328, 0x3A4],
    [0, 0x10, 0x20, 0x30, 0x40, 0x50, 0x60, 0x70],
    [0, 0xD0, 0x1A0, 0x170, 0x340, 0x390, 0x2E0, 0x230],
    [0, 0x110, 0x220, 0x330, 0x440, 0x550, 0x660, 0x770],
    [0, 0x40, 0x80, 0xC0, 0x100, 0x140, 0x180, 0x1C0],
    [0, 0x100, 0x200, 0x300, 0x400, 0x500, 0x600, 0x700],
    [0, 0x200, 0x400, 0x600, 0x800, 0xA00, 0xC00, 0xE00],
    [0, 0, 0, 0, 0, 0, 0, 0],
    [0, 0x350, 0x6A0, 0x5F0, 0xD40, 0xE10, 0xBE0, 0x8B0],
    [0, 0x400, 0x800, 0xC00, 0x1000, 0x1400, 0x1800, 0x1C00],
    [0, 0x188, 0x310, 0x298, 0x620, 0x7A8, 0x530, 0x4B8],
    [0, 0x400, 0x800, 0xC00, 0x1000, 0x1400, 0x1800, 0x1C00],
    [0, 0x8D8, 0x11B0, 0x1968, 0x2360, 0x2BB8, 0x32D0, 0x3A08],
    [0, 0x110, 0x220, 0x330, 0x440, 0x550, 0x660, 0x770],
    [0, 0xD28, 0x1A50, 0x1778, 0x34A0, 0x3988, 0x2EF0, 0x23D8],
    [0, 0x1110, 0x2220, 0x3330, 0x4440, 0x5550, 0x6660, 0x7770],
    [0, 0x438, 0x870, 0xC48, 0x10E0, 0x14D8, 0x1890, 0x1CA8],
    [0, 0x1050, 0x20A0, 0x30F0, 0x4140, 0x5110, 0x61E0, 0x71B0],
    [0, 0x2010, 0x4020, 0x6030, 0x8040, 0xA050, 0xC060, 0xE070],
    [0, 0x50, 0xA0, 0xF0, 0x140, 0x110, 0x1E0, 0x1B0],
    [0, 0x3590, 0x6B20, 0x5EB0, 0xD640, 0xE3D0, 0xBD60, 0x88F0],
    [
        0, 0x4000, 0x8000, 0xC000, 0x10000, 0x14000, 0x18000, 0x1C000,
    ],
    [0, 0x1850, 0x30A0, 0x28F0, 0x6140, 0x7910, 0x51E0, 0x49B0],
    [
        0, 0x4100, 0x8200, 0xC300, 0x10400, 0x14500, 0x18600, 0x1C700,
    ],
    [
        0, 0x8DC0, 0x11B80, 0x19640, 0x23700, 0x2BAC0, 0x32C80, 0x3A140,
    ],
    [0, 0x1000, 0x2000, 0x3000, 0x4000, 0x5000, 0x6000, 0x7000],
    [
        0, 0xD080, 0x1A100, 0x17180, 0x34200, 0x39280, 0x2E300, 0x23380,
    ],
    [
        0, 0x11100, 0x22200, 0x33300, 0x44400, 0x55500, 0x66600, 0x77700,
    ],
    [
        0, 0x40C0, 0x8180, 0xC140, 0x10300, 0x143C0, 0x18280, 0x1C240,
    ],
    [
        0, 0x10100, 0x20200, 0x30300, 0x40400, 0x50500, 0x60600, 0x70700,
    ],
    [
        0, 0x20080, 0x40100, 0x60180, 0x80200, 0xA0280, 0xC0300, 0xE0380,
    ],
    [0, 0x100, 0x200, 0x300, 0x400, 0x500, 0x600, 0x700],
    [
        0, 0x351D0, 0x6A3A0, 0x5F270, 0xD4740, 0xE1690, 0xBE4E0, 0x8B530,
    ],
    [
        0, 0x40100, 0x80200, 0xC0300, 0x100400, 0x140500, 0x180600, 0x1C0700,
    ],
    [
        0, 0x18800, 0x31000, 0x29800, 0x62000, 0x7A800, 0x53000, 0x4B800,
    ],
    [
        0, 0x40100, 0x80200, 0xC0300, 0x100400, 0x140500, 0x180600, 0x1C0700,
    ],
    [
        0, 0x8D800, 0x11B000, 0x196800, 0x236000, 0x2BB800, 0x32D000, 0x3A0800,
    ],
    [
        0, 0x11000, 0x22000, 0x33000, 0x44000, 0x55000, 0x66000, 0x77000,
    ],
    [
        0, 0xD2820, 0x1A5040, 0x177860, 0x34A080, 0x3988A0, 0x2EF0C0, 0x23D8E0,
    ],
    [
        0, 0x111000, 0x222000, 0x333000, 0x444000, 0x555000, 0x666000, 0x777000,
    ],
    [
        0, 0x43920, 0x87240, 0xC4B60, 0x10E480, 0x14DDA0, 0x1896C0, 0x1CAFE0,
    ],
    [
        0, 0x105040, 0x20A080, 0x30F0C0, 0x414100, 0x511140, 0x61E180, 0x71B1C0,
    ],
    [
        0, 0x201080, 0x402100, 0x603180, 0x804200, 0xA05280, 0xC06300, 0xE07380,
    ],
];

/// The words of the block of a parent and a number, of which the first sixteen are laid.
pub(crate) fn first_words(parent: &[u8; 20], number: u32) -> [u32; 80]
    ensures { (k : ℕ) → k < 16 → slice_index result k
        ≡ word_at (parent.now ++ (to_be_bytes w32 number ++ padding 24)) (4 * k) }
{
    let mut words = [0; 80];
    words[0] = word(parent, 0);
    words[1] = word(parent, 4);
    words[2] = word(parent, 8);
    words[3] = word(parent, 12);
    words[4] = word(parent, 16);
    words[5] = number;
    words[6] = 0x8000_0000;
    words[15] = 192;
    words
}

/// Lays the word that follows into the place `t + 16`.
#[inline(always)]
fn lay_next(words: &mut [u32; 80], t: usize)
    requires { t < 64 }
    ensures { (j : ℕ) → j < 8 → (b : List ℕ) → IsShared b j words.old (t + 16)
        → IsShared b j words.new (t + 17) }
{
    let joined = words[t + 13] ^ words[t + 8] ^ words[t + 2] ^ words[t];
    words[t + 16] = joined.rotate_left(1);
}

/// Lays the five words that follow into the places from `t + 16` on.
#[inline(always)]
pub(crate) fn lay_five(words: &mut [u32; 80], t: usize)
    requires { t + 5 ≤ 64 }
    ensures { (j : ℕ) → j < 8 → (b : List ℕ) → IsShared b j words.old (t + 16)
        → IsShared b j words.new (t + 21) }
{
    lay_next(words, t);
    lay_next(words, t + 1);
    lay_next(words, t + 2);
    lay_next(words, t + 3);
    lay_next(words, t + 4);
}

/// Lays the last four words.
#[inline(always)]
pub(crate) fn lay_four(words: &mut [u32; 80])
    ensures { (j : ℕ) → j < 8 → (b : List ℕ) → IsShared b j words.old 76
        → IsShared b j words.new 80 }
{
    lay_next(words, 60);
    lay_next(words, 61);
    lay_next(words, 62);
    lay_next(words, 63);
}

/// A word of each of the eight.
#[inline(always)]
fn joined(words: &[u32; 80], t: usize) -> u32x8
    requires { t < 80 }
    ensures { (j : ℕ) → j < 8
        → slice_index result j ≡ bit_xor (slice_index words.now t) (added t j) }
{
    u32x8::splat(words[t]) ^ u32x8::from_array(ADDED[t])
}

/// The five words of each of the eight from `t` on.
#[inline(always)]
pub(crate) fn joined_five(words: &[u32; 80], t: usize) -> [u32x8; 5]
    requires { t + 5 ≤ 80 }
    ensures { (j : ℕ) → j < 8 → (b : List ℕ) → IsShared b j words.now (t + 5)
        → AreWords b (lane j result) t }
{
    let w0 = joined(words, t);
    let w1 = joined(words, t + 1);
    let w2 = joined(words, t + 2);
    let w3 = joined(words, t + 3);
    let w4 = joined(words, t + 4);
    [w0, w1, w2, w3, w4]
}
