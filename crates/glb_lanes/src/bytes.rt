//! Words out of a parent's bytes, and bytes of a digest out of a lane.
ghost use Rattle.std.specs.Prelude.{◌≡◌, ◌+◌, ◌<◌, ◌≤◌, length};
ghost use Rattle.sha1.specs.Sha1.{word_at, digest_bytes};
ghost use Rattle.glb_lanes.specs.inner.Lanes.{lane};

use std::simd::Simd;

/// The word at a byte of a parent.
pub(crate) fn word(bytes: &[u8; 20], at: usize) -> u32
    requires { at + 4 ≤ 20 }
    ensures { result ≡ word_at bytes.now at }
{
    u32::from_be_bytes([bytes[at], bytes[at + 1], bytes[at + 2], bytes[at + 3]])
}

/// Does nothing: a caller learns the length of an element.
pub(crate) fn twenty(_bytes: &[u8; 20])
    ensures { length _bytes.now ≡ 20 }
{}

/// The digest in one lane.
#[inline(always)]
pub(crate) fn digest<const N: usize>(state: &[Simd<u32, N>; 5], place: usize) -> [u8; 20]
    requires { place < N }
    ensures { result ≡ digest_bytes (lane place state.now) 5 }
{
    let mut out = [0u8; 20];
    'words: for i in 0..5 {
        let lanes = state[i].to_array();
        out[4 * i..4 * i + 4].copy_from_slice(&lanes[place].to_be_bytes());
    }
    out
}
