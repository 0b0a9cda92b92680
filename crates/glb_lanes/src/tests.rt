//! Each lane against the digest of its own message.
use super::{eight, four};
use sha1::Sha1;

fn digest_of(parent: &[u8; 20], number: u32) -> [u8; 20] {
    let mut hasher = Sha1::new();
    hasher.update(parent);
    hasher.update(&number.to_be_bytes());
    hasher.finalize()
}

#[test]
fn each_lane_has_the_digest_of_its_number(rt: HostRuntime) {
    let mut parent = [0; 20];
    for first in [0, 1, 255, 65530, 16777215, 4294967288] {
        let mut number = first;
        for digest in &eight::children(&parent, first) {
            assert_eq!(rt; *digest, digest_of(&parent, number));
            number = number.wrapping_add(1);
        }
        number = first;
        for digest in &four::children(&parent, first) {
            assert_eq!(rt; *digest, digest_of(&parent, number));
            number = number.wrapping_add(1);
        }
        parent = digest_of(&parent, number);
    }
}

#[test]
fn each_lane_has_the_digest_of_its_parent_and_number(rt: HostRuntime) {
    let numbers = [7, 0, 4294967295, 65536, 1, 1, 255, 16777216];
    let mut parents = [[0; 20]; 8];
    let mut parent = [0; 20];
    for i in 0..8 {
        parent = digest_of(&parent, numbers[i]);
        parents[i] = parent;
    }
    let digests = eight::digests(&parents, &numbers);
    for i in 0..8 {
        assert_eq!(rt; digests[i], digest_of(&parents[i], numbers[i]));
    }
    let four_parents = [parents[0], parents[1], parents[2], parents[3]];
    let digests = four::digests(&four_parents, &[9, 4294967295, 0, 9]);
    assert_eq!(rt; digests[0], digest_of(&parents[0], 9));
    assert_eq!(rt; digests[1], digest_of(&parents[1], 4294967295));
    assert_eq!(rt; digests[2], digest_of(&parents[2], 0));
    assert_eq!(rt; digests[3], digest_of(&parents[3], 9));
}
