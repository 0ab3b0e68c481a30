// Hashes on examples.
use crate::fnv1a::{Fnv1a, fnv1a_bytes, fnv1a_words};
use crate::hasher::Hasher;
use crate::named::{HasherName, UnknownHasher};
use crate::rotating::Rotating;
use crate::words::hash_words;

// The published values of the 64-bit function.
#[test]
fn hashes_bytes(rt: HostRuntime) {
    assert_eq!(rt; fnv1a_bytes(b""), 0xcbf2_9ce4_8422_2325);
    assert_eq!(rt; fnv1a_bytes(b"a"), 0xaf63_dc4c_8601_ec8c);
    assert_eq!(rt; fnv1a_bytes(b"b"), 0xaf63_df4c_8601_f1a5);
    assert_eq!(rt; fnv1a_bytes(b"foobar"), 0x8594_4171_f739_67e8);
}

// A word is its eight bytes, the lowest first.
#[test]
fn hashes_words_by_bytes(rt: HostRuntime) {
    assert_eq!(rt; hash_words::<Fnv1a>(&[]), 0xcbf2_9ce4_8422_2325);
    assert_eq!(rt; hash_words::<Fnv1a>(&[0x61]), 0x6926_124a_7b14_33c4);
    assert_eq!(rt;
        hash_words::<Fnv1a>(&[0x61]),
        fnv1a_bytes(b"a\0\0\0\0\0\0\0")
    );
    assert_eq!(rt; fnv1a_words(&[1, 2]), 0x7717_9803_63c8_e066);
}

// From 0 the rotation and the xor leave the first word, so its hash is a product.
#[test]
fn hashes_words(rt: HostRuntime) {
    assert_eq!(rt; hash_words::<Rotating>(&[]), 0);
    assert_eq!(rt; hash_words::<Rotating>(&[1]), 0x517c_c1b7_2722_0a95);
    assert_eq!(rt; hash_words::<Rotating>(&[2]), 0xa2f9_836e_4e44_152a);
    assert_eq!(rt; hash_words::<Rotating>(&[1, 2]), 7659469028595837896);
}

// The state lasts past an end.
#[test]
fn feeds_on(rt: HostRuntime) {
    let mut hasher = Rotating::fresh();
    hasher.feed(1);
    assert_eq!(rt; hasher.end(), 0x517c_c1b7_2722_0a95);
    hasher.feed(2);
    assert_eq!(rt; hasher.end(), hash_words::<Rotating>(&[1, 2]));
}

// A name is read as it is printed, and no other text is one.
#[test]
fn reads_names(rt: HostRuntime) {
    assert_eq!(rt; "rotating".parse::<HasherName>(), Ok(HasherName::Rotating));
    assert_eq!(rt; "fnv1a".parse::<HasherName>(), Ok(HasherName::Fnv1a));
    assert_eq!(rt; "".parse::<HasherName>(), Err(UnknownHasher));
    assert_eq!(rt; "Fnv1a".parse::<HasherName>(), Err(UnknownHasher));
    assert_eq!(rt; "fnv1".parse::<HasherName>(), Err(UnknownHasher));
}
