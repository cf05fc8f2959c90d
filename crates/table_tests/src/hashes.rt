//! Hashes.
use hash_laws::{AnyHash, FlowHash, Fnv, Sha256Head, SumHash};
use std::process::Abort;

// Through the bound alone.
fn hashes<H: FlowHash>(rt: &impl Abort, hash: &H, tag: u8, bytes: &[u8], wanted: u64) {
    assert_eq!(rt; hash.hash(tag, bytes), wanted, "tag {tag}");
}

fn hashes_by(rt: &impl Abort, fnv: impl FlowHash, sha: impl FlowHash, sum: impl FlowHash) {
    hashes(rt, &fnv, b'f', b"oobar", 0x8594_4171_f739_67e8);
    hashes(rt, &sha, b'a', b"bc", 0xba78_16bf_8f01_cfea);
    hashes(rt, &sum, b'o', b"A", 176);
}

#[test]
fn published_vectors(rt: HostRuntime) {
    hashes_by(&rt, Fnv, Sha256Head, SumHash);
    hashes(&rt, &Fnv, b'a', b"", 0xaf63_dc4c_8601_ec8c);
    assert!(rt; Fnv == Fnv);
    hashes_by(&rt, AnyHash::Fnv, AnyHash::Sha256, AnyHash::Sum);
}

static WORDS: [(&str, Option<AnyHash>); 4] = [
    ("fnv", Some(AnyHash::Fnv)),
    ("sha256", Some(AnyHash::Sha256)),
    ("sum", Some(AnyHash::Sum)),
    ("FNV", None),
];

#[test]
fn hashes_by_word(rt: HostRuntime) {
    for (word, hash) in WORDS.iter() {
        assert_eq!(rt; AnyHash::of_word(word), *hash);
    }
}
