//! A key is drawn from 16 random bytes, each of which matters. Where there are none it isn't had. What it hashes to was computed
//! apart, from the words of its description.
use connection_table::TableKey;
use five_tuple::Flow;
use std::hash::{BuildHasher, Hash, Hasher};
use std::io;
use std::io::ErrorKind;
use std::process::Abort;
use std::random::RandomSource;

// A source of these bytes, again and again; or of none.
#[derive(Drop)]
struct Source {
    bytes: Option<[u8; 16]>,
}

impl RandomSource for Source {
    fn fill_bytes(&self, buf: &mut [u8]) -> io::Result<()> {
        let Some(bytes) = self.bytes else {
            return Err(io::Error::from(ErrorKind::Unsupported));
        };
        for (one, byte) in buf.iter_mut().zip(bytes) {
            *one = byte;
        }
        Ok(())
    }
}

// The key that is drawn from these bytes.
fn drawn(rt: &impl Abort, bytes: [u8; 16]) -> TableKey {
    let source = Source { bytes: Some(bytes) };
    TableKey::drawn(&source).expect(rt, "a key")
}

// The hash of one flow by a key.
fn flow_hash(key: &TableKey) -> u64 {
    let flow = Flow {
        src: 0x0a00_0001,
        dst: 0xc000_0201,
        sport: 1000,
        dport: 80,
        proto: 6,
    };
    let mut hasher = key.build_hasher();
    flow.hash(&mut hasher);
    hasher.finish()
}

fn hash_by(rt: &impl Abort, bytes: [u8; 16]) -> u64 {
    flow_hash(&drawn(rt, bytes))
}

// The bytes 1 to 16.
fn known(rt: &impl Abort) -> TableKey {
    drawn(rt, [1, 2, 3, 4, 5, 6, 7, 8, 9, 10, 11, 12, 13, 14, 15, 16])
}

#[test]
fn each_byte_of_a_source_matters(rt: HostRuntime) {
    let bytes = [7u8; 16];
    let hash = hash_by(&rt, bytes);
    assert_eq!(&rt; hash_by(&rt, bytes), hash);
    for place in 0..16usize {
        let mut other = bytes;
        other[place] = 8;
        assert!(&rt; hash_by(&rt, other) != hash, "byte {place}");
    }
}

#[test]
fn no_key_without_random_bytes(rt: HostRuntime) {
    assert!(&rt; TableKey::drawn(&Source { bytes: None }).is_err());
}

#[test]
fn flows_have_known_hashes(rt: HostRuntime) {
    assert_eq!(&rt; flow_hash(&known(&rt)), 0xa032_1c5b_3388_333e);
    assert_eq!(&rt; flow_hash(&TableKey::fixed()), 0x2d4c_66e1_0664_262c);
}

// Nothing, a byte, that byte and a zero, one piece, and two pieces with a byte more.
static WRITES: [(&[u8], u64); 5] = [
    (b"", 0xa844_7ef0_dc81_a615),
    (b"a", 0x3589_0bbc_e937_7ff7),
    (b"a\0", 0x8164_0617_9dc1_a3c0),
    (b"0123456789abcdef", 0xe1e9_9d34_833c_7d78),
    (b"0123456789abcdefghijklmnopqrstuvw", 0xb406_4c48_fa5a_6fad),
];

#[test]
fn writes_have_known_hashes(rt: HostRuntime) {
    for (bytes, hash) in WRITES {
        let mut hasher = known(&rt).build_hasher();
        hasher.write(bytes);
        assert_eq!(&rt; hasher.finish(), hash);
    }
}
