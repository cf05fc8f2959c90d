//! Backends keep the places that they got, also where their addresses share a hint.
use backend_names::Name;
use backend_places::Backends;
use pool_versions::Backend;
use std::process::Abort;
use std::test::Fail;

/// A backend of one of two names.
pub(crate) fn backend(rt: &impl Abort, second: bool, addr: u32) -> Backend {
    let name = if second { b"b-2" } else { b"b-1" };
    Backend {
        name: Name::new(name).expect(rt, "a name"),
        addr,
    }
}

// Addresses 64 apart share a hint, and so do two names at one address.
#[test]
fn places_are_kept(rt: HostRuntime) -> Result<(), Fail> {
    let mut backends = Backends::new(rt.alloc());
    for _ in 0..3 {
        for number in 0..200u32 {
            let one = backend(&rt, number % 2 == 1, 0x0a00_0000 + number / 2 * 64);
            let place = backends.place_of(&one)?;
            assert_eq!(rt; place, number);
            assert_eq!(rt; backends.at(place).copied(), Some(one));
            assert!(rt; backends.is_at(place, &one));
            assert!(rt; !backends.is_at(number ^ 1, &one));
        }
        assert_eq!(rt; backends.at(200).copied(), None);
    }
    Ok(())
}
