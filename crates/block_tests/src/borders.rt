//! Lists that go over the borders of their blocks, of 1,024 items each.
use block_list::Blocks;
use std::process::Abort;
use std::test::Fail;

// The item at an index.
fn item(at: usize) -> u64 {
    (at as u64).wrapping_mul(0x9e37_79b9_7f4a_7c15)
}

// The list has these items and no other.
fn has_all(rt: &impl Abort, list: &Blocks<u64>, count: usize) {
    assert_eq!(rt; list.len(), count);
    assert_eq!(rt; list.is_empty(), count == 0);
    for at in 0..count {
        assert_eq!(rt; list.get(at).copied(), Some(item(at)));
    }
    assert_eq!(rt; list.get(count).copied(), None);
    assert_eq!(rt; list.get(usize::MAX).copied(), None);
}

#[test]
fn a_list_has_what_was_pushed_at_each_border(rt: HostRuntime) -> Result<(), Fail> {
    let mut list = Blocks::new(rt.alloc());
    has_all(&rt, &list, 0);
    for at in 0..3000 {
        list.push(item(at))?;
        let count = at + 1;
        if matches!(
            count,
            1 | 4 | 5 | 1023 | 1024 | 1025 | 2047 | 2048 | 2049 | 3000
        ) {
            has_all(&rt, &list, count);
        }
    }
    Ok(())
}

#[test]
fn a_write_reaches_one_item(rt: HostRuntime) -> Result<(), Fail> {
    for written in [0, 1023, 1024, 2047, 2048, 2099] {
        let mut list = Blocks::new(rt.alloc());
        for at in 0..2100 {
            list.push((at, false))?;
        }
        assert!(rt; written < list.len());
        list[written].1 = true;
        for at in 0..2100 {
            assert_eq!(rt; list.get(at).copied(), Some((at, at == written)));
        }
        list.set(written, (7, false));
        assert_eq!(rt; list.get(written).copied(), Some((7, false)));
    }
    Ok(())
}
