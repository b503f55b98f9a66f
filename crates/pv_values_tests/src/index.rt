use pv_index::LastIndexes;
use std::test::Fail;

#[test]
fn a_copy_takes_as_many_keys(rt: HostRuntime) -> Result<(), Fail> {
    let mut last = LastIndexes::open(rt.alloc(), 3)?;
    last.set(12, 0);
    last.set(12, 7);
    let mut copy = last.copy()?;
    copy.set(13, 8);
    for (key, index, copied) in [(12, Some(7), Some(7)), (13, None, Some(8)), (0, None, None)] {
        assert_eq!(rt; last.get(key), index);
        assert_eq!(rt; copy.get(key), copied);
    }
    Ok(())
}
