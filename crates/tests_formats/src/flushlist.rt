// A list of one store's pages.
use redo_flushlist::FlushList;
use std::test::Fail;

// The list has this oldest end, and these lsns for pages 3, 7 and 11.
fn lists(list: &FlushList, oldest_end: Option<u64>, lsns: [Option<u64>; 3]) -> bool {
    list.oldest_end() == oldest_end && [list.listed(3), list.listed(7), list.listed(11)] == lsns
}

#[test]
fn the_first_page_is_the_oldest(rt: HostRuntime) -> Result<(), Fail> {
    let mut list = FlushList::new(rt.alloc(), 64)?;
    list.add(3, 40_000);
    list.add(7, 24_000);
    assert!(rt; lists(&list, Some(40_000), [Some(40_000), Some(24_000), None]));
    list.remove(3);
    list.add(3, 40_383);
    assert!(rt; lists(&list, Some(24_000), [Some(40_383), Some(24_000), None]));
    list.remove(7);
    list.remove(3);
    assert!(rt; lists(&list, None, [None, None, None]));
    Ok(())
}
