// A small buffer, and the space of one as long as InnoDB's recent-written.
use super::LinkBuf;
use std::test::Fail;

#[test]
fn the_tail_stops_at_a_hole(rt: HostRuntime) -> Result<(), Fail> {
    let mut links = LinkBuf::new(rt.alloc(), 8, 6)?;
    links.add_link(9, 11);
    assert_eq!(rt;
        links.slots.as_slice(),
        [0, 11, 0, 0, 0, 0, 0, 0].as_slice()
    );
    let stopped = links.advance();
    assert_eq!(rt; stopped, 6);
    links.add_link(6, 9);
    let moved = links.advance();
    assert_eq!(rt; moved, 11);
    assert_eq!(rt; links.tail(), 11);
    assert_eq!(rt; links.slots.as_slice(), [0; 8].as_slice());
    Ok(())
}

#[test]
fn a_link_round_the_ring_is_followed_once(rt: HostRuntime) -> Result<(), Fail> {
    let mut links = LinkBuf::new(rt.alloc(), 8, 6)?;
    links.add_link(6, 14);
    let moved = links.advance();
    assert_eq!(rt; moved, 14);
    assert_eq!(rt; links.slots.as_slice(), [0; 8].as_slice());
    Ok(())
}

#[test]
fn the_window_is_one_capacity(rt: HostRuntime) -> Result<(), Fail> {
    let links = LinkBuf::new(rt.alloc(), 32_768, 8204)?;
    assert!(rt; links.has_space(8203));
    assert!(rt; links.has_space(40_971));
    assert!(rt; !links.has_space(40_972));
    Ok(())
}
