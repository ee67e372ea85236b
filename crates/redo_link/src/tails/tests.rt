// A tail's word, and what is read off it.
use super::{is_held, tail_of, tail_word};
use std::test::Fail;

#[test]
fn a_word_tells_the_tail_and_whether_it_is_held(rt: HostRuntime) -> Result<(), Fail> {
    assert_eq!(rt; tail_word(8204, true), 16_409);
    assert_eq!(rt; tail_word(8204, false), 16_408);
    assert_eq!(rt; tail_of(16_409), 8204);
    assert_eq!(rt; tail_of(16_408), 8204);
    assert!(rt; is_held(16_409));
    assert!(rt; !is_held(16_408));
    Ok(())
}
