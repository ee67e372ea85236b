// The script of a seed, the group that a line logs, and decimal numbers.
use crate::printed::printed;
use redo_script::{generate, generate_lines, group_of, number_up_to, parse};
use std::test::Fail;

#[test]
fn generated_texts(rt: HostRuntime) -> Result<(), Fail> {
    let one = generate(rt.alloc(), 1, 1, 1)?;
    assert!(rt; one.as_slice() == b"1 n b8 3 3089 5627;b1 3 250 246\n".as_slice());
    assert!(rt; generate(rt.alloc(), 1, 1, 0)?.is_empty());
    Ok(())
}

#[test]
fn generated_scripts(rt: HostRuntime) -> Result<(), Fail> {
    let many = generate(rt.alloc(), 7, 16, 1000)?;
    let script = generate_lines(rt.alloc(), 7, 16, 1000)?;
    assert!(rt; script.0.len() == 1000 && script.0[16].user == 1);
    let mut lines = printed(rt.alloc(), &script)?;
    lines.push_str("\n")?;
    assert!(rt; lines.as_bytes() == many.as_slice());
    Ok(())
}

const GROUP: &str = "Group([\
Num { width: 1, space: 5, page: 3, offset: 100, value: 7 }, \
Text { space: 5, page: 2, offset: 38, bytes: Bytes { vec: [10] } }, \
Init { space: 5, page: 4 }])";

#[test]
fn groups(rt: HostRuntime) -> Result<(), Fail> {
    let alloc = rt.alloc();
    let script = parse(alloc, b"1 f b1 3 100 7;s 2 38 0a;i 4")?;
    assert!(rt; script.0.len() == 1);
    let group = group_of(alloc, &script.0[0], 5)?;
    assert!(rt; format!(in alloc; "{group:?}")?.as_str() == GROUP);
    Ok(())
}

#[test]
fn numbers(rt: HostRuntime) {
    for (text, want) in [
        ("0", Some(0)),
        ("00000000000000000007", Some(7)),
        ("000000000000000000007", None),
        ("10", Some(10)),
        ("11", None),
        ("", None),
    ] {
        assert!(rt; number_up_to(text.as_bytes(), 10) == want, "of {text}");
    }
}
