// Which text is a script, and what its lines say.
use crate::printed::printed;
use crate::rows::{columns, text_of};
use redo_script::{ScriptFault, parse};
use std::alloc::Global;
use std::test::Fail;

// Below the first line: a text, and the lines of the script that it is, as they are printed.
const SCRIPTS: &str = r##"
""                                  | ""
"\n"                                | ""
"\r\n"                              | ""
"\r"                                | ""
"\n\n\n"                            | ""
"#"                                 | ""
"# comment"                         | ""
"#\t\r\r"                           | ""
"#1 f i 3\n"                        | ""
"1 f b1 3 100 7"                    | "1 f b1 3 100 7"
"1 f b1 3 100 7\n"                  | "1 f b1 3 100 7"
"1 f b1 3 100 7\r\n"                | "1 f b1 3 100 7"
"1 f b1 3 100 7\r"                  | "1 f b1 3 100 7"
"1 f b1 3 100 7\n\n"                | "1 f b1 3 100 7"
"\n1 f b1 3 100 7"                  | "1 f b1 3 100 7"
"# c\n1 f b1 3 100 7\n# c"          | "1 f b1 3 100 7"
"01 f b1 003 0100 07"               | "1 f b1 3 100 7"
"00000000000000000001 f i 3"        | "1 f i 3"
"1 f i 00000000000000000003"        | "1 f i 3"
"1 f b1 3 100 00000000000000000255" | "1 f b1 3 100 255"
"1 w i 3"                           | "1 w i 3"
"1 n i 3"                           | "1 n i 3"
"0 f i 0"                           | "0 f i 0"
"4294967295 f i 4294967295"         | "4294967295 f i 4294967295"
"17 f i 3"                          | "17 f i 3"
"1 f b1 0 0 0"                      | "1 f b1 0 0 0"
"1 f b1 0 65535 255"                | "1 f b1 0 65535 255"
"1 f b2 0 0 65535"                  | "1 f b2 0 0 65535"
"1 f b4 0 0 4294967295"             | "1 f b4 0 0 4294967295"
"1 f b8 0 0 18446744073709551615"   | "1 f b8 0 0 18446744073709551615"
"1 f s 3 38 00"                     | "1 f s 3 38 00"
"1 f s 3 38 0aFf"                   | "1 f s 3 38 0aff"
"1 f s 3 38 ABCDEF"                 | "1 f s 3 38 abcdef"
"1 f s 0 65535 00112233"            | "1 f s 0 65535 00112233"
"1 f i 1;i 2"                       | "1 f i 1;i 2"
"1 f b1 3 100 7;b1 4 100 8"         | "1 f b1 3 100 7;b1 4 100 8"
"1 w i 1;b2 3 40 258;s 2 38 0a"     | "1 w i 1;b2 3 40 258;s 2 38 0a"
"1 f i 1\n2 w i 2\n1 n i 3"         | "1 f i 1\n2 w i 2\n1 n i 3"
"1 f i 1\r\n2 w i 2\r\n"            | "1 f i 1\n2 w i 2"
"1 n b8 3 3089 5627;b1 3 250 246"   | "1 n b8 3 3089 5627;b1 3 250 246"
"##;

// Below the first line: texts that are none, and the first line that is bad, where that isn't the first.
const BAD_TEXTS: &str = r##"
" "
"\t"
"\r\r"
"\r\r\n"
" # comment"
"\t#"
"x"
"1"
"1 f"
"1 f "
"1 f b1"
"1 f b1 3"
"1 f b1 3 100"
"1 f b1 3 100 "
"1 f b1 3 100 7 "
" 1 f b1 3 100 7"
"1  f b1 3 100 7"
"1 f  b1 3 100 7"
"1 f b1  3 100 7"
"1 f b1 3  100 7"
"1 f b1 3 100  7"
"1\tf b1 3 100 7"
"1 f\tb1 3 100 7"
"1 f b1 3 100\t7"
"1 f b1 3 100 7\t"
"1 f b1 3 100\r 7"
"1 f b1 3 \r100 7"
"1 f b1 3 100 7\r\r"
"1 f b1 3 100 7\r\r\n"
"1 x b1 3 100 7"
"1 F b1 3 100 7"
"1 ff b1 3 100 7"
"1 1 b1 3 100 7"
"1 f b0 3 100 7"
"1 f b3 3 100 7"
"1 f b16 3 100 7"
"1 f B1 3 100 7"
"1 f b 3 100 7"
"1 f b1 3 100 7 8"
"1 f b1 3 100 256"
"1 f b2 3 100 65536"
"1 f b4 3 100 4294967296"
"1 f b8 3 100 18446744073709551616"
"1 f b8 3 100 99999999999999999999"
"1 f b1 3 100 000000000000000000007"
"1 f b1 3 100 0000000000000000000000007"
"000000000000000000001 f i 3"
"4294967296 f i 3"
"1 f i 4294967296"
"1 f b1 4294967296 100 7"
"1 f b1 3 65536 7"
"-1 f i 3"
"+1 f i 3"
"1 f i -3"
"1 f i +3"
"1 f i 3x"
"1 f i 0x3"
"1 f i 3.0"
"1 f i "
"1 f i"
"1 f i 3 4"
" f i 3"
"1 f s 3 38"
"1 f s 3 38 "
"1 f s 3 38 0"
"1 f s 3 38 0aF"
"1 f s 3 38 0g"
"1 f s 3 38 0a 0b"
"1 f s 3 38 0x0a"
"1 f s 3 65536 0a"
"1 f i 3;"
"1 f ;i 3"
"1 f i 3;;i 4"
"1 f i 3; i 4"
"1 f i 3 ;i 4"
"1 f i 3,i 4"
"1;f;i 3"
";"
"x\ny"
"1 f i 3\r\r\n1 f i 4"
"1 f i 3\nx"              | 2
"1 f i 3\n\nx"            | 3
"# c\nx"                  | 2
"\n\n\nx\ny"              | 4
"# comment\n\n17 f i 3 " | 3
"1 f i 3\n1 f i 3;"       | 2
"1 f i 1\n \n1 f i 2"     | 2
"##;

// Whether a text is a script with these lines.
fn is_script(alloc: Global, text: &str, lines: &str) -> Result<bool, Fail> {
    let script = parse(alloc, text_of(alloc, text)?.as_bytes())?;
    Ok(printed(alloc, &script)? == text_of(alloc, lines)?)
}

#[test]
fn texts_that_are_scripts(rt: HostRuntime) -> Result<(), Fail> {
    for row in SCRIPTS.lines().skip(1) {
        let (text, lines) = columns(row);
        assert!(rt; is_script(rt.alloc(), text, lines)?, "of {row}");
    }
    Ok(())
}

#[test]
fn texts_with_a_bad_line(rt: HostRuntime) -> Result<(), Fail> {
    for row in BAD_TEXTS.lines().skip(1) {
        let (text, line) = columns(row);
        let bad = parse(rt.alloc(), text_of(rt.alloc(), text)?.as_bytes()).err();
        let line = line.parse::<u64>().unwrap_or(1);
        assert!(rt; bad == Some(ScriptFault::Line(line)), "of {row}");
    }
    Ok(())
}
