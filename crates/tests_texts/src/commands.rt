// Words that are a command, and what they ask for.
use crate::rows::{asked_of, columns};
use std::alloc::{AllocError, Global};
use std::test::Fail;

// Each text is that of what some words ask for, with a star for each value. A row of the table below it has the words,
// and the values in the order of the stars.
const RUN: &str =
    "Ok(Asked { command: Run { drive: Drive { seed: *, max: *, threads: *, log_only: *, own_writes: *, followers: *, archive: * } }, files: * })";

const RUNS: &str = "\
run                              | 0                    100000000           false false false 0 false false
run --files                      | 0                    100000000           false false false 0 false true
run --turns 7                    | 7                    100000000           false false false 0 false false
run --turns 18446744073709551615 | 18446744073709551615 100000000           false false false 0 false false
run --turns 007                  | 7                    100000000           false false false 0 false false
run --turns=7                    | 7                    100000000           false false false 0 false false
run --max 0                      | 0                    0                   false false false 0 false false
run --max 1000000000000000000    | 0                    1000000000000000000 false false false 0 false false
run --threads                    | 0                    100000000           true  false false 0 false false
run --log-only                   | 0                    100000000           false true  false 0 false false
run --threads --log-only         | 0                    100000000           true  true  false 0 false false
run --followers 2                | 0                    100000000           false false false 2 false false
run --threads --followers=4      | 0                    100000000           true  false false 4 false false
run --own-writes                 | 0                    100000000           false false true  0 false false
run --log-only --own-writes      | 0                    100000000           false true  true  0 false false
run --own-writes --followers 3   | 0                    100000000           false false true  3 false false
run --own-writes --threads       | 0                    100000000           true  false true  0 false false
run --max=9 --own-writes --files | 0                    9                   false false true  0 false true
run --archive                    | 0                    100000000           false false false 0 true  false
run --archive --log-only --files | 0                    100000000           false true  false 0 true  true
run --followers=2 --archive      | 0                    100000000           false false false 2 true  false
run --archive --threads          | 0                    100000000           true  false false 0 true  false
run --own-writes --archive       | 0                    100000000           false false true  0 true  false
run --max 6 --turns 1            | 1                    6                   false false false 0 false false
run --turns 1 --max=6 --files    | 1                    6                   false false false 0 false true
run --                           | 0                    100000000           false false false 0 false false
run --turns 1 --                 | 1                    100000000           false false false 0 false false
";

const CRASH: &str =
    "Ok(Asked { command: Crash { drive: Drive { seed: *, max: *, threads: *, log_only: *, own_writes: *, followers: *, archive: * }, stop_log: *, stop_data: *, pick: *, workers: * }, files: * })";

const CRASHES: &str = "\
crash                                                                                                | 0 100000000 false false false 0 false None                       None    0                    1  false
crash --stop-log 0                                                                                   | 0 100000000 false false false 0 false Some(0)                    None    0                    1  false
crash --stop-data 3                                                                                  | 0 100000000 false false false 0 false None                       Some(3) 0                    1  false
crash --pick 18446744073709551615                                                                    | 0 100000000 false false false 0 false None                       None    18446744073709551615 1  false
crash --stop-log 18446744073709551615                                                                | 0 100000000 false false false 0 false Some(18446744073709551615) None    0                    1  false
crash --own-writes                                                                                   | 0 100000000 false false true  0 false None                       None    0                    1  false
crash --own-writes --log-only --stop-log 4 --pick 9                                                  | 0 100000000 false true  true  0 false Some(4)                    None    9                    1  false
crash --threads --own-writes                                                                         | 0 100000000 true  false true  0 false None                       None    0                    1  false
crash --workers 16                                                                                   | 0 100000000 false false false 0 false None                       None    0                    16 false
crash --followers 1 --workers 2                                                                      | 0 100000000 false false false 1 false None                       None    0                    2  false
crash --pick=5 --stop-log=1 --stop-data=2 --workers=6 --turns=3 --max=4 --threads --log-only --files | 3 4         true  true  false 0 false Some(1)                    Some(2) 5                    6  true
";

const RECOVER: &str = "Ok(Asked { command: Recover { workers: * }, files: * })";

const RECOVERS: &str = "\
recover                                | 1  false
recover --files                        | 1  true
recover --                             | 1  false
recover --workers 1                    | 1  false
recover --workers 16                   | 16 false
recover --files --workers=5            | 5  true
recover --workers 00000000000000000016 | 16 false
";

const DUMP: &str = "Ok(Asked { command: Dump { why: * }, files: * })";

const DUMPS: &str = "\
dump               | false false
dump --files --    | false true
dump --why         | true  false
dump --why --files | true  true
dump --files --why | true  true
";

const RESTORE: &str = "Ok(Asked { command: Restore { to: * }, files: * })";

const RESTORES: &str = "\
restore --to 8210                 | 8210                 false
restore --files --to=8210         | 8210                 true
restore --to 0 --                 | 0                    false
restore --to 18446744073709551615 | 18446744073709551615 false
restore --to=00000000000000008210 | 8210                 false
";

const FORMAT: &str =
    "Ok(Asked { command: Format { page_size: *, pages: *, space: *, log_blocks: * }, files: * })";

const FORMATS: &str = "\
format                                               | 4096  8    1          2048    false
format --page-size 4096                              | 4096  8    1          2048    false
format --page-size 16384                             | 16384 8    1          2048    false
format --page-size=16384 --files                     | 16384 8    1          2048    true
format --page-size 00016384 --pages 1024             | 16384 1024 1          2048    false
format --pages 1                                     | 4096  1    1          2048    false
format --pages 1024                                  | 4096  1024 1          2048    false
format --space 0                                     | 4096  8    0          2048    false
format --space 4294967295                            | 4096  8    4294967295 2048    false
format --log-blocks 1024                             | 4096  8    1          1024    false
format --log-blocks 1048576                          | 4096  8    1          1048576 false
format --space=2 --pages=3 --files --log-blocks=4096 | 4096  3    2          4096    true
";

const GEN: &str =
    "Ok(Asked { command: Gen { seed: *, users: *, groups: *, run: *, max: * }, files: * })";

const GENS: &str = "\
gen 1 1 1                            | 1                    1  1       false 100000000  false
gen 1 16 1000000                     | 1                    16 1000000 false 100000000  false
gen 18446744073709551615 1 0         | 18446744073709551615 1  0       false 100000000  false
gen 1 1 0 --run                      | 1                    1  0       true  100000000  false
gen --run 1 1 0                      | 1                    1  0       true  100000000  false
gen 7 16 1000 --run --max 1000000000 | 7                    16 1000    true  1000000000 false
gen 7 --max 5 16 --run 1000          | 7                    16 1000    true  5          false
gen 1 1 1 --max 5                    | 1                    1  1       false 5          false
gen 1 1 1 --files                    | 1                    1  1       false 100000000  true
gen -- 1 2 3                         | 1                    2  3       false 100000000  false
gen 1 -- 2 3                         | 1                    2  3       false 100000000  false
gen --run -- 1 2 3                   | 1                    2  3       true  100000000  false
gen 1 2 3 --                         | 1                    2  3       false 100000000  false
gen 01 002 0003                      | 1                    2  3       false 100000000  false
";

// The text with a value in place of each star. What is too much of the values stands at its end.
fn filled(alloc: Global, text: &str, values: &str) -> Result<String, AllocError> {
    let mut filled = String::new(alloc);
    let mut values = values.split_whitespace();
    for part in text.split('*') {
        filled.push_str(part)?;
        filled.push_str(values.next().unwrap_or(""))?;
    }
    for value in values {
        filled.push_str(value)?;
    }
    Ok(filled)
}

fn is_asked(alloc: Global, text: &str, row: &str) -> Result<bool, AllocError> {
    let (line, values) = columns(row);
    let asked = asked_of(alloc, line)?;
    Ok(format!(in alloc; "{asked:?}")? == filled(alloc, text, values)?)
}

#[test]
fn words_that_are_a_command(rt: HostRuntime) -> Result<(), Fail> {
    for (text, table) in [
        (RUN, RUNS),
        (CRASH, CRASHES),
        (RECOVER, RECOVERS),
        (DUMP, DUMPS),
        (RESTORE, RESTORES),
        (FORMAT, FORMATS),
        (GEN, GENS),
    ] {
        for row in table.lines() {
            assert!(rt; is_asked(rt.alloc(), text, row)?, "of {row}");
        }
    }
    Ok(())
}

// Each line beside the plain spelling of the same command. These are lines that `clap` takes where it is given the same
// seven commands, each option once at most, the three numbers of `gen` as required arguments, and no help and no version.
const SPELLINGS: &str = "\
run --turns=7                             | run --turns 7
run --turns=007 --max=0                   | run --max 0 --turns 7
run --log-only --threads                  | run --threads --log-only
run --own-writes --log-only --turns=7     | run --turns 7 --log-only --own-writes
run --followers=03 --turns 2 --           | run --turns 2 --followers 3
run --archive --turns=7 --                | run --turns 7 --archive
run --                                    | run
run --max 5 --                            | run --max 5
run --threads --files --                  | run --files --threads
recover --                                | recover
recover --files --                        | recover --files
dump --                                   | dump
dump --why --                             | dump --why
restore --to=07 --files --                | restore --files --to 7
recover --workers=5 --                    | recover --workers 5
crash --workers=2 --pick 1                | crash --pick 1 --workers 2
crash --                                  | crash
crash --pick=1 --stop-log=2 --stop-data=3 | crash --stop-log 2 --stop-data 3 --pick 1
crash --log-only --pick=1 --turns 2       | crash --turns 2 --pick 1 --log-only
crash --own-writes --pick=1 --            | crash --pick 1 --own-writes
crash --stop-data=0 --files --stop-log 0  | crash --stop-log 0 --stop-data 0 --files
format --log-blocks=1024 --pages=64       | format --pages 64 --log-blocks 1024
format --files --space=0 --               | format --space 0 --files
format --pages 2 --page-size=16384        | format --page-size 16384 --pages 2
format --page-size=4096                   | format
gen -- 1 2 3                              | gen 1 2 3
gen 1 -- 2 3                              | gen 1 2 3
gen 1 2 -- 3                              | gen 1 2 3
gen 1 2 3 --                              | gen 1 2 3
gen --max=5 -- 1 2 3                      | gen 1 2 3 --max 5
gen --run --files 1 -- 2 3                | gen 1 2 3 --run --files
gen 1 --run 2 --max 5 3 --files           | gen 1 2 3 --max 5 --run --files
gen --max 1 2 3 4                         | gen 2 3 4 --max 1
";

#[test]
fn spellings_that_clap_takes(rt: HostRuntime) -> Result<(), Fail> {
    for row in SPELLINGS.lines() {
        let (line, plain) = columns(row);
        let asked = asked_of(rt.alloc(), line)?;
        assert!(rt;
            asked.is_ok() && asked == asked_of(rt.alloc(), plain)?,
            "of {row}"
        );
    }
    Ok(())
}
