// Words that are no command.
use crate::rows::asked_of;
use redo_command::WordsFault;
use std::test::Fail;

const NO_COMMANDS: &str = "\
-
--
help
--help
-h
--version
-V
--files
--files run
-- run
Run
RUN
runs
ru
redolab run
run run
run 1
run --turns
run --turns x
run --turns -1
run --turns +1
run --turns 1 --turns 1
run --turns 1 --turns=1
run --turns 18446744073709551616
run --turns 000000000000000000001
run --turns=
run --turns= 1
run --turns =1
run -turns 1
run --turn 1
run --Turns 1
run --turns 1 2
run --max
run --max 1000000000000000001
run --max 1 --max 1
run --max=1=2
run --max 0x1
run --max 1.0
run --max 1e3
run --max --
run --max -- 1
run --threads --threads
run --threads=1
run --threads=
run --threads 1
run --log-only --log-only
run --own-writes --own-writes
run --own-writes=1
run --own-writes=
run --own-writes 1
run --archive --archive
run --archive=1
run --archive 1
run --archives
run --followers
run --followers 0
run --followers 5
run --followers x
run --followers 1 --followers 1
run --followers 1 --followers=2
run --files --files
run --files=1
run --log_only
run --own_writes
run --own-write
run --stop-log 1
run --pick 1
run --pages 1
run --run
run -- --threads
run -- --own-writes
run --to 8210
run -- 1
run --help
run -h
run help
run --version
crash --pick
crash --pick 1 --pick 1
crash --pick 1 --pick=2
crash --pick 18446744073709551616
crash --stop-log
crash --stop-log x
crash --stop-log 1 --stop-log 2
crash --stop-data
crash --stop-data 1 --stop-data 1
crash --stop 1
crash 1
crash --run
crash --why
crash --workers 0
crash --workers 17
crash --workers 1 --workers 1
crash --own-writes --own-writes
crash --archive
crash --archive --pick 1
crash --to 8210
crash --followers 0
crash --followers 5
crash --followers 1 --followers 1
recover 1
recover --workers
recover --workers 0
recover --workers 17
recover --workers -1
recover --workers +1
recover --workers x
recover --workers 000000000000000000016
recover --workers 1 --workers 1
recover --workers=1 --workers 2
recover --why
recover --threads
recover --own-writes
recover --archive
recover --to 8210
recover --followers 1
recover --turns 1
recover --files --files
recover -- 1
dump 1
dump --run
dump --own-writes
dump --pages 8
dump --why 1
dump --why=1
dump --why --why
dump --workers 1
dump dump
restore
restore 8210
restore --files
restore --to
restore --to=
restore --to x
restore --to -1
restore --to +1
restore --to 18446744073709551616
restore --to 000000000000000008210
restore --to 8210 --to 8210
restore --to 8210 8210
restore -- --to 8210
restore --to 8210 --archive
restore --to 8210 --workers 1
format 1
format --pages 0
format --pages 1025
format --pages
format --pages 1 --pages 1
format --page-size 8192
format --page-size 4097
format --page-size 4095
format --page-size 16383
format --page-size 16385
format --page-size 65536
format --page-size 0
format --page-size -4096
format --page-size 4k
format --page-size 4294971392
format --page-size
format --page-size=
format --page-size 4096 --page-size 4096
format --page_size 4096
format --page 4096
run --page-size 4096
recover --page-size 16384
format --space 4294967296
format --space -1
format --log-blocks 1023
format --log-blocks 1048577
format --log-blocks
format --log_blocks 2048
format --turns 1
format --max 1
format --own-writes
gen
gen 1
gen 1 1
gen 1 1 1 1
gen 1 0 1
gen 1 17 1
gen 1 1 1000001
gen 18446744073709551616 1 1
gen x 1 1
gen 1 x 1
gen 1 1 x
gen -1 1 1
gen 1 1 1 --run --run
gen 1 1 1 --run 1
gen 1 1 1 --max
gen 1 1 1 --max 1 --max 1
gen 1 1 1 --turns 1
gen -- --run 1 1 1
gen -- 1 1 1 --run
gen 1 1 1 --threads
gen 1 1 1 -- --
gen 000000000000000000001 1 1
gen 1 1 1 --log-only
gen 1 1 1 --own-writes
gen 1 1 1 --run --own-writes
gen 1 1 1 --run --archive
gen 1 2 3 --followers 1
gen 1 2 3 --run --followers 1
";

// What `clap` refuses where it is given the same seven commands, each option once at most, the three numbers of `gen` as
// required arguments, and no help and no version.
const REFUSED: &str = "\
run --max=5=6
run --max==5
run --max=
run --max= 5
run --max =5
run --=
run --=5
run =5
run =
run -
run ---
run ---max 5
run -max 5
run -max=5
run -m 5
run --ma 5
run --maximum 5
run --MAX 5
run --max5
run --max:5
run --max -- 5
run --max -
run --max=-5
run --max -5
run --turns --max 5
run --turns --files
run --turns=x
run --files=true
run --files true
run --no-files
run --threads=true
run --threads=0
run --own-writes=true
run --own writes
run --log-onl
run --log only
run -- --files
run --files -- --files
run -- --
run -- 5
run --threads -- --threads
run --max 5 --max=5
run --max=5 --max=6
run --files --threads --files
crash --pick 1 --turns 2 --pick=1
crash --stop-log --stop-data 1
crash --stop-log= --stop-data=1
crash --stop=1
crash --stop-log=1 --stop-log 1
crash run
help run
-h run
--help run
--version run
run -V
version
gen -h
gen help
gen 1 2 3 -h
gen 1 2 3 help
gen 1 2
gen 1 2 3 4
gen 1 2 3 -- 4
gen -- 1 2 -- 3
gen -- -1 2 3
gen -1 2 3
gen - 2 3
gen +1 2 3
gen 1,2,3
gen --run=1 1 2 3
gen 1 2 3 --max
gen -- 1 2 3 --run
--max 5 run
--files -- run
recover recover
dump --max=5
";

// No word, and lines with an empty word, between bars.
const EMPTY_WORDS: &str = "\
||
| |
|run |
|run  --threads|
|gen 1 1 |
|gen  1 2 3|
|gen 1 2 3 |
|run  --max 5|
| run|
";

#[test]
fn words_that_are_none(rt: HostRuntime) -> Result<(), Fail> {
    for table in [NO_COMMANDS, REFUSED, EMPTY_WORDS] {
        for row in table.lines() {
            let asked = asked_of(rt.alloc(), row.trim_matches('|'))?;
            assert!(rt; asked == Err(WordsFault::NotCommand), "of {row}");
        }
    }
    Ok(())
}
