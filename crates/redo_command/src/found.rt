// What is read of the matches. The texts are no numbers to `clap`, since its number parser takes `+5`.
ghost use Rattle.std.specs.Prelude.{◌≡◌, codes, option_and_then, option_map};
ghost use Rattle.clap.specs.Words.{first_of, found_of, rows_of};
ghost use Rattle.model_base.specs.declared.limits.TheConstants.{DEFAULT_LOG_BLOCKS, DEFAULT_PAGES, DEFAULT_SPACE, MAX_LOG_BLOCKS, MAX_PAGES, MIN_LOG_BLOCKS};
ghost use Rattle.model_script.specs.{allowed_page_size, number_within, word_number};
ghost use Rattle.model_words.specs.Found.{asked_with, command_from, crash_from, drive_from, followers_from, format_from, gen_from, is_true, restore_from, run_from, text_number, text_number_or, text_number_within, text_page_size, workers_from};

use clap::ArgMatches;
use model_base::{
    DEFAULT_LOG_BLOCKS, DEFAULT_PAGES, DEFAULT_SPACE, LARGE_PAGE_SIZE, MAX_LOG_BLOCKS, MAX_PAGES,
    MIN_LOG_BLOCKS, PAGE_SIZE,
};
use model_script::{
    Asked, Command, DEFAULT_TURNS, Drive, MAX_FOLLOWERS, MAX_GENERATED, MAX_TURNS, MAX_USERS,
    MAX_WORKERS,
};
use redo_script::number_up_to;

// The text of an argument.
#[tactic(auto, using(crate::proofs::Matches::rows))]
fn text_of<'a>(found: &ArgMatches<'a>, name: &str) -> Option<&'a str>
    ensures { option_map (λ s. s.now) result ≡ first_of name.now (rows_of (found_of found.now)) }
{
    found.get_str(name)
}

// Whether the flag was given.
fn is_given(found: &ArgMatches<'_>, name: &str) -> bool
    ensures { result ≡ is_true (first_of name.now (rows_of (found_of found.now))) }
{
    match text_of(found, name) {
        None => false,
        Some(text) => text.as_bytes() == b"true".as_slice(),
    }
}

// The number that the word is.
fn word_number(text: &str) -> Option<u64>
    ensures { result ≡ word_number text.now }
{
    number_up_to(text.as_bytes(), u64::MAX)
}

fn number_within(least: u64, greatest: u64, number: u64) -> Option<u64>
    ensures { result ≡ number_within least greatest number }
{
    (least <= number && number <= greatest).then_some(number)
}

// The number within its limits that the word is.
fn word_within(text: &str, least: u64, greatest: u64) -> Option<u64>
    ensures { result ≡ option_and_then (number_within least greatest) (word_number text.now) }
{
    number_within(least, greatest, word_number(text)?)
}

// The number within its limits, or what stands for it.
fn number_or(
    found: &ArgMatches<'_>,
    name: &str,
    least: u64,
    greatest: u64,
    default: u64,
) -> Option<u64>
    ensures { result ≡ text_number_or least greatest default (first_of name.now (rows_of (found_of found.now))) }
{
    match text_of(found, name) {
        None => Some(default),
        Some(text) => word_within(text, least, greatest),
    }
}

// The number, if a page may have so many bytes.
fn allowed_page_size(number: u64) -> Option<u64>
    ensures { result ≡ allowed_page_size number }
{
    (number == u64::from(PAGE_SIZE) || number == u64::from(LARGE_PAGE_SIZE)).then_some(number)
}

// How many bytes a page has.
fn page_size_of(found: &ArgMatches<'_>) -> Option<u64>
    ensures { result ≡ text_page_size (first_of (codes "page-size") (rows_of (found_of found.now))) }
{
    match text_of(found, "page-size") {
        None => Some(u64::from(PAGE_SIZE)),
        Some(text) => allowed_page_size(word_number(text)?),
    }
}

// The number within its limits; there has to be one.
fn value_within(found: &ArgMatches<'_>, name: &str, least: u64, greatest: u64) -> Option<u64>
    ensures { result ≡ text_number_within least greatest (first_of name.now (rows_of (found_of found.now))) }
{
    match text_of(found, name) {
        None => None,
        Some(text) => word_within(text, least, greatest),
    }
}

// The number, if there is one.
fn number_of(found: &ArgMatches<'_>, name: &str) -> Option<Option<u64>>
    ensures { result ≡ text_number (first_of name.now (rows_of (found_of found.now))) }
{
    match text_of(found, name) {
        None => Some(None),
        Some(text) => Some(Some(word_number(text)?)),
    }
}

fn turns_of(found: &ArgMatches<'_>) -> Option<u64>
    ensures { result ≡ text_number_or 0 MAX_TURNS DEFAULT_TURNS (first_of (codes "max") (rows_of (found_of found.now))) }
{
    number_or(found, "max", 0, MAX_TURNS, DEFAULT_TURNS)
}

fn read_followers(found: &ArgMatches<'_>) -> Option<u32>
    ensures { result ≡ followers_from (rows_of (found_of found.now)) }
{
    let followers = number_or(found, "followers", 1, u64::from(MAX_FOLLOWERS), 0)?;
    Some(followers as u32)
}

fn read_drive(found: &ArgMatches<'_>, archive: bool) -> Option<Drive>
    ensures { result ≡ drive_from archive (rows_of (found_of found.now)) }
{
    let seed = number_or(found, "turns", 0, u64::MAX, 0)?;
    let max = turns_of(found)?;
    let followers = read_followers(found)?;
    Some(Drive {
        seed,
        max,
        threads: is_given(found, "threads"),
        log_only: is_given(found, "log-only"),
        own_writes: is_given(found, "own-writes"),
        followers,
        archive,
    })
}

fn read_run(found: &ArgMatches<'_>) -> Option<Command>
    ensures { result ≡ run_from (rows_of (found_of found.now)) }
{
    let drive = read_drive(found, is_given(found, "archive"))?;
    Some(Command::Run { drive })
}

fn read_format(found: &ArgMatches<'_>) -> Option<Command>
    ensures { result ≡ format_from (rows_of (found_of found.now)) }
{
    let page_size = page_size_of(found)?;
    let pages = number_or(
        found,
        "pages",
        1,
        u64::from(MAX_PAGES),
        u64::from(DEFAULT_PAGES),
    )?;
    let space = number_or(
        found,
        "space",
        0,
        u64::from(u32::MAX),
        u64::from(DEFAULT_SPACE),
    )?;
    let log_blocks = number_or(
        found,
        "log-blocks",
        u64::from(MIN_LOG_BLOCKS),
        u64::from(MAX_LOG_BLOCKS),
        u64::from(DEFAULT_LOG_BLOCKS),
    )?;
    Some(Command::Format {
        page_size: page_size as u32,
        pages: pages as u32,
        space: space as u32,
        log_blocks: log_blocks as u32,
    })
}

fn read_workers(found: &ArgMatches<'_>) -> Option<u32>
    ensures { result ≡ workers_from (rows_of (found_of found.now)) }
{
    let workers = number_or(found, "workers", 1, u64::from(MAX_WORKERS), 1)?;
    Some(workers as u32)
}

fn read_crash(found: &ArgMatches<'_>) -> Option<Command>
    ensures { result ≡ crash_from (rows_of (found_of found.now)) }
{
    let drive = read_drive(found, false)?;
    let stop_log = number_of(found, "stop-log")?;
    let stop_data = number_of(found, "stop-data")?;
    let pick = number_or(found, "pick", 0, u64::MAX, 0)?;
    let workers = read_workers(found)?;
    Some(Command::Crash {
        drive,
        stop_log,
        stop_data,
        pick,
        workers,
    })
}

fn read_restore(found: &ArgMatches<'_>) -> Option<Command>
    ensures { result ≡ restore_from (rows_of (found_of found.now)) }
{
    let to = value_within(found, "to", 0, u64::MAX)?;
    Some(Command::Restore { to })
}

fn read_gen(found: &ArgMatches<'_>) -> Option<Command>
    ensures { result ≡ gen_from (rows_of (found_of found.now)) }
{
    let seed = value_within(found, "seed", 0, u64::MAX)?;
    let users = value_within(found, "users", 1, u64::from(MAX_USERS))?;
    let groups = value_within(found, "groups", 0, MAX_GENERATED)?;
    let max = turns_of(found)?;
    Some(Command::Gen {
        seed,
        users: users as u32,
        groups,
        run: is_given(found, "run"),
        max,
    })
}

fn read_command(name: &str, found: &ArgMatches<'_>) -> Option<Command>
    ensures { result ≡ command_from name.now (rows_of (found_of found.now)) }
{
    match name {
        "format" => read_format(found),
        "run" => read_run(found),
        "crash" => read_crash(found),
        "recover" => Some(Command::Recover {
            workers: read_workers(found)?,
        }),
        "dump" => Some(Command::Dump {
            why: is_given(found, "why"),
        }),
        "restore" => read_restore(found),
        "gen" => read_gen(found),
        _ => None,
    }
}

/// What the command of this name asks for with these matches.
pub fn read_asked(name: &str, found: &ArgMatches<'_>) -> Option<Asked>
    ensures { result ≡ asked_with name.now (rows_of (found_of found.now)) }
{
    let command = read_command(name, found)?;
    Some(Asked {
        command,
        files: is_given(found, "files"),
    })
}
