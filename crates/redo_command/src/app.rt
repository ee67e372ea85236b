// The application whose words `clap` reads.
ghost use Rattle.std.specs.Prelude.{◌≡◌, false, IfOk, codes};
ghost use Rattle.clap.specs.Words.{rule_of, with_rule, with_subcommand, app_of};
ghost use Rattle.model_words.specs.App.{IsApp, IsLocal, crash_app, dump_app, flag_rule, format_app, gen_app, number_rule, plain_app, recover_app, redolab_app, restore_app, run_app, top_app, value_rule, with_actors, with_drive, with_others, with_runs, with_turns, with_values, with_workers};

use clap::{Arg, ArgAction, Command};
use std::alloc::{AllocError, Global};

// An option with a number.
fn number<'a>(alloc: Global, name: &'a str) -> Arg<'a>
    ensures rule { rule_of result ≡ number_rule name.entry.now }
    ensures local { result.global ≡ false }
{
    Arg::new(alloc, name).long(name).action(ArgAction::Set)
}

// An option without.
fn flag<'a>(alloc: Global, name: &'a str) -> Arg<'a>
    ensures rule { rule_of result ≡ flag_rule name.entry.now }
    ensures local { result.global ≡ false }
{
    Arg::new(alloc, name).long(name).action(ArgAction::SetTrue)
}

// A number by itself.
fn value<'a>(alloc: Global, name: &'a str) -> Arg<'a>
    ensures rule { rule_of result ≡ value_rule name.entry.now }
    ensures local { result.global ≡ false }
{
    Arg::new(alloc, name).required(true)
}

// With one more option, that has a number.
fn with_number<'a>(
    alloc: Global,
    command: Command<'a>,
    name: &'a str,
) -> Result<Command<'a>, AllocError>
    requires { IsLocal command }
    ensures { IfOk result (IsApp (with_rule (app_of command.entry) (number_rule name.entry.now))) }
{
    command.arg(number(alloc, name))
}

// With one more option, that has none.
fn with_flag<'a>(
    alloc: Global,
    command: Command<'a>,
    name: &'a str,
) -> Result<Command<'a>, AllocError>
    requires { IsLocal command }
    ensures { IfOk result (IsApp (with_rule (app_of command.entry) (flag_rule name.entry.now))) }
{
    command.arg(flag(alloc, name))
}

// With one more number by itself.
fn with_value<'a>(
    alloc: Global,
    command: Command<'a>,
    name: &'a str,
) -> Result<Command<'a>, AllocError>
    requires { IsLocal command }
    ensures { IfOk result (IsApp (with_rule (app_of command.entry) (value_rule name.entry.now))) }
{
    command.arg(value(alloc, name))
}

// A command with `--files` alone.
fn plain<'a>(alloc: Global, name: &'a str) -> Result<Command<'a>, AllocError>
    ensures { IfOk result (IsApp (plain_app name.entry.now)) }
{
    Command::new(alloc, name).arg(flag(alloc, "files"))
}

fn format_command<'a>(alloc: Global) -> Result<Command<'a>, AllocError>
    ensures { IfOk result (IsApp format_app) }
{
    let command = plain(alloc, "format")?;
    let command = with_number(alloc, command, "page-size")?;
    let command = with_number(alloc, command, "pages")?;
    let command = with_number(alloc, command, "space")?;
    with_number(alloc, command, "log-blocks")
}

// With the options that say in what order a run's steps are taken.
fn with_turns<'a>(alloc: Global, command: Command<'a>) -> Result<Command<'a>, AllocError>
    requires { IsLocal command }
    ensures { IfOk result (IsApp (with_turns (app_of command.entry))) }
{
    let command = with_number(alloc, command, "turns")?;
    let command = with_number(alloc, command, "max")?;
    with_flag(alloc, command, "threads")
}

// With the options that say which actors take them.
fn with_actors<'a>(alloc: Global, command: Command<'a>) -> Result<Command<'a>, AllocError>
    requires { IsLocal command }
    ensures { IfOk result (IsApp (with_actors (app_of command.entry))) }
{
    let command = with_flag(alloc, command, "log-only")?;
    let command = with_flag(alloc, command, "own-writes")?;
    with_number(alloc, command, "followers")
}

// With the options of a run.
fn with_drive<'a>(alloc: Global, command: Command<'a>) -> Result<Command<'a>, AllocError>
    requires { IsLocal command }
    ensures { IfOk result (IsApp (with_drive (app_of command.entry))) }
{
    let command = with_turns(alloc, command)?;
    with_actors(alloc, command)
}

// With the number of those that apply the groups of the log.
fn with_workers<'a>(alloc: Global, command: Command<'a>) -> Result<Command<'a>, AllocError>
    requires { IsLocal command }
    ensures { IfOk result (IsApp (with_workers (app_of command.entry))) }
{
    with_number(alloc, command, "workers")
}

fn run_command<'a>(alloc: Global) -> Result<Command<'a>, AllocError>
    ensures { IfOk result (IsApp run_app) }
{
    let command = plain(alloc, "run")?;
    let command = with_flag(alloc, command, "archive")?;
    with_drive(alloc, command)
}

fn crash_command<'a>(alloc: Global) -> Result<Command<'a>, AllocError>
    ensures { IfOk result (IsApp crash_app) }
{
    let command = plain(alloc, "crash")?;
    let command = with_number(alloc, command, "stop-log")?;
    let command = with_number(alloc, command, "stop-data")?;
    let command = with_number(alloc, command, "pick")?;
    let command = with_workers(alloc, command)?;
    with_drive(alloc, command)
}

fn recover_command<'a>(alloc: Global) -> Result<Command<'a>, AllocError>
    ensures { IfOk result (IsApp recover_app) }
{
    with_workers(alloc, plain(alloc, "recover")?)
}

fn dump_command<'a>(alloc: Global) -> Result<Command<'a>, AllocError>
    ensures { IfOk result (IsApp dump_app) }
{
    let command = plain(alloc, "dump")?;
    with_flag(alloc, command, "why")
}

fn restore_command<'a>(alloc: Global) -> Result<Command<'a>, AllocError>
    ensures { IfOk result (IsApp restore_app) }
{
    let command = plain(alloc, "restore")?;
    with_number(alloc, command, "to")
}

// With the three numbers of a script.
fn with_values<'a>(alloc: Global, command: Command<'a>) -> Result<Command<'a>, AllocError>
    requires { IsLocal command }
    ensures { IfOk result (IsApp (with_values (app_of command.entry))) }
{
    let command = with_value(alloc, command, "seed")?;
    let command = with_value(alloc, command, "users")?;
    with_value(alloc, command, "groups")
}

fn gen_command<'a>(alloc: Global) -> Result<Command<'a>, AllocError>
    ensures { IfOk result (IsApp gen_app) }
{
    let command = plain(alloc, "gen")?;
    let command = with_flag(alloc, command, "run")?;
    let command = with_number(alloc, command, "max")?;
    with_values(alloc, command)
}

// No help and no version.
fn top_command<'a>(alloc: Global) -> Command<'a>
    ensures { IsApp top_app result }
{
    Command::new(alloc, "redolab")
        .no_binary_name(true)
        .disable_help_flag(true)
        .disable_help_subcommand(true)
        .disable_version_flag(true)
        .subcommand_required(true)
}

// With one more command.
fn with_command<'a>(
    command: Command<'a>,
    subcommand: Command<'a>,
) -> Result<Command<'a>, AllocError>
    requires whole { IsLocal command }
    requires part { IsLocal subcommand }
    ensures { IfOk result (IsApp (with_subcommand (app_of command.entry) (app_of subcommand.entry).top)) }
{
    command.subcommand(subcommand)
}

// The three that run.
fn with_runs<'a>(alloc: Global, command: Command<'a>) -> Result<Command<'a>, AllocError>
    requires { IsLocal command }
    ensures { IfOk result (IsApp (with_runs (app_of command.entry))) }
{
    let command = with_command(command, format_command(alloc)?)?;
    let command = with_command(command, run_command(alloc)?)?;
    with_command(command, crash_command(alloc)?)
}

// The four that don't.
fn with_others<'a>(alloc: Global, command: Command<'a>) -> Result<Command<'a>, AllocError>
    requires { IsLocal command }
    ensures { IfOk result (IsApp (with_others (app_of command.entry))) }
{
    let command = with_command(command, recover_command(alloc)?)?;
    let command = with_command(command, dump_command(alloc)?)?;
    let command = with_command(command, restore_command(alloc)?)?;
    with_command(command, gen_command(alloc)?)
}

/// The seven commands.
pub fn redolab_command<'a>(alloc: Global) -> Result<Command<'a>, AllocError>
    ensures { IfOk result (IsApp redolab_app) }
{
    let command = with_runs(alloc, top_command(alloc))?;
    with_others(alloc, command)
}
