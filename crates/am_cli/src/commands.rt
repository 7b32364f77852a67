//! The commands that there are.

ghost use Rattle.std.specs.Prelude.{◌≡◌, false, IfOk};
ghost use Rattle.clap.specs.Words.{rule_of};
ghost use Rattle.am_cli.specs.CommandLine.{number_rule, default_rule, word_rule, flag_rule, trace_app, draw_app, world_app, explore_app, threads_app, help_app, bare_program, cli, IsCommand};

use crate::help::version;
use clap::{Arg, ArgAction, Command, value_parser};
use std::alloc::{AllocError, Global};

/// An option that is a number.
fn option<'a>(alloc: Global, name: &'a str) -> Arg<'a>
    ensures rule { rule_of result ≡ number_rule name.entry.now }
    ensures local { result.global ≡ false }
{
    Arg::new(alloc, name)
        .long(name)
        .action(ArgAction::Set)
        .value_parser(value_parser!(u32))
}

/// It is this number where it is left out.
fn option_or<'a>(alloc: Global, name: &'a str, default: &'a str) -> Arg<'a>
    ensures rule { rule_of result ≡ default_rule name.entry.now default.entry.now }
    ensures local { result.global ≡ false }
{
    option(alloc, name).default_value(default)
}

/// An option that is a word.
fn word<'a>(alloc: Global, name: &'a str) -> Arg<'a>
    ensures rule { rule_of result ≡ word_rule name.entry.now }
    ensures local { result.global ≡ false }
{
    Arg::new(alloc, name).long(name).action(ArgAction::Set)
}

/// An option that has no value.
fn flag<'a>(alloc: Global, name: &'a str) -> Arg<'a>
    ensures rule { rule_of result ≡ flag_rule name.entry.now }
    ensures local { result.global ≡ false }
{
    Arg::new(alloc, name).long(name).action(ArgAction::SetTrue)
}

fn trace_command<'a>(alloc: Global) -> Result<Command<'a>, AllocError>
    ensures { IfOk result (IsCommand trace_app) }
{
    Command::new(alloc, "trace").arg(flag(alloc, "plain"))
}

fn draw_command<'a>(alloc: Global) -> Result<Command<'a>, AllocError>
    ensures { IfOk result (IsCommand draw_app) }
{
    Command::new(alloc, "draw")
        .arg(option_or(alloc, "from", "1"))?
        .arg(option_or(alloc, "to", "4294967295"))
}

fn world_command<'a>(alloc: Global) -> Result<Command<'a>, AllocError>
    ensures { IfOk result (IsCommand world_app) }
{
    Command::new(alloc, "world").arg(option(alloc, "namespace"))
}

fn explore_command<'a>(alloc: Global) -> Result<Command<'a>, AllocError>
    ensures { IfOk result (IsCommand explore_app) }
{
    Command::new(alloc, "explore")
        .arg(option_or(alloc, "most", "1000000"))?
        .arg(word(alloc, "prefix"))
}

fn threads_command<'a>(alloc: Global) -> Result<Command<'a>, AllocError>
    ensures { IfOk result (IsCommand threads_app) }
{
    Command::new(alloc, "threads")
        .arg(option_or(alloc, "walkers", "4"))?
        .arg(option_or(alloc, "workers", "2"))?
        .arg(option_or(alloc, "rounds", "10"))
}

fn help_command<'a>(alloc: Global) -> Result<Command<'a>, AllocError>
    ensures { IfOk result (IsCommand help_app) }
{
    Command::new(alloc, "help").arg(Arg::new(alloc, "command"))
}

/// The program, with a command `help` of its own: what that names is read as any other word.
fn bare_program<'a>(alloc: Global) -> Command<'a>
    ensures { IsCommand bare_program result }
{
    Command::new(alloc, "automount_cli")
        .subcommand_required(true)
        .disable_help_subcommand(true)
        .version(version())
}

/// The program with all its commands.
pub(crate) fn command<'a>(alloc: Global) -> Result<Command<'a>, AllocError>
    ensures { IfOk result (IsCommand cli) }
{
    bare_program(alloc)
        .subcommand(Command::new(alloc, "script"))?
        .subcommand(trace_command(alloc)?)?
        .subcommand(draw_command(alloc)?)?
        .subcommand(world_command(alloc)?)?
        .subcommand(Command::new(alloc, "serve"))?
        .subcommand(explore_command(alloc)?)?
        .subcommand(Command::new(alloc, "judge"))?
        .subcommand(Command::new(alloc, "import"))?
        .subcommand(threads_command(alloc)?)?
        .subcommand(help_command(alloc)?)
}
