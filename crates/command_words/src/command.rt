//! The description of the command line for `clap`.
ghost use Rattle.std.specs.Prelude.{◌≡◌, IfOk};
ghost use Rattle.clap.specs.Simple.{app_of, with_rule};
ghost use Rattle.command_words.specs.Command as spec;

use clap::{Arg, ArgAction, Command};
use std::alloc::Global;
use tp_base::NoMemory;

// One option more, which takes a value.
fn with_option<'a>(
    alloc: Global,
    command: Command<'a>,
    name: &'a str,
) -> Result<Command<'a>, NoMemory>
    ensures { IfOk result (λ c. app_of c ≡ with_rule (app_of command.entry) (spec.option_rule name.entry.now)) }
{
    let option = Arg::new(alloc, name).long(name);
    Ok(command.arg(option)?)
}

// A command with no option yet, which reads all words and has no help.
fn bare<'a>(alloc: Global) -> Command<'a>
    ensures { app_of result ≡ spec.bare_app }
{
    Command::new(alloc, "treeped")
        .no_binary_name(true)
        .disable_help_flag(true)
}

// One option more, which takes no value.
fn with_flag<'a>(
    alloc: Global,
    command: Command<'a>,
    name: &'a str,
) -> Result<Command<'a>, NoMemory>
    ensures { IfOk result (λ c. app_of c ≡ with_rule (app_of command.entry) (spec.flag_rule name.entry.now)) }
{
    let flag = Arg::new(alloc, name).long(name).action(ArgAction::SetTrue);
    Ok(command.arg(flag)?)
}

fn with_names<'a>(alloc: Global, command: Command<'a>) -> Result<Command<'a>, NoMemory>
    ensures { IfOk result (λ c. app_of c ≡ with_rule (app_of command.entry) spec.names_rule) }
{
    let names = Arg::new(alloc, "names").action(ArgAction::Append);
    Ok(command.arg(names)?)
}

fn with_flags<'a>(alloc: Global) -> Result<Command<'a>, NoMemory>
    ensures { IfOk result (λ c. app_of c ≡ spec.flags_app) }
{
    let command = with_flag(alloc, bare(alloc), "plain")?;
    let command = with_flag(alloc, command, "dead")?;
    let command = with_flag(alloc, command, "runs")?;
    let command = with_flag(alloc, command, "site")?;
    with_flag(alloc, command, "prune")
}

/// The options of the command, and names.
pub(crate) fn command<'a>(alloc: Global) -> Result<Command<'a>, NoMemory>
    ensures { IfOk result (λ c. app_of c ≡ spec.app) }
{
    let command = with_flags(alloc)?;
    let command = with_option(alloc, command, "pairs")?;
    let command = with_option(alloc, command, "nodes")?;
    let command = with_option(alloc, command, "entries")?;
    let command = with_option(alloc, command, "list")?;
    let command = with_option(alloc, command, "gen")?;
    with_names(alloc, command)
}
