//! The description of the command line for `clap`.
ghost use Rattle.std.specs.Prelude.{◌≡◌, IfOk};
ghost use Rattle.clap.specs.Simple.{app_of, with_rule};
ghost use Rattle.widen_sheet.specs.Words as spec;

use clap::{Arg, ArgAction, Command};
use std::alloc::Global;
use tp_base::NoMemory;

// A command with no option yet, which reads all words and has no help.
fn bare<'a>(alloc: Global) -> Command<'a>
    ensures { app_of result ≡ spec.bare_app }
{
    Command::new(alloc, "widen")
        .no_binary_name(true)
        .disable_help_flag(true)
}

fn with_back<'a>(alloc: Global, command: Command<'a>) -> Result<Command<'a>, NoMemory>
    ensures { IfOk result (λ c. app_of c ≡ with_rule (app_of command.entry) spec.back_rule) }
{
    let back = Arg::new(alloc, "back")
        .long("back")
        .action(ArgAction::SetTrue);
    Ok(command.arg(back)?)
}

fn with_files<'a>(alloc: Global, command: Command<'a>) -> Result<Command<'a>, NoMemory>
    ensures { IfOk result (λ c. app_of c ≡ with_rule (app_of command.entry) spec.files_rule) }
{
    let files = Arg::new(alloc, "files").action(ArgAction::Append);
    Ok(command.arg(files)?)
}

/// The option of the command, and the names of files.
pub(crate) fn described<'a>(alloc: Global) -> Result<Command<'a>, NoMemory>
    ensures { IfOk result (λ c. app_of c ≡ spec.app) }
{
    let command = with_back(alloc, bare(alloc))?;
    with_files(alloc, command)
}
