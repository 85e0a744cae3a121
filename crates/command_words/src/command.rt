ghost use Rattle.std.specs.Prelude.{◌≡◌, IfOk, codes, false};
ghost use Rattle.clap.specs.Words.{app_of, new_app, rule_of, with_rule};
ghost use Rattle.command_words.specs.Program.{option_rule, program, without_extras};

use clap::{Arg, ArgAction, Command};
use std::alloc::{AllocError, Global};

/// An option that takes one value.
fn valued<'a>(alloc: Global, name: &'a str) -> Arg<'a>
    ensures rule { rule_of result ≡ option_rule name.entry.now }
    ensures local { result.global ≡ false }
{
    Arg::new(alloc, name).long(name).action(ArgAction::Set)
}

/// The command without its options. No word is its name, and none asks for help.
fn plain<'a>(alloc: Global) -> Command<'a>
    ensures { app_of result ≡ without_extras (new_app (codes "gclq")) }
{
    Command::new(alloc, "gclq")
        .no_binary_name(true)
        .disable_help_flag(true)
}

/// The command with one more option.
fn with_option<'a>(
    alloc: Global,
    command: Command<'a>,
    name: &'a str,
) -> Result<Command<'a>, AllocError>
    ensures { IfOk result (λ longer. app_of longer ≡ with_rule (app_of command.entry) (option_rule name.entry.now)) }
{
    command.arg(valued(alloc, name))
}

/// The command with the four options.
pub fn command<'a>(alloc: Global) -> Result<Command<'a>, AllocError>
    ensures { IfOk result (λ command. app_of command ≡ program) }
{
    let command = with_option(alloc, plain(alloc), "first")?;
    let command = with_option(alloc, command, "readers")?;
    let command = with_option(alloc, command, "made")?;
    with_option(alloc, command, "count")
}
