ghost use Rattle.std.specs.Prelude.{◌≡◌, IfOk, codes, false};
ghost use Rattle.clap.specs.Words.{app_of, new_app, rule_of};
ghost use Rattle.grep_words.specs.Program.{define, flag, plain, program, short, valued};
ghost use Rattle.grep_words.specs.Program.{with_flags, with_modes, with_texts, with_values, with_words, words};

use clap::{Arg, ArgAction, Command};
use std::alloc::{AllocError, Global};

/// An option without a value, which may come more than once.
fn flag<'a>(alloc: Global, name: &'a str) -> Arg<'a>
    ensures rule { rule_of result ≡ flag name.entry.now }
    ensures local { result.global ≡ false }
{
    Arg::new(alloc, name).long(name).action(ArgAction::Count)
}

/// The same with a letter in addition to its name.
fn short_flag<'a>(alloc: Global, name: &'a str, letter: char) -> Arg<'a>
    ensures rule { rule_of result ≡ short letter (flag name.entry.now) }
    ensures local { result.global ≡ false }
{
    flag(alloc, name).short(letter)
}

/// An option with a value. The last value counts.
fn valued<'a>(alloc: Global, name: &'a str, letter: char) -> Arg<'a>
    ensures rule { rule_of result ≡ short letter (valued name.entry.now) }
    ensures local { result.global ≡ false }
{
    Arg::new(alloc, name)
        .long(name)
        .action(ArgAction::Set)
        .short(letter)
}

/// The option for definitions. Each one counts.
fn define<'a>(alloc: Global) -> Arg<'a>
    ensures rule { rule_of result ≡ define }
    ensures local { result.global ≡ false }
{
    Arg::new(alloc, "define")
        .long("define")
        .action(ArgAction::Append)
        .short('d')
}

/// The words that are not options: the query and the files.
fn words<'a>(alloc: Global) -> Arg<'a>
    ensures rule { rule_of result ≡ words }
    ensures local { result.global ≡ false }
{
    Arg::new(alloc, "words").action(ArgAction::Append)
}

/// The command with no options yet. None of the words is its name, and a repeated option replaces the earlier one.
fn bare<'a>(alloc: Global) -> Command<'a>
    ensures { app_of result ≡ plain (new_app (codes "gclgrep")) }
{
    Command::new(alloc, "gclgrep")
        .no_binary_name(true)
        .disable_help_flag(true)
        .args_override_self(true)
}

/// With the options that choose what is written.
fn with_modes<'a>(alloc: Global, command: Command<'a>) -> Result<Command<'a>, AllocError>
    ensures { IfOk result (λ after. app_of after ≡ with_modes (app_of command.entry)) }
{
    let command = command
        .arg(short_flag(alloc, "only-answers", 'o'))?
        .arg(short_flag(alloc, "count", 'c'))?
        .arg(short_flag(alloc, "files-with-answers", 'l'))?
        .arg(short_flag(alloc, "quiet", 'q'))?;
    Ok(command)
}

/// With the options that leave something out.
fn with_flags<'a>(alloc: Global, command: Command<'a>) -> Result<Command<'a>, AllocError>
    ensures { IfOk result (λ after. app_of after ≡ with_flags (app_of command.entry)) }
{
    let command = command
        .arg(short_flag(alloc, "no-filename", 'h'))?
        .arg(short_flag(alloc, "no-line-number", 'N'))?
        .arg(short_flag(alloc, "no-messages", 's'))?;
    Ok(command)
}

/// With the options that ask for a text about the program.
fn with_texts<'a>(alloc: Global, command: Command<'a>) -> Result<Command<'a>, AllocError>
    ensures { IfOk result (λ after. app_of after ≡ with_texts (app_of command.entry)) }
{
    let command = command
        .arg(flag(alloc, "help"))?
        .arg(flag(alloc, "version"))?;
    Ok(command)
}

/// With the options that have a value.
fn with_values<'a>(alloc: Global, command: Command<'a>) -> Result<Command<'a>, AllocError>
    ensures { IfOk result (λ after. app_of after ≡ with_values (app_of command.entry)) }
{
    let command = command
        .arg(valued(alloc, "max-count", 'm'))?
        .arg(valued(alloc, "definitions", 'D'))?
        .arg(valued(alloc, "threads", 't'))?;
    Ok(command)
}

/// With definitions, and the words that are not options.
fn with_words<'a>(alloc: Global, command: Command<'a>) -> Result<Command<'a>, AllocError>
    ensures { IfOk result (λ after. app_of after ≡ with_words (app_of command.entry)) }
{
    let command = command.arg(define(alloc))?.arg(words(alloc))?;
    Ok(command)
}

/// The command with all its options.
pub(crate) fn command<'a>(alloc: Global) -> Result<Command<'a>, AllocError>
    ensures { IfOk result (λ command. app_of command ≡ program) }
{
    let command = with_modes(alloc, bare(alloc))?;
    let command = with_flags(alloc, command)?;
    let command = with_texts(alloc, command)?;
    let command = with_values(alloc, command)?;
    with_words(alloc, command)
}
