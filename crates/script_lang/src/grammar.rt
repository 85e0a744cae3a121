ghost use Rattle.std.specs.Prelude.{◌≡◌, IfOk, bytes_eq, drop};
ghost use Rattle.script_lang.specs.Commands.{IsNamed, alone, by_table, command_of, name_of, numbered, table, top_of};
ghost use Rattle.script_lang.specs.declared.commands.Command.TheVariants.{Del, Unwatch};

use crate::blanks::{behind_word, first_word};
use crate::commands::Command;
use crate::numbers::number_of;
use address_space::is_name;
use gcl_model::Bytes;
use std::alloc::{AllocError, Global};

/// A copy of the argument, or None if it is no name.
fn name_of(alloc: Global, argument: &[u8]) -> Result<Option<Bytes>, AllocError>
    ensures { IfOk result (λ name. name ≡ name_of argument.now) }
{
    if !is_name(argument) {
        return Ok(None);
    }
    Ok(Some(Bytes::copy_of(alloc, argument)?))
}

fn del(argument: &[u8]) -> Command
    ensures value { result ≡ numbered Del argument.now }
    ensures named { IsNamed result }
{
    match number_of(argument) {
        Some(id) => Command::Del(id),
        None => Command::Wrong,
    }
}

fn unwatch(argument: &[u8]) -> Command
    ensures value { result ≡ numbered Unwatch argument.now }
    ensures named { IsNamed result }
{
    match number_of(argument) {
        Some(number) => Command::Unwatch(number),
        None => Command::Wrong,
    }
}

fn top(alloc: Global, argument: &[u8]) -> Result<Command, AllocError>
    ensures value { IfOk result (λ command. command ≡ top_of argument.now) }
    ensures named { IfOk result IsNamed }
{
    match number_of(first_word(argument)) {
        Some(number) => Ok(Command::Top(number, Bytes::copy_of(alloc, behind_word(argument))?)),
        None => Ok(Command::Wrong),
    }
}

/// A command that takes no argument.
fn alone(command: Command, argument: &[u8]) -> Command
    requires { IsNamed command }
    ensures value { result ≡ alone command argument.now }
    ensures named { IsNamed result }
{
    if argument.is_empty() {
        command
    } else {
        Command::Wrong
    }
}

/// The command of a line: of `del 007` it is `Del(7)`, and of `files x` it is `Wrong`.
pub fn command(alloc: Global, line: &[u8]) -> Result<Command, AllocError>
    ensures value { IfOk result (λ command. command ≡ command_of line.now) }
    ensures named { IfOk result IsNamed }
{
    if line.is_empty() {
        return Ok(Command::Blank);
    }
    command_of_word(alloc, first_word(line), behind_word(line))
}

fn is_word(word: &[u8], name: &[u8]) -> bool
    ensures { result ≡ bytes_eq word.now name.now }
{
    word == name
}

/// The command that a word makes of its argument.
fn command_of_word(alloc: Global, word: &[u8], argument: &[u8]) -> Result<Command, AllocError>
    ensures value { IfOk result (λ command. command ≡ by_table table word.now argument.now) }
    ensures named { IfOk result IsNamed }
{
    if is_word(word, b"add") {
        Ok(name_of(alloc, argument)?.map_or(Command::Wrong, Command::Add))
    } else if is_word(word, b"del") {
        Ok(del(argument))
    } else if is_word(word, b"find") {
        Ok(Command::Find(Bytes::copy_of(alloc, argument)?))
    } else if is_word(word, b"count") {
        Ok(Command::Count(Bytes::copy_of(alloc, argument)?))
    } else if is_word(word, b"top") {
        top(alloc, argument)
    } else {
        command_of_later_word(alloc, word, argument)
    }
}

/// The command that a word makes of its argument, if it is none of the first five of the table.
fn command_of_later_word(alloc: Global, word: &[u8], argument: &[u8]) -> Result<Command, AllocError>
    ensures value { IfOk result (λ command. command ≡ by_table (drop 5 table) word.now argument.now) }
    ensures named { IfOk result IsNamed }
{
    if is_word(word, b"files") {
        Ok(alone(Command::Files, argument))
    } else if is_word(word, b"merge") {
        Ok(alone(Command::Merge, argument))
    } else if is_word(word, b"shards") {
        Ok(alone(Command::Shards, argument))
    } else if is_word(word, b"save") {
        Ok(name_of(alloc, argument)?.map_or(Command::Wrong, Command::Save))
    } else if is_word(word, b"open") {
        Ok(name_of(alloc, argument)?.map_or(Command::Wrong, Command::Load))
    } else if is_word(word, b"watch") {
        Ok(Command::Watch(Bytes::copy_of(alloc, argument)?))
    } else if is_word(word, b"unwatch") {
        Ok(unwatch(argument))
    } else {
        Ok(Command::Wrong)
    }
}
