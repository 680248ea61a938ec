//! The words after the program's name: the command that they ask for, with its options and files.
#![tactic(auto)]

ghost use Rattle.std.specs.Prelude.{◌≡◌, IfOk, IsOk, MatchOption, map, option_map, string_bytes};
ghost use Rattle.sl_words.specs.Words.{BeginsNoCommand, HasNoReading, Reads};
ghost use Rattle.sl_words.specs.WordsReading.{check_words, command_of, command_seen, emit_words, run_words};

mod command;
mod found;
mod kinds;

pub use command::Command;
use command::{check_given, emit_given, run_given};
use found::found_in;
use sl_text::Mem;
use std::alloc::Global;

/// The command that the words ask for: `run` with 1 to 255 FILEs and at most one option `--turns N`, `emit` with as many FILEs and one
/// option `-o NAME`, in any order, or `check` with as many FILEs and no option. N is 0 to 2^63 - 1 in decimal, and 1000000000 where the
/// option isn't there. docs/command-line.md says how options and files are told apart. Where the first word is no command it takes no
/// memory.
pub fn read_words(alloc: Global, words: &[String]) -> Result<Option<Command<'_>>, Mem>
    ensures exact { IfOk result (λ found. MatchOption found (HasNoReading (map string_bytes words.now)) (λ command. Reads (map string_bytes words.now) (command_seen command))) }
    ensures read { IfOk result (λ found. command_of (map string_bytes words.now) ≡ option_map command_seen found) }
    ensures at_once { BeginsNoCommand (map string_bytes words.now) → IsOk result }
{
    match words {
        [command, rest @ ..] if command.as_str() == "run" => read_run(alloc, rest),
        [command, rest @ ..] if command.as_str() == "emit" => read_emit(alloc, rest),
        [command, rest @ ..] if command.as_str() == "check" => read_check(alloc, rest),
        _ => Ok(None),
    }
}

/// The command of the words behind `run`.
fn read_run(alloc: Global, words: &[String]) -> Result<Option<Command<'_>>, Mem>
    ensures { IfOk result (λ command. run_words (map string_bytes words.now) ≡ option_map command_seen command) }
{
    let Some(found) = found_in(alloc, words)? else {
        return Ok(None);
    };
    Ok(run_given(found))
}

/// The command of the words behind `emit`.
fn read_emit(alloc: Global, words: &[String]) -> Result<Option<Command<'_>>, Mem>
    ensures { IfOk result (λ command. emit_words (map string_bytes words.now) ≡ option_map command_seen command) }
{
    let Some(found) = found_in(alloc, words)? else {
        return Ok(None);
    };
    Ok(emit_given(found))
}

/// The command of the words behind `check`.
fn read_check(alloc: Global, words: &[String]) -> Result<Option<Command<'_>>, Mem>
    ensures { IfOk result (λ command. check_words (map string_bytes words.now) ≡ option_map command_seen command) }
{
    let Some(found) = found_in(alloc, words)? else {
        return Ok(None);
    };
    Ok(check_given(found))
}

#[cfg(test)]
mod tests;
