// The commands, made of the options and files that were found.
ghost use Rattle.std.specs.Prelude.{◌≡◌, option_map};
ghost use Rattle.sl_words.specs.WordsReading.{are_enough, check_given, command_seen, emit_given, found_seen, options_seen, run_given, turns_given, turns_of};

use crate::found::Found;
use crate::kinds::{Given, Valued};
use sl_num::read_decimal;
use sl_text::Row;

/// The turns that a run has where no option says it.
const DEFAULT_TURNS: u64 = 1_000_000_000;

/// The most turns that a run may have.
const MOST_TURNS: u64 = 0x7fff_ffff_ffff_ffff;

/// The most files that a command may name.
const MOST_FILES: usize = 255;

/// What the words ask for.
#[derive(Debug, Drop)]
pub enum Command<'a> {
    /// `run [--turns N] FILE..`: the program in these files is run, in at most so many turns.
    Run { turns: u64, files: Row<&'a str> },
    /// `emit -o NAME FILE..`: the C of the program in these files is written under NAME.c.
    Emit { name: &'a str, files: Row<&'a str> },
    /// `check FILE..`: whether these files are accepted is told.
    Check { files: Row<&'a str> },
}

/// `run` of the files that were found, with the turns that were, if no other option was.
pub fn run_given(found: Found<'_>) -> Option<Command<'_>>
    ensures { run_given (found_seen found.entry).options (found_seen found.entry).files ≡ option_map command_seen result }
{
    let turns = turns_given(found.given)?;
    if !are_enough(found.files.len()) {
        return None;
    }
    Some(Command::Run {
        turns,
        files: found.files,
    })
}

/// The turns of a run with this option, or with none.
fn turns_given(given: Option<Given<'_>>) -> Option<u64>
    ensures { result ≡ turns_given (options_seen given.entry) }
{
    let Some(given) = given else {
        return Some(DEFAULT_TURNS);
    };
    match given.option {
        Valued::Turns => turns_of(given.value),
        Valued::Output => None,
    }
}

/// The number of turns that these digits write: 0 to 2^63 - 1, without a sign and without a zero in front of others.
fn turns_of(digits: &str) -> Option<u64>
    ensures { result ≡ turns_of digits.now }
{
    let turns = read_decimal(digits.as_bytes())?;
    match u64::try_from(turns) {
        Ok(turns) if turns <= MOST_TURNS => Some(turns),
        _ => None,
    }
}

/// `emit` of the files that were found under the name that was found, if that isn't empty.
pub fn emit_given(found: Found<'_>) -> Option<Command<'_>>
    ensures { emit_given (found_seen found.entry).options (found_seen found.entry).files ≡ option_map command_seen result }
{
    let given = found.given?;
    match given.option {
        Valued::Output if !given.value.is_empty() && are_enough(found.files.len()) => {
            Some(Command::Emit {
                name: given.value,
                files: found.files,
            })
        }
        _ => None,
    }
}

/// `check` of the files that were found, if no option was.
pub fn check_given(found: Found<'_>) -> Option<Command<'_>>
    ensures { check_given (found_seen found.entry).options (found_seen found.entry).files ≡ option_map command_seen result }
{
    if found.given.is_some() || !are_enough(found.files.len()) {
        return None;
    }
    Some(Command::Check { files: found.files })
}

/// Whether a command may name so many files.
fn are_enough(files: usize) -> bool
    ensures { result ≡ are_enough files }
{
    (1..=MOST_FILES).contains(&files)
}
