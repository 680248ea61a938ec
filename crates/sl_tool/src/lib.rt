//! The tool: what the words after the program's name ask for, done on a folder, an input and two outputs.
#![tactic(auto)]

ghost use Rattle.std.specs.Prelude.{map, string_bytes};
ghost use Rattle.sl_outside.specs.Folder.{folder_state};
ghost use Rattle.sl_outside.specs.Source.{source_state};
ghost use Rattle.sl_outside.specs.Sink.{sink_state};
ghost use Rattle.sl_tool.specs.Outside.{outside};
ghost use Rattle.sl_tool.specs.Promise.{Promise};

mod accepting;
mod checking;
mod emitting;
mod running;
mod source;
mod status;
mod stop;
mod telling;
mod translating;

use checking::check_files;
use emitting::emit_files;
use running::run_files;
use sl_outside::{Folder, Sink, Source};
use sl_words::{Command, read_words};
pub use status::Status;
use std::alloc::Global;
use telling::{tell_end, tell_no_memory, tell_stop, tell_usage};

/// Does what the words after the program's name ask for. `check FILE..` reads the files from `folder`, and puts the line `accepted` on
/// `out` where their trees are one plain tree. `run [--turns N] FILE..` reads the files from `folder`, and runs their
/// program in at most N turns: what it prints is put on `out`, a byte at a time, and each byte that it reads is asked of `input`.
/// `emit -o NAME FILE..` reads the files, writes the C of their program under `NAME.c` by one call, and puts the line
/// `NAME.c B bytes` on `out`, where B is the length of the C. Where the status isn't 0 to 63, its line is put on `note`;
/// docs/command-line.md has the statuses, their causes and their lines.
///
/// The one clause, `Promise`, has a field for each promise.
pub fn slang<F: Folder, S: Source, K: Sink, N: Sink>(
    alloc: Global,
    words: &Vec<String>,
    folder: &mut F,
    input: &mut S,
    out: &mut K,
    note: &mut N,
) -> Status
    ensures { Promise (map string_bytes words.now.items)
        (outside
        (folder_state (F.files folder.old) (F.faults folder.old) (F.calls folder.old) (F.log folder.old))
        (source_state (S.left input.old) (S.faults input.old) (S.calls input.old))
        (sink_state (K.held out.old) (K.faults out.old) (K.calls out.old))
        (sink_state (N.held note.old) (N.faults note.old) (N.calls note.old)))
        (outside
        (folder_state (F.files folder.new) (F.faults folder.new) (F.calls folder.new) (F.log folder.new))
        (source_state (S.left input.new) (S.faults input.new) (S.calls input.new))
        (sink_state (K.held out.new) (K.faults out.new) (K.calls out.new))
        (sink_state (N.held note.new) (N.faults note.new) (N.calls note.new)))
        result }
{
    let command = match read_words(alloc, words.as_slice()) {
        Ok(Some(command)) => command,
        Ok(None) => return tell_usage(note),
        Err(_) => return tell_no_memory(note),
    };
    match command {
        Command::Run { turns, files } => {
            let names = files.as_slice();
            match run_files(alloc, turns, names, folder, input, out) {
                Ok(end) => tell_end(alloc, names, end, note),
                Err(stop) => tell_stop(alloc, stop, note),
            }
        }
        Command::Emit { name, files } => {
            match emit_files(alloc, name, files.as_slice(), folder, out) {
                Ok(()) => Status::Exit(0),
                Err(stop) => tell_stop(alloc, stop, note),
            }
        }
        Command::Check { files } => {
            match check_files(alloc, files.as_slice(), folder, out) {
                Ok(()) => Status::Exit(0),
                Err(stop) => tell_stop(alloc, stop, note),
            }
        }
    }
}
