// `check FILE..`: the trees of the files are one plain tree, which a line tells.
ghost use Rattle.sl_outside.specs.Counts.{HasCause};
ghost use Rattle.sl_outside.specs.Folder.{folder_state};
ghost use Rattle.sl_outside.specs.Sink.{sink_state};
ghost use Rattle.sl_words.specs.WordsReading.{names_seen};
ghost use Rattle.sl_tool.specs.Parts.{ChecksFiles, is_folder_fault};

use crate::source::read_program;
use crate::stop::Stop;
use sl_outside::{Folder, Sink};
use std::alloc::Global;

const ACCEPTED: &[u8] = b"accepted\n";

/// Reads the program in the files, and then puts the line that tells that they are accepted.
pub fn check_files<'a, F: Folder, K: Sink>(
    alloc: Global,
    names: &[&'a str],
    folder: &mut F,
    out: &mut K,
) -> Result<(), Stop<'a>>
    ensures checked { ChecksFiles (names_seen names.now)
        (folder_state (F.files folder.old) (F.faults folder.old) (F.calls folder.old) (F.log folder.old))
        (folder_state (F.files folder.new) (F.faults folder.new) (F.calls folder.new) (F.log folder.new))
        (sink_state (K.held out.old) (K.faults out.old) (K.calls out.old))
        (sink_state (K.held out.new) (K.faults out.new) (K.calls out.new))
        result }
    ensures cause { HasCause (is_folder_fault result) (F.faults folder.old) (F.faults folder.new) }
{
    let _program = read_program(alloc, names, folder)?;
    match out.put(ACCEPTED) {
        Ok(()) => Ok(()),
        Err(_) => Err(Stop::Sink),
    }
}
