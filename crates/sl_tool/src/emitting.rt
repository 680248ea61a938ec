// `emit -o NAME FILE..`: the C of a plain file is written under NAME.c, and a line tells it.
ghost use Rattle.std.specs.Prelude.{◌≡◌, IfOk, string_bytes};
ghost use Rattle.sl_outside.specs.Counts.{HasCause};
ghost use Rattle.sl_outside.specs.Folder.{folder_state};
ghost use Rattle.sl_outside.specs.Sink.{sink_state};
ghost use Rattle.c_tree.specs.Text.{CText};
ghost use Rattle.c_write.specs.Lined.{lined};
ghost use Rattle.sl_plain.specs.Program.{IsProgram};
ghost use Rattle.sl_tool.specs.Written.{tree_of, written, IsTreeOf};
ghost use Rattle.sl_tool.specs.Texts.{emitted_line};
ghost use Rattle.sl_words.specs.WordsReading.{names_seen};
ghost use Rattle.sl_tool.specs.Parts.{EmitsFiles, is_folder_fault};

use crate::source::read_program;
use crate::stop::Stop;
use crate::translating::translate;
use c_write::write;
use sl_outside::{Folder, Sink};
use sl_plain::Plain;
use sl_text::{Mem, Row};
use std::alloc::Global;

/// Reads the program in the files, writes its C under the name and `.c`, and then puts the line that tells it.
pub fn emit_files<'a, F: Folder, K: Sink>(
    alloc: Global,
    name: &str,
    names: &[&'a str],
    folder: &mut F,
    out: &mut K,
) -> Result<(), Stop<'a>>
    ensures emitted { EmitsFiles name.now (names_seen names.now)
        (folder_state (F.files folder.old) (F.faults folder.old) (F.calls folder.old) (F.log folder.old))
        (folder_state (F.files folder.new) (F.faults folder.new) (F.calls folder.new) (F.log folder.new))
        (sink_state (K.held out.old) (K.faults out.old) (K.calls out.old))
        (sink_state (K.held out.new) (K.faults out.new) (K.calls out.new))
        result }
    ensures cause { HasCause (is_folder_fault result) (F.faults folder.old) (F.faults folder.new) }
{
    let program = read_program(alloc, names, folder)?;
    let text = c_text(alloc, &program)?;
    let target = format!(in alloc; "{name}.c")?;
    let line = line_of(alloc, target.as_str(), text.as_slice())?;
    folder.write(alloc, target.as_str(), text.as_slice())?;
    match out.put(line.as_bytes()) {
        Ok(()) => Ok(()),
        Err(_) => Err(Stop::Sink),
    }
}

/// The line that tells what was written.
fn line_of(alloc: Global, target: &str, text: &[u8]) -> Result<String, Mem>
    ensures { IfOk result (λ line. string_bytes line ≡ emitted_line target.now text.now) }
{
    let length = text.len();
    Ok(format!(in alloc; "{target} {length} bytes\n")?)
}

/// The C text of a program.
fn c_text(alloc: Global, program: &Plain) -> Result<Row<u8>, Mem>
    requires { IsProgram program.now }
    ensures text { IfOk result (λ text. text ≡ written program.now) }
    ensures means { IfOk result (λ text. IsTreeOf program.now (tree_of program.now)) }
    ensures reads { IfOk result (λ text. CText (written program.now) (lined (tree_of program.now))) }
{
    let tree = translate(alloc, program)?;
    write(alloc, &tree)
}
