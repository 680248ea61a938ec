// The files that a command names, and the program in them.
ghost use Rattle.std.specs.Prelude.{◌≡◌, ◌≤◌, ◌⊎◌, IfOk, length};
ghost use Rattle.sl_outside.specs.Counts.{HasCause};
ghost use Rattle.sl_outside.specs.Folder.{folder_state};
ghost use Rattle.sl_text.specs.Places.{line_of, column_of};
ghost use Rattle.sl_token.specs.Cut.{most_bytes};
ghost use Rattle.sl_words.specs.WordsReading.{names_seen};
ghost use Rattle.sl_tool.specs.Parts.{GivesProgram, GivesTree, GivesTrees, ReadsProgram, ReadsSources, is_folder_fault, source_seen, sources_seen};

use crate::accepting::read_tree;
use crate::stop::Stop;
use sl_outside::Folder;
use sl_plain::{Plain, read_plain};
use sl_text::{Fault, Lines, Mem, Row};
use sl_tree::File;
use std::alloc::Global;

/// The number with which a source is read. So far each is read by itself, as the only file of a program.
const ONLY_FILE: u32 = 0;

/// A file that a command names, and its bytes.
#[derive(Debug, Drop)]
pub struct SourceFile<'a> {
    pub name: &'a str,
    pub bytes: Row<u8>,
}

/// Reads the program of files whose trees are one plain tree. All of them are read before anything else is asked of any.
pub fn read_program<'a, F: Folder>(
    alloc: Global,
    names: &[&'a str],
    folder: &mut F,
) -> Result<Plain, Stop<'a>>
    ensures read { ReadsProgram (names_seen names.now)
        (folder_state (F.files folder.old) (F.faults folder.old) (F.calls folder.old) (F.log folder.old))
        (folder_state (F.files folder.new) (F.faults folder.new) (F.calls folder.new) (F.log folder.new))
        result }
    ensures cause { HasCause (is_folder_fault result) (F.faults folder.old) (F.faults folder.new) }
{
    let sources = read_sources(alloc, names, folder)?;
    match program_of(alloc, sources.as_slice())? {
        Some(program) => Ok(program),
        None => Err(Stop::NotBuilt),
    }
}

/// Reads the files of these names, in order, up to the first that isn't there or can't be read.
fn read_sources<'a, F: Folder>(
    alloc: Global,
    names: &[&'a str],
    folder: &mut F,
) -> Result<Row<SourceFile<'a>>, Stop<'a>>
    ensures read { ReadsSources (names_seen names.now)
        (folder_state (F.files folder.old) (F.faults folder.old) (F.calls folder.old) (F.log folder.old))
        (folder_state (F.files folder.new) (F.faults folder.new) (F.calls folder.new) (F.log folder.new))
        result }
    ensures cause { HasCause (is_folder_fault result) (F.faults folder.old) (F.faults folder.new) }
{
    let mut sources = Row::new(alloc);
    for name in names {
        let Some(bytes) = folder.read(alloc, name)? else {
            return Err(Stop::NoFile(name));
        };
        sources.push(SourceFile { name, bytes })?;
    }
    Ok(sources)
}

/// The program of sources that have trees, where these are one plain tree.
fn program_of<'a>(alloc: Global, sources: &[SourceFile<'a>]) -> Result<Option<Plain>, Stop<'a>>
    ensures { GivesProgram (sources_seen sources.now) result }
{
    match sources {
        [source] => {
            let tree = tree_of(alloc, source)?;
            Ok(read_plain(alloc, &tree)?)
        }
        _ => {
            have_trees(alloc, sources)?;
            Ok(None)
        }
    }
}

/// Reads the trees of sources, in order, and keeps none of them.
fn have_trees<'a>(alloc: Global, sources: &[SourceFile<'a>]) -> Result<(), Stop<'a>>
    ensures { GivesTrees (sources_seen sources.now) result }
{
    for source in sources {
        let _tree = tree_of(alloc, source)?;
    }
    Ok(())
}

/// The tree of a source, if it breaks no rule.
fn tree_of<'a>(alloc: Global, source: &SourceFile<'a>) -> Result<File, Stop<'a>>
    ensures { GivesTree (source_seen source.now) result }
{
    let bytes = source.bytes.as_slice();
    match read_tree(alloc, ONLY_FILE, bytes) {
        Ok(tree) => Ok(tree),
        Err(Fault::Mem) => Err(Stop::Mem),
        Err(Fault::Broken(broken)) => {
            let (line, column) = line_and_column(alloc, bytes, broken.span.from)?;
            Err(Stop::Broken(source.name, broken.rule, line, column))
        }
    }
}

/// The line and the column of a place in a file. A place behind the end has those of the end.
fn line_and_column(alloc: Global, bytes: &[u8], place: u32) -> Result<(u32, u32), Mem>
    requires { (place ≡ 0) ⊎ (length bytes.now ≤ most_bytes) }
    ensures line { IfOk result (λ at. at.0 ≡ line_of bytes.now place) }
    ensures column { IfOk result (λ at. at.1 ≡ column_of bytes.now place) }
{
    let end = bytes.len().min(place as usize);
    let lines = Lines::new(alloc, &bytes[..end])?;
    Ok(lines.at(end as u32))
}
