// `run FILE..`: a plain file is read, and the tree of its C is stepped.
ghost use Rattle.sl_outside.specs.Counts.{HasCause};
ghost use Rattle.sl_outside.specs.Folder.{folder_state};
ghost use Rattle.sl_outside.specs.Sink.{sink_state};
ghost use Rattle.sl_outside.specs.Source.{source_state};
ghost use Rattle.c_tree.specs.Rules.{KeepsRules};
ghost use Rattle.sl_words.specs.WordsReading.{names_seen};
ghost use Rattle.sl_tool.specs.Parts.{RunsFiles, RanTree, is_folder_fault};

use crate::source::read_program;
use crate::stop::Stop;
use crate::translating::translate;
use c_machine::{End, Machine, StepFault};
use c_rules::Checked;
use c_tree::{CFault, CFile};
use sl_outside::{Folder, Sink, Source};
use sl_text::Mem;
use std::alloc::Global;

/// Reads the program in the files, steps the tree of its C in at most so many turns, and says how the run ended.
pub fn run_files<'a, F: Folder, S: Source, K: Sink>(
    alloc: Global,
    turns: u64,
    names: &[&'a str],
    folder: &mut F,
    input: &mut S,
    out: &mut K,
) -> Result<End, Stop<'a>>
    ensures ran { RunsFiles turns (names_seen names.now)
        (folder_state (F.files folder.old) (F.faults folder.old) (F.calls folder.old) (F.log folder.old))
        (folder_state (F.files folder.new) (F.faults folder.new) (F.calls folder.new) (F.log folder.new))
        (source_state (S.left input.old) (S.faults input.old) (S.calls input.old))
        (source_state (S.left input.new) (S.faults input.new) (S.calls input.new))
        (sink_state (K.held out.old) (K.faults out.old) (K.calls out.old))
        (sink_state (K.held out.new) (K.faults out.new) (K.calls out.new))
        result }
    ensures cause { HasCause (is_folder_fault result) (F.faults folder.old) (F.faults folder.new) }
{
    let program = read_program(alloc, names, folder)?;
    let tree = translate(alloc, &program)?;
    match run_tree(alloc, tree, turns, input, out) {
        Ok(end) => Ok(end),
        Err(StepFault::Sink) => Err(Stop::Sink),
        Err(StepFault::Mem) => Err(Stop::Mem),
        Err(StepFault::Input) => Err(Stop::Input),
    }
}

/// Steps a tree that keeps the rules to the end of its run, in at most so many turns.
fn run_tree<S: Source, K: Sink>(
    alloc: Global,
    tree: CFile,
    turns: u64,
    input: &mut S,
    out: &mut K,
) -> Result<End, StepFault>
    requires { KeepsRules tree }
    ensures ran { RanTree tree turns
        (source_state (S.left input.old) (S.faults input.old) (S.calls input.old))
        (source_state (S.left input.new) (S.faults input.new) (S.calls input.new))
        (sink_state (K.held out.old) (K.faults out.old) (K.calls out.old))
        (sink_state (K.held out.new) (K.faults out.new) (K.calls out.new))
        result }
{
    let checked = match Checked::check(alloc, tree) {
        Ok(checked) => checked,
        Err(CFault::Mem) => return Err(StepFault::Mem),
        Err(CFault::NotC(_)) => unreachable!(),
    };
    match Machine::open(alloc, checked, turns) {
        Ok(mut machine) => machine.run(alloc, input, out),
        Err(Mem) => Err(StepFault::Mem),
    }
}
