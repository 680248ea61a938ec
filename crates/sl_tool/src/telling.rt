// The line of a status on `note`.
ghost use Rattle.std.specs.Prelude.{◌≡◌};
ghost use Rattle.sl_tool.specs.Texts.{broken_line, exit_value_line, file_name, halt_kind, halt_line, no_file_line, no_memory_line, usage_line};
ghost use Rattle.sl_words.specs.WordsReading.{names_seen};
ghost use Rattle.sl_tool.specs.declared.status.Status.TheVariants as status;
ghost use Rattle.sl_outside.specs.Sink.{Tried, sink_state};
ghost use Rattle.sl_tool.specs.Parts.{IsDefined, MakesAndTells, Tells, TellsEnd, TellsStop};

use crate::Status;
use crate::stop::Stop;
use c_machine::End;
use sl_outside::Sink;
use sl_text::Rule;
use std::alloc::Global;

const USAGE: &[u8] = b"usage: check, emit, run, step, stack or sample\n";

const TURNS_SPENT: &[u8] = b"turns spent\n";

const FOLDER_FAULT: &[u8] = b"folder fault\n";

const INPUT_FAULT: &[u8] = b"input fault\n";

const OUTPUT_FAULT: &[u8] = b"output fault\n";

const NO_MEMORY: &[u8] = b"no memory\n";

const NOT_BUILT: &[u8] = b"not built\n";

/// Tries the line of a status from 73 to 77, whose refusal changes nothing.
fn try_line<N: Sink>(note: &mut N, status: Status, line: &[u8]) -> Status
    ensures tried { Tried line.now
        (sink_state (N.held note.old) (N.faults note.old) (N.calls note.old))
        (sink_state (N.held note.new) (N.faults note.new) (N.calls note.new)) }
    ensures status { result ≡ status }
{
    let _ = note.put(line);
    status
}

/// Puts the line of a status of 64 to 67, 69 or 72. Where it is refused, the status is that of a fault of an output.
fn put_line<N: Sink>(note: &mut N, status: Status, line: &[u8]) -> Status
    ensures { Tells line.now status
        (sink_state (N.held note.old) (N.faults note.old) (N.calls note.old))
        (sink_state (N.held note.new) (N.faults note.new) (N.calls note.new)) result }
{
    match note.put(line) {
        Ok(()) => status,
        Err(_) => try_line(note, Status::SinkFault, OUTPUT_FAULT),
    }
}

/// Tells that the words have no reading.
pub fn tell_usage<N: Sink>(note: &mut N) -> Status
    ensures { Tells usage_line status.Usage
        (sink_state (N.held note.old) (N.faults note.old) (N.calls note.old))
        (sink_state (N.held note.new) (N.faults note.new) (N.calls note.new)) result }
{
    put_line(note, Status::Usage, USAGE)
}

/// Tells that memory ran out.
pub fn tell_no_memory<N: Sink>(note: &mut N) -> Status
    ensures tried { Tried no_memory_line
        (sink_state (N.held note.old) (N.faults note.old) (N.calls note.old))
        (sink_state (N.held note.new) (N.faults note.new) (N.calls note.new)) }
    ensures status { result ≡ status.Memory }
{
    try_line(note, Status::Memory, NO_MEMORY)
}

/// Tells why a command stopped before its end.
pub fn tell_stop<N: Sink>(alloc: Global, stop: Stop<'_>, note: &mut N) -> Status
    ensures { TellsStop stop.entry
        (sink_state (N.held note.old) (N.faults note.old) (N.calls note.old))
        (sink_state (N.held note.new) (N.faults note.new) (N.calls note.new)) result }
{
    match stop {
        Stop::NoFile(name) => tell_no_file(alloc, name, note),
        Stop::Broken(name, rule, line, column) => {
            tell_broken(alloc, name, rule, line, column, note)
        }
        Stop::NotBuilt => try_line(note, Status::NotBuilt, NOT_BUILT),
        Stop::Folder => try_line(note, Status::FolderFault, FOLDER_FAULT),
        Stop::Input => try_line(note, Status::InputFault, INPUT_FAULT),
        Stop::Sink => try_line(note, Status::SinkFault, OUTPUT_FAULT),
        Stop::Mem => tell_no_memory(note),
    }
}

/// Tells how a run of these files ended.
pub fn tell_end<N: Sink>(alloc: Global, names: &[&str], end: End, note: &mut N) -> Status
    requires { IsDefined end }
    ensures { TellsEnd (names_seen names.now) end
        (sink_state (N.held note.old) (N.faults note.old) (N.calls note.old))
        (sink_state (N.held note.new) (N.faults note.new) (N.calls note.new)) result }
{
    match end {
        End::Done(value @ 0..=63) => Status::Exit(value as u8),
        End::Done(value) => tell_exit_value(alloc, value, note),
        End::Halt(kind, file, line) => tell_halt(alloc, kind, name_of(names, file), line, note),
        End::TurnsSpent => put_line(note, Status::TurnsSpent, TURNS_SPENT),
        End::Stuck(_) => unreachable!(),
    }
}

/// The name of the file with this number.
fn name_of<'a>(names: &[&'a str], file: u32) -> &'a str
    ensures { result.now ≡ file_name (names_seen names.now) file }
{
    match names.get(file as usize) {
        Some(name) => name,
        None => "",
    }
}

/// Tells an exit value outside 0 to 63.
fn tell_exit_value<N: Sink>(alloc: Global, value: i128, note: &mut N) -> Status
    ensures { MakesAndTells (exit_value_line value) status.ExitValue
        (sink_state (N.held note.old) (N.faults note.old) (N.calls note.old))
        (sink_state (N.held note.new) (N.faults note.new) (N.calls note.new)) result }
{
    match format!(in alloc; "exit value {value}\n") {
        Ok(line) => put_line(note, Status::ExitValue, line.as_bytes()),
        Err(_) => tell_no_memory(note),
    }
}

/// The kind of a halt, by its number.
fn halt_kind(kind: u8) -> &'static str
    ensures { result.now ≡ halt_kind kind }
{
    match kind {
        1 => "Assert",
        2 => "Halt",
        3 => "Range",
        4 => "Zero",
        _ => "",
    }
}

/// Tells a halt of this kind, at this line of the file with this name.
fn tell_halt<N: Sink>(alloc: Global, kind: u8, name: &str, line: u32, note: &mut N) -> Status
    ensures { MakesAndTells (halt_line kind name.now line) status.Halted
        (sink_state (N.held note.old) (N.faults note.old) (N.calls note.old))
        (sink_state (N.held note.new) (N.faults note.new) (N.calls note.new)) result }
{
    let kind = halt_kind(kind);
    match format!(in alloc; "halt {kind} {name}:{line}\n") {
        Ok(line) => put_line(note, Status::Halted, line.as_bytes()),
        Err(_) => tell_no_memory(note),
    }
}

fn tell_no_file<N: Sink>(alloc: Global, name: &str, note: &mut N) -> Status
    ensures { MakesAndTells (no_file_line name.now) status.NoFile
        (sink_state (N.held note.old) (N.faults note.old) (N.calls note.old))
        (sink_state (N.held note.new) (N.faults note.new) (N.calls note.new)) result }
{
    match format!(in alloc; "no file {name}\n") {
        Ok(line) => put_line(note, Status::NoFile, line.as_bytes()),
        Err(_) => tell_no_memory(note),
    }
}

/// Tells that a source breaks a rule, at this line and this column.
fn tell_broken<N: Sink>(
    alloc: Global,
    name: &str,
    rule: Rule,
    line: u32,
    column: u32,
    note: &mut N,
) -> Status
    ensures { MakesAndTells (broken_line name.now line column rule) status.Broken
        (sink_state (N.held note.old) (N.faults note.old) (N.calls note.old))
        (sink_state (N.held note.new) (N.faults note.new) (N.calls note.new)) result }
{
    match format!(in alloc; "{name}:{line}:{column}: {rule}\n") {
        Ok(line) => put_line(note, Status::Broken, line.as_bytes()),
        Err(_) => tell_no_memory(note),
    }
}
