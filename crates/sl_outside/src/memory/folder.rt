ghost use Rattle.std.specs.Prelude.{◌≡◌, Some, IfOk, IfErr, IfNone, IfSome, OnOk, OnErr, MatchResult};
ghost use Rattle.sl_outside.specs.Counts.{HasCause, one_more};
ghost use Rattle.sl_outside.specs.Folder.{ReadGives, WriteGives, is_fault};
ghost use Rattle.sl_outside.specs.Entries.{contents_of, stored, StoresAt, StoresAtEnd};
ghost use Rattle.sl_outside.specs.Numbered.{ReadAnswers, WriteAnswers};

use super::calls::Calls;
use crate::{Folder, Refused};
use sl_text::{Row, Text};
use std::alloc::Global;
use std::marker::Model;

/// Files in memory, as a folder that never fails.
#[derive(Drop)]
pub struct SureFolder {
    files: Row<(Text, Row<u8>)>,
    calls: u64,
}

impl Model for SureFolder {
    ghost use Rattle.sl_outside.specs.Entries.{SureFolderState};

    ghost Value = { SureFolderState };

    ghost view = { λ f. record { files = f.files; calls = f.calls } };
}

impl SureFolder {
    /// A folder with these files. Where a name stands twice, the first counts.
    pub fn new(files: Row<(Text, Row<u8>)>) -> SureFolder
        ensures { result ≡ record { files = files; calls = 0 } }
    {
        SureFolder { files, calls: 0 }
    }
}

impl Folder for SureFolder {
    ghost use Rattle.std.specs.Prelude.{None, Some};
    ghost use Rattle.sl_outside.specs.Entries.{contents_of};

    ghost files = { λ f. Some (contents_of f.files) };

    ghost faults = { λ _. 0 };

    ghost calls = { λ f. f.calls };

    ghost log = { λ _. None };

    fn read(&mut self, alloc: Global, name: &str) -> Result<Option<Row<u8>>, Refused>
        ensures found { ReadGives (Some (contents_of self.old.files)) name.now result }
        ensures unchanged { Some (contents_of self.new.files) ≡ Some (contents_of self.old.files) }
        ensures cause { HasCause (is_fault result) 0 0 }
        ensures counted { self.new.calls ≡ one_more self.old.calls }
        ensures listed { self.new.files ≡ self.old.files }
    {
        self.calls = self.calls.saturating_add(1);
        read_entry(alloc, self.files.as_slice(), name)
    }

    fn write(&mut self, alloc: Global, name: &str, bytes: &[u8]) -> Result<(), Refused>
        ensures written { WriteGives (Some (contents_of self.old.files)) (Some (contents_of self.new.files)) name.now bytes.now result }
        ensures cause { HasCause (is_fault result) 0 0 }
        ensures counted { self.new.calls ≡ one_more self.old.calls }
        ensures listed { MatchResult result (λ _. self.new.files ≡ stored self.old.files name.now bytes.now) (λ _. self.new.files ≡ self.old.files) }
    {
        self.calls = self.calls.saturating_add(1);
        write_entry(alloc, &mut self.files, name, bytes)
    }
}

/// Files in memory, as a folder. Its calls are numbered from 1, reads and writes alike, also those that want memory, and it
/// fails exactly at the numbers that it was given; then no file changes.
#[derive(Drop)]
pub struct MemoryFolder {
    entries: Row<(Text, Row<u8>)>,
    calls: Calls,
}

impl Model for MemoryFolder {
    ghost use Rattle.sl_outside.specs.Numbered.{MemoryFolderState};

    ghost Value = { MemoryFolderState };

    ghost view = { λ f. record { files = f.entries; failing = f.calls.failing; calls = f.calls.count; faults = f.calls.faults } };
}

impl MemoryFolder {
    /// A folder with these files, that fails at the calls with these numbers. Where a name stands twice, the first counts.
    pub fn new(files: Row<(Text, Row<u8>)>, failing: Row<u64>) -> MemoryFolder
        ensures { result ≡ record { files = files; failing = failing; calls = 0; faults = 0 } }
    {
        MemoryFolder {
            entries: files,
            calls: Calls::new(failing),
        }
    }
}

impl Folder for MemoryFolder {
    ghost use Rattle.std.specs.Prelude.{None, Some};
    ghost use Rattle.sl_outside.specs.Entries.{contents_of};

    ghost files = { λ f. Some (contents_of f.files) };

    ghost faults = { λ f. f.faults };

    ghost calls = { λ f. f.calls };

    ghost log = { λ _. None };

    fn read(&mut self, alloc: Global, name: &str) -> Result<Option<Row<u8>>, Refused>
        ensures found { ReadGives (Some (contents_of self.old.files)) name.now result }
        ensures unchanged { Some (contents_of self.new.files) ≡ Some (contents_of self.old.files) }
        ensures cause { HasCause (is_fault result) self.old.faults self.new.faults }
        ensures counted { self.new.calls ≡ one_more self.old.calls }
        ensures answers { ReadAnswers self.old self.new name.now result }
    {
        if self.calls.next_fails() {
            return Err(Refused::Failed);
        }
        read_entry(alloc, self.entries.as_slice(), name)
    }

    fn write(&mut self, alloc: Global, name: &str, bytes: &[u8]) -> Result<(), Refused>
        ensures written { WriteGives (Some (contents_of self.old.files)) (Some (contents_of self.new.files)) name.now bytes.now result }
        ensures cause { HasCause (is_fault result) self.old.faults self.new.faults }
        ensures counted { self.new.calls ≡ one_more self.old.calls }
        ensures answers { WriteAnswers self.old self.new name.now bytes.now result }
    {
        if self.calls.next_fails() {
            return Err(Refused::Failed);
        }
        write_entry(alloc, &mut self.entries, name, bytes)
    }
}

fn read_entry(
    alloc: Global,
    entries: &[(Text, Row<u8>)],
    name: &str,
) -> Result<Option<Row<u8>>, Refused>
    ensures found { IfOk result (λ found. found ≡ contents_of entries.now name.now) }
    ensures refused { IfErr result (λ refused. refused ≡ Refused.Mem) }
{
    for entry in entries {
        if entry.0.as_str() == name {
            return Ok(Some(Row::from_slice(alloc, entry.1.as_slice())?));
        }
    }
    Ok(None)
}

/// The place of the first entry with a name.
fn place_of(entries: &[(Text, Row<u8>)], name: &str) -> Option<usize>
    ensures absent { IfNone result (StoresAtEnd entries.now name.now) }
    ensures present { IfSome result (StoresAt entries.now name.now) }
{
    for (at, entry) in entries.iter().enumerate() {
        if entry.0.as_str() == name {
            return Some(at);
        }
    }
    None
}

fn write_entry(
    alloc: Global,
    entries: &mut Row<(Text, Row<u8>)>,
    name: &str,
    bytes: &[u8],
) -> Result<(), Refused>
    ensures ok { OnOk result (entries.new ≡ stored entries.old name.now bytes.now) }
    ensures err { OnErr result (entries.new ≡ entries.old) }
    ensures refused { IfErr result (λ refused. refused ≡ Refused.Mem) }
{
    let text = Text::from_str(alloc, name)?;
    let bytes = Row::from_slice(alloc, bytes)?;
    match place_of(entries.as_slice(), name) {
        Some(at) => entries.set(at, (text, bytes)),
        None => entries.push((text, bytes))?,
    }
    Ok(())
}
