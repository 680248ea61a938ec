ghost use Rattle.std.specs.Prelude.{◌≡◌, ◌<◌, ◌≤◌, ◌+◌, ◌^◌, [], ◌++◌, length, Some, Err, IfErr, IfOk, IfSome, IsErr, IsOk, IsOkAnd, IsSome, OnOk};
ghost use Rattle.std.specs.IoError.{error_kind};
ghost use Rattle.sl_outside.specs.Adapters.{disk_faults, disk_calls, read_answer, refused_for, WholeWritten};

use super::retrying::read_retrying;
use super::streams::write_whole;
use crate::{Folder, Refused};
use sl_text::Row;
use std::alloc::Global;
use std::io::{ErrorKind, Read, Write};
use std::rt::Files;
use std::{fs, io};

/// A file with more bytes is a fault.
const MAX_FILE_LEN: usize = 1 << 30;

const BUFFER_LEN: usize = 8192;

/// The files of the system as a folder, whose names are paths. It tells nothing of what it holds. A name that doesn't exist, also
/// one below a file, is None. A file that can't be opened, read or written whole, or that has more than 2^30 bytes, is a fault,
/// but where the system says in opening or reading that memory ran out. In writing that too is a fault.
#[derive(Drop)]
pub struct FolderOnDisk<'a, R: Files> {
    rt: &'a R,
    faults: u64,
    calls: u64,
}

impl<'a, R: Files> FolderOnDisk<'a, R> {
    pub fn new(rt: &'a R) -> FolderOnDisk<'a, R>
        ensures no_faults { disk_faults result ≡ 0 }
        ensures no_calls { disk_calls result ≡ 0 }
    {
        FolderOnDisk {
            rt,
            faults: 0,
            calls: 0,
        }
    }
}

impl<'a, R: Files> Folder for FolderOnDisk<'a, R> {
    ghost use Rattle.std.specs.Prelude.{None};
    ghost use Rattle.sl_outside.specs.Adapters.{disk_faults, disk_calls};

    ghost files = { λ _. None };

    ghost faults = { disk_faults };

    ghost calls = { disk_calls };

    ghost log = { λ _. None };

    fn read(&mut self, alloc: Global, name: &str) -> Result<Option<Row<u8>>, Refused> {
        self.calls = self.calls.saturating_add(1);
        let found = read_opened(alloc, fs::open(self.rt, name));
        if let Err(Refused::Failed) = &found {
            self.faults = self.faults.saturating_add(1);
        }
        found
    }

    fn write(&mut self, _alloc: Global, name: &str, bytes: &[u8]) -> Result<(), Refused> {
        self.calls = self.calls.saturating_add(1);
        let written = write_opened(&mut fs::create(self.rt, name), bytes);
        if let Err(Refused::Failed) = &written {
            self.faults = self.faults.saturating_add(1);
        }
        written
    }
}

/// What is read of a file, where the system opened it, and else what its error means.
fn read_opened<F: Read + Drop>(
    alloc: Global,
    opened: io::Result<F>,
) -> Result<Option<Row<u8>>, Refused>
    ensures not_opened { IfErr opened (λ e. result ≡ read_answer (error_kind e)) }
    ensures there { IsOk opened → IfOk result IsSome }
    ensures whole { IfOk opened (λ file. IfOk result (λ found. IfSome (F.remaining file) (λ all. found ≡ Some all))) }
    ensures short { IfOk opened (λ file. IfOk result (λ found. IfSome found (λ bytes. length bytes ≤ 2 ^ 30))) }
    ensures too_long { IfOk opened (λ file. IfSome (F.remaining file) (λ all. 2 ^ 30 < length all → IsErr result)) }
{
    match opened {
        Ok(mut file) => Ok(Some(read_whole(alloc, &mut file)?)),
        Err(e) => match e.kind() {
            ErrorKind::NotFound | ErrorKind::NotADirectory => Ok(None),
            kind => Err(refused(kind)),
        },
    }
}

/// All the bytes that are left, where they are at most 2^30.
fn read_whole<F: Read>(alloc: Global, file: &mut F) -> Result<Row<u8>, Refused>
    ensures whole { IfOk result (λ bytes. IfSome (F.remaining file.old) (λ all. bytes ≡ all)) }
    ensures short { IfOk result (λ bytes. length bytes ≤ 2 ^ 30) }
    ensures too_long { IfSome (F.remaining file.old) (λ all. 2 ^ 30 < length all → IsErr result) }
{
    let mut bytes = Vec::new(alloc);
    let mut buffer = [0u8; BUFFER_LEN];
    for _ in 0..u64::MAX {
        match read_retrying(file, &mut buffer) {
            Ok(0) => return Ok(Row::from_vec(bytes)),
            Ok(count) => take_piece(&mut bytes, &buffer[..count])?,
            Err(e) => return Err(refused(e.kind())),
        }
    }
    Err(Refused::Failed)
}

/// Puts a piece behind what was read. It is a fault only where that makes more than 2^30 bytes.
fn take_piece(bytes: &mut Vec<u8>, piece: &[u8]) -> Result<(), Refused>
    ensures taken { OnOk result (bytes.new.items ≡ bytes.old.items ++ piece.now) }
    ensures short { OnOk result (length bytes.new.items ≤ 2 ^ 30) }
    ensures too_long { result ≡ Err Refused.Failed → 2 ^ 30 < length bytes.old.items + length piece.now }
{
    bytes.extend_from_slice(piece)?;
    if bytes.len() > MAX_FILE_LEN {
        return Err(Refused::Failed);
    }
    Ok(())
}

/// Writes a file that the system made or emptied. Every error is a fault, want of memory too: the file may have been emptied
/// before.
fn write_opened<F: Write>(opened: &mut io::Result<F>, bytes: &[u8]) -> Result<(), Refused>
    ensures not_opened { IsErr opened.old → result ≡ Err Refused.Failed }
    ensures written { IfOk opened.old (λ old. IsOkAnd opened.new (λ new. WholeWritten (F.contents old) (F.contents new) bytes.now result)) }
    ensures none { IsOk opened.old → bytes.now ≡ [] → IsOk result }
    ensures refused { IfErr result (λ refused. refused ≡ Refused.Failed) }
{
    match opened {
        Ok(file) => write_whole(file, bytes).map_err(|_| Refused::Failed),
        Err(_) => Err(Refused::Failed),
    }
}

/// What an error at opening or reading means that isn't that the file isn't there.
fn refused(kind: ErrorKind) -> Refused
    ensures { result ≡ refused_for kind }
{
    match kind {
        ErrorKind::OutOfMemory => Refused::Mem,
        _ => Refused::Failed,
    }
}
