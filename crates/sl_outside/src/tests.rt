use super::*;
use sl_text::{Row, Text};
use std::alloc::{AllocError, Global};
use std::io::{ErrorKind, Read, Write};
use std::test::Fail;
use std::{env, fs, io, process};

fn bytes(alloc: Global, text: &[u8]) -> Result<Row<u8>, AllocError> {
    Row::from_slice(alloc, text)
}

#[test]
fn a_memory_sink_takes_what_fits(rt: HostRuntime) -> Result<(), Fail> {
    let mut failing = Row::new(rt.alloc());
    failing.push(2)?;
    let mut sink = MemorySink::new(rt.alloc(), 4, failing)?;
    assert!(rt; sink.put(b"ab").is_ok());
    assert!(rt; sink.put(b"c").is_err(), "its number is a failing one");
    assert!(rt; sink.put(b"cde").is_err(), "it doesn't fit");
    assert!(rt; sink.put(b"cd").is_ok());
    assert_eq!(rt; sink.bytes(), b"abcd".as_slice());
    Ok(())
}

#[test]
fn a_sure_folder_keeps_its_files(rt: HostRuntime) -> Result<(), Fail> {
    let alloc = rt.alloc();
    let mut files = Row::new(alloc);
    files.push((Text::from_str(alloc, "a")?, bytes(alloc, b"one")?))?;
    let mut folder = SureFolder::new(files);
    folder.write(alloc, "b", b"two")?;
    folder.write(alloc, "a", b"three")?;
    let a = folder.read(alloc, "a")?.ok_or("no a")?;
    assert_eq!(rt; a.as_slice(), b"three".as_slice());
    let b = folder.read(alloc, "b")?.ok_or("no b")?;
    assert_eq!(rt; b.as_slice(), b"two".as_slice());
    assert!(rt; folder.read(alloc, "c")?.is_none());
    Ok(())
}

#[test]
fn a_sure_source_ends(rt: HostRuntime) -> Result<(), Fail> {
    let mut source = SureSource::new(bytes(rt.alloc(), b"x")?);
    assert_eq!(rt; source.next()?, Some(b'x'));
    assert_eq!(rt; source.next()?, None);
    assert_eq!(rt; source.next()?, None);
    Ok(())
}

#[test]
fn a_memory_source_goes_on_after_a_fault(rt: HostRuntime) -> Result<(), Fail> {
    let mut failing = Row::new(rt.alloc());
    failing.push(2)?;
    let mut source = MemorySource::new(bytes(rt.alloc(), b"xy")?, failing);
    assert_eq!(rt; source.next()?, Some(b'x'));
    assert!(rt; source.next().is_err(), "its number is a failing one");
    assert_eq!(rt; source.next()?, Some(b'y'));
    assert_eq!(rt; source.next()?, None);
    Ok(())
}

#[test]
fn a_memory_folder_goes_on_after_a_fault(rt: HostRuntime) -> Result<(), Fail> {
    let alloc = rt.alloc();
    let mut files = Row::new(alloc);
    files.push((Text::from_str(alloc, "a")?, bytes(alloc, b"one")?))?;
    let mut failing = Row::new(alloc);
    failing.push(2)?;
    failing.push(4)?;
    let mut folder = MemoryFolder::new(files, failing);
    folder.write(alloc, "b", b"two")?;
    assert!(rt;
        matches!(folder.write(alloc, "a", b"three"), Err(Refused::Failed)),
        "its number is a failing one"
    );
    let a = folder.read(alloc, "a")?.ok_or("no a")?;
    assert_eq!(rt; a.as_slice(), b"one".as_slice());
    assert!(rt;
        matches!(folder.read(alloc, "b"), Err(Refused::Failed)),
        "its number is a failing one"
    );
    let b = folder.read(alloc, "b")?.ok_or("no b")?;
    assert_eq!(rt; b.as_slice(), b"two".as_slice());
    Ok(())
}

#[test]
fn the_disk_keeps_a_file(rt: HostRuntime) -> Result<(), Fail> {
    let alloc = rt.alloc();
    let process = process::id(rt.process());
    let place = env::temp_dir(&rt)?;
    let name = format!(in alloc;
        "{}/sl_outside_{process}",
        place.as_path().to_str().ok_or("no text")?
    )?;
    let mut folder = FolderOnDisk::new(&rt);
    assert!(rt;
        folder.read(alloc, name.as_str())?.is_none(),
        "it isn't there yet"
    );
    folder.write(alloc, name.as_str(), b"first and longer")?;
    folder.write(alloc, name.as_str(), b"second")?;
    let read = folder.read(alloc, name.as_str())?.ok_or("no file")?;
    assert_eq!(rt; read.as_slice(), b"second".as_slice());
    let below = format!(in alloc; "{name}/below")?;
    assert!(rt;
        folder.read(alloc, below.as_str())?.is_none(),
        "a file has no files"
    );
    fs::remove_file(&rt, name.as_str())?;
    assert!(rt;
        matches!(folder.read(alloc, "/"), Err(Refused::Failed)),
        "a folder isn't read"
    );
    assert!(rt;
        matches!(folder.write(alloc, "/", b""), Err(Refused::Failed)),
        "nor written"
    );
    Ok(())
}

/// Gives a byte, is interrupted, gives another and fails.
#[derive(Drop)]
struct Reader(u8);

impl Read for Reader {
    fn read(&mut self, buf: &mut [u8]) -> io::Result<usize> {
        let turn = self.0;
        self.0 = turn.saturating_add(1);
        match turn {
            0 | 2 if !buf.is_empty() => {
                buf[0] = b'a' + turn;
                Ok(1)
            }
            1 => Err(io::Error::from(ErrorKind::Interrupted)),
            _ => Err(io::Error::from(ErrorKind::TimedOut)),
        }
    }
}

#[test]
fn an_input_gives_its_bytes_and_then_fails(rt: HostRuntime) -> Result<(), Fail> {
    let mut source = SourceOnInput::new(Reader(0));
    assert_eq!(rt; source.next()?, Some(b'a'));
    assert_eq!(rt; source.next()?, Some(b'c'));
    assert!(rt; source.next().is_err());
    let mut end = SourceOnInput::new(b"z".as_slice());
    assert_eq!(rt; end.next()?, Some(b'z'));
    assert_eq!(rt; end.next()?, None);
    Ok(())
}

/// Takes three bytes at a time, up to six, and then nothing.
#[derive(Drop)]
struct Writer(Vec<u8>);

impl Write for Writer {
    fn write(&mut self, buf: &[u8]) -> io::Result<usize> {
        let count = buf.len().min(3).min(6usize.saturating_sub(self.0.len()));
        self.0.extend_from_slice(&buf[..count])?;
        Ok(count)
    }

    fn flush(&mut self) -> io::Result<()> {
        Ok(())
    }
}

#[test]
fn an_output_takes_pieces_whole_or_fails(rt: HostRuntime) {
    let mut sink = SinkOnOutput::new(Writer(Vec::new(rt.alloc())));
    assert!(rt; sink.put(b"abcde").is_ok());
    assert!(rt; sink.put(b"").is_ok());
    assert!(rt; sink.put(b"fg").is_err(), "a write took nothing");
}
