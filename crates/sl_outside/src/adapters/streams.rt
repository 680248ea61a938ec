ghost use Rattle.std.specs.Prelude.{◌≡◌, ◌≢◌, [], IfErr, IsOk, is_err};
ghost use Rattle.std.specs.IoError.{error_kind};
ghost use Rattle.sl_outside.specs.Counts.{HasCause, one_more};
ghost use Rattle.sl_outside.specs.Sink.{PutGives};
ghost use Rattle.sl_outside.specs.Adapters.{input_reader, input_faults, input_calls, output_writer, output_faults, output_calls, ByteRead, WholeWritten};

use super::retrying::{read_retrying, write_retrying};
use crate::{Failed, Sink, Source};
use std::io;
use std::io::{ErrorKind, Read, Write};

/// A reader as a source. It tells what its reader tells, which for standard input is nothing, and reads no byte before it is
/// asked for. A read that gives no byte is the end, and an error is a fault.
#[derive(Drop)]
pub struct SourceOnInput<R: Read + Drop> {
    reader: R,
    faults: u64,
    calls: u64,
}

impl<R: Read + Drop> SourceOnInput<R> {
    pub fn new(reader: R) -> SourceOnInput<R>
        ensures reader { input_reader result ≡ reader }
        ensures no_faults { input_faults result ≡ 0 }
        ensures no_calls { input_calls result ≡ 0 }
    {
        SourceOnInput {
            reader,
            faults: 0,
            calls: 0,
        }
    }
}

impl<R: Read + Drop> Source for SourceOnInput<R> {
    ghost use Rattle.sl_outside.specs.Adapters.{input_reader, input_faults, input_calls};

    ghost left = { λ s. R.remaining (input_reader s) };

    ghost faults = { input_faults };

    ghost calls = { input_calls };

    fn next(&mut self) -> Result<Option<u8>, Failed> {
        self.calls = self.calls.saturating_add(1);
        match read_byte(&mut self.reader) {
            Ok(next) => Ok(next),
            Err(_) => {
                self.faults = self.faults.saturating_add(1);
                Err(Failed)
            }
        }
    }
}

/// The next byte, or None at the end.
fn read_byte<R: Read>(reader: &mut R) -> io::Result<Option<u8>>
    ensures byte { ByteRead (R.remaining reader.old) (R.remaining reader.new) result }
    ensures retried { IfErr result (λ e. error_kind e ≢ ErrorKind.Interrupted) }
{
    let mut byte = [0u8; 1];
    match read_retrying(reader, &mut byte)? {
        0 => Ok(None),
        _ => Ok(Some(byte[0])),
    }
}

/// A writer as a sink. It tells what its writer tells, which for standard output is nothing. A write that takes nothing of a
/// piece that isn't empty is a fault, and so is an error.
#[derive(Drop)]
pub struct SinkOnOutput<W: Write + Drop> {
    writer: W,
    faults: u64,
    calls: u64,
}

impl<W: Write + Drop> SinkOnOutput<W> {
    pub fn new(writer: W) -> SinkOnOutput<W>
        ensures writer { output_writer result ≡ writer }
        ensures no_faults { output_faults result ≡ 0 }
        ensures no_calls { output_calls result ≡ 0 }
    {
        SinkOnOutput {
            writer,
            faults: 0,
            calls: 0,
        }
    }
}

impl<W: Write + Drop> Sink for SinkOnOutput<W> {
    ghost use Rattle.sl_outside.specs.Adapters.{output_writer, output_faults, output_calls};

    ghost held = { λ s. W.contents (output_writer s) };

    ghost faults = { output_faults };

    ghost calls = { output_calls };

    fn put(&mut self, bytes: &[u8]) -> Result<(), Failed>
        ensures taken { PutGives (W.contents (output_writer self.old)) (W.contents (output_writer self.new)) bytes.now result }
        ensures cause { HasCause (is_err result) (output_faults self.old) (output_faults self.new) }
        ensures counted { output_calls self.new ≡ one_more (output_calls self.old) }
        ensures none { bytes.now ≡ [] → IsOk result }
    {
        self.calls = self.calls.saturating_add(1);
        match write_whole(&mut self.writer, bytes) {
            Ok(()) => Ok(()),
            Err(_) => {
                self.faults = self.faults.saturating_add(1);
                Err(Failed)
            }
        }
    }
}

/// Writes all the bytes, in as many writes as it takes, which is none where there are none. Where it fails it wrote a prefix of
/// them.
pub fn write_whole<W: Write>(writer: &mut W, bytes: &[u8]) -> io::Result<()>
    ensures written { WholeWritten (W.contents writer.old) (W.contents writer.new) bytes.now result }
    ensures none { bytes.now ≡ [] → IsOk result }
    ensures retried { IfErr result (λ e. error_kind e ≢ ErrorKind.Interrupted) }
{
    let mut rest = bytes;
    while !rest.is_empty() {
        match write_retrying(writer, rest)? {
            0 => return Err(io::Error::from(ErrorKind::WriteZero)),
            count => rest = &rest[count..],
        }
    }
    Ok(())
}
