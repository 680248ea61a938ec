// One call of the tool over memory, and what it answered and left.
use sl_outside::{Folder, MemoryFolder, MemorySink, MemorySource};
use sl_text::{Row, Text};
use sl_tool::slang;
use std::alloc::Global;
use std::test::Fail;

/// The lines of a plain file before its body.
pub const HEAD: &str =
    "// #Sireum\nimport org.sireum._\nobject X extends App {\n  def main(args: ISZ[String]): Z = {\n";

/// What stands behind its last statement.
pub const FOOT: &str = "\n  }\n}\n";

/// The lines behind its body.
const END: &str = "  }\n}\n";

/// More than any test puts on an output.
const ROOM: u32 = 20000;

/// No call fails.
pub const NONE: &[u64] = &[];

/// The numbers of the calls that fail, from 1: of the folder, of `out` and of `note`.
pub type Failing = [&'static [u64]; 3];

/// Nothing fails.
pub const CALM: Failing = [NONE, NONE, NONE];

/// What a call is to answer: the status, what is on `out` and what is on `note`.
pub type Answer<'a> = (u8, &'a [u8], &'a [u8]);

/// A name, and what the folder is then to have under it, or nothing.
pub type Left<'a> = (&'a str, Option<&'a [u8]>);

/// What a call of the tool is made on.
#[derive(Drop)]
struct Outside {
    folder: MemoryFolder,
    input: MemorySource,
    out: MemorySink,
    note: MemorySink,
}

/// What a call answered, and what it left.
#[derive(Drop)]
pub struct Called {
    code: u8,
    left: Outside,
}

impl Called {
    /// The status, and how many bytes are on `out`.
    pub fn size(&self) -> (u8, usize) {
        (self.code, self.left.out.bytes().len())
    }

    /// Whether the call answered so.
    fn told(&self, answer: Answer<'_>) -> bool {
        let (code, out, note) = answer;
        self.code == code && self.left.out.bytes() == out && self.left.note.bytes() == note
    }

    /// Whether the next call of the folder fails. Where the number of the call that is to fail is one more than the tool should
    /// have made, this says that it made just so many.
    fn next_fails(&mut self, alloc: Global) -> bool {
        self.left.folder.read(alloc, "").is_err()
    }

    /// What the folder then has under a name. A call that was to fail and wasn't made yet is made first.
    pub fn under(&mut self, alloc: Global, name: &str) -> Result<Option<Row<u8>>, Fail> {
        match self.left.folder.read(alloc, name) {
            Ok(found) => Ok(found),
            Err(_) => Ok(self.left.folder.read(alloc, name)?),
        }
    }

    /// Whether the folder then has this under a name, or nothing.
    fn holds(&mut self, alloc: Global, name: &str, bytes: Option<&[u8]>) -> Result<bool, Fail> {
        Ok(match (self.under(alloc, name)?, bytes) {
            (Some(found), Some(bytes)) => found.as_slice() == bytes,
            (None, None) => true,
            _ => false,
        })
    }

    /// Whether the folder then has each of these under its name, or nothing.
    fn holds_all(&mut self, alloc: Global, left: &[Left<'_>]) -> Result<bool, Fail> {
        let mut all = true;
        for (name, bytes) in left {
            all &= self.holds(alloc, name, *bytes)?;
        }
        Ok(all)
    }
}

/// The plain file with this body.
pub fn app(alloc: Global, body: &str) -> Result<String, Fail> {
    Ok(format!(in alloc; "{HEAD}{body}{END}")?)
}

/// Words, and behind them others.
pub fn joined<'a>(
    alloc: Global,
    front: &[&'a str],
    back: &[&'a str],
) -> Result<Vec<&'a str>, Fail> {
    let mut words = Vec::from_slice(alloc, front)?;
    words.extend_from_slice(back)?;
    Ok(words)
}

/// The words, as the tool takes them.
fn owned(alloc: Global, words: &[&str]) -> Result<Vec<String>, Fail> {
    let mut all = Vec::new(alloc);
    for word in words {
        all.push(word.to_string(alloc)?)?;
    }
    Ok(all)
}

/// One file of a folder.
fn entry(alloc: Global, name: &str, bytes: &[u8]) -> Result<(Text, Row<u8>), Fail> {
    Ok((Text::from_str(alloc, name)?, Row::from_slice(alloc, bytes)?))
}

/// A folder with these files, that fails at these calls.
fn folder(alloc: Global, files: &[(&str, &[u8])], failing: &[u64]) -> Result<MemoryFolder, Fail> {
    let mut entries = Row::new(alloc);
    for (name, bytes) in files {
        entries.push(entry(alloc, name, bytes)?)?;
    }
    Ok(MemoryFolder::new(entries, Row::from_slice(alloc, failing)?))
}

/// An output that fails at these calls.
fn sink(alloc: Global, failing: &[u64]) -> Result<MemorySink, Fail> {
    Ok(MemorySink::new(alloc, ROOM, Row::from_slice(alloc, failing)?)?)
}

/// Calls the tool with these words over these files, with nothing to read.
pub fn call(
    alloc: Global,
    words: &[&str],
    files: &[(&str, &[u8])],
    failing: Failing,
) -> Result<Called, Fail> {
    let input = MemorySource::new(Row::new(alloc), Row::new(alloc));
    call_on(alloc, words, files, failing, input)
}

/// What such a call is made on.
fn prepare(
    alloc: Global,
    files: &[(&str, &[u8])],
    failing: Failing,
    input: MemorySource,
) -> Result<Outside, Fail> {
    let folder = folder(alloc, files, failing[0])?;
    let out = sink(alloc, failing[1])?;
    let note = sink(alloc, failing[2])?;
    Ok(Outside {
        folder,
        input,
        out,
        note,
    })
}

/// Calls it there, and gives its exit status.
fn act(alloc: Global, words: &Vec<String>, on: &mut Outside) -> u8 {
    slang(
        alloc,
        words,
        &mut on.folder,
        &mut on.input,
        &mut on.out,
        &mut on.note,
    )
    .code()
}

/// Calls it with this input.
fn call_on(
    alloc: Global,
    words: &[&str],
    files: &[(&str, &[u8])],
    failing: Failing,
    input: MemorySource,
) -> Result<Called, Fail> {
    let words = owned(alloc, words)?;
    let mut left = prepare(alloc, files, failing, input)?;
    let code = act(alloc, &words, &mut left);
    Ok(Called { code, left })
}

// A test calls the functions below once for each row of its table. What the proof of the tests costs is a few seconds for each
// function, and more for each call with many arguments that is written out in it; rows cost little, up to some thousand bytes a table.

/// Whether a call with these words over these files answers so.
pub fn answers(
    alloc: Global,
    words: &[&str],
    files: &[(&str, &[u8])],
    failing: Failing,
    answer: Answer<'_>,
) -> Result<bool, Fail> {
    let called = call(alloc, words, files, failing)?;
    Ok(called.told(answer))
}

/// Whether it answers so, and leaves each of these.
pub fn leaves(
    alloc: Global,
    words: &[&str],
    files: &[(&str, &[u8])],
    failing: Failing,
    answer: Answer<'_>,
    left: &[Left<'_>],
) -> Result<bool, Fail> {
    let mut called = call(alloc, words, files, failing)?;
    let held = called.holds_all(alloc, left)?;
    Ok(held && called.told(answer))
}

/// Whether it answers so, its next call of the folder would have failed, and it leaves each of these.
pub fn stops(
    alloc: Global,
    words: &[&str],
    files: &[(&str, &[u8])],
    failing: Failing,
    answer: Answer<'_>,
    left: &[Left<'_>],
) -> Result<bool, Fail> {
    let mut called = call(alloc, words, files, failing)?;
    let stopped = called.next_fails(alloc);
    let held = called.holds_all(alloc, left)?;
    Ok(stopped && held && called.told(answer))
}

/// What a call with these words over these files writes under a name.
pub fn written(
    alloc: Global,
    words: &[&str],
    files: &[(&str, &[u8])],
    name: &str,
) -> Result<Row<u8>, Fail> {
    let mut called = call(alloc, words, files, CALM)?;
    Ok(called.under(alloc, name)?.ok_or("nothing was written")?)
}

/// Whether the file `a.scala` with this body of `main` answers so to `run`.
pub fn runs(alloc: Global, body: &str, answer: Answer<'_>) -> Result<bool, Fail> {
    let source = app(alloc, body)?;
    answers(
        alloc,
        &["run", "a.scala"],
        &[("a.scala", source.as_bytes())],
        CALM,
        answer,
    )
}

/// Whether it answers so where these bytes are its input, and the askings with these numbers fail.
pub fn reads(
    alloc: Global,
    body: &str,
    input: &[u8],
    failing: &[u64],
    answer: Answer<'_>,
) -> Result<bool, Fail> {
    let source = app(alloc, body)?;
    let input = MemorySource::new(
        Row::from_slice(alloc, input)?,
        Row::from_slice(alloc, failing)?,
    );
    let files: [(&str, &[u8]); 1] = [("a.scala", source.as_bytes())];
    let called = call_on(alloc, &["run", "a.scala"], &files, CALM, input)?;
    Ok(called.told(answer))
}
