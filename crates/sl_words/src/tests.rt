use super::*;
use std::alloc::AllocError;
use std::test::Fail;

fn words_of(alloc: Global, words: &[&str]) -> Result<Vec<String>, AllocError> {
    let mut all = Vec::new(alloc);
    for word in words {
        all.push(word.to_string(alloc)?)?;
    }
    Ok(all)
}

/// What is asked for, but for the files.
enum Asked {
    Run(u64),
    Emit(&'static str),
    Check,
}

/// Words; and what they ask for, with the files. None where they have no reading.
type Meant = (
    &'static [&'static str],
    Option<(Asked, &'static [&'static str])>,
);

const MEANT: [Meant; 10] = [
    (
        &["run", "b", "--", "-a"],
        Some((Asked::Run(1_000_000_000), &["b", "-a"])),
    ),
    (
        &["run", "b", "--turns", "5", "a"],
        Some((Asked::Run(5), &["b", "a"])),
    ),
    (
        &["run", "--turns=9223372036854775807", "-"],
        Some((Asked::Run(0x7fff_ffff_ffff_ffff), &["-"])),
    ),
    (&["run", "--turns=9223372036854775808", "a"], None),
    (&["run", "--turns5", "a"], None),
    (
        &["emit", "b", "-oq", "a", "--"],
        Some((Asked::Emit("q"), &["b", "a"])),
    ),
    (
        &["check", "b", "--", "-a"],
        Some((Asked::Check, &["b", "-a"])),
    ),
    (&["check"], None),
    (&["check", "--turns", "5", "a"], None),
    (&["check", "-oq", "a"], None),
];

/// Whether the words have no reading, or ask for this.
fn means(read: Option<Command<'_>>, meant: &Option<(Asked, &[&str])>) -> bool {
    match (read, meant) {
        (None, None) => true,
        (Some(Command::Run { turns, files }), Some((Asked::Run(most), names))) => {
            turns == *most && files.as_slice() == *names
        }
        (Some(Command::Emit { name, files }), Some((Asked::Emit(other), names))) => {
            name == *other && files.as_slice() == *names
        }
        (Some(Command::Check { files }), Some((Asked::Check, names))) => {
            files.as_slice() == *names
        }
        _ => false,
    }
}

#[test]
fn words_mean_what_they_say(rt: HostRuntime) -> Result<(), Fail> {
    let alloc = rt.alloc();
    for (words, meant) in &MEANT {
        let words = words_of(alloc, words)?;
        assert!(rt; means(read_words(alloc, words.as_slice())?, meant));
    }
    Ok(())
}
