// What a word is among options and files.
ghost use Rattle.std.specs.Prelude.{◌≡◌};
ghost use Rattle.sl_words.specs.WordsReading.{is_plain, kind_of, kind_seen, output_kind, turns_kind};

/// An option that has a value.
#[derive(Clone, Copy)]
pub enum Valued {
    /// `-o`
    Output,
    /// `--turns`
    Turns,
}

/// An option with its value.
#[derive(Clone, Copy)]
pub struct Given<'a> {
    pub option: Valued,
    pub value: &'a str,
}

/// What a word is among options and files.
#[derive(Clone, Copy)]
pub enum Kind<'a> {
    /// It names a file.
    File,
    /// It is this option, which waits for its value.
    Waits(Valued),
    /// It gives this option this value.
    Value(Valued, &'a str),
    /// It is `--`.
    Dashes,
    /// No command has it.
    Other,
}

/// What a word is among options and files.
pub fn kind_of(word: &str) -> Kind<'_>
    ensures { kind_of word.now ≡ kind_seen result }
{
    if is_plain(word) {
        return Kind::File;
    }
    if word == "--" {
        return Kind::Dashes;
    }
    if let Some(rest) = word.strip_prefix("-o") {
        return output_kind(rest);
    }
    match word.strip_prefix("--turns") {
        Some(rest) => turns_kind(rest),
        None => Kind::Other,
    }
}

/// What a word is that begins with `-o`, by what stands behind that.
fn output_kind(rest: &str) -> Kind<'_>
    ensures { output_kind rest.now ≡ kind_seen result }
{
    if rest.is_empty() {
        Kind::Waits(Valued::Output)
    } else {
        Kind::Value(Valued::Output, rest.strip_prefix('=').unwrap_or(rest))
    }
}

/// What a word is that begins with `--turns`, by what stands behind that.
fn turns_kind(rest: &str) -> Kind<'_>
    ensures { turns_kind rest.now ≡ kind_seen result }
{
    if rest.is_empty() {
        return Kind::Waits(Valued::Turns);
    }
    match rest.strip_prefix('=') {
        Some(value) => Kind::Value(Valued::Turns, value),
        None => Kind::Other,
    }
}

/// Whether a word is plain: it isn't empty, and is `-` or doesn't begin with `-`.
pub fn is_plain(word: &str) -> bool
    ensures { result ≡ is_plain word.now }
{
    match word.as_bytes() {
        [] => false,
        [_] => true,
        [first, ..] => *first != b'-',
    }
}
