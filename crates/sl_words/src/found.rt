// What the words behind a command give, found word by word.
ghost use Rattle.std.specs.Prelude.{◌≡◌, ℕ, List, [], ◌∷◌, map, option_map, string_bytes, IfOk};
ghost use Rattle.std.specs.Option.{option_and_then};
ghost use Rattle.sl_words.specs.WordsReading.{found_seen, gathered, nothing, read_on, together, with_file, with_option};
ghost use Rattle.sl_words.specs.declared.found.Place.TheVariants.{Among};

use crate::kinds::{Given, Kind, Valued, is_plain, kind_of};
use sl_text::{Mem, Row};
use std::alloc::Global;

/// Where a word stands behind the command.
#[derive(Clone, Copy)]
pub enum Place {
    /// Among options and files.
    Among,
    /// Right behind an option, which waits for its value.
    BehindOption(Valued),
    /// Behind `--`, where each word names a file.
    BehindDashes,
}

/// What the words so far gave, and where the next one stands.
#[derive(Drop)]
pub struct Found<'a> {
    pub place: Place,
    pub given: Option<Given<'a>>,
    pub files: Row<&'a str>,
}

/// What the words behind a command give, if they are options and files, and no more than one option.
pub fn found_in(alloc: Global, words: &[String]) -> Result<Option<Found<'_>>, Mem>
    ensures { IfOk result (λ found. together nothing (gathered Among (map string_bytes words.now)) ≡ option_map found_seen found) }
{
    let mut found = Found {
        place: Place::Among,
        given: None,
        files: Row::new(alloc),
    };
    for word in words {
        let Some(next) = found.with_word(word.as_str())? else {
            return Ok(None);
        };
        found = next;
    }
    Ok(found.whole())
}

impl<'a> Found<'a> {
    /// What was found, if no option waits for its value.
    fn whole(self) -> Option<Found<'a>>
        ensures { read_on self.entry [] ≡ option_map found_seen result }
    {
        match self.place {
            Place::BehindOption(_) => None,
            _ => Some(self),
        }
    }

    /// What was found with one more word.
    fn with_word(self, word: &'a str) -> Result<Option<Found<'a>>, Mem>
        ensures { IfOk result (λ found. (words : List (List ℕ)) → read_on self.entry (word.now ∷ words) ≡ option_and_then (λ found. read_on found words) found) }
    {
        match self.place {
            Place::Among => self.with_part(word),
            Place::BehindOption(option) if is_plain(word) => Ok(self.with_option(option, word)),
            Place::BehindDashes if !word.is_empty() => self.with_file(word),
            _ => Ok(None),
        }
    }

    /// What was found with one more word among options and files.
    fn with_part(self, word: &'a str) -> Result<Option<Found<'a>>, Mem>
        requires { self.place ≡ Among }
        ensures { IfOk result (λ found. (words : List (List ℕ)) → read_on self.entry (word.now ∷ words) ≡ option_and_then (λ found. read_on found words) found) }
    {
        match kind_of(word) {
            Kind::File => self.with_file(word),
            Kind::Waits(option) => Ok(Some(self.at(Place::BehindOption(option)))),
            Kind::Value(option, value) => Ok(self.with_option(option, value)),
            Kind::Dashes => Ok(Some(self.at(Place::BehindDashes))),
            Kind::Other => Ok(None),
        }
    }

    /// What was found, where the next word stands at this place.
    fn at(self, place: Place) -> Found<'a>
        ensures place { result.place ≡ place }
        ensures found { found_seen result ≡ found_seen self.entry }
    {
        Found {
            place,
            given: self.given,
            files: self.files,
        }
    }

    /// What was found with this option, if none was.
    fn with_option(self, option: Valued, value: &'a str) -> Option<Found<'a>>
        ensures { (words : List (List ℕ)) → together (found_seen self.entry) (option_map (with_option option value.now) (gathered Among words))
            ≡ option_and_then (λ found. read_on found words) result }
    {
        match self.given {
            Some(_) => None,
            None => Some(Found {
                place: Place::Among,
                given: Some(Given { option, value }),
                files: self.files,
            }),
        }
    }

    /// What was found with this file.
    fn with_file(self, file: &'a str) -> Result<Option<Found<'a>>, Mem>
        ensures { IfOk result (λ found. (words : List (List ℕ)) → together (found_seen self.entry) (option_map (with_file file.now) (gathered self.entry.place words))
            ≡ option_and_then (λ found. read_on found words) found) }
    {
        let mut files = self.files;
        files.push(file)?;
        Ok(Some(Found {
            place: self.place,
            given: self.given,
            files,
        }))
    }
}
