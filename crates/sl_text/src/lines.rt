ghost use Rattle.std.specs.Prelude.{◌≡◌, ◌<◌, ◌≤◌, ℕ, List, length, slice_index, IfOk};
ghost use Rattle.std.specs.List.Sorted.{IsNonDecreasing};
ghost use Rattle.sl_text.specs.Places.{line_of, column_of, line_ends_of};

use crate::{Mem, Row};
use std::alloc::Global;
use std::marker::Model;

/// The byte that ends a line.
const LINE_FEED: u8 = b'\n';

/// The lines of a file: the place of its end and the places of its line feeds, the bytes 10, in order. It keeps none of the
/// file's bytes. Places are counted in bytes from 0, so the end is the number of bytes. It takes 4 bytes for each line
/// feed, and has room for up to as many again.
#[derive(Debug, Drop)]
pub struct Lines {
    end: u32,
    feeds: Row<u32>,
}

impl Model for Lines {
    ghost use Rattle.std.specs.Prelude.{◌<◌, ◌≤◌, length};
    ghost use Rattle.std.specs.List.Sorted.{IsNonDecreasing};
    ghost use Rattle.sl_text.specs.Places.{LineEnds};

    ghost Value = { LineEnds };

    ghost view = { λ lines. record { end = lines.end; feeds = lines.feeds } };

    ghost invariant = { λ lines. (lines.end < 4294967295) × (length lines.feeds ≤ lines.end) × IsNonDecreasing lines.feeds };
}

impl Lines {
    /// Finds the line feeds of a file of fewer than 2^32 - 1 bytes, in one pass over its bytes.
    pub fn new(alloc: Global, bytes: &[u8]) -> Result<Lines, Mem>
        requires { length bytes.now < 4294967295 }
        ensures { IfOk result (λ lines. lines ≡ line_ends_of bytes.now) }
    {
        let mut feeds = Row::new(alloc);
        for (place, byte) in bytes.iter().enumerate() {
            if *byte == LINE_FEED {
                feeds.push(place as u32)?;
            }
        }
        Ok(Lines {
            end: bytes.len() as u32,
            feeds,
        })
    }

    /// The line and the column of a place, in this order. Both are counted from 1, and a column counts bytes. A line feed
    /// belongs to the line that it ends, and the end of the file to its last line, which is empty behind a line feed. It
    /// allocates nothing, and its time grows with the logarithm of the number of lines.
    pub fn at(&self, place: u32) -> (u32, u32)
        requires { place ≤ self.now.end }
        ensures line { (bytes : List ℕ) → self.now ≡ line_ends_of bytes → result.0 ≡ line_of bytes place }
        ensures column { (bytes : List ℕ) → self.now ≡ line_ends_of bytes → result.1 ≡ column_of bytes place }
    {
        let feeds = self.feeds.as_slice();
        let before = count_below(feeds, place);
        let start = if before == 0 {
            0
        } else {
            feeds[before - 1] + 1
        };
        (before as u32 + 1, place - start + 1)
    }
}

/// How many of these places, which are in order, are below a place. Its time grows with the logarithm of their number.
fn count_below(places: &[u32], place: u32) -> usize
    requires { IsNonDecreasing places.now }
    ensures bound { result ≤ length places.now }
    ensures below { (index : ℕ) → index < result → slice_index places.now index < place }
    ensures above { (index : ℕ) → result ≤ index → index < length places.now → place ≤ slice_index places.now index }
{
    places.partition_point(|other| *other < place)
}
