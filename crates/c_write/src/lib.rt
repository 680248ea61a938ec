//! The writer of C: the text of a tree, one statement a line.
#![tactic(auto)]

ghost use Rattle.std.specs.Prelude.{◌≡◌, IfOk};
ghost use Rattle.c_tree.specs.Text.{CText};
ghost use Rattle.c_tree.specs.WellFormed.{IsWellFormed};
ghost use Rattle.c_write.specs.Layout.{text_of};
ghost use Rattle.c_write.specs.Lined.{lined};

mod layout;
mod trees;

use c_tree::CFile;
use layout::Writer;
use sl_text::{Mem, Row};
use std::alloc::Global;

const PRELUDE: &[u8] = b"\
#include <stdint.h>\n\
#include <stdio.h>\n\
#include <stdlib.h>\n\
static inline void sl_put(int64_t b) { putchar((int)b); }\n\
static inline int64_t sl_get(void) { int c = getchar(); return c == EOF ? -1 : c; }\n\
static inline void sl_halt(int64_t k, int64_t f, int64_t n) { fflush(stdout); fprintf(stderr, \"halt %d %d:%d\\n\", (int)k, (int)f, (int)n); exit(66); }\n";

const POSTLUDE: &[u8] = b"int main(void) { return (int)sl_main(); }\n";

/// The text of a tree, with a line for each statement and four blanks for each open brace. Of a well-formed tree it is a text
/// by the definition, with the lines on which its functions stand in it.
pub fn write(alloc: Global, file: &CFile) -> Result<Row<u8>, Mem>
    ensures text { IfOk result (λ bytes. bytes ≡ text_of file.now) }
    ensures reads { IfOk result (λ bytes. IsWellFormed file.now → CText bytes (lined file.now)) }
{
    let mut writer = Writer::new(alloc);
    writer.put(PRELUDE)?;
    trees::write_file(alloc, &mut writer, file)?;
    writer.put(b"\n")?;
    writer.put(POSTLUDE)?;
    Ok(Row::from_vec(writer.bytes))
}
