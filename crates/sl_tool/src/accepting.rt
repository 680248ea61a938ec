// The rules that a source keeps or breaks.
ghost use Rattle.sl_tool.specs.Accepting.{IsRead};

use sl_parse::parse;
use sl_text::Fault;
use sl_token::tokens;
use sl_tree::File;
use std::alloc::Global;

/// The tree of the file of this number, or the first rule that it breaks.
pub fn read_tree(alloc: Global, file: u32, bytes: &[u8]) -> Result<File, Fault>
    ensures { IsRead file bytes.now result }
{
    let tokens = tokens(alloc, file, bytes)?;
    parse(alloc, file, bytes, tokens.as_slice())
}
