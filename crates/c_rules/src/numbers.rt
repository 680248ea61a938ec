// The numbers of functions by their names.
ghost use Rattle.std.specs.Prelude.{◌≡◌, ℕ, List, [], ◌∷◌, ◌++◌, ◌||◌, IfOk, OnOk, None, if◌then◌else◌, length};
ghost use Rattle.std.specs.Str.{bytes_eq};
ghost use Rattle.c_tree.specs.declared.tree.CFun.{CFun};
ghost use Rattle.c_rules.specs.Naming.{AreEarlier, AreNumbered, item_named, numbers_named, says_inline};

use crate::naming::Names;
use c_tree::CFun;
use sl_text::{Mem, Text};
use std::alloc::Global;

/// The numbers of the functions of a list. Of several with one name it has all, in order.
pub fn numbers_of(alloc: Global, functions: &[CFun]) -> Result<Names<Vec<usize>>, Mem>
    ensures { IfOk result (AreNumbered functions.now) }
{
    let mut numbers = Names::new(alloc);
    for (number, function) in functions.iter().enumerate() {
        add_number(alloc, &mut numbers, number, function)?;
    }
    Ok(numbers)
}

/// The number of one more function.
fn add_number(
    alloc: Global,
    numbers: &mut Names<Vec<usize>>,
    number: usize,
    function: &CFun,
) -> Result<(), Mem>
    ensures { OnOk result ((earlier : List CFun) → length earlier ≡ number → AreNumbered earlier numbers.old → AreNumbered (earlier ++ function.now ∷ []) numbers.new) }
{
    let name = function.name.as_str();
    let mut same = taken(alloc, numbers, name);
    same.push(number)?;
    numbers.set(alloc, name, same)?;
    Ok(())
}

/// The numbers of the functions with this name, taken out.
fn taken(alloc: Global, numbers: &mut Names<Vec<usize>>, name: &str) -> Vec<usize>
    ensures items { result.items ≡ numbers_named numbers.old name.now }
    ensures others { (other : List ℕ) → item_named numbers.new other ≡ (if bytes_eq name.now other then None else item_named numbers.old other) }
{
    match numbers.take(name) {
        None => Vec::new(alloc),
        Some(same) => same,
    }
}

/// The numbers of the functions with this name.
pub fn numbers_named<'a>(numbers: &'a Names<Vec<usize>>, name: &Text) -> &'a [usize]
    ensures { result.now ≡ numbers_named numbers.now name.now }
{
    match numbers.get(name.as_str()) {
        None => &[],
        Some(same) => same.as_slice(),
    }
}

/// The name of one more function, and whether it is inline.
pub fn add_name(alloc: Global, names: &mut Names<bool>, function: &CFun) -> Result<(), Mem>
    ensures { OnOk result ((earlier : List CFun) → AreEarlier earlier names.old → AreEarlier (earlier ++ function.now ∷ []) names.new) }
{
    let inline = is_inline_or(names, function);
    names.set(alloc, function.name.as_str(), inline)?;
    Ok(())
}

/// A function is inline, or one with its name is.
fn is_inline_or(names: &Names<bool>, function: &CFun) -> bool
    ensures { result ≡ (function.now.inline || says_inline (item_named names.now function.now.name)) }
{
    function.inline || says_inline(names, &function.name)
}

/// An inline function has this name.
pub fn says_inline(names: &Names<bool>, name: &Text) -> bool
    ensures { result ≡ says_inline (item_named names.now name.now) }
{
    match names.get(name.as_str()) {
        None => false,
        Some(inline) => *inline,
    }
}
