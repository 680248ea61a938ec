// Rule 10: names of one scope are declared once, and aren't reserved.
ghost use Rattle.std.specs.Prelude.{◌≡◌, ◌++◌, ◌↔◌, Contains, IfOk, IsTrue, codes, map};
ghost use Rattle.std.specs.List.{list_any};
ghost use Rattle.std.specs.Str.{bytes_eq};
ghost use Rattle.c_tree.specs.Rules.{BreaksLocalNames, BreaksNames, NamesClash, fun_names, var_names};
ghost use Rattle.c_rules.specs.Names.{StructClashes, is_reserved};

use c_tree::{CFile, CFun, CMember, CStruct, CVar};
use sl_text::{Mem, Text};
use std::alloc::Global;
use std::collections::HashSet;

/// The keywords of C, and what the first lines and the last line of a file use of the standard library.
const RESERVED: [&str; 53] = [
    "auto",
    "break",
    "case",
    "char",
    "const",
    "continue",
    "default",
    "do",
    "double",
    "else",
    "enum",
    "extern",
    "float",
    "for",
    "goto",
    "if",
    "inline",
    "int",
    "long",
    "register",
    "restrict",
    "return",
    "short",
    "signed",
    "sizeof",
    "static",
    "struct",
    "switch",
    "typedef",
    "union",
    "unsigned",
    "void",
    "volatile",
    "while",
    "_Alignas",
    "_Alignof",
    "_Atomic",
    "_Bool",
    "_Complex",
    "_Generic",
    "_Imaginary",
    "_Noreturn",
    "_Static_assert",
    "_Thread_local",
    "putchar",
    "getchar",
    "fflush",
    "fprintf",
    "stdout",
    "stderr",
    "exit",
    "EOF",
    "main",
];

fn is_reserved(name: &Text) -> bool
    ensures { result ≡ is_reserved name.now }
{
    is_among(&RESERVED, name)
}

fn is_among(words: &[&str], name: &Text) -> bool
    ensures { result ≡ list_any (λ word. bytes_eq word.now name.now) words.now }
{
    words.iter().any(|word| *word == name.as_str())
}

fn var_names<'a>(alloc: Global, vars: &'a [CVar]) -> Result<Vec<&'a Text>, Mem>
    ensures { IfOk result (λ names. map (λ name. name.now) names.items ≡ var_names vars.now) }
{
    let mut names = Vec::new(alloc);
    for var in vars {
        names.push(&var.name)?;
    }
    Ok(names)
}

/// Names clash: one is declared twice, or is reserved.
fn names_clash(alloc: Global, names: &[&Text]) -> Result<bool, Mem>
    ensures { IfOk result (λ clash. IsTrue clash ↔ NamesClash (map (λ name. name.now) names.now)) }
{
    let mut seen = HashSet::new(alloc);
    for name in names {
        if is_reserved(name) {
            return Ok(true);
        }
        if !seen.insert(name.as_str())? {
            return Ok(true);
        }
    }
    Ok(false)
}

/// Rule 10 in a function: the names of its parameters and of its variables clash.
pub fn breaks_local_names(alloc: Global, function: &CFun) -> Result<bool, Mem>
    ensures { IfOk result (λ clash. IsTrue clash ↔ BreaksLocalNames function.now) }
{
    let mut names = var_names(alloc, function.params.as_slice())?;
    let mut others = var_names(alloc, function.vars.as_slice())?;
    names.append(&mut others)?;
    names_clash(alloc, names.as_slice())
}

/// The names of global variables and of functions clash.
fn globals_clash(alloc: Global, file: &CFile) -> Result<bool, Mem>
    ensures { IfOk result (λ clash. IsTrue clash ↔ NamesClash (var_names file.now.globals ++ fun_names file.now.functions)) }
{
    let mut names = var_names(alloc, file.globals.as_slice())?;
    let mut others = fun_names(alloc, file.functions.as_slice())?;
    names.append(&mut others)?;
    names_clash(alloc, names.as_slice())
}

fn fun_names<'a>(alloc: Global, functions: &'a [CFun]) -> Result<Vec<&'a Text>, Mem>
    ensures { IfOk result (λ names. map (λ name. name.now) names.items ≡ fun_names functions.now) }
{
    let mut names = Vec::new(alloc);
    for function in functions {
        names.push(&function.name)?;
    }
    Ok(names)
}

/// The names of structs clash.
fn structs_clash(alloc: Global, structs: &[CStruct]) -> Result<bool, Mem>
    ensures { IfOk result (λ clash. IsTrue clash ↔ NamesClash (map (λ item. item.name) structs.now)) }
{
    let mut names = Vec::new(alloc);
    for item in structs {
        names.push(&item.name)?;
    }
    names_clash(alloc, names.as_slice())
}

/// The names of members clash.
fn members_clash(alloc: Global, members: &[CMember]) -> Result<bool, Mem>
    ensures { IfOk result (λ clash. IsTrue clash ↔ NamesClash (map (λ member. member.name) members.now)) }
{
    let mut names = Vec::new(alloc);
    for member in members {
        names.push(&member.name)?;
    }
    names_clash(alloc, names.as_slice())
}

/// The names of the members of a union clash.
fn choice_clashes(alloc: Global, member: &CMember) -> Result<bool, Mem>
    ensures { IfOk result (λ clash. IsTrue clash ↔ NamesClash (var_names member.now.choice)) }
{
    let names = var_names(alloc, member.choice.as_slice())?;
    names_clash(alloc, names.as_slice())
}

fn struct_clashes(alloc: Global, item: &CStruct) -> Result<bool, Mem>
    ensures { IfOk result (λ clash. IsTrue clash ↔ StructClashes item.now) }
{
    if members_clash(alloc, item.members.as_slice())? {
        return Ok(true);
    }
    for member in item.members.as_slice() {
        if choice_clashes(alloc, member)? {
            return Ok(true);
        }
    }
    Ok(false)
}

/// Rule 10 outside functions: names of structs clash, or of globals and functions, or of members.
pub fn breaks_names(alloc: Global, file: &CFile) -> Result<bool, Mem>
    ensures { IfOk result (λ clash. IsTrue clash ↔ BreaksNames file.now) }
{
    if structs_clash(alloc, file.structs.as_slice())? {
        return Ok(true);
    }
    if globals_clash(alloc, file)? {
        return Ok(true);
    }
    for item in file.structs.as_slice() {
        if struct_clashes(alloc, item)? {
            return Ok(true);
        }
    }
    Ok(false)
}
