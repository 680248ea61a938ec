// Which rule of C trees is told. That a small tree breaks each rule is proved (c_tree's proofs/Refused.antt).
use c_rules::Checked;
use c_tree::{CArg, CExpr, CFault, CFile, CFun, CPlace, CStmt, CType, CVar, NotC};
use sl_text::{Mem, Row, Text};
use std::alloc::Global;
use std::test::Fail;

/// A list of one.
fn one<T: Drop>(alloc: Global, item: T) -> Result<Row<T>, Mem> {
    let mut row = Row::new(alloc);
    row.push(item)?;
    Ok(row)
}

/// A list of two.
fn two<T: Drop>(alloc: Global, first: T, second: T) -> Result<Row<T>, Mem> {
    let mut row = Row::new(alloc);
    row.push(first)?;
    row.push(second)?;
    Ok(row)
}

/// A variable.
fn var(alloc: Global, name: &str, kind: CType) -> Result<CVar, Mem> {
    Ok(CVar {
        name: Text::from_str(alloc, name)?,
        kind,
    })
}

/// `NAME`
fn place(alloc: Global, name: &str) -> Result<CPlace, Mem> {
    Ok(CPlace::Name(Text::from_str(alloc, name)?))
}

/// `return INT64_C(0);`
fn give() -> CStmt {
    CStmt::Return(Some(CExpr::Const(true, 0)))
}

/// `NAME();`
fn bare_call(alloc: Global, name: &str) -> Result<CStmt, Mem> {
    Ok(CStmt::Call(None, Text::from_str(alloc, name)?, Row::new(alloc)))
}

/// A function without parameters and variables.
fn function(
    alloc: Global,
    name: &str,
    kind: CType,
    body: Row<CStmt>,
    line: u64,
) -> Result<CFun, Mem> {
    Ok(CFun {
        name: Text::from_str(alloc, name)?,
        inline: false,
        result: kind,
        params: Row::new(alloc),
        vars: Row::new(alloc),
        body,
        line,
    })
}

/// An inline function without a result on line 18.
fn helper(alloc: Global, name: &str, body: Row<CStmt>) -> Result<CFun, Mem> {
    let mut made = function(alloc, name, CType::Void, body, 18)?;
    made.inline = true;
    Ok(made)
}

/// `sl_main` on line 20.
fn start(alloc: Global, body: Row<CStmt>) -> Result<CFun, Mem> {
    function(alloc, "sl_main", CType::Int(true, 64), body, 20)
}

/// The prototype of `sl_main`.
fn start_proto(alloc: Global) -> Result<CFun, Mem> {
    function(alloc, "sl_main", CType::Int(true, 64), Row::new(alloc), 7)
}

/// A file with these functions, and the prototype of `sl_main`.
fn file_of(alloc: Global, functions: Row<CFun>) -> Result<CFile, Mem> {
    Ok(CFile {
        structs: Row::new(alloc),
        globals: Row::new(alloc),
        protos: one(alloc, start_proto(alloc)?)?,
        functions,
    })
}

/// What is told of a file of `sl_main` alone.
fn told_of(alloc: Global, body: Row<CStmt>) -> Result<Option<CFault>, Mem> {
    let file = file_of(alloc, one(alloc, start(alloc, body)?)?)?;
    Ok(Checked::check(alloc, file).err())
}

/// A rule is broken on a line.
fn broken(rule: u8, line: u64) -> Option<CFault> {
    Some(CFault::NotC(NotC { line, rule }))
}

#[test]
fn a_file_keeps_all_rules(rt: HostRuntime) -> Result<(), Fail> {
    let alloc = rt.alloc();
    let file = file_of(alloc, one(alloc, start(alloc, one(alloc, give())?)?)?)?;
    let checked = Checked::check(alloc, file);
    let kept = match &checked {
        Ok(checked) => checked.file().functions.len(),
        Err(_) => 0,
    };
    assert_eq!(rt; kept, 1);
    Ok(())
}

#[test]
fn names_clash_outside(rt: HostRuntime) -> Result<(), Fail> {
    let alloc = rt.alloc();
    let mut file = file_of(alloc, one(alloc, start(alloc, one(alloc, give())?)?)?)?;
    file.globals = one(alloc, var(alloc, "sl_main", CType::Int(true, 64))?)?;
    assert_eq!(rt; Checked::check(alloc, file).err(), broken(10, 7));
    Ok(())
}

#[test]
fn of_two_alike_the_first_is_told(rt: HostRuntime) -> Result<(), Fail> {
    let alloc = rt.alloc();
    let mut first = helper(alloc, "h", one(alloc, bare_call(alloc, "h")?)?)?;
    let mut second = helper(alloc, "h", one(alloc, bare_call(alloc, "h")?)?)?;
    first.line = 3;
    second.line = 3;
    let file = file_of(alloc, two(alloc, first, second)?)?;
    assert_eq!(rt; Checked::check(alloc, file).err(), broken(19, 3));
    Ok(())
}

#[test]
fn a_name_is_reserved(rt: HostRuntime) -> Result<(), Fail> {
    let alloc = rt.alloc();
    let mut main = start(alloc, one(alloc, give())?)?;
    main.vars = one(alloc, var(alloc, "fflush", CType::Int(true, 64))?)?;
    let file = file_of(alloc, one(alloc, main)?)?;
    assert_eq!(rt; Checked::check(alloc, file).err(), broken(10, 20));
    Ok(())
}

#[test]
fn there_is_an_argument_too_many(rt: HostRuntime) -> Result<(), Fail> {
    let alloc = rt.alloc();
    let arguments = one(alloc, CArg::Value(CExpr::Const(true, 1)))?;
    let call = CStmt::Call(None, Text::from_str(alloc, "h")?, arguments);
    let main = start(alloc, two(alloc, call, give())?)?;
    let file = file_of(
        alloc,
        two(alloc, helper(alloc, "h", Row::new(alloc))?, main)?,
    )?;
    assert_eq!(rt; Checked::check(alloc, file).err(), broken(16, 20));
    Ok(())
}

#[test]
fn the_least_line_is_told(rt: HostRuntime) -> Result<(), Fail> {
    let alloc = rt.alloc();
    let caller = helper(alloc, "h", one(alloc, bare_call(alloc, "sl_main")?)?)?;
    let put = CStmt::Put(CExpr::Read(place(alloc, "a")?));
    let main = start(alloc, two(alloc, put, give())?)?;
    let file = file_of(alloc, two(alloc, caller, main)?)?;
    assert_eq!(rt; Checked::check(alloc, file).err(), broken(19, 18));
    Ok(())
}

#[test]
fn the_least_rule_on_a_line_is_told(rt: HostRuntime) -> Result<(), Fail> {
    let alloc = rt.alloc();
    let put = CStmt::Put(CExpr::Const(false, 1));
    let read = CStmt::Put(CExpr::Read(place(alloc, "a")?));
    assert_eq!(rt; told_of(alloc, two(alloc, put, read)?)?, broken(11, 20));
    Ok(())
}
