// The tokens of a tree, one form after another.
#![tactic(auto, using(crate::proofs::Writing::wrote_none))]

ghost use Rattle.std.specs.Prelude.{◌≡◌, ◌∷◌, [], map};
ghost use Rattle.c_tree.specs.Flat.{cflat, lexemes, type_name, flat_typed, flat_var, flat_count, flat_choice, flat_member, flat_struct, flat_global, flat_params, flat_inline, flat_head, flat_proto, const_word, operator_mark, comparison_mark, flat_place, flat_expr, flat_argument, flat_arguments, flat_target, flat_block, flat_returned, flat_stmt, flat_function};
ghost use Rattle.c_tree.specs.declared.tree.CStmt.TheVariants.{Halt};
ghost use Rattle.c_write.specs.Written.{flat_for, Writes};

use crate::layout::Writer;
use c_tree::{CArg, CBinary, CExpr, CFile, CFun, CMember, CPlace, CStmt, CStruct, CType, CVar};
use sl_num::Comparison;
use sl_text::{Mem, Text};
use std::alloc::Global;

pub fn write_file(alloc: Global, writer: &mut Writer, file: &CFile) -> Result<(), Mem>
    ensures { Writes (cflat file.now) writer.old writer.new result }
{
    for item in file.structs.as_slice() {
        write_struct(alloc, writer, item)?;
    }
    for global in file.globals.as_slice() {
        writer.token(b"static")?;
        write_var(alloc, writer, global)?;
    }
    for proto in file.protos.as_slice() {
        write_head(alloc, writer, proto)?;
        writer.token(b";")?;
    }
    for function in file.functions.as_slice() {
        write_function(alloc, writer, function)?;
    }
    Ok(())
}

fn write_struct(alloc: Global, writer: &mut Writer, item: &CStruct) -> Result<(), Mem>
    ensures { Writes (flat_struct item.now) writer.old writer.new result }
{
    writer.tokens(&[b"struct", item.name.as_str().as_bytes(), b"{"])?;
    for member in item.members.as_slice() {
        write_member(alloc, writer, member)?;
    }
    writer.tokens(&[b"}", b";"])
}

fn write_member(alloc: Global, writer: &mut Writer, member: &CMember) -> Result<(), Mem>
    ensures { Writes (flat_member member.now) writer.old writer.new result }
{
    if member.choice.is_empty() {
        write_type(alloc, writer, &member.kind)?;
        writer.token(member.name.as_str().as_bytes())?;
        write_count(alloc, writer, member.count)?;
        return writer.token(b";");
    }
    writer.tokens(&[b"union", b"{"])?;
    for var in member.choice.as_slice() {
        write_var(alloc, writer, var)?;
    }
    writer.tokens(&[b"}", member.name.as_str().as_bytes(), b";"])
}

/// The length of an array.
fn write_count(alloc: Global, writer: &mut Writer, count: Option<u32>) -> Result<(), Mem>
    ensures { Writes (flat_count count) writer.old writer.new result }
{
    match count {
        None => Ok(()),
        Some(count) => {
            let digits = format!(in alloc; "{count}")?;
            writer.tokens(&[b"[", digits.as_bytes(), b"]"])
        }
    }
}

/// A declaration of a variable.
fn write_var(alloc: Global, writer: &mut Writer, var: &CVar) -> Result<(), Mem>
    ensures { Writes (flat_var var.now) writer.old writer.new result }
{
    write_typed(alloc, writer, var)?;
    writer.token(b";")
}

/// A kind and a name.
fn write_typed(alloc: Global, writer: &mut Writer, var: &CVar) -> Result<(), Mem>
    ensures { Writes (flat_typed var.now) writer.old writer.new result }
{
    write_type(alloc, writer, &var.kind)?;
    writer.token(var.name.as_str().as_bytes())
}

fn write_type(alloc: Global, writer: &mut Writer, kind: &CType) -> Result<(), Mem>
    ensures { Writes (lexemes (type_name kind.now ∷ [])) writer.old writer.new result }
{
    match kind {
        CType::Int(true, width) => {
            let name = format!(in alloc; "int{width}_t")?;
            writer.token(name.as_bytes())
        }
        CType::Int(false, width) => {
            let name = format!(in alloc; "uint{width}_t")?;
            writer.token(name.as_bytes())
        }
        CType::Void => writer.token(b"void"),
    }
}

fn write_function(alloc: Global, writer: &mut Writer, function: &CFun) -> Result<(), Mem>
    ensures { Writes (flat_function function.now) writer.old writer.new result }
{
    write_head(alloc, writer, function)?;
    writer.token(b"{")?;
    for var in function.vars.as_slice() {
        write_var(alloc, writer, var)?;
    }
    for stmt in function.body.as_slice() {
        write_stmt(alloc, writer, stmt)?;
    }
    writer.token(b"}")
}

/// A function up to its parameters.
fn write_head(alloc: Global, writer: &mut Writer, function: &CFun) -> Result<(), Mem>
    ensures { Writes (flat_head function.now) writer.old writer.new result }
{
    writer.token(b"static")?;
    write_inline(writer, function.inline)?;
    write_type(alloc, writer, &function.result)?;
    writer.tokens(&[function.name.as_str().as_bytes(), b"("])?;
    write_params(alloc, writer, function.params.as_slice())?;
    writer.token(b")")
}

fn write_inline(writer: &mut Writer, inline: bool) -> Result<(), Mem>
    ensures { Writes (flat_inline inline) writer.old writer.new result }
{
    if inline {
        writer.token(b"inline")
    } else {
        Ok(())
    }
}

fn write_params(alloc: Global, writer: &mut Writer, params: &[CVar]) -> Result<(), Mem>
    ensures { Writes (flat_params params.now) writer.old writer.new result }
{
    let Some((first, others)) = params.split_first() else {
        return writer.token(b"void");
    };
    write_typed(alloc, writer, first)?;
    for param in others {
        writer.token(b",")?;
        write_typed(alloc, writer, param)?;
    }
    Ok(())
}

#[cycle(write_tree)]
fn write_stmt(alloc: Global, writer: &mut Writer, stmt: &CStmt) -> Result<(), Mem>
    ensures { Writes (flat_stmt stmt.now) writer.old writer.new result }
{
    match stmt {
        CStmt::Assign(place, value) => {
            write_place(writer, place)?;
            writer.token(b"=")?;
            write_expr(alloc, writer, value)?;
            writer.token(b";")
        }
        CStmt::Call(target, name, arguments) => {
            write_target(writer, target)?;
            writer.tokens(&[name.as_str().as_bytes(), b"("])?;
            write_arguments(alloc, writer, arguments.as_slice())?;
            writer.tokens(&[b")", b";"])
        }
        CStmt::If(test, chosen, other) => {
            writer.tokens(&[b"if", b"("])?;
            write_expr(alloc, writer, test)?;
            writer.token(b")")?;
            write_block(alloc, writer, chosen.as_slice())?;
            match other {
                None => Ok(()),
                Some(stmts) => {
                    writer.token(b"else")?;
                    write_block(alloc, writer, stmts.as_slice())
                }
            }
        }
        CStmt::Loop(body) => {
            writer.tokens(&[b"while", b"(", b"1", b")"])?;
            write_block(alloc, writer, body.as_slice())
        }
        CStmt::Count(set, tested, count, raised, body) => {
            write_for(alloc, writer, set, tested, *count, raised)?;
            write_block(alloc, writer, body.as_slice())
        }
        CStmt::Break => writer.tokens(&[b"break", b";"]),
        CStmt::Return(value) => {
            writer.token(b"return")?;
            write_returned(alloc, writer, value)?;
            writer.token(b";")
        }
        CStmt::Put(value) => {
            writer.tokens(&[b"sl_put", b"("])?;
            write_expr(alloc, writer, value)?;
            writer.tokens(&[b")", b";"])
        }
        CStmt::Get(place) => {
            write_place(writer, place)?;
            writer.tokens(&[b"=", b"sl_get", b"(", b")", b";"])
        }
        CStmt::Halt(kind, file, line) => write_halt(alloc, writer, *kind, *file, *line),
    }
}

#[cycle(write_tree)]
fn write_block(alloc: Global, writer: &mut Writer, stmts: &[CStmt]) -> Result<(), Mem>
    ensures { Writes (flat_block (map flat_stmt stmts.now)) writer.old writer.new result }
{
    writer.token(b"{")?;
    for stmt in stmts {
        write_stmt(alloc, writer, stmt)?;
    }
    writer.token(b"}")
}

/// A `for` up to its block.
fn write_for(
    alloc: Global,
    writer: &mut Writer,
    set: &Text,
    tested: &Text,
    count: u32,
    raised: &Text,
) -> Result<(), Mem>
    ensures { Writes (flat_for set.now tested.now count raised.now) writer.old writer.new result }
{
    let count = format!(in alloc; "{count}")?;
    writer.tokens(&[b"for", b"(", set.as_str().as_bytes(), b"="])?;
    writer.tokens(&[b"INT64_C", b"(", b"0", b")", b";"])?;
    writer.tokens(&[tested.as_str().as_bytes(), b"<"])?;
    writer.tokens(&[count.as_bytes(), b";"])?;
    writer.tokens(&[raised.as_str().as_bytes(), b"++", b")"])
}

/// Where the result of a call goes.
fn write_target(writer: &mut Writer, target: &Option<CPlace>) -> Result<(), Mem>
    ensures { Writes (flat_target target.now) writer.old writer.new result }
{
    match target {
        None => Ok(()),
        Some(place) => {
            write_place(writer, place)?;
            writer.token(b"=")
        }
    }
}

/// The arguments of a call.
fn write_arguments(alloc: Global, writer: &mut Writer, arguments: &[CArg]) -> Result<(), Mem>
    ensures { Writes (flat_arguments arguments.now) writer.old writer.new result }
{
    let Some((first, others)) = arguments.split_first() else {
        return Ok(());
    };
    write_argument(alloc, writer, first)?;
    for argument in others {
        writer.token(b",")?;
        write_argument(alloc, writer, argument)?;
    }
    Ok(())
}

fn write_argument(alloc: Global, writer: &mut Writer, argument: &CArg) -> Result<(), Mem>
    ensures { Writes (flat_argument argument.now) writer.old writer.new result }
{
    match argument {
        CArg::Value(value) => write_expr(alloc, writer, value),
    }
}

/// What is returned.
fn write_returned(alloc: Global, writer: &mut Writer, value: &Option<CExpr>) -> Result<(), Mem>
    ensures { Writes (flat_returned value.now) writer.old writer.new result }
{
    match value {
        None => Ok(()),
        Some(value) => write_expr(alloc, writer, value),
    }
}

fn write_halt(alloc: Global, writer: &mut Writer, kind: u8, file: u32, line: u32) -> Result<(), Mem>
    ensures { Writes (flat_stmt (Halt kind file line)) writer.old writer.new result }
{
    let kind = format!(in alloc; "{kind}")?;
    let file = format!(in alloc; "{file}")?;
    let line = format!(in alloc; "{line}")?;
    writer.tokens(&[
        b"sl_halt",
        b"(",
        kind.as_bytes(),
        b",",
        file.as_bytes(),
        b",",
        line.as_bytes(),
        b")",
        b";",
    ])
}

fn write_place(writer: &mut Writer, place: &CPlace) -> Result<(), Mem>
    ensures { Writes (flat_place place.now) writer.old writer.new result }
{
    match place {
        CPlace::Name(name) => writer.token(name.as_str().as_bytes()),
    }
}

fn write_expr(alloc: Global, writer: &mut Writer, expr: &CExpr) -> Result<(), Mem>
    ensures { Writes (flat_expr expr.now) writer.old writer.new result }
{
    match expr {
        CExpr::Const(signed, number) => {
            let digits = format!(in alloc; "{number}")?;
            writer.tokens(&[const_word(*signed), b"(", digits.as_bytes(), b")"])
        }
        CExpr::Read(place) => write_place(writer, place),
        CExpr::Binary(operator, left, right) => {
            writer.token(b"(")?;
            write_expr(alloc, writer, left.get())?;
            writer.token(operator_mark(*operator))?;
            write_expr(alloc, writer, right.get())?;
            writer.token(b")")
        }
        CExpr::Compare(comparison, left, right) => {
            writer.tokens(&[b"(", b"int64_t", b")", b"("])?;
            write_expr(alloc, writer, left.get())?;
            writer.token(comparison_mark(*comparison))?;
            write_expr(alloc, writer, right.get())?;
            writer.token(b")")
        }
        CExpr::Negate(operand) => {
            writer.tokens(&[b"(", b"-"])?;
            write_expr(alloc, writer, operand.get())?;
            writer.token(b")")
        }
    }
}

/// The word before a constant.
fn const_word(signed: bool) -> &'static [u8]
    ensures { result.now ≡ const_word signed }
{
    if signed { b"INT64_C" } else { b"UINT64_C" }
}

fn operator_mark(operator: CBinary) -> &'static [u8]
    ensures { result.now ≡ operator_mark operator }
{
    match operator {
        CBinary::Add => b"+",
        CBinary::Sub => b"-",
        CBinary::Mul => b"*",
        CBinary::Div => b"/",
        CBinary::Rem => b"%",
    }
}

fn comparison_mark(comparison: Comparison) -> &'static [u8]
    ensures { result.now ≡ comparison_mark comparison }
{
    match comparison {
        Comparison::Less => b"<",
        Comparison::LessEqual => b"<=",
        Comparison::Greater => b">",
        Comparison::GreaterEqual => b">=",
        Comparison::Equal => b"==",
        Comparison::NotEqual => b"!=",
    }
}
