// The text of C trees that have a form of everything, as it comes out.
use c_tree::{CArg, CBinary, CExpr, CFile, CFun, CMember, CPlace, CStmt, CStruct, CType, CVar};
use c_write::write;
use sl_num::Comparison;
use sl_text::{Boxed, Row, Text};
use std::alloc::Global;
use std::test::Fail;

const I64: CType = CType::Int(true, 64);

const U8: CType = CType::Int(false, 8);

/// The first lines of each text.
const PRELUDE: &[u8] = b"\
#include <stdint.h>\n\
#include <stdio.h>\n\
#include <stdlib.h>\n\
static inline void sl_put(int64_t b) { putchar((int)b); }\n\
static inline int64_t sl_get(void) { int c = getchar(); return c == EOF ? -1 : c; }\n\
static inline void sl_halt(int64_t k, int64_t f, int64_t n) { fflush(stdout); fprintf(stderr, \"halt %d %d:%d\\n\", (int)k, (int)f, (int)n); exit(66); }\n";

/// The last line.
const POSTLUDE: &[u8] = b"int main(void) { return (int)sl_main(); }\n";

/// What stands between them in the text of `straight_of`.
const MIDDLE: &[u8] = b"struct state {
    int64_t count;
    uint8_t bytes[16];
    union {
        int64_t number;
        uint8_t byte;
    }
    value;
};
static uint64_t total;
static inline void greet(uint8_t first, int64_t second);
static int64_t sl_main(void);
static inline void greet(uint8_t first, int64_t second) {
    int64_t one;
    uint8_t two;
    sl_put(INT64_C(104));
    sl_put(UINT64_C(10));
    return;
}

static int64_t sl_main(void) {
    greet();
    return INT64_C(0);
}
";

/// The same of `branching_of`.
const BRANCHING: &[u8] = b"static int64_t sl_main(void) {
    x = INT64_C(7);
    y = sum(x, (-INT64_C(3)));
    if ((int64_t)((x * y) <= (-y))) {
        if (x) {
            show((x % y));
        } else {
            sl_put(((x - y) / x));
        }
        y = (x + UINT64_C(1));
    } else {
        while (1) {
            for (x = INT64_C(0); x < 20; x++) {
                y = sl_get();
            }
            break;
        }
        if ((int64_t)(x == y)) {
        }
        sl_halt(1, 2, 34);
    }
    return (-(-x));
}
";

/// A row of one item, and of two.
fn one<T: Drop>(alloc: Global, item: T) -> Result<Row<T>, Fail> {
    let mut row = Row::new(alloc);
    row.push(item)?;
    Ok(row)
}

fn two<T: Drop>(alloc: Global, first: T, second: T) -> Result<Row<T>, Fail> {
    let mut row = Row::new(alloc);
    row.push(first)?;
    row.push(second)?;
    Ok(row)
}

fn var_of(alloc: Global, kind: CType, name: &str) -> Result<CVar, Fail> {
    Ok(CVar {
        name: Text::from_str(alloc, name)?,
        kind,
    })
}

/// A member of one kind.
fn member_of(alloc: Global, kind: CType, name: &str, count: Option<u32>) -> Result<CMember, Fail> {
    Ok(CMember {
        name: Text::from_str(alloc, name)?,
        kind,
        count,
        choice: Row::new(alloc),
    })
}

/// A member that is one of two.
fn union_of(alloc: Global) -> Result<CMember, Fail> {
    let choice = two(
        alloc,
        var_of(alloc, I64, "number")?,
        var_of(alloc, U8, "byte")?,
    )?;
    Ok(CMember {
        name: Text::from_str(alloc, "value")?,
        kind: CType::Void,
        count: None,
        choice,
    })
}

/// A struct with a member, an array and a union.
fn struct_of(alloc: Global) -> Result<CStruct, Fail> {
    let mut members = two(
        alloc,
        member_of(alloc, I64, "count", None)?,
        member_of(alloc, U8, "bytes", Some(16))?,
    )?;
    members.push(union_of(alloc)?)?;
    Ok(CStruct {
        name: Text::from_str(alloc, "state")?,
        members,
    })
}

/// An inline function with parameters, with these variables and statements.
fn greet_of(alloc: Global, vars: Row<CVar>, body: Row<CStmt>) -> Result<CFun, Fail> {
    let params = two(
        alloc,
        var_of(alloc, U8, "first")?,
        var_of(alloc, I64, "second")?,
    )?;
    Ok(CFun {
        name: Text::from_str(alloc, "greet")?,
        inline: true,
        result: CType::Void,
        params,
        vars,
        body,
        line: 0,
    })
}

/// A function without parameters and variables, with these statements.
fn main_of(alloc: Global, body: Row<CStmt>) -> Result<CFun, Fail> {
    Ok(CFun {
        name: Text::from_str(alloc, "sl_main")?,
        inline: false,
        result: I64,
        params: Row::new(alloc),
        vars: Row::new(alloc),
        body,
        line: 0,
    })
}

/// The prototypes of two functions.
fn protos_of(alloc: Global) -> Result<Row<CFun>, Fail> {
    let greet = greet_of(alloc, Row::new(alloc), Row::new(alloc))?;
    two(alloc, greet, main_of(alloc, Row::new(alloc))?)
}

/// The function that greets.
fn greeting_of(alloc: Global) -> Result<CFun, Fail> {
    let vars = two(alloc, var_of(alloc, I64, "one")?, var_of(alloc, U8, "two")?)?;
    let mut body = two(
        alloc,
        CStmt::Put(CExpr::Const(true, 104)),
        CStmt::Put(CExpr::Const(false, 10)),
    )?;
    body.push(CStmt::Return(None))?;
    greet_of(alloc, vars, body)
}

/// The function that calls it.
fn caller_of(alloc: Global) -> Result<CFun, Fail> {
    let call = CStmt::Call(None, Text::from_str(alloc, "greet")?, Row::new(alloc));
    let body = two(alloc, call, CStmt::Return(Some(CExpr::Const(true, 0))))?;
    main_of(alloc, body)
}

/// A file of straight functions.
fn straight_of(alloc: Global) -> Result<CFile, Fail> {
    let structs = one(alloc, struct_of(alloc)?)?;
    let globals = one(alloc, var_of(alloc, CType::Int(false, 64), "total")?)?;
    let protos = protos_of(alloc)?;
    let functions = two(alloc, greeting_of(alloc)?, caller_of(alloc)?)?;
    Ok(CFile {
        structs,
        globals,
        protos,
        functions,
    })
}

fn place(alloc: Global, name: &str) -> Result<CPlace, Fail> {
    Ok(CPlace::Name(Text::from_str(alloc, name)?))
}

fn read(alloc: Global, name: &str) -> Result<CExpr, Fail> {
    Ok(CExpr::Read(place(alloc, name)?))
}

fn binary(alloc: Global, left: CExpr, operator: CBinary, right: CExpr) -> Result<CExpr, Fail> {
    let left = Boxed::new(alloc, left)?;
    Ok(CExpr::Binary(operator, left, Boxed::new(alloc, right)?))
}

/// `(x OPERATOR y)`
fn pair(alloc: Global, operator: CBinary) -> Result<CExpr, Fail> {
    let left = read(alloc, "x")?;
    binary(alloc, left, operator, read(alloc, "y")?)
}

fn compare(alloc: Global, left: CExpr, by: Comparison, right: CExpr) -> Result<CExpr, Fail> {
    let left = Boxed::new(alloc, left)?;
    Ok(CExpr::Compare(by, left, Boxed::new(alloc, right)?))
}

fn negate(alloc: Global, operand: CExpr) -> Result<CExpr, Fail> {
    Ok(CExpr::Negate(Boxed::new(alloc, operand)?))
}

fn assign(alloc: Global, name: &str, value: CExpr) -> Result<CStmt, Fail> {
    Ok(CStmt::Assign(place(alloc, name)?, value))
}

/// `y = sum(x, (-INT64_C(3)));`
fn sum_of(alloc: Global) -> Result<CStmt, Fail> {
    let negative = negate(alloc, CExpr::Const(true, 3))?;
    let arguments = two(alloc, CArg::Value(read(alloc, "x")?), CArg::Value(negative))?;
    let target = place(alloc, "y")?;
    Ok(CStmt::Call(Some(target), Text::from_str(alloc, "sum")?, arguments))
}

/// `show((x % y));`
fn show_of(alloc: Global) -> Result<CStmt, Fail> {
    let arguments = one(alloc, CArg::Value(pair(alloc, CBinary::Rem)?))?;
    Ok(CStmt::Call(None, Text::from_str(alloc, "show")?, arguments))
}

/// An `if` with two blocks of one statement.
fn inner_of(alloc: Global) -> Result<CStmt, Fail> {
    let chosen = one(alloc, show_of(alloc)?)?;
    let quotient = binary(
        alloc,
        pair(alloc, CBinary::Sub)?,
        CBinary::Div,
        read(alloc, "x")?,
    )?;
    let other = one(alloc, CStmt::Put(quotient))?;
    Ok(CStmt::If(read(alloc, "x")?, chosen, Some(other)))
}

/// `y = (x + UINT64_C(1));`
fn more_of(alloc: Global) -> Result<CStmt, Fail> {
    let left = read(alloc, "x")?;
    let more = binary(alloc, left, CBinary::Add, CExpr::Const(false, 1))?;
    assign(alloc, "y", more)
}

/// Both.
fn chosen_of(alloc: Global) -> Result<Row<CStmt>, Fail> {
    let inner = inner_of(alloc)?;
    two(alloc, inner, more_of(alloc)?)
}

/// A loop that goes round once, with a counted loop in it.
fn loop_of(alloc: Global) -> Result<CStmt, Fail> {
    let rounds = one(alloc, CStmt::Get(place(alloc, "y")?))?;
    let set = Text::from_str(alloc, "x")?;
    let tested = Text::from_str(alloc, "x")?;
    let raised = Text::from_str(alloc, "x")?;
    let counted = CStmt::Count(set, tested, 20, raised, rounds);
    Ok(CStmt::Loop(two(alloc, counted, CStmt::Break)?))
}

/// A loop, an `if` with an empty block, and a halt.
fn other_of(alloc: Global) -> Result<Row<CStmt>, Fail> {
    let left = read(alloc, "x")?;
    let same = compare(alloc, left, Comparison::Equal, read(alloc, "y")?)?;
    let empty = CStmt::If(same, Row::new(alloc), None);
    let mut stmts = two(alloc, loop_of(alloc)?, empty)?;
    stmts.push(CStmt::Halt(1, 2, 34))?;
    Ok(stmts)
}

/// `(int64_t)((x * y) <= (-y))`
fn test_of(alloc: Global) -> Result<CExpr, Fail> {
    let product = pair(alloc, CBinary::Mul)?;
    let negative = negate(alloc, read(alloc, "y")?)?;
    compare(alloc, product, Comparison::LessEqual, negative)
}

/// An `if` with these blocks.
fn outer_of(alloc: Global) -> Result<CStmt, Fail> {
    let test = test_of(alloc)?;
    let chosen = chosen_of(alloc)?;
    Ok(CStmt::If(test, chosen, Some(other_of(alloc)?)))
}

/// `return (-(-x));`
fn return_of(alloc: Global) -> Result<CStmt, Fail> {
    let negative = negate(alloc, read(alloc, "x")?)?;
    Ok(CStmt::Return(Some(negate(alloc, negative)?)))
}

/// Statements that nest.
fn body_of(alloc: Global) -> Result<Row<CStmt>, Fail> {
    let first = assign(alloc, "x", CExpr::Const(true, 7))?;
    let mut body = two(alloc, first, sum_of(alloc)?)?;
    body.push(outer_of(alloc)?)?;
    body.push(return_of(alloc)?)?;
    Ok(body)
}

/// A file with a function of these.
fn branching_of(alloc: Global) -> Result<CFile, Fail> {
    let body = body_of(alloc)?;
    Ok(CFile {
        structs: Row::new(alloc),
        globals: Row::new(alloc),
        protos: Row::new(alloc),
        functions: one(alloc, main_of(alloc, body)?)?,
    })
}

/// Whether the text of a tree is this between the first lines and the last line.
fn is_written(alloc: Global, file: &CFile, middle: &[u8]) -> Result<bool, Fail> {
    let text = write(alloc, file)?;
    let mut whole = Row::from_slice(alloc, PRELUDE)?;
    for byte in middle {
        whole.push(*byte)?;
    }
    for byte in POSTLUDE {
        whole.push(*byte)?;
    }
    Ok(text.as_slice() == whole.as_slice())
}

#[test]
fn writes_straight_functions(rt: HostRuntime) -> Result<(), Fail> {
    let alloc = rt.alloc();
    let file = straight_of(alloc)?;
    assert!(rt; is_written(alloc, &file, MIDDLE)?);
    Ok(())
}

#[test]
fn writes_nested_statements(rt: HostRuntime) -> Result<(), Fail> {
    let alloc = rt.alloc();
    let file = branching_of(alloc)?;
    assert!(rt; is_written(alloc, &file, BRANCHING)?);
    Ok(())
}
