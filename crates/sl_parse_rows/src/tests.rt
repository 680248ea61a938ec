// Each table holds.
use crate::asking::{FILE, Phrase};
use crate::nested::nested_hold;
use crate::replaced::replaced_hold;
use crate::rows::{odd_holds, places_hold, tables_hold};
use crate::tables::odd::ODD;
use crate::tables::{blocks, expressions, patterns, types};
use std::test::Fail;

#[test]
fn types_are_read(rt: HostRuntime) -> Result<(), Fail> {
    let tables: [(&[u8], usize); 9] = [
        (types::forms::NAMES, 36),
        (types::forms::ARGUMENTS, 143),
        (types::forms::BLANKS, 49),
        (types::forms::FOLLOWED, 230),
        (types::broken::BROKEN, 299),
        (types::broken::FIRST, 52),
        (types::broken::FRONTS, 889),
        (types::deep::TIGHT, 247),
        (types::deep::SHUT, 220),
    ];
    tables_hold(rt.alloc(), Phrase::Type, &tables)
}

#[test]
fn types_nest(rt: HostRuntime) -> Result<(), Fail> {
    let tables: [&[u8]; 2] = [types::deep::NESTED, types::deep::OPENED];
    for table in tables {
        nested_hold(rt.alloc(), Phrase::Type, table)?;
    }
    Ok(())
}

#[test]
fn types_are_long(rt: HostRuntime) -> Result<(), Fail> {
    nested_hold(rt.alloc(), Phrase::Type, types::deep::LONG)
}

#[test]
fn types_begin_anywhere(rt: HostRuntime) -> Result<(), Fail> {
    places_hold(rt.alloc(), Phrase::Type, types::places::FROM)
}

#[test]
fn types_have_tokens_replaced(rt: HostRuntime) -> Result<(), Fail> {
    replaced_hold(rt.alloc(), Phrase::Type, types::replaced::REPLACED)
}

#[test]
fn patterns_are_read(rt: HostRuntime) -> Result<(), Fail> {
    let tables: [(&[u8], usize); 6] = [
        (patterns::forms::WHOLE, 704),
        (patterns::forms::GUARDED, 380),
        (patterns::broken::WRONG, 914),
        (patterns::broken::CUT, 495),
        (patterns::broken::MISSING, 1155),
        (patterns::deep::TIGHT, 688),
    ];
    tables_hold(rt.alloc(), Phrase::Expr, &tables)
}

#[test]
fn patterns_nest(rt: HostRuntime) -> Result<(), Fail> {
    nested_hold(rt.alloc(), Phrase::Expr, patterns::deep::NESTED)
}

#[test]
fn patterns_are_long(rt: HostRuntime) -> Result<(), Fail> {
    nested_hold(rt.alloc(), Phrase::Expr, patterns::deep::LONG)
}

#[test]
fn expressions_are_read(rt: HostRuntime) -> Result<(), Fail> {
    let tables: [(&[u8], usize); 20] = [
        (expressions::forms::ATOMS, 73),
        (expressions::forms::SUFFIXES, 453),
        (expressions::forms::UPDATES, 324),
        (expressions::forms::PREFIXED, 208),
        (expressions::forms::IFS, 339),
        (expressions::matches::MATCHES, 611),
        (expressions::matches::GUARDS, 279),
        (expressions::operators::PAIRS, 2000),
        (expressions::precedence::MIXED, 1099),
        (expressions::precedence::NO_OPERATORS, 232),
        (expressions::followed::FOLLOWED, 342),
        (expressions::broken::WRONG, 1409),
        (expressions::missing::CUT, 675),
        (expressions::missing::MISSING, 1485),
        (expressions::deciding::ARGUMENTS, 318),
        (expressions::deciding::MINUS, 208),
        (expressions::deciding::BEHIND, 315),
        (expressions::deciding::LOOKING, 180),
        (expressions::deep::TIGHT, 2154),
        (expressions::fronts::FRONTS, 2168),
    ];
    tables_hold(rt.alloc(), Phrase::Expr, &tables)
}

#[test]
fn expressions_nest(rt: HostRuntime) -> Result<(), Fail> {
    let tables: [&[u8]; 3] = [
        expressions::nested::NESTED,
        expressions::nested_open::OPEN,
        expressions::nested_open::OPEN_CALLS,
    ];
    for table in tables {
        nested_hold(rt.alloc(), Phrase::Expr, table)?;
    }
    Ok(())
}

#[test]
fn expressions_are_long(rt: HostRuntime) -> Result<(), Fail> {
    nested_hold(rt.alloc(), Phrase::Expr, expressions::nested_open::LONG)
}

#[test]
fn expressions_begin_anywhere(rt: HostRuntime) -> Result<(), Fail> {
    places_hold(rt.alloc(), Phrase::Expr, expressions::places::FROM)
}

#[test]
fn expressions_have_tokens_replaced(rt: HostRuntime) -> Result<(), Fail> {
    let tables: [&[u8]; 3] = [
        expressions::replaced_operators::REPLACED,
        expressions::replaced_matches::REPLACED,
        expressions::replaced_tight::REPLACED,
    ];
    for table in tables {
        replaced_hold(rt.alloc(), Phrase::Expr, table)?;
    }
    Ok(())
}

#[test]
fn blocks_are_read(rt: HostRuntime) -> Result<(), Fail> {
    let tables: [(&[u8], usize); 19] = [
        (blocks::forms::CALLS, 164),
        (blocks::forms::DECLARED, 299),
        (blocks::forms::ASSIGNED, 478),
        (blocks::forms::IFS, 496),
        (blocks::forms::LOOPS, 502),
        (blocks::forms::RETURNS, 148),
        (blocks::forms::MATCHES, 381),
        (blocks::skips::SKIPPED, 424),
        (blocks::skips::BROKEN, 352),
        (blocks::broken::WRONG, 2097),
        (blocks::broken::FOLLOWED, 91),
        (blocks::missing::CUT, 889),
        (blocks::missing::MISSING, 2025),
        (blocks::deciding::IFS, 472),
        (blocks::deciding::SKIPS, 387),
        (blocks::deciding::MATCHES, 404),
        (blocks::deciding::WORDS, 317),
        (blocks::deep::TIGHT, 2690),
        (blocks::fronts::FRONTS, 1680),
    ];
    tables_hold(rt.alloc(), Phrase::Block, &tables)
}

#[test]
fn blocks_nest(rt: HostRuntime) -> Result<(), Fail> {
    let tables: [&[u8]; 3] = [
        blocks::nested::NESTED,
        blocks::nested_open::OPEN,
        blocks::nested_open::ELSE,
    ];
    for table in tables {
        nested_hold(rt.alloc(), Phrase::Block, table)?;
    }
    Ok(())
}

#[test]
fn blocks_are_long(rt: HostRuntime) -> Result<(), Fail> {
    nested_hold(rt.alloc(), Phrase::Block, blocks::nested_open::LONG)
}

#[test]
fn blocks_begin_anywhere(rt: HostRuntime) -> Result<(), Fail> {
    places_hold(rt.alloc(), Phrase::Block, blocks::places::FROM)
}

#[test]
fn blocks_have_tokens_replaced(rt: HostRuntime) -> Result<(), Fail> {
    let tables: [&[u8]; 3] = [
        blocks::replaced_declarations::REPLACED,
        blocks::replaced_skips::REPLACED,
        blocks::replaced_tight::REPLACED,
    ];
    for table in tables {
        replaced_hold(rt.alloc(), Phrase::Block, table)?;
    }
    Ok(())
}

#[test]
fn odd_texts_are_read(rt: HostRuntime) -> Result<(), Fail> {
    for row in ODD {
        odd_holds(rt.alloc(), FILE, row)?;
    }
    Ok(())
}
