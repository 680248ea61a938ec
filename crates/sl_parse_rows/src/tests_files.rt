// Each table of files holds.
use crate::asking::Phrase;
use crate::nested::nested_hold;
use crate::prefixes::prefixes_hold;
use crate::replaced::replaced_hold;
use crate::rows::tables_hold;
use crate::ruled::ruled_hold;
use crate::swept::swept_hold;
use crate::tables::files;
use std::test::Fail;

#[test]
fn files_are_read(rt: HostRuntime) -> Result<(), Fail> {
    let tables: [(&[u8], usize); 16] = [
        (files::forms::PACKAGES, 242),
        (files::forms::IMPORTS, 446),
        (files::forms::NOTES, 871),
        (files::forms::ENUMS, 308),
        (files::forms::CLASSES, 963),
        (files::forms::TRAITS, 333),
        (files::forms::OBJECTS, 322),
        (files::forms::MIXED, 278),
        (files::members::METHODS, 1712),
        (files::members::GLOBALS, 540),
        (files::layout::LAYOUT, 1168),
        (files::library::BARE, 278),
        (files::library::PACKAGED, 330),
        (files::library::PACKAGE, 172),
        (files::broken::WRONG, 1471),
        (files::broken::MEMBERS, 1106),
    ];
    tables_hold(rt.alloc(), Phrase::File, &tables)
}

#[test]
fn files_have_tokens_left_out(rt: HostRuntime) -> Result<(), Fail> {
    let tables: [(&[u8], &[u8]); 10] = [
        (files::forms::PACKAGES, files::swept::PACKAGES),
        (files::forms::IMPORTS, files::swept::IMPORTS),
        (files::forms::NOTES, files::swept::NOTES),
        (files::forms::ENUMS, files::swept::ENUMS),
        (files::forms::CLASSES, files::swept::CLASSES),
        (files::forms::TRAITS, files::swept::TRAITS),
        (files::forms::OBJECTS, files::swept::OBJECTS),
        (files::forms::MIXED, files::swept::MIXED),
        (files::members::METHODS, files::swept::METHODS),
        (files::members::GLOBALS, files::swept::GLOBALS),
    ];
    swept_hold(rt.alloc(), &tables)
}

#[test]
fn files_nest(rt: HostRuntime) -> Result<(), Fail> {
    let tables: [&[u8]; 5] = [
        files::nested::BODIES,
        files::nested::VALUES,
        files::nested::TYPES,
        files::nested::ALONE,
        files::nested::OPEN,
    ];
    for table in tables {
        nested_hold(rt.alloc(), Phrase::File, table)?;
    }
    Ok(())
}

#[test]
fn files_are_long(rt: HostRuntime) -> Result<(), Fail> {
    nested_hold(rt.alloc(), Phrase::File, files::nested::LONG)
}

#[test]
fn imports_and_notes_have_tokens_replaced(rt: HostRuntime) -> Result<(), Fail> {
    for table in [files::replaced::OUTER, files::replaced::NOTES] {
        replaced_hold(rt.alloc(), Phrase::File, table)?;
    }
    Ok(())
}

#[test]
fn types_in_files_have_tokens_replaced(rt: HostRuntime) -> Result<(), Fail> {
    replaced_hold(rt.alloc(), Phrase::File, files::replaced::TYPES)
}

#[test]
fn members_have_tokens_replaced(rt: HostRuntime) -> Result<(), Fail> {
    replaced_hold(rt.alloc(), Phrase::File, files::replaced::OBJECTS)
}

#[test]
fn bodies_have_tokens_replaced(rt: HostRuntime) -> Result<(), Fail> {
    replaced_hold(rt.alloc(), Phrase::File, files::replaced::BODIES)
}

#[test]
fn fronts_of_files_are_read(rt: HostRuntime) -> Result<(), Fail> {
    prefixes_hold(rt.alloc(), files::program::PROGRAM, files::program::FRONTS)
}

#[test]
fn notes_are_ruled(rt: HostRuntime) -> Result<(), Fail> {
    let tables: [&[u8]; 7] = [
        files::notes::EACH,
        files::notes::NAMED,
        files::notes::RANGE,
        files::notes::BITS,
        files::notes::NOTHING,
        files::notes::AGAIN,
        files::notes::PLACED,
    ];
    ruled_hold(rt.alloc(), &tables)
}

#[test]
fn left_sides_are_ruled(rt: HostRuntime) -> Result<(), Fail> {
    let tables: [&[u8]; 5] = [
        files::paths::PATHS,
        files::paths::ARGUMENTS,
        files::paths::VALUES,
        files::paths::OTHERS,
        files::paths::INSIDE,
    ];
    ruled_hold(rt.alloc(), &tables)
}

#[test]
fn statements_are_ruled(rt: HostRuntime) -> Result<(), Fail> {
    let tables: [&[u8]; 4] = [
        files::statements::CALLED,
        files::statements::OTHERS,
        files::statements::MATCHED,
        files::statements::INSIDE,
    ];
    ruled_hold(rt.alloc(), &tables)
}

#[test]
fn the_first_of_several_rules_is_told(rt: HostRuntime) -> Result<(), Fail> {
    ruled_hold(
        rt.alloc(),
        &[files::several::PLACED, files::several::BEFORE],
    )
}
