// Types are printed.
use super::page::Page;
use sl_tree::TypeTerm;
use std::test::Fail;

/// Prints a type.
#[cycle(types)]
pub fn push_type(page: &mut Page, of: &TypeTerm) -> Result<(), Fail> {
    page.push_path(of.path.as_slice())?;
    if !of.args.is_empty() {
        page.push("[")?;
        push_types(page, of.args.as_slice())?;
        page.push("]")?;
    }
    page.push_span(of.span)
}

/// Prints types with commas between them.
#[cycle(types)]
pub fn push_types(page: &mut Page, all: &[TypeTerm]) -> Result<(), Fail> {
    let mut more = false;
    for one in all {
        if more {
            page.push(",")?;
        }
        push_type(page, one)?;
        more = true;
    }
    Ok(())
}

/// Prints a type, if there is one, behind this.
pub fn push_type_behind(page: &mut Page, before: &str, of: &Option<TypeTerm>) -> Result<(), Fail> {
    match of {
        Some(of) => {
            page.push(before)?;
            push_type(page, of)
        }
        None => Ok(()),
    }
}
