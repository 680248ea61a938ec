// What names mean in a function.
ghost use Rattle.std.specs.Prelude.{◌≡◌, ℕ, ◌+◌, List, ◌++◌, length, IfOk, OnOk, Some, None};
ghost use Rattle.c_machine.specs.Naming.{callee_named, name_of, place_named};

use crate::program::{Function, Slot};
use c_rules::Names;
use c_tree::{CPlace, CType, CVar};
use sl_text::{Mem, Text};
use std::alloc::Global;

/// A variable: its number among those of its list, and whether its numbers have a sign.
#[derive(Clone, Copy, Debug, PartialEq, Eq)]
pub struct Variable {
    pub number: u32,
    pub signed: bool,
}

/// A variable: where it stands, and whether its numbers have a sign.
#[derive(Clone, Copy, Debug, PartialEq, Eq)]
pub struct Place {
    pub slot: Slot,
    pub signed: bool,
}

/// What names mean in a function: its parameters and variables, the globals, the functions that it can call by their numbers, and
/// the inline ones that it can call.
#[derive(Drop)]
pub struct Around<'a> {
    pub locals: Names<Variable>,
    pub globals: &'a Names<Variable>,
    pub numbers: &'a Names<u32>,
    pub inlines: &'a Names<Function>,
}

/// What a call leads to: a function with a number, an inline one, or none.
#[derive(Drop)]
pub enum Callee {
    Numbered(u32),
    Inline(Function),
    Unknown,
}

impl Around<'_> {
    /// The variable of a place.
    pub fn place(&self, place: &CPlace) -> Place
        ensures { result ≡ place_named self.now (name_of place.now) }
    {
        let CPlace::Name(name) = place;
        self.place_named(name)
    }

    /// The variable that a name means.
    pub fn place_named(&self, name: &Text) -> Place
        ensures { result ≡ place_named self.now name.now }
    {
        if let Some(local) = self.locals.get(name.as_str()) {
            return Place {
                slot: Slot::Local(local.number),
                signed: local.signed,
            };
        }
        if let Some(global) = self.globals.get(name.as_str()) {
            return Place {
                slot: Slot::Global(global.number),
                signed: global.signed,
            };
        }
        Place {
            slot: Slot::Undeclared,
            signed: true,
        }
    }

    /// The function that a call of a name leads to.
    pub fn callee_named(&self, name: &Text) -> Result<Callee, Mem>
        ensures { IfOk result (λ callee. callee ≡ callee_named self.now name.now) }
    {
        if let Some(number) = self.numbers.get(name.as_str()) {
            return Ok(Callee::Numbered(*number));
        }
        match self.inlines.get(name.as_str()) {
            Some(function) => Ok(Callee::Inline(shared(function)?)),
            None => Ok(Callee::Unknown),
        }
    }
}

/// One more owner of the statements of a function.
pub fn shared(function: &Function) -> Result<Function, Mem>
    ensures { IfOk result (λ other. other ≡ function.now) }
{
    Ok(Function {
        vars: function.vars,
        gives: function.gives,
        body: function.body.share()?,
    })
}
