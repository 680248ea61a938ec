// The names that can be used somewhere.
ghost use Rattle.std.specs.Prelude.{◌≡◌, ◌∷◌, [], ◌≤◌, length, OnOk, drop, ◌-◌};
ghost use Rattle.sl_plain.specs.Program.{Declared, declaration, kind_of_atom, has_kind, are_numbers, right_fits, condition_fits, assigned_fits, same_kind};
ghost use Rattle.sl_plain.specs.Checking.{entries_of, variable_of, IsIndexed};

use crate::program::{Atom, Condition, Kind, Right};
use sl_text::Mem;
use std::alloc::Global;
use std::collections::BTreeMap;

/// What a name is declared as: whether it is a `var`, and its type.
#[derive(Clone, Copy)]
pub struct Variable {
    pub is_var: bool,
    pub kind: Kind,
}

/// A declaration, and the one of the same name that it hides.
#[derive(Clone, Copy)]
pub struct Entry<'a> {
    pub name: &'a [u8],
    pub variable: Variable,
    pub hidden: Option<Variable>,
}

/// The names that can be used: their declarations, the last one last, and by the names.
#[derive(Drop)]
pub struct Scope<'a> {
    pub entries: Vec<Entry<'a>>,
    pub known: BTreeMap<&'a [u8], Variable>,
}

impl<'a> Scope<'a> {
    pub fn new(alloc: Global) -> Scope<'a>
        ensures none { entries_of result ≡ [] }
        ensures indexed { IsIndexed result }
    {
        Scope {
            entries: Vec::new(alloc),
            known: BTreeMap::new(alloc),
        }
    }

    /// How many names there are.
    pub fn len(&self) -> usize
        ensures { result ≡ length (entries_of self.now) }
    {
        self.entries.len()
    }

    /// One more name.
    pub fn declare(&mut self, name: &'a [u8], variable: Variable) -> Result<(), Mem>
        requires { IsIndexed self.old }
        ensures more { OnOk result (entries_of self.new ≡ record { name = name.now; is_var = variable.is_var; type = variable.kind } ∷ entries_of self.old) }
        ensures indexed { OnOk result (IsIndexed self.new) }
    {
        let hidden = self.known.insert(name, variable)?;
        self.entries.push(Entry {
            name,
            variable,
            hidden,
        })?;
        Ok(())
    }

    /// The block ends, before which there were so many names.
    pub fn leave(&mut self, len: usize) -> Result<(), Mem>
        requires within { len ≤ length (entries_of self.old) }
        requires indexed { IsIndexed self.old }
        ensures rest { OnOk result (entries_of self.new ≡ drop (length (entries_of self.old) - len) (entries_of self.old)) }
        ensures indexed { OnOk result (IsIndexed self.new) }
    {
        while self.entries.len() > len {
            self.leave_last()?;
        }
        Ok(())
    }

    /// The last name can't be used any more, and one that it hides can be again.
    fn leave_last(&mut self) -> Result<(), Mem>
        requires { IsIndexed self.old }
        ensures rest { OnOk result (entries_of self.new ≡ drop 1 (entries_of self.old)) }
        ensures indexed { OnOk result (IsIndexed self.new) }
    {
        let Some(Entry { name, hidden, .. }) = self.entries.pop() else {
            return Ok(());
        };
        match hidden {
            Some(variable) => {
                self.known.insert(name, variable)?;
            }
            None => {
                self.known.remove(name);
            }
        }
        Ok(())
    }

    /// What a name is declared as.
    fn variable(&self, name: &[u8]) -> Option<Variable>
        requires { IsIndexed self.now }
        ensures { result ≡ variable_of (declaration (entries_of self.now) name.now) }
    {
        self.known.get(name).copied()
    }

    /// The type of an atom, where its name is declared.
    #[tactic(auto, using(crate::proofs::Checked::Entries::variable_rules))]
    pub fn kind_of(&self, atom: &Atom) -> Option<Kind>
        requires { IsIndexed self.now }
        ensures { result ≡ kind_of_atom (entries_of self.now) atom.now }
    {
        match atom {
            Atom::Name(name) => {
                let variable = self.variable(name.as_slice())?;
                Some(variable.kind)
            }
            Atom::Number(_) => Some(Kind::Number),
            Atom::Truth(_) => Some(Kind::Truth),
        }
    }

    /// Whether an atom has this type.
    pub fn has_kind(&self, kind: Kind, atom: &Atom) -> bool
        requires { IsIndexed self.now }
        ensures { result ≡ has_kind kind (kind_of_atom (entries_of self.now) atom.now) }
    {
        match self.kind_of(atom) {
            None => false,
            Some(other) => same_kind(kind, other),
        }
    }

    /// Whether both are numbers.
    pub fn are_numbers(&self, left: &Atom, right: &Atom) -> bool
        requires { IsIndexed self.now }
        ensures { result ≡ are_numbers (entries_of self.now) left.now right.now }
    {
        self.has_kind(Kind::Number, left) && self.has_kind(Kind::Number, right)
    }

    /// Whether a right side has this type.
    pub fn right_fits(&self, kind: Kind, right: &Right) -> bool
        requires { IsIndexed self.now }
        ensures { result ≡ right_fits (entries_of self.now) kind right.now }
    {
        match right {
            Right::Just(atom) => self.has_kind(kind, atom),
            Right::Compare(_, a, b) => same_kind(kind, Kind::Truth) && self.are_numbers(a, b),
            Right::Apply(_, a, b, _) => same_kind(kind, Kind::Number) && self.are_numbers(a, b),
            Right::Get => same_kind(kind, Kind::Number),
        }
    }

    /// Whether a condition is one.
    pub fn condition_fits(&self, test: &Condition) -> bool
        requires { IsIndexed self.now }
        ensures { result ≡ condition_fits (entries_of self.now) test.now }
    {
        match test {
            Condition::Just(atom) => self.has_kind(Kind::Truth, atom),
            Condition::Compare(_, a, b) => self.are_numbers(a, b),
        }
    }

    /// Whether a `var` of this name has the type of the right side.
    #[tactic(auto, using(crate::proofs::Checked::Entries::variable_rules))]
    pub fn assigned_fits(&self, name: &[u8], value: &Right) -> bool
        requires { IsIndexed self.now }
        ensures { result ≡ assigned_fits (entries_of self.now) (declaration (entries_of self.now) name.now) value.now }
    {
        match self.variable(name) {
            None => false,
            Some(variable) => variable.is_var && self.right_fits(variable.kind, value),
        }
    }
}

fn same_kind(a: Kind, b: Kind) -> bool
    ensures { result ≡ same_kind a b }
{
    match (a, b) {
        (Kind::Number, Kind::Number) | (Kind::Truth, Kind::Truth) => true,
        _ => false,
    }
}
