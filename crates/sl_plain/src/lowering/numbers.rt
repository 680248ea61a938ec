// The variables of `main` by their names.
ghost use Rattle.std.specs.Prelude.{◌≡◌, [], ◌∷◌, ◌++◌, List, Bool, OnOk};
ghost use Rattle.sl_plain.specs.Program.{Declared};
ghost use Rattle.sl_plain.specs.Numbering.{variable_named, AreNumbered};

use crate::program::Kind;
use sl_text::Mem;
use std::alloc::Global;
use std::collections::BTreeMap;

/// A variable: its number, and the type of its values.
#[derive(Clone, Copy, Debug, PartialEq, Eq)]
pub struct Variable {
    pub number: u32,
    pub kind: Kind,
}

/// The variables that are declared so far, by their names.
#[derive(Drop)]
pub struct Variables {
    items: BTreeMap<Vec<u8>, Variable>,
    count: u32,
}

impl Variables {
    pub fn new(alloc: Global) -> Variables
        ensures { AreNumbered [] result }
    {
        Variables {
            items: BTreeMap::new(alloc),
            count: 0,
        }
    }

    /// How many are declared.
    pub fn count(&self) -> u32
        ensures { result ≡ self.now.count }
    {
        self.count
    }

    /// The variable with this name.
    pub fn get(&self, name: &[u8]) -> Option<Variable>
        ensures { result ≡ variable_named self.now name.now }
    {
        self.items.get(name).copied()
    }

    /// One more is declared. A name stays with the first that has it.
    pub fn add(&mut self, alloc: Global, name: &[u8], kind: Kind) -> Result<(), Mem>
        ensures { OnOk result ((before : List Declared) (is_var : Bool) → AreNumbered before self.old → AreNumbered (before ++ record { name = name.now; is_var = is_var; type = kind } ∷ []) self.new) }
    {
        let number = self.count;
        let Some(count) = number.checked_add(1) else {
            return Err(Mem);
        };
        self.count = count;
        if self.get(name).is_some() {
            return Ok(());
        }
        let key = Vec::from_slice(alloc, name)?;
        self.items.insert(key, Variable { number, kind })?;
        Ok(())
    }
}
