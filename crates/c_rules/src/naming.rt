// Items by their names.
ghost use Rattle.std.specs.Prelude.{◌≡◌, ℕ, List, Some, None, OnOk, if◌then◌else◌};
ghost use Rattle.std.specs.Option.{is_some, option_copied};
ghost use Rattle.std.specs.Str.{bytes_eq};
ghost use Rattle.c_rules.specs.Naming.{item_named};

use sl_text::Mem;
use std::alloc::Global;
use std::collections::BTreeMap;

/// Items by their names.
#[derive(Drop)]
pub struct Names<T> {
    items: BTreeMap<String, T>,
}

impl<T: Drop> Names<T> {
    pub fn new(alloc: Global) -> Names<T>
        ensures { (name : List ℕ) → item_named result name ≡ None }
    {
        Names {
            items: BTreeMap::new(alloc),
        }
    }

    /// The item with this name.
    pub fn get(&self, name: &str) -> Option<&T>
        ensures { option_copied result ≡ item_named self.now name.now }
    {
        self.items.get(name)
    }

    /// Whether there is an item with this name.
    pub fn has(&self, name: &str) -> bool
        ensures { result ≡ is_some (item_named self.now name.now) }
    {
        self.items.contains_key(name)
    }

    /// Gives a name to an item, and takes it from another that has it.
    pub fn set(&mut self, alloc: Global, name: &str, item: T) -> Result<(), Mem>
        ensures { OnOk result ((other : List ℕ) → item_named self.new other ≡ (if bytes_eq name.now other then Some item else item_named self.old other)) }
    {
        let key = name.to_string(alloc)?;
        self.items.insert(key, item)?;
        Ok(())
    }

    /// Takes out the item with this name.
    pub fn take(&mut self, name: &str) -> Option<T>
        ensures item { result ≡ item_named self.old name.now }
        ensures others { (other : List ℕ) → item_named self.new other ≡ (if bytes_eq name.now other then None else item_named self.old other) }
    {
        self.items.remove(name)
    }
}
