ghost use Rattle.std.specs.Prelude.{◌≡◌, ◌++◌, ◌∷◌, [], position, false, OnOk};
ghost use Rattle.std.specs.List.{list_any};
ghost use Rattle.dn_script.specs.Play.{is_named};

use dn_io::{List, OutOfMemory};
use indexmap::IndexSet;
use std::alloc::Global;
use std::marker::Model;

// The names of a script's replicas, in the order in which they came.
#[derive(Drop)]
pub struct Names {
    set: IndexSet<Vec<u8>>,
}

impl Model for Names {
    ghost use Rattle.std.specs.Prelude.{ℕ, List as Seq, map};

    ghost Value = { Seq (Seq ℕ) };

    ghost view = { λ names. map (λ name. name.items) names.set.keys };
}

impl Names {
    // No names.
    pub fn new(alloc: Global) -> Names
        ensures { result ≡ [] }
    {
        Names {
            set: IndexSet::new(alloc),
        }
    }

    // The number of a name, from 0.
    pub fn number_of(&self, name: &[u8]) -> Option<usize>
        ensures { result ≡ position (is_named name.now) self.now }
    {
        self.set.get_index_of(name)
    }

    pub fn has(&self, name: &[u8]) -> bool
        ensures { result ≡ list_any (is_named name.now) self.now }
    {
        self.set.contains(name)
    }

    // Puts a name behind the others.
    //
    // # Errors
    // `OutOfMemory`.
    pub fn push(&mut self, name: List<u8>) -> Result<(), OutOfMemory>
        requires { list_any (is_named name) self.old ≡ false }
        ensures ok { OnOk result (self.new ≡ self.old ++ name ∷ []) }
    {
        self.set.insert(name.into_vec())?;
        Ok(())
    }
}
