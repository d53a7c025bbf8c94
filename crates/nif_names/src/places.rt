//! Names in the order in which they were put there, found by the order of their bytes.
ghost use Rattle.std.specs.Prelude.{◌≡◌, ◌<◌, [], ◌∷◌, ◌++◌, length, bytes_eq, position, None, OnOk, OnErr, IfSome};

use nif_base::NoMemory;
use std::alloc::Global;
use std::collections::BTreeMap;
use std::marker::Model;

/// Different names, each with its place, counted from 0. They are found in logarithmic time, whatever they are.
#[derive(Drop)]
pub(crate) struct Places {
    alloc: Global,
    names: Vec<Vec<u8>>,
    places: BTreeMap<Vec<u8>, usize>,
}

impl Model for Places {
    ghost use Rattle.std.specs.Prelude.{ℕ, List, map};
    ghost use Rattle.nif_names.specs.Kept.{ArePlaced};

    ghost Value = { List (List ℕ) };

    ghost view = { λ a. map (λ n. n.items) a.names.items };

    ghost invariant = { λ a. ArePlaced (map (λ n. n.items) a.names.items) a.places };
}

impl Places {
    /// No names. It takes no memory.
    pub(crate) fn new(alloc: Global) -> Places
        ensures { result ≡ [] }
    {
        Places {
            alloc,
            names: Vec::new(alloc),
            places: BTreeMap::new(alloc),
        }
    }

    /// The place of a name, if it is there.
    pub(crate) fn find(&self, name: &[u8]) -> Option<usize>
        ensures value { result ≡ position (bytes_eq name.now) self.now }
        ensures within { IfSome result (λ place. place < length self.now) }
    {
        self.places.get(name).copied()
    }

    /// Puts a name that isn't there behind the others; after want of memory they are as before.
    pub(crate) fn push(&mut self, name: &[u8]) -> Result<(), NoMemory>
        requires { position (bytes_eq name.now) self.old ≡ None }
        ensures ok { OnOk result (self.new ≡ self.old ++ name.now ∷ []) }
        ensures err { OnErr result (self.new ≡ self.old) }
    {
        let Ok(own) = Vec::from_slice(self.alloc, name) else {
            return Err(NoMemory);
        };
        let Ok(same) = Vec::from_slice(self.alloc, name) else {
            return Err(NoMemory);
        };
        if self.names.reserve(1).is_err() {
            return Err(NoMemory);
        }
        match self.places.insert(own, self.names.len()) {
            Ok(_) => {
                self.names.push_reserved(same);
                Ok(())
            }
            Err(_) => Err(NoMemory),
        }
    }
}
