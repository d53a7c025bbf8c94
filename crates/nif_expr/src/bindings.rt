//! What paths stand for.
ghost use Rattle.std.specs.Prelude.{◌≡◌, [], ◌∷◌, ◌++◌, OnOk, OnErr};
ghost use Rattle.nif_expr.specs.Value.{look, is_same};

use nif_base::NoMemory;
use nif_schema::Path;
use std::alloc::Global;
use std::marker::Model;

/// What paths stand for: pairs of a path and its value, in the order in which they were bound.
#[derive(Drop)]
pub struct Env {
    pairs: Vec<(Path, u64)>,
}

impl Model for Env {
    ghost use Rattle.std.specs.Prelude.{ℕ, List};

    ghost Value = { List (List (List ℕ) × ℕ) };

    ghost view = { λ a. a.pairs.items };
}

impl Env {
    /// No pair.
    pub fn new(alloc: Global) -> Env
        ensures { result ≡ [] }
    {
        Env {
            pairs: Vec::new(alloc),
        }
    }

    /// Binds a path to a value. Of the pairs of one path the last counts. Without memory nothing changes.
    pub fn bind(&mut self, path: Path, value: u64) -> Result<(), NoMemory>
        ensures ok { OnOk result (self.new ≡ self.old ++ (path, value) ∷ []) }
        ensures err { OnErr result (self.new ≡ self.old) }
    {
        match self.pairs.push((path, value)) {
            Ok(()) => Ok(()),
            Err(_) => Err(NoMemory),
        }
    }

    /// The value of the last pair of a path, 0 where there is none.
    pub(crate) fn look(&self, path: &Path) -> u64
        ensures { result ≡ look self.now path.now }
    {
        for (bound, value) in self.pairs.iter().rev() {
            if bound.same(path) {
                return *value;
            }
        }
        0
    }
}
