//! Schemas: declarations in order, found by their names.
ghost use Rattle.std.specs.Prelude.{◌≡◌, ℕ, ◌+◌, ◌-◌, ◌^◌, ◌<◌, ◌↔◌, [], ◌∷◌, ◌++◌, length, slice_get, Some, None, IfSome, IsSome, IfOk, OnErr, OnOk, IsTrue, MatchBool};
ghost use Rattle.nif_schema.specs.Declaration.{declaration};
ghost use Rattle.nif_schema.specs.Basic.{HasItsLeaf};
ghost use Rattle.nif_schema.specs.Schema.{find, find_block, parent, is_a, line, IsA, IsLine, Ends, IsSchema};

use crate::decls::Decl;
use crate::lines::Line;
use nif_base::{NoMemory, Word};
use std::alloc::Global;
use std::collections::BTreeMap;
use std::marker::Model;

/// A schema: at most 2^32 - 1 declarations with different names. The number of a declaration is its place,
/// counted from 0. Names are found by their order, so that no names make looking them up slow.
#[derive(Drop)]
pub struct Schema {
    alloc: Global,
    decls: Vec<Decl>,
    numbers: BTreeMap<Vec<u8>, u32>,
}

impl Model for Schema {
    ghost use Rattle.std.specs.Prelude.{List};
    ghost use Rattle.std.specs.Coded.{coded_list};
    ghost use Rattle.nif_schema.specs.Declaration.{Declaration};
    ghost use Rattle.nif_schema.specs.Codes.{coded_declaration};

    ghost Value = { List Declaration };

    ghost coded = { coded_list coded_declaration };

    ghost use Rattle.nif_schema.specs.Kept.{declarations, AreNumbered};

    ghost view = { λ s. declarations s.decls.items };

    ghost invariant = { λ s. AreNumbered s.decls.items s.numbers };
}

impl Schema {
    /// A schema of no declarations. It takes no memory.
    pub fn new(alloc: Global) -> Schema
        ensures { result ≡ [] }
    {
        Schema {
            alloc,
            decls: Vec::new(alloc),
            numbers: BTreeMap::new(alloc),
        }
    }

    /// Puts a declaration behind the others and answers true; or answers false and changes nothing where its name
    /// is there. Without memory the schema stays as it was.
    pub fn add(&mut self, decl: Decl) -> Result<bool, NoMemory>
        requires room { length self.old < 2 ^ 32 - 1 }
        requires leaf { HasItsLeaf (declaration decl) }
        ensures added { IfOk result (λ is_new. IsTrue is_new ↔ (find self.old decl.name ≡ None)) }
        ensures schema { IfOk result (λ is_new. MatchBool is_new (self.new ≡ self.old ++ declaration decl ∷ [])
            (self.new ≡ self.old)) }
        ensures err { OnErr result (self.new ≡ self.old) }
    {
        if self.find(decl.name.bytes()).is_some() {
            return Ok(false);
        }
        let Ok(name) = Vec::from_slice(self.alloc, decl.name.bytes()) else {
            return Err(NoMemory);
        };
        if self.decls.reserve(1).is_err() {
            return Err(NoMemory);
        }
        match self.numbers.insert(name, self.decls.len() as u32) {
            Ok(_) => {
                self.decls.push_reserved(decl);
                Ok(true)
            }
            Err(_) => Err(NoMemory),
        }
    }

    /// How many declarations it has.
    pub fn count(&self) -> u32
        ensures value { result ≡ length self.now }
        ensures schema { IsSchema self.now }
    {
        self.decls.len() as u32
    }

    /// The declaration of a number.
    pub fn decl(&self, number: u32) -> &Decl
        requires { number < length self.now }
        ensures { slice_get self.now number ≡ Some (declaration result.now) }
    {
        &self.decls[number as usize]
    }

    /// The number of the declaration of a name.
    pub fn find(&self, name: &[u8]) -> Option<u32>
        ensures value { result ≡ find self.now name.now }
        ensures within { IfSome result (λ number. number < length self.now) }
    {
        self.numbers.get(name).copied()
    }

    /// The number of the block type of a name, if there is one.
    pub fn find_block(&self, name: &[u8]) -> Option<u32>
        ensures value { result ≡ find_block self.now name.now }
        ensures within { IfSome result (λ number. number < length self.now) }
    {
        let number = self.find(name)?;
        if self.decl(number).what.is_block() {
            Some(number)
        } else {
            None
        }
    }

    /// The number of the declared block type that a declaration inherits from, if there is one.
    pub fn parent(&self, number: u32) -> Option<u32>
        requires { number < length self.now }
        ensures value { result ≡ parent self.now number }
        ensures within { IfSome result (λ above. above < length self.now) }
    {
        let name = self.decl(number).what.parent_name()?;
        self.find_block(name.bytes())
    }

    /// Whether the walk of parents from a declaration ends. It takes as many steps as the walk, and where it
    /// doesn't end as many as there are declarations.
    pub fn ends(&self, number: u32) -> bool
        requires { number < length self.now }
        ensures { IsTrue result ↔ Ends self.now number }
    {
        let mut at = number;
        for _steps in 0..self.count() {
            let Some(parent) = self.parent(at) else {
                return true;
            };
            at = parent;
        }
        false
    }

    /// The fields of a declaration: those of its ancestors, root first, and then its own. Where it has n ancestors,
    /// the iterator takes at most n * (2 + log2 n) steps from child to parent in all.
    pub fn line_of(&self, number: u32) -> Line<'_>
        requires within { number < length self.now }
        requires ends { Ends self.now number }
        ensures value { result ≡ line self.now number }
        ensures line { IsLine self.now number result }
    {
        Line::new(self, number)
    }

    /// Whether `of` is the declaration `number` or an ancestor of it. It takes as many steps as the walk of parents,
    /// and where that doesn't end as many as there are declarations.
    pub fn is_a(&self, number: u32, of: u32) -> bool
        requires number { number < length self.now }
        requires of { of < length self.now }
        ensures walk { IsTrue result ↔ IsA self.now number of }
        ensures value { result ≡ is_a self.now number of }
    {
        let mut at = number;
        for _steps in 0..self.count() {
            if at == of {
                return true;
            }
            let Some(above) = self.parent(at) else {
                return false;
            };
            at = above;
        }
        false
    }
}
