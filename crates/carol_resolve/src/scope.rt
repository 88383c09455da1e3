ghost use Rattle.std.specs.Prelude.{◌≡◌, ◌∷◌, [], map, take, OnOk, IfSome, length};
ghost use Rattle.std.specs.Option.{option_copied};
ghost use Rattle.carol_meaning.specs.Scopes.{meaning_of, declared};
ghost use Rattle.carol_resolve.specs.Scoped.{IsSafe};

use carol_meaning::Meaning;
use indexmap::IndexMap;
use std::alloc::{AllocError, Global};
use std::marker::Model;

/// The names that can be used at a place of an operation, with what they stand for, in the order in
/// which they were declared. Contracts see it as that list.
#[derive(Drop)]
pub struct Scope<'a> {
    names: IndexMap<&'a [u8], Meaning>,
}

impl<'a> Model for Scope<'a> {
    ghost use Rattle.std.specs.Prelude.{List, ℕ, map};
    ghost use Rattle.carol_meaning.specs.declared.meaning.Meaning.{Meaning};
    ghost use Rattle.carol_resolve.specs.Scoped.{AreSafe};

    ghost Value = { List (List ℕ × Meaning) };

    ghost view = { λ s. map (λ e. (e.0.now, e.1)) s.names.entries };

    ghost invariant = { λ s. AreSafe (map (λ e. (e.0.now, e.1)) s.names.entries) };
}

impl<'a> Scope<'a> {
    /// No name.
    pub fn new(alloc: Global) -> Scope<'a>
        ensures { result ≡ [] }
    {
        Scope {
            names: IndexMap::new(alloc),
        }
    }

    /// What a name stands for, if it can be used here.
    pub fn look(&self, word: &[u8]) -> Option<&Meaning>
        ensures meaning { option_copied result ≡ meaning_of word.now self.now }
        ensures safe { IfSome result (λ m. IsSafe m.now) }
    {
        self.names.get(word)
    }

    /// One name more; a name that is there keeps its meaning.
    pub fn declare(&mut self, word: &'a [u8], meaning: Meaning) -> Result<(), AllocError>
        requires { IsSafe meaning }
        ensures { OnOk result (self.new ≡ declared word.entry.now meaning self.old) }
    {
        if self.names.contains_key(word) {
            return Ok(());
        }
        self.names.insert(word, meaning)?;
        Ok(())
    }

    /// How many names there are.
    pub fn len(&self) -> usize
        ensures { result ≡ length self.now }
    {
        self.names.len()
    }

    /// Forgets all names but the first so many.
    pub fn truncate(&mut self, len: usize)
        ensures { self.new ≡ take len self.old }
    {
        self.names.truncate(len);
    }
}
