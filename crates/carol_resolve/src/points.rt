ghost use Rattle.std.specs.Prelude.{◌≡◌, ◌+◌, ◌≤◌, OnOk, IfOk, IfSome, length, take};
ghost use Rattle.carol_meaning.specs.Scopes.{declared};
ghost use Rattle.carol_meaning.specs.Bodies.{entered};
ghost use Rattle.carol_meaning.specs.declared.meaning.Meaning.TheVariants.{Queried, Bound};
ghost use Rattle.carol_names.specs.Bounded.{IsBounded, most_value};
ghost use Rattle.carol_syntax.specs.Size.{most_items};

use crate::Scope;
use carol_formula::Term;
use carol_meaning::Meaning;
use carol_syntax::Ident;
use std::alloc::AllocError;
use std::marker::Model;

/// Where a statement stands: what names stand for, the slot of the next query, and its number.
#[derive(Drop)]
pub(crate) struct Point<'a> {
    scope: Scope<'a>,
    slot: u32,
    number: u32,
}

impl<'a> Model for Point<'a> {
    ghost use Rattle.std.specs.Prelude.{◌<◌, ◌≤◌, ◌+◌};
    ghost use Rattle.carol_meaning.specs.Bodies as bodies;
    ghost use Rattle.carol_syntax.specs.Size.{most_items};

    ghost Value = { bodies.Point };

    ghost view = { λ p. record { scope = p.scope; slot = p.slot; number = p.number } };

    ghost invariant = { λ p. (p.slot < p.number) × (p.number ≤ most_items + 1) };
}

impl<'a> Point<'a> {
    /// The start of an operation's body, where these names can be used.
    pub(crate) fn new(scope: Scope<'a>) -> Point<'a>
        ensures { result ≡ record { scope = scope.entry; slot = 0; number = 1 } }
    {
        Point {
            scope,
            slot: 0,
            number: 1,
        }
    }

    /// The names that can be used here.
    pub(crate) fn scope(&self) -> &Scope<'a>
        ensures { result.now ≡ self.now.scope }
    {
        &self.scope
    }

    /// The number of the statement here.
    pub(crate) fn number(&self) -> u32
        ensures { result ≡ self.now.number }
    {
        self.number
    }

    /// How many names can be used here.
    pub(crate) fn names(&self) -> usize
        ensures { result ≡ length self.now.scope }
    {
        self.scope.len()
    }

    /// Goes behind a statement that declares nothing, or into the first branch of an `if`.
    pub(crate) fn pass(&mut self)
        requires { self.old.number ≤ most_items }
        ensures { self.new ≡ entered self.old }
    {
        self.number += 1;
    }

    /// Goes behind a query of this name. The result is its slot.
    pub(crate) fn query(&mut self, name: &'a Ident) -> Result<u32, AllocError>
        requires { self.old.number ≤ most_items }
        ensures place { OnOk result (self.new ≡ record {
          scope = declared name.entry.now.word (Queried self.old.slot) self.old.scope;
          slot = self.old.slot + 1;
          number = self.old.number + 1;
        }) }
        ensures slot { IfOk result (λ slot. slot ≡ self.old.slot) }
    {
        let slot = self.slot;
        self.scope
            .declare(name.word.bytes(), Meaning::Queried { slot })?;
        self.slot += 1;
        self.number += 1;
        Ok(slot)
    }

    /// Goes behind a `let` of this name.
    pub(crate) fn bind(&mut self, name: &'a Ident, term: Option<Term>) -> Result<(), AllocError>
        requires number { self.old.number ≤ most_items }
        requires term { IfSome term (IsBounded most_value) }
        ensures { OnOk result (self.new ≡ record {
          scope = declared name.entry.now.word (Bound term) self.old.scope;
          slot = self.old.slot;
          number = self.old.number + 1;
        }) }
    {
        self.scope
            .declare(name.word.bytes(), Meaning::Bound { term })?;
        self.number += 1;
        Ok(())
    }

    /// Goes behind a body before which so many names could be used: no more of them can.
    pub(crate) fn leave(&mut self, names: usize)
        ensures { self.new ≡ record {
          scope = take names self.old.scope;
          slot = self.old.slot;
          number = self.old.number;
        } }
    {
        self.scope.truncate(names);
    }
}
