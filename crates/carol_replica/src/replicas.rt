ghost use Rattle.std.specs.Prelude.{◌≡◌, ℕ, ◌<◌, length, IfOk};
ghost use Rattle.carol_store.specs.Effects.{IsEffect};
ghost use Rattle.carol_store.specs.Stores.{IsStore, StaysInWords, apply};
ghost use Rattle.carol_replica.specs.Stored.{Changes, local_at};

use carol_store::{Effect, Shape, Store};
use std::alloc::{AllocError, Global};
use std::marker::Model;

/// The store of each replica, and the one of all entries. Contracts see it as these.
#[derive(Drop)]
pub struct Replicas {
    locals: Vec<Store>,
    global: Store,
}

impl Model for Replicas {
    ghost use Rattle.carol_replica.specs.Stored as stored;

    ghost Value = { stored.Replicas };

    ghost view = { λ r. record { locals = r.locals.items; global = r.global } };
}

impl Replicas {
    /// This many replicas, each with the initial store, which is one of the shape.
    pub fn new(
        alloc: Global,
        shape: &Shape,
        initial: &Store,
        replicas: u32,
    ) -> Result<Replicas, AllocError>
        requires { IsStore shape.now initial.now }
        ensures count { IfOk result (λ r. length r.locals ≡ replicas) }
        ensures locals { IfOk result (λ r. (i : ℕ) → i < replicas → local_at r i ≡ initial.now) }
        ensures global { IfOk result (λ r. r.global ≡ initial.now) }
    {
        let _kinds = shape.kinds();
        let mut locals = Vec::new(alloc);
        for _ in 0..replicas {
            locals.push(initial.copy())?;
        }
        Ok(Replicas {
            locals,
            global: initial.copy(),
        })
    }

    /// Applies the effect to the store of the replica, which is in range. The effect fits the shape
    /// of the store, and no cell leaves its word.
    pub fn arrive(&mut self, shape: &Shape, replica: u32, effect: &Effect)
        requires replica { replica < length self.old.locals }
        requires store { IsStore shape.now (local_at self.old replica) }
        requires effect { IsEffect shape.now effect.now }
        requires words { StaysInWords shape.now effect.now (local_at self.old replica) }
        ensures local { Changes shape.now self.old replica effect.now self.new }
        ensures global { self.new.global ≡ self.old.global }
    {
        self.locals[replica as usize].apply(shape, effect);
    }

    /// Applies the effect to the store of the replica, which is in range, and to the store of all
    /// entries. The effect fits the shape of the stores, and no cell leaves its word.
    pub fn issue(&mut self, shape: &Shape, replica: u32, effect: &Effect)
        requires replica { replica < length self.old.locals }
        requires store { IsStore shape.now (local_at self.old replica) }
        requires whole { IsStore shape.now self.old.global }
        requires effect { IsEffect shape.now effect.now }
        requires words { StaysInWords shape.now effect.now (local_at self.old replica) }
        requires whole_words { StaysInWords shape.now effect.now self.old.global }
        ensures local { Changes shape.now self.old replica effect.now self.new }
        ensures global { self.new.global ≡ apply shape.now effect.now self.old.global }
    {
        self.global.apply(shape, effect);
        self.arrive(shape, replica, effect);
    }

    /// The store of the replica, which is in range.
    pub fn local(&self, replica: u32) -> &Store
        requires { replica < length self.now.locals }
        ensures { result.now ≡ local_at self.now replica }
    {
        &self.locals[replica as usize]
    }

    /// The store of all entries.
    pub fn global(&self) -> &Store
        ensures { result.now ≡ self.now.global }
    {
        &self.global
    }
}
