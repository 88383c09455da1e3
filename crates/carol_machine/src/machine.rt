ghost use Rattle.std.specs.Prelude.{◌≡◌, ◌+◌, ◌<◌, ◌≤◌, ℕ, false, List, [], ◌∷◌, length, get_or, IfOk};
ghost use Rattle.carol_program.specs.Limits.{most_commands, most_guards, most_queries, most_statements, most_tries};
ghost use Rattle.carol_program.specs.Rules.{rules_in};
ghost use Rattle.carol_program.specs.Scenes.{IsPlanOf};
ghost use Rattle.carol_reading.specs.declared.outcome.Outcome.TheVariants as outcome;
ghost use Rattle.carol_history.specs.Acts.{Act};
ghost use Rattle.carol_machine.specs.Feeds.{IsActOf, MayBeFed, with_attempt, with_close, with_grant, with_outcome, with_refusal, with_store};
ghost use Rattle.carol_machine.specs.States.{IsAt, present_in, state_of};
ghost use Rattle.carol_machine.specs.Wishes.{IsInOrder, IsWishOf, ReadsSoFar, StandsWell, wish_of, wish_to_query};

use crate::fed::Fed;
use crate::wish::Wish;
use carol_program::{MOST_GUARDS, SessionPlan};
use carol_reading::{Accepted, Action, Cause, Outcome, Walk, next_action};
use carol_store::Store;
use std::alloc::{AllocError, Global};
use std::marker::Model;

/// The state of one session over its plan of commands.
#[derive(Drop)]
pub struct Machine {
    plan: SessionPlan,
    tries: u32,
    command: u32,
    refusals: u32,
    walk: Walk,
    live: [bool; MOST_GUARDS],
    results: Vec<Outcome>,
}

impl Model for Machine {
    ghost use Rattle.std.specs.Prelude.{vec_capacity};
    ghost use Rattle.carol_machine.specs.States.{SessionState, IsKeptState};

    ghost Value = { SessionState };

    ghost view = { λ m. record {
      plan = m.plan;
      tries = m.tries;
      at = record { command = m.command; refusals = m.refusals };
      walk = m.walk;
      live = m.live;
      results = m.results.items;
    } };

    ghost invariant = { λ m. IsKeptState (record {
      plan = m.plan;
      tries = m.tries;
      at = record { command = m.command; refusals = m.refusals };
      walk = m.walk;
      live = m.live;
      results = m.results.items;
    }) (vec_capacity m.results) };
}

impl Machine {
    /// A session that has done nothing. Its plan and its tries are those of a scene that is valid
    /// for the program.
    pub fn new(
        alloc: Global,
        accepted: &Accepted,
        plan: &SessionPlan,
        tries: u32,
    ) -> Result<Machine, AllocError>
        requires plan { (replicas : ℕ)
            × IsPlanOf (rules_in accepted.now.program) replicas plan.now }
        requires few { length plan.now.commands ≤ most_commands }
        requires some_try { 1 ≤ tries }
        requires few_tries { tries ≤ most_tries }
        ensures is { IfOk result (λ m. m ≡ state_of plan.now tries) }
        ensures start { IfOk result (λ m. IsAt m []) }
    {
        let results = Vec::with_capacity(alloc, plan.commands.len())?;
        Ok(Machine {
            plan: plan.copy(alloc)?,
            tries,
            command: 0,
            refusals: 0,
            walk: Walk::new(alloc)?,
            live: [false; MOST_GUARDS],
            results,
        })
    }

    /// What the session goes on with, where it stands where some acts bring it: a grant or a store
    /// for its next query, by whether the guard's grant is live, an effect to issue, a release, or
    /// a value to return. `Finished` exactly where all commands are done. Where a command is under
    /// way the walk is one that its operation reads, with proper rounds.
    pub fn action(&self, accepted: &Accepted) -> Wish
        requires { StandsWell (rules_in accepted.now.program) self.now }
        ensures { (done : List Act) → IsAt self.now done
            → ReadsSoFar (rules_in accepted.now.program) self.now.plan self.now.tries done
            → IsWishOf (rules_in accepted.now.program) self.now.plan self.now.tries done result }
    {
        let _program = accepted.program();
        let Some(command) = self.plan.commands.get(self.command as usize) else {
            return Wish::Finished;
        };
        let next = next_action(*self.results.allocator(), accepted, command, &self.walk);
        self.wish(next)
    }

    // The wish behind an action.
    fn wish(&self, next: Action) -> Wish
        ensures is { result ≡ wish_of self.now.live next }
        ensures ascends { IsInOrder result }
    {
        match next {
            Action::Query { guard } => self.wish_to_query(guard),
            Action::Issue(effect) => {
                // An effect's cells ascend, as reading it shows.
                let _atoms = effect.atoms();
                Wish::Issue(effect)
            }
            Action::Release => Wish::Release,
            Action::Return(value) => Wish::Return(value),
        }
    }

    // The wish for a store, or for the guard where its grant isn't live.
    fn wish_to_query(&self, guard: u32) -> Wish
        ensures { result ≡ wish_to_query (get_or self.now.live guard false) guard }
    {
        if self.live.get(guard as usize).copied().unwrap_or(false) {
            Wish::Query(guard)
        } else {
            Wish::Guard(guard)
        }
    }

    /// Takes what came of the session's wish. Afterwards the session stands where the act brings
    /// it. It takes no memory.
    pub fn feed(&mut self, accepted: &Accepted, fed: &Fed)
        requires { MayBeFed (rules_in accepted.now.program) self.old fed.now }
        ensures plan { self.new.plan ≡ self.old.plan }
        ensures tries { self.new.tries ≡ self.old.tries }
        ensures stands { (act : Act) (done : List Act) → IsActOf fed.now act → IsAt self.old done
            → IsAt self.new (act ∷ done) }
    {
        let _program = accepted.program();
        match fed {
            Fed::Granted(guard) => self.grant(*guard),
            Fed::Queried(store) => self.query(store),
            Fed::Issued => self.close(),
            Fed::Released => self.close(),
            Fed::Returned(value) => self.finish(Outcome::Value(*value)),
            Fed::Refused(cause) => self.refuse(*cause),
        }
    }

    // The guard's grant is live.
    fn grant(&mut self, guard: u32)
        requires { guard < most_guards }
        ensures there { guard < length self.old.live }
        ensures is { self.new ≡ with_grant guard self.old }
    {
        self.live[guard as usize] = true;
    }

    // A query got its store.
    fn query(&mut self, store: &Store)
        requires few { length self.old.walk.stores < most_queries }
        requires done { self.old.walk.done < most_statements }
        ensures { self.new ≡ with_store store.now self.old }
    {
        self.walk.take(store);
    }

    // An issue or a release is done, which ends all grants.
    fn close(&mut self)
        requires { self.old.walk.done < most_statements }
        ensures { self.new ≡ with_close self.old }
    {
        self.walk.pass();
        self.live = [false; MOST_GUARDS];
    }

    // The command is done.
    fn finish(&mut self, outcome: Outcome)
        requires { self.old.at.command < length self.old.plan.commands }
        ensures { self.new ≡ with_outcome outcome self.old }
    {
        self.results.push_reserved(outcome);
        self.command += 1;
        self.restart(0);
    }

    // The attempt ends without a value, and with it the command where it has no try left.
    fn refuse(&mut self, cause: Cause)
        requires { self.old.at.command < length self.old.plan.commands }
        ensures { self.new ≡ with_refusal cause self.old }
    {
        if self.refusals + 1 == self.tries {
            self.finish(Outcome::Refused(cause));
            return;
        }
        self.restart(self.refusals + 1);
    }

    // An attempt begins, after so many refusals of the command under way.
    fn restart(&mut self, refusals: u32)
        requires { refusals < self.old.tries }
        ensures { self.new ≡ with_attempt refusals self.old }
    {
        self.refusals = refusals;
        self.walk.clear();
        self.live = [false; MOST_GUARDS];
    }

    /// How the command with this number came out, which the plan has.
    pub fn outcome(&self, command: u32) -> Outcome
        requires { command < length self.now.plan.commands }
        ensures { result ≡ get_or self.now.results command outcome.NotDone }
    {
        match self.results.get(command as usize) {
            Some(outcome) => *outcome,
            None => Outcome::NotDone,
        }
    }

    /// The number of the command under way. `None` exactly where all commands are done.
    pub fn present(&self) -> Option<u32>
        ensures { result ≡ present_in self.now }
    {
        if (self.command as usize) < self.plan.commands.len() {
            Some(self.command)
        } else {
            None
        }
    }

    /// How far the operation under way has come.
    pub fn walk(&self) -> &Walk
        ensures { result.now ≡ self.now.walk }
    {
        &self.walk
    }
}
