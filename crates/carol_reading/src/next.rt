ghost use Rattle.std.specs.Prelude.{◌≡◌, Some};
ghost use Rattle.carol_store.specs.Stores.{AreWords};
ghost use Rattle.carol_program.specs.Bodies.{body_of};
ghost use Rattle.carol_program.specs.Rules.{rules_in};
ghost use Rattle.carol_program.specs.Variables.{number_of_args};
ghost use Rattle.carol_reading.specs.Nexts.{IsAction, IsNextOf, next_of};
ghost use Rattle.carol_reading.specs.Walks.{IsWalkOf, StandsSomewhere};

use crate::accepted::Accepted;
use crate::action::Action;
use crate::effect::effect;
use crate::numbers::Numbers;
use crate::walk::Walk;
use carol_program::{Command, Step};
use carol_store::{Shape, ShortList, as_words};
use std::alloc::Global;

// What comes next in the body behind the statements that are done.
fn action_in(alloc: Global, shape: &Shape, body: &Step, args: &[i64], seen: &Walk) -> Action
    requires stands { StandsSomewhere (body_of body.now) }
    requires words { AreWords args.now }
    requires action { IsAction shape.now
        (next_of shape.now (body_of body.now) (number_of_args args.now)
        seen.now.stores seen.now.done) }
    ensures { next_of shape.now (body_of body.now) (number_of_args args.now)
        seen.now.stores seen.now.done ≡ Some result }
{
    let stores = seen.stores();
    let mut slots = ShortList::new(alloc);
    let mut left = seen.done();
    let mut step = body;
    loop {
        let numbers = Numbers {
            args,
            slots: slots.as_slice(),
            stores,
        };
        match step {
            Step::Query {
                guard,
                slot,
                next,
                ..
            } => {
                if left == 0 {
                    return Action::Query { guard: *guard };
                }
                slots.push(*slot);
                left -= 1;
                step = next.get();
            }
            Step::Issue { parts, next, .. } => {
                if left == 0 {
                    return Action::Issue(effect(alloc, shape, parts.as_slice(), &numbers));
                }
                left -= 1;
                step = next.get();
            }
            Step::Release { next, .. } => {
                if left == 0 {
                    return Action::Release;
                }
                left -= 1;
                step = next.get();
            }
            Step::Branch { test, yes, no, .. } => {
                if test.holds(&numbers) {
                    step = yes.get();
                } else {
                    step = no.get();
                }
            }
            Step::Return { value, .. } => return Action::Return(value.value(&numbers)),
        }
    }
}

/// What the command's operation does next, where it has come as far as the walk. A mark may follow
/// those that lead there exactly where the action may leave it. The walk is one that the operation
/// reads with these arguments, with rounds whose stores the invariant and the guards are true of.
pub fn next_action(alloc: Global, accepted: &Accepted, command: &Command, seen: &Walk) -> Action
    requires { IsWalkOf (rules_in accepted.now.program) command.now seen.now }
    ensures { IsNextOf (rules_in accepted.now.program) command.now seen.now result }
{
    let program = accepted.program();
    let op = &program.ops.as_slice()[command.op as usize];
    let args = as_words(command.args.as_slice());
    action_in(alloc, &program.shape, &op.body, args, seen)
}
