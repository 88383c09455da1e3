//! Steps that close a list of rows, as a leaf of a refutation: over the claims that the rows stand
//! for, and without the steps that the last row doesn't need.
ghost use Rattle.std.specs.Prelude.{◌≡◌, ℕ, ◌≤◌, ◌<◌, ◌++◌, ◌∷◌, [], List, true, length, map, IfOk, OnOk};
ghost use Rattle.carol_formula.specs.Linear.{Linear};
ghost use Rattle.carol_formula.specs.Claim.{Claim, Le};
ghost use Rattle.carol_cert.specs.Steps.{Closes};
ghost use Rattle.carol_linear.specs.Names.{AreNamed};
ghost use Rattle.carol_linear.specs.Pruned.{IsLeaf, IsMarked, MarksParts, mark_at, place_of, renumbered, with_needed};

use carol_cert::{RowStep, StepList};
use std::alloc::{AllocError, Global};

/// The steps that the last row needs, renumbered, over claims in place of rows: row number i is
/// what `names[i]`, a `Given` or a `Reversed`, makes of the claims.
pub fn leaf(alloc: Global, steps: &StepList, names: &[RowStep]) -> Result<StepList, AllocError>
    ensures { IfOk result (λ r. (claims : List Claim) → (rows : List Linear)
        → AreNamed claims names.now rows → Closes (map Le rows) steps.now → Closes claims r) }
{
    let marks = needed(alloc, steps.as_slice())?;
    copied(alloc, steps.as_slice(), &marks, names)
}

// Whether the last row needs the row that each step makes.
fn needed(alloc: Global, steps: &[RowStep]) -> Result<Vec<bool>, AllocError>
    ensures { IfOk result (λ v. IsMarked v.items steps.now) }
{
    let mut marks = vec![in alloc; false; steps.len()]?;
    for at in (0..steps.len()).rev() {
        if at + 1 == steps.len() {
            marks[at] = true;
        }
        if marks[at] {
            mark_parts(&mut marks, at, steps[at]);
        }
    }
    Ok(marks)
}

// Marks the rows before row `at` of which the step makes it.
fn mark_parts(marks: &mut Vec<bool>, at: usize, step: RowStep)
    requires { at ≤ length marks.old.items }
    ensures length { length marks.new.items ≡ length marks.old.items }
    ensures kept { (k : ℕ) → mark_at marks.old.items k ≡ true → mark_at marks.new.items k ≡ true }
    ensures later { (k : ℕ) → at ≤ k → mark_at marks.new.items k ≡ mark_at marks.old.items k }
    ensures parts { MarksParts marks.new.items at step }
{
    match step {
        RowStep::Given { at: _ } => {}
        RowStep::Reversed { at: _ } => {}
        RowStep::Combine { a, m: _, b, n: _ } => {
            mark(marks, at, a);
            mark(marks, at, b);
        }
        RowStep::Tighten { a, d: _ } => mark(marks, at, a),
    }
}

// Marks row `part`, if it stands before row `at`.
fn mark(marks: &mut Vec<bool>, at: usize, part: u32)
    requires { at ≤ length marks.old.items }
    ensures length { length marks.new.items ≡ length marks.old.items }
    ensures kept { (k : ℕ) → mark_at marks.old.items k ≡ true → mark_at marks.new.items k ≡ true }
    ensures later { (k : ℕ) → at ≤ k → mark_at marks.new.items k ≡ mark_at marks.old.items k }
    ensures marked { part < at → mark_at marks.new.items part ≡ true }
{
    let part = part as usize;
    if part < at {
        marks[part] = true;
    }
}

// The needed ones of some steps, and for each of these steps the number of its row among the needed
// ones.
#[derive(Drop)]
struct Pruned {
    steps: StepList,
    places: Vec<u32>,
}

impl Pruned {
    // One step more. There is no room for more than 2^32 rows.
    fn add(&mut self, step: RowStep, needed: bool, names: &[RowStep]) -> Result<(), AllocError>
        ensures steps { OnOk result (self.new.steps ≡ with_needed needed
            (renumbered names.now self.old.places.items step) self.old.steps) }
        ensures places { OnOk result (self.new.places.items
            ≡ self.old.places.items ++ length self.old.steps ∷ []) }
    {
        let Ok(place) = u32::try_from(self.steps.as_slice().len()) else {
            return Err(AllocError);
        };
        if needed {
            self.steps.push(renumbered(step, names, &self.places))?;
        }
        self.places.push(place)?;
        Ok(())
    }
}

// The step over claims in place of rows, with the new numbers of the rows that it is made of.
fn renumbered(step: RowStep, names: &[RowStep], places: &[u32]) -> RowStep
    ensures { result ≡ renumbered names.now places.now step }
{
    match step {
        RowStep::Given { at } => match names.get(at as usize) {
            Some(name) => *name,
            None => step,
        },
        RowStep::Reversed { at: _ } => step,
        RowStep::Combine { a, m, b, n } => RowStep::Combine {
            a: place_of(places, a),
            m,
            b: place_of(places, b),
            n,
        },
        RowStep::Tighten { a, d } => RowStep::Tighten {
            a: place_of(places, a),
            d,
        },
    }
}

// The new number of a row.
fn place_of(places: &[u32], row: u32) -> u32
    ensures { result ≡ place_of places.now row }
{
    match places.get(row as usize) {
        Some(place) => *place,
        None => row,
    }
}

// The steps that are marked.
fn copied(
    alloc: Global,
    steps: &[RowStep],
    marks: &[bool],
    names: &[RowStep],
) -> Result<StepList, AllocError>
    requires { IsMarked marks.now steps.now }
    ensures { IfOk result (IsLeaf steps.now names.now) }
{
    let mut pruned = Pruned {
        steps: StepList::new(alloc),
        places: Vec::new(alloc),
    };
    for at in 0..steps.len() {
        pruned.add(steps[at], marks[at], names)?;
    }
    let Pruned { steps, places: _ } = pruned;
    Ok(steps)
}
