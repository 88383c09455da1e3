ghost use Rattle.std.specs.Prelude.{◌≡◌, ◌++◌, ◌+◌, ◌≤◌, ◌<◌, length, slice_get, Some, OnOk};
ghost use Rattle.std.specs.List.{AllByRecursion};
ghost use Rattle.std.specs.Option.{option_copied};
ghost use Rattle.carol_program.specs.Bodies.{body_of};
ghost use Rattle.carol_program.specs.Limits.{
  most_cells,
  most_params,
  most_queries,
  most_statements,
};
ghost use Rattle.carol_program.specs.Rules.{op_rules, rules_in};
ghost use Rattle.carol_program.specs.WellFormed.{AreRules};
ghost use Rattle.carol_accept.specs.Fitting.{IsShort, StandsBehind};
ghost use Rattle.carol_accept.specs.LineLaws.{LinesTell, TrailsAreWays};
ghost use Rattle.carol_accept.specs.Lines.{
  lines_text,
  line_text,
  numbers_text,
  op_lines,
  queries_text,
  rounds_text,
  statement_lines,
  trail_text,
};
ghost use Rattle.carol_accept.specs.Named.{variable_text};
ghost use Rattle.carol_accept.specs.Trails.{start};

use crate::names::{push_text, push_variable};
use crate::trail::{Asked, Trail, trail_to};
use carol_formula::{Lookup, Variable};
use carol_obligation::round_variable;
use carol_program::{FIRST_PARAMETER, Names, Op, Place, Program, query_variable};
use carol_text::push_integer;
use std::alloc::{AllocError, Global};

// The operation with this number, if there is one.
fn op_at(program: &Program, op: u32) -> Option<&Op>
    ensures { option_copied result ≡ slice_get program.now.ops op }
{
    program.ops.as_slice().get(op as usize)
}

// Numbers that are shown at a place.
#[derive(Clone, Copy)]
struct Shown<'a, L: Lookup> {
    names: &'a Names,
    place: Place,
    numbers: &'a L,
}

impl<'a, L: Lookup> Shown<'a, L> {
    // Appends the line of a variable, with the number of another.
    fn push_line(&self, out: &mut Vec<u8>, named: u32, shown: u32) -> Result<(), AllocError>
        ensures { OnOk result (out.new.items ≡ out.old.items
            ++ line_text (variable_text self.now.names.now self.now.place named)
            (L.numbers self.now.numbers.now shown)) }
    {
        push_variable(out, self.names, self.place, Variable(named))?;
        push_text(out, " = ")?;
        push_integer(out, self.numbers.value_of(Variable(shown)))?;
        push_text(out, "\n")
    }

    // Appends the lines of so many variables, with the numbers of others.
    fn push_numbers(
        &self,
        out: &mut Vec<u8>,
        count: u32,
        named: u32,
        shown: u32,
    ) -> Result<(), AllocError>
        requires named { named + count ≤ u32.MAX }
        requires shown { shown + count ≤ u32.MAX }
        ensures { OnOk result (out.new.items ≡ out.old.items
            ++ numbers_text (variable_text self.now.names.now self.now.place)
            (L.numbers self.now.numbers.now) count named shown) }
    {
        for i in 0..count {
            self.push_line(out, named + i, shown + i)?;
        }
        Ok(())
    }

    // Appends the lines of the stores of queries, of so many cells each.
    fn push_queries(&self, out: &mut Vec<u8>, cells: u32, asked: &[Asked]) -> Result<(), AllocError>
        requires cells { cells ≤ most_cells }
        requires slots { AllByRecursion (λ a. a.slot < most_queries) asked.now }
        ensures { OnOk result (out.new.items ≡ out.old.items
            ++ queries_text (variable_text self.now.names.now self.now.place)
            (L.numbers self.now.numbers.now) cells asked.now) }
    {
        let mut left = asked;
        while let Some((first, more)) = left.split_first() {
            let base = query_variable(first.slot, 0);
            self.push_numbers(out, cells, base, base)?;
            left = more;
        }
        Ok(())
    }

    // Appends the lines of the stores of rounds, up to that of the place.
    fn push_rounds(&self, out: &mut Vec<u8>, cells: u32, trail: &Trail) -> Result<(), AllocError>
        requires cells { cells ≤ most_cells }
        requires rounds { trail.now.rounds < most_statements }
        ensures { OnOk result (out.new.items ≡ out.old.items
            ++ rounds_text (variable_text self.now.names.now self.now.place)
            (L.numbers self.now.numbers.now) cells trail.now (trail.now.rounds + 1) 0) }
    {
        for round in 0..trail.rounds + 1 {
            let named = round_variable(round, 0);
            let shown = round_variable(trail.shown_for(round), 0);
            self.push_numbers(out, cells, named, shown)?;
        }
        Ok(())
    }

    // Appends the lines of the queries and rounds on the way to a place, with cells of so many
    // each.
    fn push_trail(&self, out: &mut Vec<u8>, cells: u32, trail: &Trail) -> Result<(), AllocError>
        requires cells { cells ≤ most_cells }
        requires short { IsShort trail.now }
        ensures { OnOk result (out.new.items ≡ out.old.items
            ++ trail_text (variable_text self.now.names.now self.now.place)
            (L.numbers self.now.numbers.now) cells (Some trail.now)) }
    {
        self.push_queries(out, cells, trail.asked.as_slice())?;
        self.push_rounds(out, cells, trail)
    }

    // Appends the lines at a statement of the operation.
    fn push_op(
        &self,
        alloc: Global,
        out: &mut Vec<u8>,
        cells: u32,
        op: &Op,
        number: u32,
    ) -> Result<(), AllocError>
        requires cells { cells ≤ most_cells }
        requires params { length op.now.params ≤ most_params }
        requires body { StandsBehind start (body_of op.now.body) }
        ensures { OnOk result (out.new.items ≡ out.old.items
            ++ statement_lines (variable_text self.now.names.now self.now.place)
            (L.numbers self.now.numbers.now) cells number (Some (op_rules op.now))) }
    {
        self.push_numbers(
            out,
            op.params.len() as u32,
            FIRST_PARAMETER,
            FIRST_PARAMETER,
        )?;
        match trail_to(number, &op.body, Trail::new(alloc)) {
            Some(trail) => self.push_trail(out, cells, &trail),
            None => Ok(()),
        }
    }

    // Appends the lines at a statement of the operation with this number.
    fn push_statement(
        &self,
        alloc: Global,
        out: &mut Vec<u8>,
        program: &Program,
        op: u32,
        number: u32,
    ) -> Result<(), AllocError>
        requires { AreRules (rules_in program.now) }
        ensures { OnOk result (out.new.items ≡ out.old.items
            ++ op_lines (rules_in program.now) self.now.names.now self.now.place op number
            (L.numbers self.now.numbers.now)) }
    {
        let cells = program.shape.kinds().len() as u32;
        match op_at(program, op) {
            Some(op) => self.push_op(alloc, out, cells, op, number),
            None => Ok(()),
        }
    }
}

/// Appends a line for each number that is shown at the place: of all cells, or at a statement of an
/// operation of its parameters, of the stores of the queries before it, and of the stores of the
/// rounds up to its own.
#[tactic(auto, unfolding(crate::specs::Lines::lines_text))]
pub fn push_lines<L: Lookup>(
    alloc: Global,
    out: &mut Vec<u8>,
    program: &Program,
    place: Place,
    numbers: &L,
) -> Result<(), AllocError>
    requires { AreRules (rules_in program.now) }
    ensures { OnOk result (out.new.items ≡ out.old.items
        ++ lines_text (rules_in program.now) program.now.names place (L.numbers numbers.now)) }
{
    let shown = Shown {
        names: &program.names,
        place,
        numbers,
    };
    match place {
        Place::Initial | Place::Reflexive { .. } | Place::Accord { .. } => {
            shown.push_numbers(out, program.shape.kinds().len() as u32, 0, 0)
        }
        Place::Amount { op, number, .. }
        | Place::Invariant { op, number }
        | Place::Outcome { op, number } => shown.push_statement(alloc, out, program, op, number),
    }
}

/// What holds of the lines at every place of an operation. It does nothing, and is called for its
/// clauses.
pub fn line_laws()
    // The queries and rounds that are shown are those on the way to the place.
    ensures trails { TrailsAreWays }
    // Numbers with the same lines as a breach are one.
    ensures tell { LinesTell }
{}
