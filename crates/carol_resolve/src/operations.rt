ghost use Rattle.std.specs.Prelude.{◌≡◌, OnOk, IfOk, map};
ghost use Rattle.carol_program.specs.Rules.{op_rules};
ghost use Rattle.carol_syntax.specs.Bodies.{body_tree};
ghost use Rattle.carol_syntax.specs.Files.{op_tree};
ghost use Rattle.carol_syntax.specs.Shape.{IsOp};
ghost use Rattle.carol_meaning.specs.Sizes.{IsShortOp};
ghost use Rattle.carol_meaning.specs.Faults.{earliest};
ghost use Rattle.carol_meaning.specs.Bodies.{queries_within};
ghost use Rattle.carol_resolve.specs.Counts.{HasFewParams};
ghost use Rattle.carol_meaning.specs.Operations.{op_faults, op_meaning, op_names};

use crate::declared::{Declared, note_declared};
use crate::lists::listed;
use crate::refining::{refinement, refinements};
use crate::spaces::{body_scope, refinement_scope};
use crate::{Around, body};
use carol_names::Finder;
use carol_program::{Name, Op, OpNames};
use carol_syntax::{Ident, OpDecl};
use std::alloc::{AllocError, Global};

// What an operation and its parts are called; the queries are these.
fn names(alloc: Global, op: &OpDecl, queries: &[&Ident]) -> Result<OpNames, AllocError>
    requires { map (λ i. i.now) queries.now ≡ queries_within (body_tree op.now.body) }
    ensures { IfOk result (λ n. n ≡ op_names (op_tree op.now)) }
{
    let own = Name::new(alloc, op.name.word.bytes())?;
    let params = listed(alloc, op.params.as_slice())?;
    let queries = listed(alloc, queries)?;
    Ok(OpNames {
        own,
        params,
        queries,
    })
}

/// What an operation means, and what it and its parts are called. Notes its faults.
pub fn operation(
    alloc: Global,
    finder: &mut Finder,
    around: &Around<'_>,
    op: &OpDecl,
) -> Result<(Op, OpNames), AllocError>
    requires shape { IsOp (op_tree op.now) }
    requires few { HasFewParams (op_tree op.now) }
    requires sized { IsShortOp (op_tree op.now) }
    ensures faults { OnOk result
        (finder.new ≡ earliest finder.old (op_faults around.now (op_tree op.now))) }
    ensures meaning { IfOk result (λ r. op_rules r.0 ≡ op_meaning around.now (op_tree op.now)) }
    ensures names { IfOk result (λ r. r.1 ≡ op_names (op_tree op.now)) }
{
    let declared = Declared::new(alloc, op)?;
    let queries = declared.queries.as_slice();
    note_declared(alloc, finder, op, &declared)?;
    let params = op.params.as_slice();
    let start = body_scope(alloc, params)?;
    let mut scope = refinement_scope(alloc, op, &start, queries)?;
    let params = refinements(alloc, finder, around, &mut scope, params)?;
    let result = refinement(alloc, finder, around, &scope, true, &op.gives)?;
    let body = body(alloc, finder, around, start, &op.body)?;
    let names = names(alloc, op, queries)?;
    let meant = Op {
        params,
        result,
        body,
    };
    Ok((meant, names))
}
