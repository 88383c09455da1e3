ghost use Rattle.std.specs.Prelude.{◌≡◌, ◌≤◌, [], map, length, OnOk, IfOk, is_some, if◌then◌else◌};
ghost use Rattle.carol_syntax.specs.Bodies.{body_tree};
ghost use Rattle.carol_syntax.specs.Files.{param_tree, op_tree};
ghost use Rattle.carol_names.specs.Numbered.{most_numbers};
ghost use Rattle.carol_meaning.specs.Bodies.{queries_within};
ghost use Rattle.carol_meaning.specs.Scopes.{meaning_of, declared};
ghost use Rattle.carol_meaning.specs.Operations.{with_params, refinement_scope};
ghost use Rattle.carol_meaning.specs.declared.meaning.Meaning.TheVariants.{Elsewhere};

use crate::Scope;
use carol_meaning::Meaning;
use carol_syntax::{Ident, OpDecl, ParamDecl};
use std::alloc::{AllocError, Global};

/// What a body sees at its start: the parameters.
pub(crate) fn body_scope<'a>(
    alloc: Global,
    params: &'a [ParamDecl],
) -> Result<Scope<'a>, AllocError>
    requires { length params.now ≤ most_numbers }
    ensures { IfOk result (λ s. s ≡ with_params 0 [] (map param_tree params.entry.now)) }
{
    let mut scope = Scope::new(alloc);
    let mut number = 0;
    for param in params {
        scope.declare(param.name.word.bytes(), Meaning::Parameter { number })?;
        number += 1;
    }
    Ok(scope)
}

// A query's name more, unless a parameter has it.
fn declare_query<'a>(
    scope: &mut Scope<'a>,
    params: &Scope<'_>,
    name: &'a Ident,
) -> Result<(), AllocError>
    ensures { OnOk result (scope.new ≡
        (if is_some (meaning_of name.entry.now.word params.now) then scope.old
        else declared name.entry.now.word Elsewhere scope.old)) }
{
    if params.look(name.word.bytes()).is_some() {
        return Ok(());
    }
    scope.declare(name.word.bytes(), Meaning::Elsewhere)
}

/// What the first refinement sees but for its own parameter. The parameters are given as a scope,
/// and the body's queries as a list.
pub(crate) fn refinement_scope<'a>(
    alloc: Global,
    op: &'a OpDecl,
    params: &Scope<'_>,
    queries: &[&'a Ident],
) -> Result<Scope<'a>, AllocError>
    requires params { params.now ≡ with_params 0 [] (op_tree op.now).params }
    requires queries { map (λ i. i.now) queries.now ≡ queries_within (body_tree op.now.body) }
    ensures { IfOk result (λ s. s ≡ refinement_scope (op_tree op.entry.now)) }
{
    let mut scope = Scope::new(alloc);
    for name in queries {
        declare_query(&mut scope, params, name)?;
    }
    Ok(scope)
}
