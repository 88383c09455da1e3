ghost use Rattle.std.specs.Prelude.{◌≡◌, ◌≤◌, Bool, false, map, length, OnOk, IfOk};
ghost use Rattle.std.specs.List.{AllByRecursion};
ghost use Rattle.carol_formula.specs.Tree.{claim_of};
ghost use Rattle.carol_syntax.specs.Files.{param_tree};
ghost use Rattle.carol_syntax.specs.Formulas.{formula_tree};
ghost use Rattle.carol_syntax.specs.Shape.{IsNamed, IsFormula};
ghost use Rattle.carol_names.specs.Numbered.{most_numbers};
ghost use Rattle.carol_meaning.specs.Sizes.{IsShortNamed, IsShortFormula};
ghost use Rattle.carol_meaning.specs.Faults.{earliest};
ghost use Rattle.carol_meaning.specs.Terms.{formula_meaning, formula_faults};
ghost use Rattle.carol_meaning.specs.Scopes.{declared, in_scope};
ghost use Rattle.carol_meaning.specs.Operations.{with_params, refinement_faults, refinements};
ghost use Rattle.carol_meaning.specs.declared.meaning.Meaning.TheVariants.{Parameter};

use crate::{Around, InScope, Scope};
use carol_formula::Formula;
use carol_meaning::Meaning;
use carol_names::{Finder, formula};
use carol_program::FormulaList;
use carol_syntax::{FormulaDecl, ParamDecl};
use std::alloc::{AllocError, Global};

/// What a refinement of an operation means, where these names can be used; `outcome` says whether
/// `result` can. Notes its faults.
pub(crate) fn refinement(
    alloc: Global,
    finder: &mut Finder,
    around: &Around<'_>,
    scope: &Scope<'_>,
    outcome: bool,
    refinement: &FormulaDecl,
) -> Result<Formula, AllocError>
    requires shape { IsFormula (formula_tree refinement.now) }
    requires sized { IsShortFormula (formula_tree refinement.now) }
    ensures faults { OnOk result (finder.new ≡ earliest finder.old (formula_faults
        (in_scope around.now.cells outcome scope.now) (formula_tree refinement.now))) }
    ensures meaning { IfOk result (λ f. claim_of f ≡ formula_meaning
        (in_scope around.now.cells outcome scope.now) (formula_tree refinement.now)) }
{
    let place = InScope::new(around.cells(), scope, outcome);
    let meant = formula(&place, alloc, finder, refinement)?;
    Ok(meant)
}

// The refinement of the parameter with this number, which sees those before it and its own. The
// parameter is one name more from there on.
fn param_refinement<'a>(
    alloc: Global,
    finder: &mut Finder,
    around: &Around<'_>,
    scope: &mut Scope<'a>,
    number: u32,
    param: &'a ParamDecl,
) -> Result<Formula, AllocError>
    requires number { number ≤ most_numbers }
    requires shape { IsNamed (param_tree param.now) }
    requires sized { IsShortNamed (param_tree param.now) }
    ensures scope { OnOk result
        (scope.new ≡ declared param.entry.now.name.word (Parameter number) scope.old) }
    ensures faults { OnOk result (finder.new ≡ earliest finder.old (formula_faults
        (in_scope around.now.cells false scope.new) (formula_tree param.entry.now.formula))) }
    ensures meaning { IfOk result (λ f. claim_of f ≡ formula_meaning
        (in_scope around.now.cells false scope.new) (formula_tree param.entry.now.formula)) }
{
    scope.declare(param.name.word.bytes(), Meaning::Parameter { number })?;
    refinement(alloc, finder, around, scope, false, &param.formula)
}

/// What the refinements of parameters mean, of which the first sees these names and its own. The
/// parameters are names more from there on. Notes the refinements' faults.
pub(crate) fn refinements<'a>(
    alloc: Global,
    finder: &mut Finder,
    around: &Around<'_>,
    scope: &mut Scope<'a>,
    params: &'a [ParamDecl],
) -> Result<FormulaList, AllocError>
    requires shape { AllByRecursion IsNamed (map param_tree params.now) }
    requires few { length params.now ≤ most_numbers }
    requires sized { AllByRecursion IsShortNamed (map param_tree params.now) }
    ensures scope { OnOk result
        (scope.new ≡ with_params 0 scope.old (map param_tree params.entry.now)) }
    ensures faults { OnOk result (finder.new ≡ earliest finder.old
        (refinement_faults around.now 0 scope.old (map param_tree params.entry.now))) }
    ensures meaning { IfOk result (λ fs. map claim_of fs ≡
        refinements around.now 0 scope.old (map param_tree params.entry.now)) }
{
    let mut list = FormulaList::new(alloc);
    let mut number = 0;
    for param in params {
        let meant = param_refinement(alloc, finder, around, scope, number, param)?;
        list.push(meant)?;
        number += 1;
    }
    Ok(list)
}
