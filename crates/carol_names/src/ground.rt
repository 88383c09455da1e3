use crate::Finder;
use carol_formula::Term;
use carol_syntax::ValueDecl;
use std::alloc::{AllocError, Global};

/// What the values of a place stand for.
pub trait Ground {
    ghost use Rattle.std.specs.Prelude.{◌≡◌, OnOk, IfOk, IfSome};
    ghost use Rattle.carol_syntax.specs.declared.formulas.ValueDecl.{ValueDecl};
    ghost use Rattle.carol_meaning.specs.Faults.{earliest};
    ghost use Rattle.carol_meaning.specs.Terms.{Look, worth_of, found_faults};
    ghost use Rattle.carol_names.specs.Bounded.{IsBounded, most_value};

    ghost look: { Self → Look };

    /// The term that the value is; none where it is at fault, or names a term that is.
    fn value(
        &self,
        alloc: Global,
        finder: &mut Finder,
        value: &ValueDecl,
    ) -> Result<Option<Term>, AllocError>
        ensures faults { OnOk result (finder.new
            ≡ earliest finder.old (found_faults ((look self.now).value value.now))) }
        ensures worth { IfOk result (λ t. t ≡ worth_of ((look self.now).value value.now)) }
        ensures bounded { IfOk result (λ t. IfSome t (IsBounded most_value)) };
}
