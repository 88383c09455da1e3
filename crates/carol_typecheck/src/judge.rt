ghost use Rattle.std.specs.Prelude.{◌≡◌, IfOk};
ghost use Rattle.carol_formula.specs.Tree.{claim_of};
ghost use Rattle.carol_obligation.specs.Budget.{IsDecidable};
ghost use Rattle.carol_obligation.specs.Listed.{owed_in};
ghost use Rattle.carol_obligation.specs.Keeping.{AreDecidable};
ghost use Rattle.carol_typecheck.specs.Deciding.{IsJudged, first_of};
ghost use Rattle.carol_typecheck.specs.Formulas.{IsVerdictOn};

use crate::aims::Aims;
use crate::verdict::Verdict;
use carol_decide::{Answer, MOST_LEAVES, decide, nearer};
use carol_obligation::Obligation;
use rayon::prelude::*;
use std::alloc::{AllocError, Global};
use std::thread::Threads;

// Into how many pieces obligations are cut at the most.
const MOST_PIECES: usize = 32;

/// The verdict on one formula: it is proved where its denial is refuted.
pub(crate) fn judge(
    alloc: Global,
    aims: Aims<'_>,
    obligation: &Obligation,
) -> Result<Verdict, AllocError>
    requires { IsDecidable (claim_of obligation.now.formula) }
    ensures { IfOk result (IsJudged obligation.now) }
{
    let denial = obligation.formula.denial_form(alloc)?;
    match decide(alloc, &denial, MOST_LEAVES)? {
        Answer::Unsat(_) => Ok(Verdict::Good),
        Answer::Sat(at) => {
            let wishes = aims.wishes(alloc, obligation.place)?;
            let at = nearer(&denial, at, &wishes)?;
            Ok(Verdict::Fails(obligation.place, at))
        }
        Answer::Undecided(why) => Ok(Verdict::Undecided(obligation.place, why)),
    }
}

/// The verdict on all of these formulas, which are decided one after another.
pub(crate) fn judge_all(
    alloc: Global,
    aims: Aims<'_>,
    obligations: &[Obligation],
) -> Result<Verdict, AllocError>
    requires { AreDecidable obligations.now }
    ensures { IfOk result (IsVerdictOn (owed_in obligations.now)) }
{
    let mut left = obligations;
    while let Some((first, more)) = left.split_first() {
        let verdict = judge(alloc, aims, first)?;
        if !verdict.is_good() {
            return Ok(verdict);
        }
        left = more;
    }
    Ok(Verdict::Good)
}

/// The same verdict, where the formulas are cut into pieces that are decided side by side. What no
/// thread can be started for is decided by the caller.
pub(crate) fn judge_shared<R: Threads + Sync>(
    rt: &R,
    alloc: Global,
    aims: Aims<'_>,
    obligations: &[Obligation],
) -> Result<Verdict, AllocError>
    requires { AreDecidable obligations.now }
    ensures { IfOk result (IsVerdictOn (owed_in obligations.now)) }
{
    let size = obligations.len() / MOST_PIECES + 1;
    let answers = obligations
        .par_chunks(size)
        .with_min_len(1)
        .map(
            |piece: &[Obligation]| -> Result<Verdict, AllocError>
                requires { AreDecidable piece.now }
                ensures { IfOk result (IsVerdictOn (owed_in piece.now)) }
            { judge_all(alloc, aims, piece) },
        )
        .collect::<Vec<_>>(rt, alloc)?;
    first_of(answers)
}

// The first of the answers that isn't good.
fn first_of(answers: Vec<Result<Verdict, AllocError>>) -> Result<Verdict, AllocError>
    ensures { result ≡ first_of answers.items }
{
    for answer in answers {
        match answer {
            Ok(Verdict::Good) => {}
            other => return other,
        }
    }
    Ok(Verdict::Good)
}
