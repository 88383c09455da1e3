ghost use Rattle.std.specs.Prelude.{◌≡◌, ◌≤◌, ◌++◌, length, IfOk, OnOk};
ghost use Rattle.carol_accept.specs.Named.{op_text};
ghost use Rattle.carol_program.specs.Called.{queries_of};
ghost use Rattle.carol_program.specs.Limits.{most_queries};
ghost use Rattle.carol_program.specs.Rules.{rules_in};
ghost use Rattle.carol_program.specs.WellFormed.{AreRules};
ghost use Rattle.carol_advise_word.specs.Texts as text;
ghost use Rattle.carol_advise_word.specs.Texts.{
  query_line,
  query_lines,
  rejected_text,
  rejected_texts,
  spaced_names,
};

use carol_accept::{breach_text, push_name, push_text};
use carol_advise::{Advice, Rejected};
use carol_program::{Name, Names, Program};
use carol_text::push_integer;
use std::alloc::{AllocError, Global};

/// The text of an advice for the operation with this number.
#[tactic(auto, unfolding(crate::specs::Texts::advice_text))]
pub(crate) fn advice_text(
    alloc: Global,
    program: &Program,
    op: u32,
    advice: &Advice,
) -> Result<Vec<u8>, AllocError>
    requires rules { AreRules (rules_in program.now) }
    requires few { length advice.now.guards ≤ most_queries }
    ensures { IfOk result (λ bytes. bytes.items ≡ text.advice_text program.now op advice.now) }
{
    let mut out = Vec::new(alloc);
    push_text(&mut out, "advised ")?;
    push_op(&mut out, &program.names, op)?;
    push_text(&mut out, "\n")?;
    push_queries(&mut out, &program.names, op, advice.guards.as_slice())?;
    push_text(&mut out, "bars ")?;
    push_integer(&mut out, advice.bars)?;
    push_text(&mut out, "\n")?;
    push_all_rejected(alloc, &mut out, program, advice.rejected.as_slice())?;
    push_text(&mut out, "end\n")?;
    Ok(out)
}

// Appends the name of the operation, if there is one.
fn push_op(out: &mut Vec<u8>, names: &Names, op: u32) -> Result<(), AllocError>
    ensures { OnOk result (out.new.items ≡ out.old.items ++ op_text names.now op) }
{
    match names.ops.as_slice().get(op as usize) {
        Some(op) => out.extend_from_slice(op.own.bytes()),
        None => Ok(()),
    }
}

// The names of the operation's queries, by slot.
fn queries(names: &Names, op: u32) -> &[Name]
    ensures { result.now ≡ queries_of names.now op }
{
    match names.ops.as_slice().get(op as usize) {
        Some(op) => op.queries.as_slice(),
        None => &[],
    }
}

// Appends the guard of the query in this slot.
fn push_query(
    out: &mut Vec<u8>,
    names: &Names,
    op: u32,
    slot: u32,
    guard: u32,
) -> Result<(), AllocError>
    ensures { OnOk result (out.new.items ≡ out.old.items ++ query_line names.now op slot guard) }
{
    push_text(out, "query ")?;
    push_name(out, queries(names, op), slot)?;
    push_text(out, " under ")?;
    push_name(out, names.guards.as_slice(), guard)?;
    push_text(out, "\n")
}

// Appends those of all slots.
fn push_queries(out: &mut Vec<u8>, names: &Names, op: u32, guards: &[u32]) -> Result<(), AllocError>
    requires { length guards.now ≤ most_queries }
    ensures { OnOk result (out.new.items ≡ out.old.items ++ query_lines names.now op 0 guards.now) }
{
    for (slot, guard) in guards.iter().enumerate() {
        push_query(out, names, op, slot as u32, *guard)?;
    }
    Ok(())
}

// Appends the names of guards, each with a space before it.
fn push_spaced(out: &mut Vec<u8>, names: &Names, guards: &[u32]) -> Result<(), AllocError>
    ensures { OnOk result (out.new.items ≡ out.old.items ++ spaced_names names.now guards.now) }
{
    let mut left = guards;
    while let Some((guard, more)) = left.split_first() {
        push_text(out, " ")?;
        push_name(out, names.guards.as_slice(), *guard)?;
        left = more;
    }
    Ok(())
}

// Appends a rejected assignment with its breach.
#[tactic(auto, unfolding(crate::specs::Texts::rejected_text))]
fn push_rejected(
    alloc: Global,
    out: &mut Vec<u8>,
    program: &Program,
    rejected: &Rejected,
) -> Result<(), AllocError>
    requires { AreRules (rules_in program.now) }
    ensures { OnOk result (out.new.items ≡ out.old.items
        ++ rejected_text program.now rejected.now) }
{
    push_text(out, "rejected")?;
    push_spaced(out, &program.names, rejected.guards.as_slice())?;
    push_text(out, "\n")?;
    let breach = breach_text(alloc, program, &rejected.place, &rejected.at)?;
    out.extend_from_slice(breach.as_slice())
}

// Appends all of them.
fn push_all_rejected(
    alloc: Global,
    out: &mut Vec<u8>,
    program: &Program,
    rejected: &[Rejected],
) -> Result<(), AllocError>
    requires { AreRules (rules_in program.now) }
    ensures { OnOk result (out.new.items ≡ out.old.items
        ++ rejected_texts program.now rejected.now) }
{
    let mut left = rejected;
    while let Some((first, more)) = left.split_first() {
        push_rejected(alloc, out, program, first)?;
        left = more;
    }
    Ok(())
}
