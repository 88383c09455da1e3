ghost use Rattle.std.specs.Prelude.{◌≡◌, ◌++◌, ◌∷◌, [], map, OnOk, IfOk};
ghost use Rattle.carol_syntax.specs.Bodies.{body_tree};
ghost use Rattle.carol_syntax.specs.Files.{op_tree};
ghost use Rattle.carol_meaning.specs.Faults.{earliest};
ghost use Rattle.carol_meaning.specs.Bodies.{names_along, queries_named, names_within, queries_within};
ghost use Rattle.carol_meaning.specs.Operations.{op_declared, declared_faults};

use carol_names::{Finder, note_too_many, note_twice};
use carol_syntax::{Body, Ident, Last, OpDecl, Statement};
use std::alloc::{AllocError, Global};

/// The most parameters of an operation.
const MOST_PARAMS: usize = 16;

/// The most queries of an operation.
const MOST_QUERIES: usize = 8;

/// Names that an operation declares, in the order of the text: all, and those of its queries.
#[derive(Drop)]
pub(crate) struct Declared<'a> {
    pub names: Vec<&'a Ident>,
    pub queries: Vec<&'a Ident>,
}

impl<'a> Declared<'a> {
    /// The names of an operation.
    pub fn new(alloc: Global, op: &'a OpDecl) -> Result<Declared<'a>, AllocError>
        ensures names { IfOk result (λ d.
            map (λ i. i.now) d.names.items ≡ op_declared (op_tree op.entry.now)) }
        ensures queries { IfOk result (λ d.
            map (λ i. i.now) d.queries.items ≡ queries_within (body_tree op.entry.now.body)) }
    {
        let mut names = Vec::new(alloc);
        for param in op.params.as_slice() {
            names.push(&param.name)?;
        }
        let queries = Vec::new(alloc);
        let mut declared = Declared { names, queries };
        declared.push_body(&op.body)?;
        Ok(declared)
    }

    // The names of a body and of its branches behind those before.
    fn push_body(&mut self, body: &'a Body) -> Result<(), AllocError>
        ensures names { OnOk result (map (λ i. i.now) self.new.names.items ≡
            map (λ i. i.now) self.old.names.items ++ names_within (body_tree body.entry.now)) }
        ensures queries { OnOk result (map (λ i. i.now) self.new.queries.items ≡
            map (λ i. i.now) self.old.queries.items ++ queries_within (body_tree body.entry.now)) }
    {
        self.push_along(body.plain.as_slice())?;
        match body.last.get() {
            Last::Return(_) => Ok(()),
            Last::If { test: _, yes, no } => {
                self.push_body(yes)?;
                self.push_body(no)?;
                Ok(())
            }
        }
    }

    // The names of statements behind those before.
    fn push_along(&mut self, plain: &'a [Statement]) -> Result<(), AllocError>
        ensures names { OnOk result (map (λ i. i.now) self.new.names.items ≡
            map (λ i. i.now) self.old.names.items ++ names_along plain.entry.now) }
        ensures queries { OnOk result (map (λ i. i.now) self.new.queries.items ≡
            map (λ i. i.now) self.old.queries.items ++ queries_named plain.entry.now) }
    {
        for statement in plain {
            self.push_statement(statement)?;
        }
        Ok(())
    }

    // The name of a statement, if it has one, behind those before.
    fn push_statement(&mut self, statement: &'a Statement) -> Result<(), AllocError>
        ensures names { OnOk result (map (λ i. i.now) self.new.names.items ≡
            map (λ i. i.now) self.old.names.items ++ names_along (statement.entry.now ∷ [])) }
        ensures queries { OnOk result (map (λ i. i.now) self.new.queries.items ≡
            map (λ i. i.now) self.old.queries.items ++ queries_named (statement.entry.now ∷ [])) }
    {
        match statement {
            Statement::Query { name, guard: _ } => {
                self.names.push(name)?;
                self.queries.push(name)?;
                Ok(())
            }
            Statement::Let { name, term: _ } => {
                self.names.push(name)?;
                Ok(())
            }
            Statement::Release | Statement::Issue(_) => Ok(()),
        }
    }
}

/// Notes what is wrong with the names that an operation declares, which are these.
pub(crate) fn note_declared(
    alloc: Global,
    finder: &mut Finder,
    op: &OpDecl,
    declared: &Declared<'_>,
) -> Result<(), AllocError>
    requires names { map (λ i. i.now) declared.now.names.items ≡ op_declared (op_tree op.now) }
    requires queries { map (λ i. i.now) declared.now.queries.items ≡
        queries_within (body_tree op.now.body) }
    ensures { OnOk result (finder.new ≡ earliest finder.old (declared_faults (op_tree op.now))) }
{
    note_twice(alloc, finder, declared.names.as_slice())?;
    note_too_many(alloc, finder, MOST_PARAMS, op.params.as_slice())?;
    note_too_many(alloc, finder, MOST_QUERIES, declared.queries.as_slice())?;
    Ok(())
}
