ghost use Rattle.std.specs.Prelude.{◌≡◌, ◌++◌, OnOk, [], ◌∷◌, codes};
ghost use Rattle.carol_print.specs.Pieces.{text_of, Space};
ghost use Rattle.carol_print.specs.Canonical as canon;

use crate::printed::{Printed, push_text};
use carol_syntax::{Ident, ProductDecl, TermDecl, ValueDecl, ValueKind};
use carol_text::push_integer;
use std::alloc::AllocError;

/// Appends the names with dots between them.
pub fn push_path(out: &mut Vec<u8>, parts: &[Ident]) -> Result<(), AllocError>
    ensures { OnOk result (out.new.items ≡ out.old.items ++ text_of (canon.path parts.now)) }
{
    let Some((first, more)) = parts.split_first() else {
        return Ok(());
    };
    first.push_to(out)?;
    for part in more {
        push_text(out, ".")?;
        part.push_to(out)?;
    }
    Ok(())
}

// Appends the names behind a word with its dot.
fn push_led(out: &mut Vec<u8>, word: &str, parts: &[Ident]) -> Result<(), AllocError>
    ensures { OnOk result
        (out.new.items ≡ out.old.items ++ (word.now ++ text_of (canon.path parts.now))) }
{
    push_text(out, word)?;
    push_path(out, parts)
}

// Appends `size` of the names behind a word.
fn push_sized(out: &mut Vec<u8>, word: &str, parts: &[Ident]) -> Result<(), AllocError>
    ensures { OnOk result (out.new.items ≡ out.old.items
        ++ (codes "size(" ++ (word.now ++ (text_of (canon.path parts.now) ++ codes ")")))) }
{
    push_text(out, "size(")?;
    push_led(out, word, parts)?;
    push_text(out, ")")
}

// Appends a value.
#[tactic(auto, using(crate::proofs::LaidLists::text_of_both))]
fn push_value(out: &mut Vec<u8>, value: &ValueDecl) -> Result<(), AllocError>
    ensures { OnOk result (out.new.items ≡ out.old.items ++ text_of (canon.value value.now)) }
{
    let parts = value.parts.as_slice();
    match value.kind {
        ValueKind::Outcome => push_text(out, "result"),
        ValueKind::Plain => push_path(out, parts),
        ValueKind::Here => push_led(out, "here.", parts),
        ValueKind::There => push_led(out, "there.", parts),
        ValueKind::Size => push_sized(out, "", parts),
        ValueKind::SizeHere => push_sized(out, "here.", parts),
        ValueKind::SizeThere => push_sized(out, "there.", parts),
    }
}

// Appends a product without its sign.
fn push_product(out: &mut Vec<u8>, product: &ProductDecl) -> Result<(), AllocError>
    ensures { OnOk result (out.new.items ≡ out.old.items ++ text_of (canon.product product.now)) }
{
    if let Some(factor) = product.factor {
        push_integer(out, factor)?;
        let Some(value) = &product.value else {
            return Ok(());
        };
        push_text(out, "*")?;
        return push_value(out, value);
    }
    match &product.value {
        Some(value) => push_value(out, value),
        None => Ok(()),
    }
}

// Appends the first product with its sign.
fn push_first(out: &mut Vec<u8>, product: &ProductDecl) -> Result<(), AllocError>
    ensures { OnOk result (out.new.items ≡ out.old.items
        ++ text_of (canon.first_sign product.now.minus ++ canon.product product.now)) }
{
    if product.minus {
        push_text(out, "-")?;
        return push_product(out, product);
    }
    push_product(out, product)
}

// Appends a further product behind its sign.
fn push_next(out: &mut Vec<u8>, product: &ProductDecl) -> Result<(), AllocError>
    ensures { OnOk result (out.new.items ≡ out.old.items ++ text_of
        (Space ∷ canon.added_sign product.now.minus ∷ Space ∷ canon.product product.now)) }
{
    if product.minus {
        push_text(out, " - ")?;
        return push_product(out, product);
    }
    push_text(out, " + ")?;
    push_product(out, product)
}

// Appends the products with their signs.
fn push_products(out: &mut Vec<u8>, products: &[ProductDecl]) -> Result<(), AllocError>
    ensures { OnOk result (out.new.items ≡ out.old.items ++ text_of (canon.sum_of products.now)) }
{
    let Some((first, more)) = products.split_first() else {
        return Ok(());
    };
    push_first(out, first)?;
    for product in more {
        push_next(out, product)?;
    }
    Ok(())
}

/// Appends a term.
pub fn push_term(out: &mut Vec<u8>, term: &TermDecl) -> Result<(), AllocError>
    ensures { OnOk result (out.new.items ≡ out.old.items ++ text_of (canon.term term.now)) }
{
    push_products(out, term.products.as_slice())
}
