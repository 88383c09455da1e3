ghost use Rattle.std.specs.Prelude.{◌≤◌, ◌^◌, length, IfSome};
ghost use Rattle.carol_decide.specs.Piece.{claim_of_piece, claims_in};
ghost use Rattle.carol_decide.specs.Forks.{IsKind, IsNext};

use crate::piece::Piece;
use carol_formula::Formula;

/// What is to be done with a formula.
#[derive(Clone, Copy)]
pub enum Kind<'a> {
    /// It is `False`.
    Absurd,
    /// It is an `And` of these parts.
    Joined(Piece<'a>, Piece<'a>),
    /// It is an `Or` or a `Ne` with these sides.
    Either(Piece<'a>, Piece<'a>),
    /// It is `True` or a row.
    Plain,
}

/// What is to be done with the formulas at a place.
#[derive(Clone, Copy)]
pub enum Next<'a> {
    /// The formula with the number is `False`.
    Close(u32),
    /// The formula with the number is an `And`.
    Part {
        at: u32,
        whole: Piece<'a>,
        left: Piece<'a>,
        right: Piece<'a>,
    },
    /// The formula with the number is an `Or` or a `Ne`.
    Split {
        at: u32,
        whole: Piece<'a>,
        low: Piece<'a>,
        high: Piece<'a>,
    },
    /// Nothing is left to be taken apart.
    Settle,
}

// What is to be done with the formula. A `Not` counts as plain.
fn kind_of<'a>(piece: &Piece<'a>) -> Kind<'a>
    ensures { IsKind (claim_of_piece piece.now) result }
{
    match piece {
        Piece::Whole(Formula::False) => Kind::Absurd,
        Piece::Whole(Formula::And(left, right)) => {
            Kind::Joined(Piece::Whole(left.get()), Piece::Whole(right.get()))
        }
        Piece::Whole(Formula::Or(low, high)) => {
            Kind::Either(Piece::Whole(low.get()), Piece::Whole(high.get()))
        }
        Piece::Whole(Formula::Ne(term)) => {
            Kind::Either(Piece::Negative(term), Piece::Positive(term))
        }
        _ => Kind::Plain,
    }
}

// The first `False` or `And` of the formulas from one number on.
fn urgent<'a>(pieces: &[Piece<'a>], from: u32) -> Option<Next<'a>>
    requires { length pieces.now ≤ 2 ^ 32 }
    ensures { IfSome result (IsNext (claims_in pieces.now)) }
{
    for at in from as usize..pieces.len() {
        let whole = pieces[at];
        match kind_of(&whole) {
            Kind::Absurd => return Some(Next::Close(at as u32)),
            Kind::Joined(left, right) => {
                return Some(Next::Part {
                    at: at as u32,
                    whole,
                    left,
                    right,
                });
            }
            _ => {}
        }
    }
    None
}

// The first formula that is `False` or can be taken apart.
fn first<'a>(pieces: &[Piece<'a>]) -> Next<'a>
    requires { length pieces.now ≤ 2 ^ 32 }
    ensures { IsNext (claims_in pieces.now) result }
{
    for at in 0..pieces.len() {
        let whole = pieces[at];
        match kind_of(&whole) {
            Kind::Absurd => return Next::Close(at as u32),
            Kind::Joined(left, right) => {
                return Next::Part {
                    at: at as u32,
                    whole,
                    left,
                    right,
                };
            }
            Kind::Either(low, high) => {
                return Next::Split {
                    at: at as u32,
                    whole,
                    low,
                    high,
                };
            }
            Kind::Plain => {}
        }
    }
    Next::Settle
}

/// What is to be done next at a place. Where each `And` is taken apart before a side is taken, the
/// first one that is left isn't before `from`.
pub fn next_at<'a>(pieces: &[Piece<'a>], from: u32) -> Next<'a>
    requires { length pieces.now ≤ 2 ^ 32 }
    ensures { IsNext (claims_in pieces.now) result }
{
    match urgent(pieces, from) {
        Some(next) => next,
        None => first(pieces),
    }
}
