ghost use Rattle.std.specs.Prelude.{◌≡◌, ◌≤◌, ◌+◌, ◌-◌, ◌^◌, ◌<◌, MatchOption};
ghost use Rattle.carol_syntax.specs.Limits.{most_formula_nodes};
ghost use Rattle.carol_grammar.specs.Limits.{is_name, is_let, is_size, counts_anew, begins_value, weight, nodes_with, depth_with, begins_line};
ghost use Rattle.carol_grammar.specs.Counts.{counts_with, IsWithin, IsLeastOver};

use crate::limit::TextLimit;
use carol_syntax::{Kind, MOST_BODY_DEPTH, MOST_FORMULA_NODES, MOST_SCRIPT_LINES};

/// What is counted over the tokens so far, and the kinds of the last two.
#[derive(Clone, Copy)]
pub struct Counts {
    pub nodes: u32,
    pub depth: u32,
    pub lines: u32,
    pub last: Option<Kind>,
    pub second: Option<Kind>,
}

fn is_a_name(kind: Option<Kind>) -> bool
    ensures { result ≡ is_name kind }
{
    matches!(kind, Some(Kind::Name))
}

fn is_a_let(kind: Option<Kind>) -> bool
    ensures { result ≡ is_let kind }
{
    matches!(kind, Some(Kind::Let))
}

fn is_a_size(kind: Option<Kind>) -> bool
    ensures { result ≡ is_size kind }
{
    matches!(kind, Some(Kind::Size))
}

// Whether a formula or a term begins behind the token, or none goes on.
#[tactic(auto, unfolding(crate::specs::Limits::counts_anew))]
fn starts_anew(kind: Kind, last: Option<Kind>, second: Option<Kind>) -> bool
    ensures { result ≡ counts_anew kind last second }
{
    match kind {
        Kind::Equals => is_a_name(last) && is_a_let(second),
        Kind::Colon
        | Kind::Invariant
        | Kind::Gives
        | Kind::If
        | Kind::Return
        | Kind::PlusEquals
        | Kind::MinusEquals
        | Kind::Raise
        | Kind::Semicolon
        | Kind::Comma
        | Kind::OpeningBrace
        | Kind::ClosingBrace => true,
        _ => false,
    }
}

// Whether a value that begins behind the last two tokens is counted by itself.
#[tactic(auto, unfolding(crate::specs::Limits::begins_value))]
fn starts_value(last: Option<Kind>, second: Option<Kind>) -> bool
    ensures { result ≡ begins_value last second }
{
    match last {
        Some(Kind::Star | Kind::Dot) => false,
        Some(Kind::Opening) => !is_a_size(second),
        _ => true,
    }
}

#[tactic(auto, unfolding(crate::specs::Limits::weight))]
fn token_weight(kind: Kind, last: Option<Kind>, second: Option<Kind>) -> u32
    ensures value { result ≡ weight kind last second }
    ensures small { result ≤ 1 }
{
    match kind {
        Kind::True
        | Kind::False
        | Kind::Not
        | Kind::And
        | Kind::Or
        | Kind::AtMost
        | Kind::Below
        | Kind::AtLeast
        | Kind::Above
        | Kind::Equals
        | Kind::Differs
        | Kind::Number => 1,
        Kind::Opening => u32::from(!is_a_size(last)),
        Kind::Name | Kind::Result | Kind::Here | Kind::There | Kind::Size => {
            u32::from(starts_value(last, second))
        }
        _ => 0,
    }
}

#[tactic(auto, unfolding(crate::specs::Limits::depth_with))]
fn depth_behind(depth: u32, kind: Kind) -> u32
    requires { depth < 2 ^ 32 - 1 }
    ensures { result ≡ depth_with depth kind }
{
    match kind {
        Kind::OpeningBrace => depth + 1,
        Kind::ClosingBrace => depth.saturating_sub(1),
        _ => depth,
    }
}

#[tactic(auto, unfolding(crate::specs::Limits::begins_line))]
fn starts_line(kind: Kind) -> bool
    ensures { result ≡ begins_line kind }
{
    matches!(kind, Kind::Go | Kind::Gossip | Kind::Cut | Kind::Join)
}

fn nodes_behind(counts: Counts, kind: Kind) -> u32
    requires { counts.nodes ≤ most_formula_nodes }
    ensures { result ≡ nodes_with counts.nodes kind counts.last counts.second }
{
    if starts_anew(kind, counts.last, counts.second) {
        return 0;
    }
    counts.nodes + token_weight(kind, counts.last, counts.second)
}

/// The counts with one more token.
pub fn count_one(counts: Counts, kind: Kind) -> Counts
    requires { IsWithin counts }
    ensures { result ≡ counts_with counts kind }
{
    Counts {
        nodes: nodes_behind(counts, kind),
        depth: depth_behind(counts.depth, kind),
        lines: counts.lines + u32::from(starts_line(kind)),
        last: Some(kind),
        second: counts.last,
    }
}

/// The first limit, in the order of limits, that one of the counts is over.
pub fn least_over(counts: Counts) -> Option<TextLimit>
    ensures { MatchOption result (IsWithin counts) (IsLeastOver counts) }
{
    if counts.nodes > MOST_FORMULA_NODES {
        return Some(TextLimit::FormulaNodes);
    }
    if counts.depth > MOST_BODY_DEPTH {
        return Some(TextLimit::BodyDepth);
    }
    if counts.lines > MOST_SCRIPT_LINES {
        return Some(TextLimit::ScriptLines);
    }
    None
}
