ghost use Rattle.std.specs.Prelude.{◌≡◌, ◌≤◌, ◌++◌, length, map, IfOk};
ghost use Rattle.std.proofs.Common.{drop};
ghost use Rattle.carol_syntax.specs.Limits.{most_text_bytes};
ghost use Rattle.carol_syntax.specs.Tokens.{kind_of, token_of, AreTokens, AreOnly};

use crate::Span;
use crate::kind::Kind;
use crate::lexeme::{Lexeme, Stop, cut};
use sqlite_items::Items;
use std::alloc::{AllocError, Global};

/// What a token is.
#[derive(Clone, Copy, Debug, PartialEq, Eq)]
pub enum TokenKind {
    Name,
    Number,
    Symbol,
    Keyword,
}

/// A token: what it is, the place of its first byte, and its bytes from `from` to before `to`.
#[derive(Clone, Copy, Debug, PartialEq, Eq)]
pub struct Token {
    pub kind: TokenKind,
    pub span: Span,
    pub from: u32,
    pub to: u32,
}

/// Tokens in the order of the text.
pub type TokenList = Items<Token>;

/// The tokens of a text, and where cutting it stopped.
#[derive(Debug, Drop)]
pub struct Lexed {
    pub list: TokenList,
    pub stop: Stop,
}

fn token_kind(kind: Kind) -> TokenKind
    ensures { result ≡ kind_of kind }
{
    match kind {
        Kind::Name => TokenKind::Name,
        Kind::Number => TokenKind::Number,
        Kind::Semicolon
        | Kind::Colon
        | Kind::Comma
        | Kind::Dot
        | Kind::Opening
        | Kind::Closing
        | Kind::OpeningBrace
        | Kind::ClosingBrace
        | Kind::Equals
        | Kind::PlusEquals
        | Kind::MinusEquals
        | Kind::Plus
        | Kind::Minus
        | Kind::Star
        | Kind::AtMost
        | Kind::Below
        | Kind::AtLeast
        | Kind::Above
        | Kind::Differs => TokenKind::Symbol,
        _ => TokenKind::Keyword,
    }
}

fn make_token(lexeme: Lexeme) -> Token
    ensures { result ≡ token_of lexeme }
{
    Token {
        kind: token_kind(lexeme.kind),
        span: lexeme.span,
        from: lexeme.from,
        to: lexeme.to,
    }
}

fn all_tokens(alloc: Global, lexemes: &[Lexeme]) -> Result<TokenList, AllocError>
    ensures { IfOk result (λ list. list ≡ map token_of lexemes.now) }
{
    let mut list = Items::new(alloc);
    for lexeme in lexemes {
        list.push(make_token(*lexeme))?;
    }
    Ok(list)
}

/// The tokens of a text in order, the longest one each time, with spaces and comments left out.
/// `Bad` has the first byte that begins no token or, behind the word `transcript`, the place where
/// its line does not end.
pub fn tokens(alloc: Global, bytes: &[u8]) -> Result<Lexed, AllocError>
    requires { length bytes.now ≤ most_text_bytes }
    ensures cut { IfOk result (λ lexed. AreTokens bytes.now lexed.list lexed.stop) }
    ensures only { IfOk result (λ lexed. AreOnly bytes.now lexed.list lexed.stop) }
{
    let lexemes = cut(alloc, bytes)?;
    let list = all_tokens(alloc, lexemes.list.as_slice())?;
    Ok(Lexed {
        list,
        stop: lexemes.stop,
    })
}
