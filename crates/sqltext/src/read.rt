//! The steps that every rule of the grammar is made of.

ghost use Rattle.std.specs.Prelude.{◌≡◌, ◌<◌, length, MatchOption, Some, None};
ghost use Rattle.sqltext.specs.Reading as spec;
ghost use Rattle.sqltext.specs.Reading.{Gives};

use crate::error::{ParseError, refusal_at};
use crate::sequence::Sequence;
use crate::token::{Token, TokenKind, same_kind};
use std::alloc::Allocator;
use value::refusal::Code;

/// What is read, and the tokens after it.
pub type Read<'t, T> = Result<(T, &'t [Token]), ParseError>;

/// A refusal at the first of the tokens.
pub fn refused_at(tokens: &[Token]) -> ParseError
    ensures { result ≡ ParseError.Refused (spec.syntax_error tokens.now) }
{
    let place = match tokens {
        [token, ..] => token.start,
        [] => 0,
    };
    ParseError::Refused(refusal_at(Code::SyntaxError, place))
}

/// The tokens after one of a kind, if it comes first.
#[tactic(auto, unfolding(crate::specs::Reading::past))]
pub fn past(tokens: &[Token], kind: TokenKind) -> Option<&[Token]>
    ensures { MatchOption result (spec.past kind tokens.now ≡ None)
        (λ rest. spec.past kind tokens.now ≡ Some rest.now) }
{
    match tokens {
        [token, rest @ ..] if same_kind(token.kind, kind) => Some(rest),
        _ => None,
    }
}

/// The first token, which must be of a kind.
#[tactic(auto, unfolding(crate::specs::Reading::expect))]
pub fn expect(tokens: &[Token], kind: TokenKind) -> Read<'_, Token>
    ensures { Gives (λ x. (x.0, x.1.now)) result (spec.expect kind tokens.now) }
{
    match tokens {
        [token, rest @ ..] if same_kind(token.kind, kind) => Ok((*token, rest)),
        _ => Err(refused_at(tokens)),
    }
}

/// Requires that no tokens are left.
#[tactic(auto, unfolding(crate::specs::Reading::nothing_left))]
pub fn nothing_left(tokens: &[Token]) -> Result<(), ParseError>
    ensures { Gives (λ u. u) result (spec.nothing_left tokens.now) }
{
    match tokens {
        [] => Ok(()),
        _ => Err(refused_at(tokens)),
    }
}

/// What stands in lists.
pub trait Item: Copy + Drop {
    ghost use Rattle.std.specs.Prelude.{List, Result};
    ghost use Rattle.value.specs.declared.refusal.Refusal.{Refusal};
    ghost use Rattle.sqltext.specs.declared.token.Token.{Token};

    ghost reads: { List Token → Result (Self × List Token) Refusal };

    /// Reads one item.
    fn read(tokens: &[Token]) -> Result<(Self, &[Token]), ParseError>
        ensures { Gives (λ x. (x.0, x.1.now)) result (reads tokens.now) };
}

/// One or more items, with separators between.
#[tactic(auto, unfolding(crate::specs::Reading::list_of))]
pub fn list_of<T: Item, A: Allocator>(
    alloc: A,
    tokens: &[Token],
    separator: TokenKind,
) -> Result<(Sequence<T, A>, &[Token]), ParseError>
    ensures { Gives (λ x. (x.0, x.1.now)) result (spec.list_of separator T.reads tokens.now) }
{
    let mut items = Sequence::new(alloc);
    let (first, after_first) = T::read(tokens)?;
    items.push(first)?;
    let mut rest = after_first;
    let count = rest.len();
    for _ in 0..count {
        let Some(after) = past(rest, separator) else {
            return Ok((items, rest));
        };
        let (item, after) = T::read(after)?;
        items.push(item)?;
        rest = after;
    }
    Ok((items, rest))
}
