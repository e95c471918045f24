//! The grammar of statements: each function reads one of its rules.

ghost use Rattle.std.specs.Prelude.{◌≡◌, [], Ok, None, Some};
ghost use Rattle.sqltext.specs.Grammar as spec;
ghost use Rattle.sqltext.specs.Reading.{Gives, list_of as list_of_items, expect as expects};

use crate::error::ParseError;
use crate::read::{Item, expect, list_of, nothing_left, past, refused_at};
use crate::sequence::Sequence;
use crate::token::{Token, TokenKind};
use crate::tree::{Literal, Name, Setting, Shown, Test, Tree};
use statement::condition::Comparison;
use std::alloc::Allocator;

#[tactic(auto, unfolding(crate::specs::Grammar::name))]
pub fn name(tokens: &[Token]) -> Result<(Name, &[Token]), ParseError>
    ensures { Gives (λ x. (x.0, x.1.now)) result (spec.name tokens.now) }
{
    let (token, rest) = expect(tokens, TokenKind::Name)?;
    Ok((Name(token), rest))
}

// `+` or `-`
#[tactic(auto, unfolding(crate::specs::Grammar::sign))]
fn sign(tokens: &[Token]) -> Result<(Token, &[Token]), ParseError>
    ensures { Gives (λ x. (x.0, x.1.now)) result (spec.sign tokens.now) }
{
    if past(tokens, TokenKind::Plus).is_some() {
        expect(tokens, TokenKind::Plus)
    } else {
        expect(tokens, TokenKind::Minus)
    }
}

#[tactic(auto, unfolding(crate::specs::Grammar::signed))]
fn signed(tokens: &[Token]) -> Result<(Literal, &[Token]), ParseError>
    ensures { Gives (λ x. (x.0, x.1.now)) result (spec.signed tokens.now) }
{
    let (sign, rest) = sign(tokens)?;
    let (number, rest) = expect(rest, TokenKind::Number)?;
    Ok((Literal::Signed(sign, number), rest))
}

#[tactic(auto, unfolding(crate::specs::Grammar::literal))]
fn literal(tokens: &[Token]) -> Result<(Literal, &[Token]), ParseError>
    ensures { Gives (λ x. (x.0, x.1.now)) result (spec.literal tokens.now) }
{
    match tokens {
        [token, rest @ ..] if token.is(TokenKind::Null) => Ok((Literal::Null(*token), rest)),
        [token, rest @ ..] if token.is(TokenKind::Number) => Ok((Literal::Number(*token), rest)),
        [token, rest @ ..] if token.is(TokenKind::Quoted) => Ok((Literal::Quoted(*token), rest)),
        _ => signed(tokens),
    }
}

fn comparison_of(kind: TokenKind) -> Option<Comparison>
    ensures { result ≡ spec.comparison_of kind }
{
    match kind {
        TokenKind::Equal => Some(Comparison::Equal),
        TokenKind::NotEqual => Some(Comparison::NotEqual),
        TokenKind::Less => Some(Comparison::Less),
        TokenKind::LessOrEqual => Some(Comparison::LessOrEqual),
        TokenKind::Greater => Some(Comparison::Greater),
        TokenKind::GreaterOrEqual => Some(Comparison::GreaterOrEqual),
        _ => None,
    }
}

#[tactic(auto, unfolding(crate::specs::Grammar::comparison))]
fn comparison(tokens: &[Token]) -> Result<(Comparison, &[Token]), ParseError>
    ensures { Gives (λ x. (x.0, x.1.now)) result (spec.comparison tokens.now) }
{
    let [token, rest @ ..] = tokens else {
        return Err(refused_at(tokens));
    };
    match comparison_of(token.kind) {
        Some(comparison) => Ok((comparison, rest)),
        None => Err(refused_at(tokens)),
    }
}

// `BETWEEN` is read: two literals with AND between.
#[tactic(auto, unfolding(crate::specs::Grammar::between))]
fn between(column: Name, tokens: &[Token]) -> Result<(Test, &[Token]), ParseError>
    ensures { Gives (λ x. (x.0, x.1.now)) result (spec.between column tokens.now) }
{
    let (low, rest) = literal(tokens)?;
    let (_, rest) = expect(rest, TokenKind::And)?;
    let (high, rest) = literal(rest)?;
    Ok((Test::Between(column, low, high), rest))
}

// `IS` is read: NULL or NOT NULL.
#[tactic(auto, unfolding(crate::specs::Grammar::nullness))]
fn nullness(column: Name, tokens: &[Token]) -> Result<(Test, &[Token]), ParseError>
    ensures { Gives (λ x. (x.0, x.1.now)) result (spec.nullness column tokens.now) }
{
    if let Some(rest) = past(tokens, TokenKind::Not) {
        let (_, rest) = expect(rest, TokenKind::Null)?;
        Ok((Test::IsNotNull(column), rest))
    } else {
        let (_, rest) = expect(tokens, TokenKind::Null)?;
        Ok((Test::IsNull(column), rest))
    }
}

#[tactic(auto, unfolding(crate::specs::Grammar::compared))]
fn compared(column: Name, tokens: &[Token]) -> Result<(Test, &[Token]), ParseError>
    ensures { Gives (λ x. (x.0, x.1.now)) result (spec.compared column tokens.now) }
{
    let (comparison, rest) = comparison(tokens)?;
    let (literal, rest) = literal(rest)?;
    Ok((Test::Compare(column, comparison, literal), rest))
}

#[tactic(auto, unfolding(crate::specs::Grammar::condition))]
fn condition(tokens: &[Token]) -> Result<(Test, &[Token]), ParseError>
    ensures { Gives (λ x. (x.0, x.1.now)) result (spec.condition tokens.now) }
{
    let (column, rest) = name(tokens)?;
    if let Some(rest) = past(rest, TokenKind::Between) {
        between(column, rest)
    } else if let Some(rest) = past(rest, TokenKind::Is) {
        nullness(column, rest)
    } else {
        compared(column, rest)
    }
}

// `=` is read, and a name follows: a column and a number added to it, or taken from it.
#[tactic(auto, unfolding(crate::specs::Grammar::sum))]
fn sum(column: Name, tokens: &[Token]) -> Result<(Setting, &[Token]), ParseError>
    ensures { Gives (λ x. (x.0, x.1.now)) result (spec.sum column tokens.now) }
{
    let (source, rest) = name(tokens)?;
    let (sign, rest) = sign(rest)?;
    let (number, rest) = expect(rest, TokenKind::Number)?;
    Ok((Setting::Sum(column, source, sign, number), rest))
}

#[tactic(auto, unfolding(crate::specs::Grammar::set_to))]
fn set_to(column: Name, tokens: &[Token]) -> Result<(Setting, &[Token]), ParseError>
    ensures { Gives (λ x. (x.0, x.1.now)) result (spec.set_to column tokens.now) }
{
    if past(tokens, TokenKind::Name).is_some() {
        sum(column, tokens)
    } else {
        let (literal, rest) = literal(tokens)?;
        Ok((Setting::Literal(column, literal), rest))
    }
}

#[tactic(auto, unfolding(crate::specs::Grammar::setting))]
fn setting(tokens: &[Token]) -> Result<(Setting, &[Token]), ParseError>
    ensures { Gives (λ x. (x.0, x.1.now)) result (spec.setting tokens.now) }
{
    let (column, rest) = name(tokens)?;
    let (_, rest) = expect(rest, TokenKind::Equal)?;
    set_to(column, rest)
}

impl Item for Name {
    ghost use Rattle.sqltext.specs.Grammar.{name};

    ghost reads = { name };

    fn read(tokens: &[Token]) -> Result<(Name, &[Token]), ParseError> {
        name(tokens)
    }
}

impl Item for Literal {
    ghost use Rattle.sqltext.specs.Grammar.{literal};

    ghost reads = { literal };

    fn read(tokens: &[Token]) -> Result<(Literal, &[Token]), ParseError> {
        literal(tokens)
    }
}

impl Item for Setting {
    ghost use Rattle.sqltext.specs.Grammar.{setting};

    ghost reads = { setting };

    fn read(tokens: &[Token]) -> Result<(Setting, &[Token]), ParseError> {
        setting(tokens)
    }
}

impl Item for Test {
    ghost use Rattle.sqltext.specs.Grammar.{condition};

    ghost reads = { condition };

    fn read(tokens: &[Token]) -> Result<(Test, &[Token]), ParseError> {
        condition(tokens)
    }
}

// The conditions of a WHERE, if there is one.
#[tactic(auto, unfolding(crate::specs::Grammar::conditions))]
fn conditions<A: Allocator>(
    alloc: A,
    tokens: &[Token],
) -> Result<(Sequence<Test, A>, &[Token]), ParseError>
    ensures { Gives (λ x. (x.0, x.1.now)) result (spec.conditions tokens.now) }
{
    match past(tokens, TokenKind::Where) {
        Some(rest) => list_of(alloc, rest, TokenKind::And),
        None => Ok((Sequence::new(alloc), tokens)),
    }
}

// `COUNT` is read: `(*)`.
#[tactic(auto, unfolding(crate::specs::Grammar::count))]
fn count<A: Allocator>(tokens: &[Token]) -> Result<(Shown<A>, &[Token]), ParseError>
    ensures { Gives (λ x. (x.0, x.1.now)) result (spec.count tokens.now) }
{
    let (_, rest) = expect(tokens, TokenKind::Open)?;
    let (_, rest) = expect(rest, TokenKind::Star)?;
    let (_, rest) = expect(rest, TokenKind::Close)?;
    Ok((Shown::Count, rest))
}

#[tactic(auto, unfolding(crate::specs::Grammar::shown))]
fn shown<A: Allocator>(alloc: A, tokens: &[Token]) -> Result<(Shown<A>, &[Token]), ParseError>
    ensures { Gives (λ x. (x.0, x.1.now)) result (spec.shown tokens.now) }
{
    if let Some(rest) = past(tokens, TokenKind::Star) {
        return Ok((Shown::All, rest));
    }
    if let Some(rest) = past(tokens, TokenKind::Count) {
        return count(rest);
    }
    let (names, rest) = list_of(alloc, tokens, TokenKind::Comma)?;
    Ok((Shown::Columns(names), rest))
}

#[tactic(auto, unfolding(crate::specs::Grammar::select))]
fn select<A: Allocator + Copy>(
    alloc: A,
    tokens: &[Token],
) -> Result<(Tree<A>, &[Token]), ParseError>
    ensures { Gives (λ x. (x.0, x.1.now)) result (spec.select tokens.now) }
{
    let (shown, rest) = shown(alloc, tokens)?;
    let (_, rest) = expect(rest, TokenKind::From)?;
    let (table, rest) = name(rest)?;
    let (conditions, rest) = conditions(alloc, rest)?;
    Ok((Tree::Select(shown, table, conditions), rest))
}

#[tactic(auto, unfolding(crate::specs::Grammar::insert))]
fn insert<A: Allocator>(alloc: A, tokens: &[Token]) -> Result<(Tree<A>, &[Token]), ParseError>
    ensures { Gives (λ x. (x.0, x.1.now)) result (spec.insert tokens.now) }
{
    let (_, rest) = expect(tokens, TokenKind::Into)?;
    let (table, rest) = name(rest)?;
    let (values, rest) = expect(rest, TokenKind::Values)?;
    let (_, rest) = expect(rest, TokenKind::Open)?;
    let (literals, rest) = list_of(alloc, rest, TokenKind::Comma)?;
    let (_, rest) = expect(rest, TokenKind::Close)?;
    Ok((Tree::Insert(table, values, literals), rest))
}

#[tactic(auto, unfolding(crate::specs::Grammar::update))]
fn update<A: Allocator + Copy>(
    alloc: A,
    tokens: &[Token],
) -> Result<(Tree<A>, &[Token]), ParseError>
    ensures { Gives (λ x. (x.0, x.1.now)) result (spec.update tokens.now) }
{
    let (table, rest) = name(tokens)?;
    let (_, rest) = expect(rest, TokenKind::Set)?;
    let (settings, rest) = list_of(alloc, rest, TokenKind::Comma)?;
    let (conditions, rest) = conditions(alloc, rest)?;
    Ok((Tree::Update(table, settings, conditions), rest))
}

#[tactic(auto, unfolding(crate::specs::Grammar::delete))]
fn delete<A: Allocator>(alloc: A, tokens: &[Token]) -> Result<(Tree<A>, &[Token]), ParseError>
    ensures { Gives (λ x. (x.0, x.1.now)) result (spec.delete tokens.now) }
{
    let (_, rest) = expect(tokens, TokenKind::From)?;
    let (table, rest) = name(rest)?;
    let (conditions, rest) = conditions(alloc, rest)?;
    Ok((Tree::Delete(table, conditions), rest))
}

#[tactic(auto, unfolding(crate::specs::Grammar::statement))]
fn statement<A: Allocator + Copy>(
    alloc: A,
    tokens: &[Token],
) -> Result<(Tree<A>, &[Token]), ParseError>
    ensures { Gives (λ x. (x.0, x.1.now)) result (spec.statement tokens.now) }
{
    if let Some(rest) = past(tokens, TokenKind::Select) {
        select(alloc, rest)
    } else if let Some(rest) = past(tokens, TokenKind::Insert) {
        insert(alloc, rest)
    } else if let Some(rest) = past(tokens, TokenKind::Update) {
        update(alloc, rest)
    } else {
        let (_, rest) = expect(tokens, TokenKind::Delete)?;
        delete(alloc, rest)
    }
}

// A semicolon, if there is one, and the end of the text.
#[tactic(auto, unfolding(crate::specs::Grammar::ending))]
fn ending(tokens: &[Token]) -> Result<(Token, &[Token]), ParseError>
    ensures { Gives (λ x. (x.0, x.1.now)) result (spec.ending tokens.now) }
{
    match past(tokens, TokenKind::Semicolon) {
        Some(rest) => expect(rest, TokenKind::End),
        None => expect(tokens, TokenKind::End),
    }
}

/// The statement that the tokens say, all of them.
#[tactic(auto, unfolding(crate::specs::Grammar::whole))]
pub fn whole<A: Allocator + Copy>(alloc: A, tokens: &[Token]) -> Result<Tree<A>, ParseError>
    ensures { Gives (λ tree. tree) result (spec.whole tokens.now) }
{
    let (tree, rest) = statement(alloc, tokens)?;
    let (_, rest) = ending(rest)?;
    nothing_left(rest)?;
    Ok(tree)
}
