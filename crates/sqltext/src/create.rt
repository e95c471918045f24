//! The text of a CREATE TABLE.

ghost use Rattle.std.specs.Prelude.{◌≡◌};
ghost use Rattle.value.specs.Refusals.{AnswersOrNoMemory};
ghost use Rattle.sqltext.specs.Creating as spec;
ghost use Rattle.sqltext.specs.Reading.{Gives};

use crate::error::{ParseError, refusal_at};
use crate::grammar::name;
use crate::lexer::tokens;
use crate::read::{Item, expect, list_of, nothing_left, past, refused_at};
use crate::sequence::Sequence;
use crate::source::{bytes_of, in_small_letters};
use crate::token::{Token, TokenKind};
use crate::tree::{ColumnTree, Name, TableTree};
use schema::definition::{ColumnDef, TableDef};
use std::alloc::Allocator;
use std::str;
use value::kind::Kind;
use value::refusal::{Code, Refusal};
use value::text::Text;

// ---- the grammar

fn kind_of(kind: TokenKind) -> Option<Kind>
    ensures { result ≡ spec.kind_of kind }
{
    match kind {
        TokenKind::Bigint => Some(Kind::Bigint),
        TokenKind::Text => Some(Kind::Text),
        TokenKind::Bytea => Some(Kind::Bytea),
        _ => None,
    }
}

#[tactic(auto, unfolding(crate::specs::Creating::kind_word))]
fn kind_word(tokens: &[Token]) -> Result<(Kind, &[Token]), ParseError>
    ensures { Gives (λ x. (x.0, x.1.now)) result (spec.kind_word tokens.now) }
{
    let [token, rest @ ..] = tokens else {
        return Err(refused_at(tokens));
    };
    match kind_of(token.kind) {
        Some(kind) => Ok((kind, rest)),
        None => Err(refused_at(tokens)),
    }
}

// `REFERENCES` and a table, if it comes.
#[tactic(auto, unfolding(crate::specs::Creating::reference))]
fn reference(tokens: &[Token]) -> Result<(Option<Name>, &[Token]), ParseError>
    ensures { Gives (λ x. (x.0, x.1.now)) result (spec.reference tokens.now) }
{
    match past(tokens, TokenKind::References) {
        Some(rest) => {
            let (table, rest) = name(rest)?;
            Ok((Some(table), rest))
        }
        None => Ok((None, tokens)),
    }
}

// `NOT NULL`, if it comes.
#[tactic(auto, unfolding(crate::specs::Creating::mark))]
fn mark(tokens: &[Token]) -> Result<(bool, &[Token]), ParseError>
    ensures { Gives (λ x. (x.0, x.1.now)) result (spec.mark tokens.now) }
{
    match past(tokens, TokenKind::Not) {
        Some(rest) => {
            let (_, rest) = expect(rest, TokenKind::Null)?;
            Ok((true, rest))
        }
        None => Ok((false, tokens)),
    }
}

#[tactic(auto, unfolding(crate::specs::Creating::key))]
fn key(tokens: &[Token]) -> Result<(ColumnTree, &[Token]), ParseError>
    ensures { Gives (λ x. (x.0, x.1.now)) result (spec.key tokens.now) }
{
    let (name, rest) = name(tokens)?;
    let (kind, rest) = kind_word(rest)?;
    let (_, rest) = expect(rest, TokenKind::Primary)?;
    let (_, rest) = expect(rest, TokenKind::Key)?;
    let (references, rest) = reference(rest)?;
    let column = ColumnTree {
        name,
        kind,
        not_null: false,
        references,
    };
    Ok((column, rest))
}

#[tactic(auto, unfolding(crate::specs::Creating::column))]
fn column(tokens: &[Token]) -> Result<(ColumnTree, &[Token]), ParseError>
    ensures { Gives (λ x. (x.0, x.1.now)) result (spec.column tokens.now) }
{
    let (name, rest) = name(tokens)?;
    let (kind, rest) = kind_word(rest)?;
    let (not_null, rest) = mark(rest)?;
    let (references, rest) = reference(rest)?;
    let column = ColumnTree {
        name,
        kind,
        not_null,
        references,
    };
    Ok((column, rest))
}

impl Item for ColumnTree {
    ghost use Rattle.sqltext.specs.Creating.{column};

    ghost reads = { column };

    fn read(tokens: &[Token]) -> Result<(ColumnTree, &[Token]), ParseError> {
        column(tokens)
    }
}

#[tactic(auto, unfolding(crate::specs::Creating::others))]
fn others<A: Allocator>(
    alloc: A,
    tokens: &[Token],
) -> Result<(Sequence<ColumnTree, A>, &[Token]), ParseError>
    ensures { Gives (λ x. (x.0, x.1.now)) result (spec.others tokens.now) }
{
    match past(tokens, TokenKind::Comma) {
        Some(rest) => list_of(alloc, rest, TokenKind::Comma),
        None => Ok((Sequence::new(alloc), tokens)),
    }
}

// The table between `CREATE TABLE` and what ends it.
#[tactic(auto, unfolding(crate::specs::Creating::table))]
fn table<A: Allocator>(alloc: A, tokens: &[Token]) -> Result<(TableTree<A>, &[Token]), ParseError>
    ensures { Gives (λ x. (spec.parts x.0, x.1.now)) result (spec.table tokens.now) }
{
    let (name, rest) = name(tokens)?;
    let (_, rest) = expect(rest, TokenKind::Open)?;
    let (key, rest) = key(rest)?;
    let (others, rest) = others(alloc, rest)?;
    let (_, rest) = expect(rest, TokenKind::Close)?;
    Ok((TableTree { name, key, others }, rest))
}

#[tactic(auto, unfolding(crate::specs::Creating::whole))]
fn whole<A: Allocator>(alloc: A, tokens: &[Token]) -> Result<TableTree<A>, ParseError>
    ensures { Gives (λ tree. spec.parts tree) result (spec.whole tokens.now) }
{
    let (_, rest) = expect(tokens, TokenKind::Create)?;
    let (_, rest) = expect(rest, TokenKind::Table)?;
    let (tree, rest) = table(alloc, rest)?;
    let (_, rest) = expect(rest, TokenKind::Semicolon)?;
    let (_, rest) = expect(rest, TokenKind::End)?;
    nothing_left(rest)?;
    Ok(tree)
}

// ---- the definition

// The word of a name.
fn word_of<A: Allocator>(alloc: A, text: &[u8], name: Name) -> Result<Text<A>, ParseError>
    ensures { Gives (λ w. w) result (spec.word_of text.now name) }
{
    let Ok(word) = str::from_utf8(bytes_of(name.0, text)) else {
        return Err(ParseError::Refused(refusal_at(Code::SyntaxError, name.0.start)));
    };
    match Text::from_str(alloc, word) {
        Ok(word) => Ok(word),
        Err(_) => Err(ParseError::Memory),
    }
}

#[tactic(auto, unfolding(crate::specs::Creating::referenced))]
fn referenced<A: Allocator>(
    alloc: A,
    text: &[u8],
    name: Option<Name>,
) -> Result<Option<Text<A>>, ParseError>
    ensures { Gives (λ w. w) result (spec.referenced text.now name) }
{
    match name {
        Some(name) => {
            let word = word_of(alloc, text, name)?;
            Ok(Some(word))
        }
        None => Ok(None),
    }
}

#[tactic(auto, unfolding(crate::specs::Creating::definition))]
fn definition<A: Allocator + Copy>(
    alloc: A,
    text: &[u8],
    column: ColumnTree,
) -> Result<ColumnDef<A>, ParseError>
    ensures { Gives (λ d. d) result (spec.definition text.now column) }
{
    let name = word_of(alloc, text, column.name)?;
    let references = referenced(alloc, text, column.references)?;
    Ok(ColumnDef::new(name, column.kind, column.not_null, references))
}

// A column, and those after it.
#[tactic(auto, unfolding(crate::specs::Creating::definitions))]
fn definitions<A: Allocator + Copy>(
    alloc: A,
    text: &[u8],
    first: ColumnDef<A>,
    others: &[ColumnTree],
) -> Result<Vec<ColumnDef<A>, A>, ParseError>
    ensures { Gives (λ ds. ds.items) result (spec.definitions text.now first others.now) }
{
    let mut columns = Vec::new(alloc);
    columns.push(first)?;
    for other in others {
        let next = definition(alloc, text, *other)?;
        columns.push(next)?;
    }
    Ok(columns)
}

// The table of a name and columns.
fn defined<A: Allocator + Copy>(
    alloc: A,
    name: Text<A>,
    columns: Vec<ColumnDef<A>, A>,
) -> Result<TableDef<A>, ParseError>
    ensures { Gives (λ d. d) result (spec.defined_table name columns.items) }
{
    match TableDef::new(alloc, name, columns) {
        Ok(table) => Ok(table),
        Err(refusal) => match refusal.code {
            Code::OutOfMemory => Err(ParseError::Memory),
            _ => Err(ParseError::Refused(refusal)),
        },
    }
}

#[tactic(auto, unfolding(crate::specs::Creating::table_of))]
fn table_of<A: Allocator + Copy>(
    alloc: A,
    text: &[u8],
    tree: &TableTree<A>,
) -> Result<TableDef<A>, ParseError>
    ensures { Gives (λ d. d) result (spec.table_of text.now (spec.parts tree.now)) }
{
    let name = word_of(alloc, text, tree.name)?;
    let key = definition(alloc, text, tree.key)?;
    let columns = definitions(alloc, text, key, tree.others.as_slice())?;
    defined(alloc, name, columns)
}

#[tactic(auto, unfolding(crate::specs::Creating::created_small))]
fn create_small<A: Allocator + Copy>(alloc: A, text: &[u8]) -> Result<TableDef<A>, ParseError>
    ensures { Gives (λ d. d) result (spec.created_small text.now) }
{
    let tokens = tokens(alloc, text)?;
    let tree = whole(alloc, tokens.as_slice())?;
    table_of(alloc, text, &tree)
}

fn create<A: Allocator + Copy>(alloc: A, text: &[u8]) -> Result<TableDef<A>, ParseError>
    ensures { Gives (λ d. d) result (spec.created_small (spec.small text.now)) }
{
    let small = in_small_letters(alloc, text)?;
    create_small(alloc, small.as_slice())
}

/// The table of a text that is a CREATE TABLE. Any other text is refused as a syntax error that points nowhere.
pub fn parse_create<A: Allocator + Copy>(alloc: A, text: &str) -> Result<TableDef<A>, Refusal>
    ensures { AnswersOrNoMemory result (spec.created text.now) }
{
    match create(alloc, text.as_bytes()) {
        Ok(table) => Ok(table),
        Err(ParseError::Refused(_)) => Err(Refusal::of_code(Code::SyntaxError)),
        Err(ParseError::Memory) => Err(Refusal::of_code(Code::OutOfMemory)),
    }
}
