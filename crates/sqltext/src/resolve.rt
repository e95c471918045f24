//! Finds the names of a statement in the catalog, and reads its literals by their columns' kinds.

ghost use Rattle.std.specs.Prelude.{◌≡◌, ◌<◌, ◌≤◌, length, IfSome, IfOk, Some, None, [], MatchOption};
ghost use Rattle.statement.specs.Evaluation.{is_assigned};
ghost use Rattle.sqltext.specs.Resolving as spec;
ghost use Rattle.sqltext.specs.Reading.{Gives};

use crate::error::{ParseError, refusal_at};
use crate::sequence::Sequence;
use crate::source::{bytes_of, joined, unquoted};
use crate::token::{Token, TokenKind};
use crate::tree::{Literal, Name, Setting, Shown, Test, Tree};
use schema::catalog::{Catalog, Column, TableNo, TableSchema};
use statement::condition::{Condition, Conditions};
use statement::statement::{Assignment, Assignments, ColumnList, Projection, Source, Statement};
use statement::values::Values;
use std::alloc::Allocator;
use value::kind::Kind;
use value::refusal::Code;
use value::value::Value;

// A refusal at the beginning of a token.
fn refused(code: Code, token: Token) -> ParseError
    ensures { result ≡ ParseError.Refused (spec.refused code token) }
{
    ParseError::Refused(refusal_at(code, token.start))
}

// ---- names

// A column and its kind.
#[tactic(auto, unfolding(crate::specs::Resolving::column))]
fn column<A: Allocator>(
    table: &TableSchema<A>,
    text: &[u8],
    name: Name,
) -> Result<(u32, Kind), ParseError>
    ensures { Gives (λ x. x) result (spec.column table.now.columns text.now name) }
{
    match table.find_column_bytes(bytes_of(name.0, text)) {
        Some(place) => Ok((place, table.columns()[place as usize].kind())),
        None => Err(refused(Code::UndefinedColumn, name.0)),
    }
}

// The table of a name.
#[tactic(auto, unfolding(crate::specs::Resolving::table))]
fn table_of<A: Allocator>(
    catalog: &Catalog<A>,
    text: &[u8],
    name: Name,
) -> Result<TableNo, ParseError>
    ensures gives { Gives (λ x. x) result (spec.table catalog.now text.now name) }
    ensures has { IfOk result (λ t. t < length catalog.now) }
{
    match catalog.find_bytes(bytes_of(name.0, text)) {
        Some(table) => Ok(table),
        None => Err(refused(Code::UndefinedTable, name.0)),
    }
}

// ---- literals

// What a kind makes of the bytes of a literal that begins with a token.
#[tactic(auto, unfolding(crate::specs::Resolving::value_of))]
fn value_of<A: Allocator>(
    alloc: A,
    kind: Kind,
    bytes: &[u8],
    token: Token,
) -> Result<Value<A>, ParseError>
    ensures { Gives (λ v. v) result (spec.value_of kind bytes.now token) }
{
    match Value::of_literal(alloc, kind, bytes) {
        Ok(value) => Ok(value),
        Err(refusal) => match refusal.code {
            Code::OutOfMemory => Err(ParseError::Memory),
            code => Err(refused(code, token)),
        },
    }
}

#[tactic(auto, unfolding(crate::specs::Resolving::number))]
fn number<A: Allocator>(
    alloc: A,
    kind: Kind,
    bytes: &[u8],
    token: Token,
) -> Result<Value<A>, ParseError>
    ensures { Gives (λ v. v) result (spec.number kind bytes.now token) }
{
    match kind {
        Kind::Bigint => value_of(alloc, kind, bytes, token),
        Kind::Text | Kind::Bytea => Err(refused(Code::DatatypeMismatch, token)),
    }
}

#[tactic(auto, unfolding(crate::specs::Resolving::content))]
fn content<A: Allocator + Copy>(
    alloc: A,
    kind: Kind,
    text: &[u8],
    token: Token,
) -> Result<Value<A>, ParseError>
    ensures { Gives (λ v. v) result (spec.content kind text.now token) }
{
    match kind {
        Kind::Bigint => Err(refused(Code::DatatypeMismatch, token)),
        Kind::Text | Kind::Bytea => {
            let bytes = unquoted(alloc, bytes_of(token, text))?;
            value_of(alloc, kind, bytes.as_slice(), token)
        }
    }
}

// The value of a literal for a column of a kind.
#[tactic(auto, unfolding(crate::specs::Resolving::value))]
fn value<A: Allocator + Copy>(
    alloc: A,
    text: &[u8],
    kind: Kind,
    literal: Literal,
) -> Result<Value<A>, ParseError>
    ensures { Gives (λ v. v) result (spec.value text.now kind literal) }
{
    match literal {
        Literal::Null(_) => Ok(Value::Null),
        Literal::Number(digits) => number(alloc, kind, bytes_of(digits, text), digits),
        Literal::Signed(sign, digits) => {
            let bytes = joined(alloc, bytes_of(sign, text), bytes_of(digits, text))?;
            number(alloc, kind, bytes.as_slice(), sign)
        }
        Literal::Quoted(token) => content(alloc, kind, text, token),
    }
}

// ---- conditions

#[tactic(auto, unfolding(crate::specs::Resolving::condition))]
fn condition<A: Allocator + Copy>(
    alloc: A,
    table: &TableSchema<A>,
    text: &[u8],
    test: Test,
) -> Result<Condition<A>, ParseError>
    ensures { Gives (λ c. c) result (spec.condition table.now.columns text.now test) }
{
    match test {
        Test::Compare(name, comparison, literal) => {
            let (place, kind) = column(table, text, name)?;
            let value = value(alloc, text, kind, literal)?;
            Ok(Condition::Compare(place, comparison, value))
        }
        Test::Between(name, low, high) => {
            let (place, kind) = column(table, text, name)?;
            let low = value(alloc, text, kind, low)?;
            let high = value(alloc, text, kind, high)?;
            Ok(Condition::Between(place, low, high))
        }
        Test::IsNull(name) => {
            let (place, _) = column(table, text, name)?;
            Ok(Condition::IsNull(place))
        }
        Test::IsNotNull(name) => {
            let (place, _) = column(table, text, name)?;
            Ok(Condition::IsNotNull(place))
        }
    }
}

#[tactic(auto, unfolding(crate::specs::Resolving::each))]
fn conditions<A: Allocator + Copy>(
    alloc: A,
    table: &TableSchema<A>,
    text: &[u8],
    tests: &[Test],
) -> Result<Conditions<A>, ParseError>
    ensures { Gives (λ cs. cs) result (spec.each (spec.condition table.now.columns text.now) tests.now) }
{
    let mut conditions = Vec::with_capacity(alloc, tests.len())?;
    for test in tests {
        let condition = condition(alloc, table, text, *test)?;
        conditions.push(condition)?;
    }
    Ok(Conditions::of(conditions))
}

// ---- what is shown

#[tactic(auto, unfolding(crate::specs::Resolving::each, crate::specs::Resolving::place_of))]
fn places<A: Allocator>(
    alloc: A,
    table: &TableSchema<A>,
    text: &[u8],
    names: &[Name],
) -> Result<ColumnList<A>, ParseError>
    ensures { Gives (λ ns. ns) result (spec.each (spec.place_of table.now.columns text.now) names.now) }
{
    let mut places = Vec::with_capacity(alloc, names.len())?;
    for name in names {
        let (place, _) = column(table, text, *name)?;
        places.push(place)?;
    }
    Ok(ColumnList::of(places))
}

#[tactic(auto, unfolding(crate::specs::Resolving::projection))]
fn projection<A: Allocator>(
    alloc: A,
    table: &TableSchema<A>,
    text: &[u8],
    shown: &Shown<A>,
) -> Result<Projection<A>, ParseError>
    ensures { Gives (λ p. p) result (spec.projection table.now.columns text.now shown.now) }
{
    match shown {
        Shown::All => Ok(Projection::All),
        Shown::Count => Ok(Projection::Count),
        Shown::Columns(names) => {
            let places = places(alloc, table, text, names.as_slice())?;
            Ok(Projection::Columns(places))
        }
    }
}

// ---- the literals of an INSERT

// The kind of the first column, and the columns after it.
fn first_kind<A: Allocator>(columns: &[Column<A>]) -> Option<(Kind, &[Column<A>])>
    ensures { MatchOption result (spec.first_kind columns.now ≡ None)
        (λ x. spec.first_kind columns.now ≡ Some (x.0, x.1.now)) }
{
    match columns {
        [column, others @ ..] => Some((column.kind(), others)),
        [] => None,
    }
}

fn values<A: Allocator + Copy>(
    alloc: A,
    columns: &[Column<A>],
    text: &[u8],
    literals: &[Literal],
) -> Result<Values<A>, ParseError>
    ensures { Gives (λ vs. vs) result (spec.values text.now columns.now literals.now) }
{
    let mut values = Vec::with_capacity(alloc, literals.len())?;
    let mut left = columns;
    for literal in literals {
        let Some((kind, others)) = first_kind(left) else {
            return Ok(Values::of(values));
        };
        let value = value(alloc, text, kind, *literal)?;
        values.push(value)?;
        left = others;
    }
    Ok(Values::of(values))
}

// ---- assignments

fn is_in<A: Allocator>(assignments: &[Assignment<A>], column: u32) -> bool
    ensures { result ≡ is_assigned assignments.now column }
{
    assignments
        .iter()
        .any(|assignment| assignment.column == column)
}

// The column that is assigned: not the key, and not assigned before.
#[tactic(auto, unfolding(crate::specs::Resolving::target))]
fn target<A: Allocator>(
    table: &TableSchema<A>,
    text: &[u8],
    before: &[Assignment<A>],
    name: Name,
) -> Result<(u32, Kind), ParseError>
    ensures { Gives (λ x. x) result (spec.target table.now.columns text.now before.now name) }
{
    let (place, kind) = column(table, text, name)?;
    if place == 0 || is_in(before, place) {
        return Err(refused(Code::SyntaxError, name.0));
    }
    Ok((place, kind))
}

// Requires a column of numbers.
fn require_bigint(kind: Kind, name: Name) -> Result<(), ParseError>
    ensures { Gives (λ x. x) result (spec.require_bigint kind name) }
{
    match kind {
        Kind::Bigint => Ok(()),
        Kind::Text | Kind::Bytea => Err(refused(Code::DatatypeMismatch, name.0)),
    }
}

// The number of digits, where it is one of 64 bits.
fn whole_number<A: Allocator>(alloc: A, text: &[u8], digits: Token) -> Result<i64, ParseError>
    ensures { Gives (λ n. n) result (spec.whole_number text.now digits) }
{
    let value = value_of(alloc, Kind::Bigint, bytes_of(digits, text), digits)?;
    match &value {
        Value::Int(number) => Ok(*number),
        _ => unreachable!(),
    }
}

// A number taken away, as one that is added.
fn negated(number: i64, digits: Token) -> Result<i64, ParseError>
    ensures { Gives (λ n. n) result (spec.negated number digits) }
{
    match number.checked_neg() {
        Some(negated) => Ok(negated),
        None => Err(refused(Code::NumericValueOutOfRange, digits)),
    }
}

// The number that is added: for a minus the number after it is taken away.
#[tactic(auto, unfolding(crate::specs::Resolving::addend))]
fn addend<A: Allocator>(
    alloc: A,
    text: &[u8],
    sign: Token,
    digits: Token,
) -> Result<i64, ParseError>
    ensures { Gives (λ n. n) result (spec.addend text.now sign digits) }
{
    let number = whole_number(alloc, text, digits)?;
    if sign.is(TokenKind::Minus) {
        negated(number, digits)
    } else {
        Ok(number)
    }
}

#[tactic(auto, unfolding(crate::specs::Resolving::assignment))]
fn assignment<A: Allocator + Copy>(
    alloc: A,
    table: &TableSchema<A>,
    text: &[u8],
    before: &[Assignment<A>],
    setting: Setting,
) -> Result<Assignment<A>, ParseError>
    ensures { Gives (λ a. a) result (spec.assignment table.now.columns text.now before.now setting) }
{
    match setting {
        Setting::Literal(name, literal) => {
            let (column, kind) = target(table, text, before, name)?;
            let value = value(alloc, text, kind, literal)?;
            let source = Source::Literal(value);
            Ok(Assignment { column, source })
        }
        Setting::Sum(name, operand, sign, digits) => {
            let (column, kind) = target(table, text, before, name)?;
            require_bigint(kind, name)?;
            let source = sum(alloc, table, text, operand, sign, digits)?;
            Ok(Assignment { column, source })
        }
    }
}

#[tactic(auto, unfolding(crate::specs::Resolving::sum))]
fn sum<A: Allocator>(
    alloc: A,
    table: &TableSchema<A>,
    text: &[u8],
    operand: Name,
    sign: Token,
    digits: Token,
) -> Result<Source<A>, ParseError>
    ensures { Gives (λ s. s) result (spec.sum table.now.columns text.now operand sign digits) }
{
    let (place, kind) = column(table, text, operand)?;
    require_bigint(kind, operand)?;
    let addend = addend(alloc, text, sign, digits)?;
    Ok(Source::Sum(place, addend))
}

#[tactic(auto, unfolding(crate::specs::Resolving::assignments))]
fn assignments<A: Allocator + Copy>(
    alloc: A,
    table: &TableSchema<A>,
    text: &[u8],
    settings: &[Setting],
) -> Result<Assignments<A>, ParseError>
    ensures { Gives (λ xs. xs) result (spec.assignments table.now.columns text.now [] settings.now) }
{
    let mut assignments = Vec::with_capacity(alloc, settings.len())?;
    for setting in settings {
        let next = assignment(alloc, table, text, assignments.as_slice(), *setting)?;
        assignments.push(next)?;
    }
    Ok(Assignments::of(assignments))
}

// ---- statements

#[tactic(auto, unfolding(crate::specs::Resolving::inserted))]
fn insert<A: Allocator + Copy>(
    alloc: A,
    table: &TableSchema<A>,
    text: &[u8],
    word: Token,
    literals: &[Literal],
) -> Result<Values<A>, ParseError>
    ensures { Gives (λ vs. vs) result (spec.inserted table.now.columns text.now word literals.now) }
{
    let columns = table.columns();
    if literals.len() != columns.len() {
        return Err(refused(Code::SyntaxError, word));
    }
    values(alloc, columns, text, literals)
}

// The statement of a SELECT's tree.
#[tactic(auto, unfolding(crate::specs::Resolving::resolved))]
fn select<A: Allocator + Copy>(
    alloc: A,
    catalog: &Catalog<A>,
    text: &[u8],
    shown: &Shown<A>,
    name: Name,
    tests: &[Test],
) -> Result<Statement<A>, ParseError>
    ensures { Gives (λ q. q) result (spec.resolved catalog.now text.now (Tree.Select shown.now name tests.now)) }
{
    let number = table_of(catalog, text, name)?;
    let table = catalog.table(number);
    let projection = projection(alloc, table, text, shown)?;
    let conditions = conditions(alloc, table, text, tests)?;
    Ok(Statement::Select(number, projection, conditions))
}

// The statement of an UPDATE's tree.
#[tactic(auto, unfolding(crate::specs::Resolving::resolved))]
fn update<A: Allocator + Copy>(
    alloc: A,
    catalog: &Catalog<A>,
    text: &[u8],
    name: Name,
    settings: &[Setting],
    tests: &[Test],
) -> Result<Statement<A>, ParseError>
    ensures { Gives (λ q. q) result (spec.resolved catalog.now text.now (Tree.Update name settings.now tests.now)) }
{
    let number = table_of(catalog, text, name)?;
    let table = catalog.table(number);
    let assignments = assignments(alloc, table, text, settings)?;
    let conditions = conditions(alloc, table, text, tests)?;
    Ok(Statement::Update(number, assignments, conditions))
}

/// The statement that a tree says of the catalog's tables.
#[tactic(auto, unfolding(crate::specs::Resolving::resolved))]
pub fn resolve<A: Allocator + Copy>(
    alloc: A,
    catalog: &Catalog<A>,
    text: &[u8],
    tree: &Tree<A>,
) -> Result<Statement<A>, ParseError>
    ensures { Gives (λ q. q) result (spec.resolved catalog.now text.now tree.now) }
{
    match tree {
        Tree::Select(shown, name, tests) => {
            select(alloc, catalog, text, shown, *name, tests.as_slice())
        }
        Tree::Insert(name, word, literals) => {
            let number = table_of(catalog, text, *name)?;
            let table = catalog.table(number);
            let values = insert(alloc, table, text, *word, literals.as_slice())?;
            Ok(Statement::Insert(number, values))
        }
        Tree::Update(name, settings, tests) => {
            let settings = settings.as_slice();
            update(alloc, catalog, text, *name, settings, tests.as_slice())
        }
        Tree::Delete(name, tests) => {
            let number = table_of(catalog, text, *name)?;
            let table = catalog.table(number);
            let conditions = conditions(alloc, table, text, tests.as_slice())?;
            Ok(Statement::Delete(number, conditions))
        }
    }
}
