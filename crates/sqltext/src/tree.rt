//! What a text says, with the places of its names and literals.

use crate::sequence::Sequence;
use crate::token::Token;
use statement::condition::Comparison;
use std::alloc::{Allocator, Global};
use value::kind::Kind;

/// The name of a table or a column.
#[derive(Clone, Copy, Debug)]
pub struct Name(pub Token);

/// A literal.
#[derive(Clone, Copy, Debug)]
pub enum Literal {
    Null(Token),
    Number(Token),
    /// A sign, and a number.
    Signed(Token, Token),
    Quoted(Token),
}

/// A condition on a column.
#[derive(Clone, Copy, Debug)]
pub enum Test {
    Compare(Name, Comparison, Literal),
    Between(Name, Literal, Literal),
    IsNull(Name),
    IsNotNull(Name),
}

/// What a column is set to.
#[derive(Clone, Copy, Debug)]
pub enum Setting {
    Literal(Name, Literal),
    /// A column, another (or the same), a sign, and a number.
    Sum(Name, Name, Token, Token),
}

/// What a SELECT shows.
#[derive(Drop)]
pub enum Shown<A: Allocator = Global> {
    All,
    Count,
    Columns(Sequence<Name, A>),
}

/// A statement as it is written.
#[derive(Drop)]
pub enum Tree<A: Allocator = Global> {
    Select(Shown<A>, Name, Sequence<Test, A>),
    /// The table, the word VALUES, and the literals.
    Insert(Name, Token, Sequence<Literal, A>),
    Update(Name, Sequence<Setting, A>, Sequence<Test, A>),
    Delete(Name, Sequence<Test, A>),
}

/// A column of a table as it is written.
#[derive(Clone, Copy, Debug)]
pub struct ColumnTree {
    pub name: Name,
    pub kind: Kind,
    pub not_null: bool,
    pub references: Option<Name>,
}

/// A table as it is written: its name, its key, and its other columns.
#[derive(Drop)]
pub struct TableTree<A: Allocator = Global> {
    pub name: Name,
    pub key: ColumnTree,
    pub others: Sequence<ColumnTree, A>,
}
