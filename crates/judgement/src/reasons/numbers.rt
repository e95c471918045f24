//! Numbers of rows that a transaction's statement can't have chosen, in words.

ghost use Rattle.std.specs.Prelude.{◌≡◌, IfErr};
ghost use Rattle.value.specs.Refusals.{out_of_memory};

use crate::reasons::account::Account;
use crate::reasons::phrases::Telling;
use certificate::certificate::Line;
use certificate::known::Spot;
use copytext::write_field;
use orders::transaction::Answered;
use orders::ways::numbers::{number_told, table_of};
use schema::catalog::TableNo;
use statement::condition::{Comparison, Condition};
use statement::statement::Statement;
use std::alloc::Allocator;
use value::refusal::Refusal;
use value::value::Value;

// What a statement did with the rows that it chose.
fn verb<A: Allocator>(statement: &Statement<A>) -> &'static str {
    match statement {
        Statement::Select(_, _, _) => " counted ",
        Statement::Update(_, _, _) => " updated ",
        Statement::Delete(_, _) => " deleted ",
        Statement::Insert(_, _) => " inserted ",
    }
}

// The conditions of a statement.
fn conditions_of<A: Allocator>(statement: &Statement<A>) -> &[Condition<A>] {
    match statement {
        Statement::Select(_, _, conditions)
        | Statement::Update(_, _, conditions)
        | Statement::Delete(_, conditions) => conditions.as_slice(),
        Statement::Insert(_, _) => &[],
    }
}

// A comparison's sign, between blanks.
fn sign(comparison: Comparison) -> &'static str {
    match comparison {
        Comparison::Equal => " = ",
        Comparison::NotEqual => " <> ",
        Comparison::Less => " < ",
        Comparison::LessOrEqual => " <= ",
        Comparison::Greater => " > ",
        Comparison::GreaterOrEqual => " >= ",
    }
}

// Whether two lines exclude ways by one number of rows at one spot.
fn are_of_one<A: Allocator>(first: &Line<A>, second: &Line<A>) -> bool {
    match (counted(first), counted(second)) {
        (Some(one), Some(other)) => {
            one.0 == other.0 && one.1 == other.1 && one.2 == other.2 && one.3.is(other.3)
        }
        _ => false,
    }
}

// Of which transaction, statement and spot a line says that it was counted, or wasn't.
fn counted<A: Allocator>(line: &Line<A>) -> Option<(usize, usize, bool, &Spot<A>)> {
    match line {
        Line::TooMany {
            place,
            statement,
            spot,
            ..
        } => Some((*place, *statement, true, spot)),
        Line::TooFew {
            place,
            statement,
            spot,
            ..
        } => Some((*place, *statement, false, spot)),
        _ => None,
    }
}

// Whether a line excludes a way by the number of rows of another statement of a transaction.
fn is_of_other<A: Allocator>(line: &Line<A>, place: usize, statement: usize) -> bool {
    match counted(line) {
        Some(one) => one.0 == place && one.1 != statement,
        None => false,
    }
}

impl<A: Allocator> Account<'_, A> {
    /// Whether the line before one says the same of a statement and a spot.
    pub(crate) fn is_counted_again(&self, place: usize, line: &Line<A>) -> bool {
        if place == 0 {
            return false;
        }
        match self.lines.get(place.saturating_sub(1)) {
            Some(before) => are_of_one(before, line),
            None => false,
        }
    }

    // Whether a line before a place says something of another number of rows of a transaction.
    fn has_other_number(&self, before: usize, place: usize, statement: usize) -> bool {
        self.lines
            .iter()
            .take(before)
            .any(|line| is_of_other(line, place, statement))
    }
}

impl<A: Allocator + Copy> Telling<'_, A> {
    // Appends a value; null as `null`.
    fn append_value(&mut self, value: &Value<A>) -> Result<(), Refusal>
        ensures memory { IfErr result (λ e. e ≡ out_of_memory) }
    {
        match value {
            Value::Null => self.append_word("null"),
            _ => write_field(value, &mut self.text),
        }
    }

    // Appends a condition, as in `v = 0`.
    fn append_condition(&mut self, table: TableNo, condition: &Condition<A>) -> Result<(), Refusal>
        ensures memory { IfErr result (λ e. e ≡ out_of_memory) }
    {
        let account = self.account;
        match condition {
            Condition::Compare(column, comparison, value) => {
                self.append_word(account.column(table, *column))?;
                self.append_word(sign(*comparison))?;
                self.append_value(value)
            }
            Condition::Between(column, low, high) => {
                self.append_word(account.column(table, *column))?;
                self.append_word(" between ")?;
                self.append_value(low)?;
                self.append_word(" and ")?;
                self.append_value(high)
            }
            Condition::IsNull(column) => {
                self.append_word(account.column(table, *column))?;
                self.append_word(" is null")
            }
            Condition::IsNotNull(column) => {
                self.append_word(account.column(table, *column))?;
                self.append_word(" is not null")
            }
        }
    }

    // Appends conditions, as in ` where v = 0 and id > 3`.
    fn append_conditions(
        &mut self,
        table: TableNo,
        conditions: &[Condition<A>],
    ) -> Result<(), Refusal>
        ensures memory { IfErr result (λ e. e ≡ out_of_memory) }
    {
        let mut word = " where ";
        for condition in conditions {
            self.append_word(word)?;
            self.append_condition(table, condition)?;
            word = " and ";
        }
        Ok(())
    }

    // Appends how many rows a statement chose, by its reply, as in `9 counted 3 rows of t where v = 0`.
    fn append_chosen(&mut self, place: usize, answered: &Answered<A>) -> Result<(), Refusal>
        ensures memory { IfErr result (λ e. e ≡ out_of_memory) }
    {
        let account = self.account;
        let statement = &answered.statement;
        let table = table_of(statement);
        let number = number_told(table, statement, &answered.reply).unwrap_or(0);
        self.append_actor(place)?;
        self.append_word(verb(statement))?;
        self.append_number(number)?;
        self.append_word(if number == 1 { " row of " } else { " rows of " })?;
        self.append_word(account.table(table))?;
        self.append_conditions(table, conditions_of(statement))
    }

    // Appends how many rows a statement of a transaction chose, and in which line.
    fn append_number_at(&mut self, place: usize, statement: usize) -> Result<(), Refusal>
        ensures memory { IfErr result (λ e. e ≡ out_of_memory) }
    {
        let account = self.account;
        if let Some(transaction) = account.transactions.get(place)
            && let Some(answered) = transaction.statements.get(statement)
        {
            self.append_chosen(place, answered)?;
        }
        match account.statement_line(place, statement) {
            Some(line) => self.append_command(line),
            None => Ok(()),
        }
    }

    /// Appends how many rows a statement of a transaction chose, and whether a spot's was among them.
    pub(crate) fn append_counted(
        &mut self,
        place: usize,
        statement: usize,
        spot: &Spot<A>,
        how: &str,
    ) -> Result<(), Refusal>
        ensures memory { IfErr result (λ e. e ≡ out_of_memory) }
    {
        self.append_number_at(place, statement)?;
        self.append_word(", ")?;
        self.append_spot(spot)?;
        self.append_word(how)
    }

    /// Appends that a statement of a transaction can't have chosen as many rows as its reply tells, and why. Where another
    /// number of its transaction has a part in that, as the lines before a place say, it is a phantom.
    pub(crate) fn append_miscount(
        &mut self,
        before: usize,
        place: usize,
        statement: usize,
        why: &str,
    ) -> Result<(), Refusal>
        ensures memory { IfErr result (λ e. e ≡ out_of_memory) }
    {
        let account = self.account;
        self.append_number_at(place, statement)?;
        self.append_word(why)?;
        if account.has_other_number(before, place, statement) {
            self.append_word(": phantom")?;
        }
        self.append_word("\n")
    }
}
