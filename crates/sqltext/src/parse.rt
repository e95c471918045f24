//! From the text of a statement to the statement.

ghost use Rattle.std.specs.Prelude.{IfOk};
ghost use Rattle.statement.specs.Fits.{Fits};
ghost use Rattle.value.specs.Refusals.{AnswersOrNoMemory};
ghost use Rattle.sqltext.specs.Reading.{Gives};
ghost use Rattle.sqltext.specs.Parsed.{parsed, parsed_small};

use crate::error::ParseError;
use crate::grammar::whole;
use crate::lexer::tokens;
use crate::resolve::resolve;
use crate::source::in_small_letters;
use schema::catalog::Catalog;
use statement::statement::Statement;
use std::alloc::Allocator;
use value::refusal::{Code, Refusal};

/// The length of the longest statement, in bytes.
pub const LONGEST_STATEMENT: usize = 65536;

#[tactic(auto, unfolding(crate::specs::Parsed::parsed_small))]
fn parse_small<A: Allocator + Copy>(
    alloc: A,
    catalog: &Catalog<A>,
    text: &[u8],
) -> Result<Statement<A>, ParseError>
    ensures { Gives (λ q. q) result (parsed_small catalog.now text.now) }
{
    let tokens = tokens(alloc, text)?;
    let tree = whole(alloc, tokens.as_slice())?;
    resolve(alloc, catalog, text, &tree)
}

#[tactic(auto, unfolding(crate::specs::Parsed::parsed))]
fn parse<A: Allocator + Copy>(
    alloc: A,
    catalog: &Catalog<A>,
    text: &[u8],
) -> Result<Statement<A>, ParseError>
    ensures { Gives (λ q. q) result (parsed catalog.now text.now) }
{
    if text.len() > LONGEST_STATEMENT {
        return Err(ParseError::Refused(Refusal::of_code(Code::ProgramLimitExceeded)));
    }
    let small = in_small_letters(alloc, text)?;
    parse_small(alloc, catalog, small.as_slice())
}

/// The statement that a text says of the catalog's tables, or the first of its refusals.
pub fn parse_statement<A: Allocator + Copy>(
    alloc: A,
    catalog: &Catalog<A>,
    text: &str,
) -> Result<Statement<A>, Refusal>
    ensures answer { AnswersOrNoMemory result (parsed catalog.now text.now) }
    ensures fits { IfOk result (λ statement. Fits catalog.now statement) }
{
    match parse(alloc, catalog, text.as_bytes()) {
        Ok(statement) => Ok(statement),
        Err(ParseError::Refused(refusal)) => Err(refusal),
        Err(ParseError::Memory) => Err(Refusal::of_code(Code::OutOfMemory)),
    }
}
