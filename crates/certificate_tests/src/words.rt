//! Certificates as the tests write them: a line for each line, words apart by blanks. A cell is `2.1` for key 2 and column
//! 1, a state a number, `null` or `none`.

use certificate::certificate::{Assumption, Line};
use certificate::known::{Cell, Spot};
use schema::catalog::TableNo;
use std::alloc::Global;
use value::key::Key;
use value::refusal::{Code, Refusal};
use value::value::Value;

/// The refusal of a case that isn't written as it should be. No tried call answers it.
pub fn not_a_case() -> Refusal {
    Refusal::of_code(Code::SyntaxError)
}

fn place(words: &[&str], at: usize) -> Result<usize, Refusal> {
    let word = words.get(at).ok_or(not_a_case())?;
    word.parse().ok().ok_or(not_a_case())
}

fn integer(word: &str) -> Result<i64, Refusal> {
    word.parse().ok().ok_or(not_a_case())
}

fn spot(word: &str) -> Result<Spot, Refusal> {
    let key = Key::new(Value::Int(integer(word)?)).ok_or(not_a_case())?;
    Ok(Spot {
        table: TableNo::at(0),
        key,
    })
}

fn cell(words: &[&str], at: usize) -> Result<Cell, Refusal> {
    let word = words.get(at).ok_or(not_a_case())?;
    let (key, column) = word.split_once(".").ok_or(not_a_case())?;
    Ok(Cell {
        spot: spot(key)?,
        column: column.parse().ok().ok_or(not_a_case())?,
    })
}

fn state(words: &[&str], at: usize) -> Result<Option<Value>, Refusal> {
    let word = words.get(at).ok_or(not_a_case())?;
    if *word == "none" {
        return Ok(None);
    }
    if *word == "null" {
        return Ok(Some(Value::Null));
    }
    Ok(Some(Value::Int(integer(word)?)))
}

fn rule(words: &[&str], first: &str) -> Result<Line, Refusal> {
    if first == "source" {
        return Ok(Line::Source {
            source: place(words, 1)?,
            reader: place(words, 2)?,
            cell: cell(words, 3)?,
        });
    }
    if first == "later" {
        return Ok(Line::Later {
            reader: place(words, 1)?,
            writer: place(words, 2)?,
            cell: cell(words, 3)?,
        });
    }
    if first == "common" {
        return Ok(Line::Common {
            first: place(words, 1)?,
            reader: place(words, 2)?,
            cell: cell(words, 3)?,
        });
    }
    Err(not_a_case())
}

fn longer_rule(words: &[&str], first: &str) -> Result<Line, Refusal> {
    if first == "joined" {
        return Ok(Line::Joined {
            first: place(words, 1)?,
            middle: place(words, 2)?,
            last: place(words, 3)?,
        });
    }
    if first == "earlier" {
        return Ok(Line::Earlier {
            writer: place(words, 1)?,
            source: place(words, 2)?,
            reader: place(words, 3)?,
            cell: cell(words, 4)?,
        });
    }
    if first == "needless" {
        return Ok(Line::Needless {
            reader: place(words, 1)?,
            cell: cell(words, 2)?,
            way: place(words, 3)?,
        });
    }
    if first == "found" {
        return Ok(Line::Found {
            reader: place(words, 1)?,
            cell: cell(words, 2)?,
            state: state(words, 3)?,
        });
    }
    rule(words, first)
}

fn spot_at(words: &[&str], at: usize) -> Result<Spot, Refusal> {
    let word = words.get(at).ok_or(not_a_case())?;
    spot(*word)
}

fn number(words: &[&str], first: &str) -> Result<Line, Refusal> {
    if first == "overfull" {
        return Ok(Line::Overfull {
            place: place(words, 1)?,
            statement: place(words, 2)?,
        });
    }
    if first == "lacking" {
        return Ok(Line::Lacking {
            place: place(words, 1)?,
            statement: place(words, 2)?,
        });
    }
    if first == "toomany" {
        return Ok(Line::TooMany {
            place: place(words, 1)?,
            statement: place(words, 2)?,
            spot: spot_at(words, 3)?,
            way: place(words, 4)?,
        });
    }
    if first == "toofew" {
        return Ok(Line::TooFew {
            place: place(words, 1)?,
            statement: place(words, 2)?,
            spot: spot_at(words, 3)?,
            way: place(words, 4)?,
        });
    }
    longer_rule(words, first)
}

fn contradiction(words: &[&str], first: &str) -> Result<Line, Refusal> {
    if first == "cycle" {
        return Ok(Line::Cycle {
            first: place(words, 1)?,
            second: place(words, 2)?,
        });
    }
    if first == "sourceless" {
        return Ok(Line::Sourceless {
            reader: place(words, 1)?,
            cell: cell(words, 2)?,
        });
    }
    if first == "wayless" {
        let word = words.get(2).ok_or(not_a_case())?;
        return Ok(Line::Wayless {
            place: place(words, 1)?,
            spot: spot(*word)?,
        });
    }
    number(words, first)
}

fn supposition(words: &[&str]) -> Result<Assumption, Refusal> {
    let word = words.get(1).ok_or(not_a_case())?;
    if *word == "before" {
        return Ok(Assumption::Before(place(words, 2)?, place(words, 3)?));
    }
    if *word == "present" {
        return Ok(Assumption::Present(place(words, 2)?));
    }
    if *word == "absent" {
        return Ok(Assumption::Absent(place(words, 2)?));
    }
    Err(not_a_case())
}

/// A line of a certificate.
pub fn line(alloc: Global, text: &str) -> Result<Line, Refusal> {
    let mut words = Vec::new(alloc);
    for word in text.split(" ") {
        words.push(word)?;
    }
    let first = words.as_slice().get(0).ok_or(not_a_case())?;
    if *first == "suppose" {
        return Ok(Line::Suppose(supposition(words.as_slice())?));
    }
    contradiction(words.as_slice(), *first)
}
