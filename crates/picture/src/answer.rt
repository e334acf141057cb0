// The answers of a job.
ghost use Rattle.std.specs.Prelude.{◌≡◌, ◌≢◌, ◌==◌, ◌++◌, ℕ, ℤ, List, Option, MatchOption};
ghost use Rattle.std.specs.List.{after_first, before_first};
ghost use Rattle.std.specs.Result.{result_ok};
ghost use Rattle.space.specs.Lines.{Parsed, Writes};
ghost use Rattle.picture.specs.declared.row.DrawnRow.{DrawnRow};
ghost use Rattle.picture.specs.AnswerLine.{AcceptedFields, NumberFirst, RowFields, Says, SignedFirst, WritesNumber};

use crate::row::DrawnRow;
use space::Spot;
use std::str::FromStr;
use thiserror::Error;

/// A line of answers.
#[derive(Clone, Copy, Debug, PartialEq, Eq)]
pub enum AnswerLine {
    /// The call on this line of the job was accepted, with its first value where it has one.
    Accepted { line: u64, value: Option<u64> },
    /// A call was refused.
    Refused,
    /// A row of the tree, with its number.
    Row { number: u64, row: DrawnRow },
}

/// A text is no line of answers.
#[derive(Clone, Copy, Debug, PartialEq, Eq, Error)]
#[error("no answer and no row of seven fields")]
pub struct ParseAnswerLineError;

/// The number that a text writes.
fn number_of(text: &str) -> Option<u64>
    ensures { Parsed WritesNumber text.now result }
{
    text.parse::<u64>().ok()
}

/// The number before the first comma of a text, and what is after the comma.
fn number_first(text: &str) -> Option<(u64, &str)>
    ensures { MatchOption result
        ((n : ℕ) (rest : List ℕ) → NumberFirst text.now n rest → ⊥)
        (λ p. NumberFirst text.now p.0 p.1.now) }
{
    let (first, rest) = text.split_once(',')?;
    let number = number_of(first)?;
    Some((number, rest))
}

/// The same for a number that may have a minus before it.
fn signed_first(text: &str) -> Option<(i32, &str)>
    ensures { MatchOption result
        ((z : ℤ) (rest : List ℕ) → SignedFirst text.now z rest → ⊥)
        (λ p. SignedFirst text.now p.0 p.1.now) }
{
    let (first, rest) = text.split_once(',')?;
    let number = signed_of(first)?;
    Some((number, rest))
}

/// The number that a text writes, with a minus or without.
fn signed_of(text: &str) -> Option<i32>
    ensures { Parsed Writes text.now result }
{
    text.parse::<i32>().ok()
}

/// The row that stands after `N,`, with its number.
fn row_of(text: &str) -> Option<(u64, DrawnRow)>
    ensures { MatchOption result
        ((n : ℕ) (r : DrawnRow) → RowFields text.now n r → ⊥)
        (λ p. RowFields text.now p.0 p.1) }
{
    let (number, after_number) = number_first(text)?;
    let (parent, after_parent) = number_first(after_number)?;
    let (x, after_x) = signed_first(after_parent)?;
    let (y, after_y) = signed_first(after_x)?;
    let (level, after_level) = signed_first(after_y)?;
    let length = number_of(after_level)?;
    let spot = Spot { x, y, level };
    Some((
        number,
        DrawnRow {
            parent,
            spot,
            length,
        },
    ))
}

/// The text before the first comma, or all of it, and the text after the comma, or nothing.
fn cut(text: &str) -> (&str, &str)
    ensures first { result.0.now ≡ before_first (λ b. b == 44) text.now }
    ensures rest { result.1.now ≡ after_first (λ b. b == 44) text.now }
{
    match text.split_once(',') {
        Some((first, rest)) => (first, rest),
        None => (text, ""),
    }
}

/// The line of the job and the first value that stand after `ok,`.
fn accepted_of(text: &str) -> Option<(u64, Option<u64>)>
    ensures { MatchOption result
        ((n : ℕ) (v : Option ℕ) → AcceptedFields text.now n v → ⊥)
        (λ p. AcceptedFields text.now p.0 p.1) }
{
    let (line, values) = cut(text);
    let line = number_of(line)?;
    let (value, _) = cut(values);
    Some((line, number_of(value)))
}

/// What stands in a text after a word at its front.
fn after<'a>(text: &'a str, word: &str) -> Option<&'a str>
    ensures { MatchOption result
        ((rest : List ℕ) → text.now ≢ word.now ++ rest)
        (λ x. text.now ≡ word.now ++ x.now) }
{
    text.strip_prefix(word)
}

// A line of answers; an error exactly where the text is none.
impl FromStr for AnswerLine {
    type Err = ParseAnswerLineError;

    ghost from_str_gives = { λ text answer. Parsed Says text (result_ok answer) };

    fn from_str(text: &str) -> Result<AnswerLine, ParseAnswerLineError> {
        if let Some(rest) = after(text, "N,") {
            let Some((number, row)) = row_of(rest) else {
                return Err(ParseAnswerLineError);
            };
            return Ok(AnswerLine::Row { number, row });
        }
        if let Some(rest) = after(text, "ok,") {
            let Some((line, value)) = accepted_of(rest) else {
                return Err(ParseAnswerLineError);
            };
            return Ok(AnswerLine::Accepted { line, value });
        }
        match after(text, "no,") {
            Some(_) => Ok(AnswerLine::Refused),
            None => Err(ParseAnswerLineError),
        }
    }
}
