//! Schedules: all tokens of a text.

ghost use Rattle.std.specs.Prelude.{◌≡◌, ◌+◌, ◌≤◌, length, map, IfOk, MatchResult};
ghost use Rattle.text_phrases.specs.Text.{IsText, Faults};
ghost use Rattle.schedule_text.specs.Grammar.{schedule};
ghost use Rattle.schedule_text.specs.Views.{plain_line, number};
ghost use Rattle.schedule_text.specs.Texts.{line_numbers, ReadsSchedule};

use crate::line::read_line;
use crate::source::{Line, Schedule};
use exo_reader::refusal::{error_of, without_memory};
use exo_reader::unit::ReadError;
use std::alloc::Global;
use text_expressions::front::refuse_item;
use text_lexer::lexer::lex;
use text_lexer::place::Place;
use text_lexer::token::{Token, next};
use text_phrases::Refusal;

/// The most lines that are not skipped.
pub const LINES: usize = 4096;

/// The lines that the tokens are, all of them, at most 4,096. Behind the places of the tokens stands that of the end.
fn read_lines(alloc: Global, tokens: &[Token], places: &[Place]) -> Result<Vec<Line>, Refusal>
    requires { length places.now ≡ length tokens.now + 1 }
    ensures lines { MatchResult result (λ l. IsText schedule tokens.now (map plain_line l.items)) (λ e. Faults schedule tokens.now e) }
    ensures numbers { IfOk result (λ l. map number l.items ≡ line_numbers places.now (map plain_line l.items)) }
{
    let mut lines = Vec::new(alloc);
    let mut rest = tokens;
    'more: while let Some(_) = next(rest) {
        if lines.len() >= LINES {
            return Err(refuse_item(rest));
        }
        let number = places[tokens.len() - rest.len()].line;
        let (statement, after) = read_line(alloc, rest)?;
        lines.push(Line { number, statement })?;
        rest = after;
    }
    Ok(lines)
}

/// The schedule of a text of at most 2^20 bytes; else where and why no schedule begins so.
pub fn read_schedule(alloc: Global, bytes: &[u8]) -> Result<Schedule, ReadError>
    requires { length bytes.now ≤ 0x100000 }
    ensures { ReadsSchedule bytes.now result }
{
    let Ok(lexed) = lex(alloc, bytes) else {
        return Err(without_memory());
    };
    let tokens = lexed.tokens;
    let places = lexed.places;
    match read_lines(alloc, tokens.as_slice(), places.as_slice()) {
        Ok(lines) => Ok(Schedule { lines }),
        Err(refusal) => Err(error_of(refusal, tokens.as_slice(), places.as_slice())),
    }
}
