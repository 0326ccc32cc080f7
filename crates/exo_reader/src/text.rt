//! Units: all tokens of a text.

ghost use Rattle.std.specs.Prelude.{◌≤◌, length, map, MatchResult};
ghost use Rattle.text_phrases.specs.Text.{IsText, Faults};
ghost use Rattle.exo_reader.specs.Items.{unit};
ghost use Rattle.exo_reader.specs.Views.{plain_item};
ghost use Rattle.exo_reader.specs.Texts.{ReadsUnit};

use crate::item::read_item;
use crate::refusal::{error_of, without_memory};
use crate::source::SourceItem;
use crate::unit::{ReadError, Source};
use std::alloc::Global;
use text_lexer::lexer::lex;
use text_lexer::token::{Token, next};
use text_phrases::Refusal;

/// The items that the tokens are, all of them.
pub fn read_items(alloc: Global, tokens: &[Token]) -> Result<Vec<SourceItem>, Refusal>
    ensures { MatchResult result (λ l. IsText unit tokens.now (map plain_item l.items)) (λ e. Faults unit tokens.now e) }
{
    let mut items = Vec::new(alloc);
    let mut rest = tokens;
    'more: while let Some(_) = next(rest) {
        let (item, after) = read_item(alloc, rest)?;
        items.push(item)?;
        rest = after;
    }
    Ok(items)
}

/// The unit of a text of at most 2^20 bytes, with the place of each token; else where and why no unit begins so.
pub fn read_unit(alloc: Global, bytes: &[u8]) -> Result<Source, ReadError>
    requires { length bytes.now ≤ 0x100000 }
    ensures { ReadsUnit bytes.now result }
{
    let Ok(lexed) = lex(alloc, bytes) else {
        return Err(without_memory());
    };
    let tokens = lexed.tokens;
    let places = lexed.places;
    match read_items(alloc, tokens.as_slice()) {
        Ok(items) => Ok(Source { items, places }),
        Err(refusal) => Err(error_of(refusal, tokens.as_slice(), places.as_slice())),
    }
}
