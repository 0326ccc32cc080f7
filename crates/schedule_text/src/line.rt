//! Lines of schedules.

ghost use Rattle.std.specs.Prelude.{◌≡◌, ◌∷◌, Some};
ghost use Rattle.text_phrases.specs.Phrase.{first, Taken, Refused};
ghost use Rattle.text_phrases.specs.Answers.{Reads};
ghost use Rattle.text_lexer.specs.declared.token.Token.{Token};
ghost use Rattle.text_expressions.specs.Values.{IsShortName};
ghost use Rattle.schedule_text.specs.Words.{find_word, emit_word};
ghost use Rattle.schedule_text.specs.Grammar.{act, line};
ghost use Rattle.schedule_text.specs.Views.{plain_act, plain_statement};

use crate::argument::{read_arguments, read_found};
use crate::moves::{read_move, read_moves};
use crate::patterns::part::followed_by;
use crate::source::{Act, Statement};
use crate::word::{is_emit, is_find};
use exo_reader::part::read_name_and;
use std::alloc::Global;
use text_expressions::front::{Fixed, behind, expect_all, read_name};
use text_lexer::text::Text;
use text_lexer::token::{Sign, Token};
use text_phrases::Refusal;

/// The arguments of an operator, behind their parenthesis.
fn read_operation(alloc: Global, name: Text, inside: &[Token]) -> Result<(Act, &[Token]), Refusal>
    requires short { IsShortName name }
    requires no_find { name ≡ find_word → ⊥ }
    ensures { Reads act (Token.Name name ∷ Token.Sign Sign.Open ∷ inside.now) (λ x. plain_act x.0) (λ x. x.1.now) result }
{
    let (arguments, behind_arguments) = read_arguments(alloc, inside)?;
    followed_by(
        Act::Op(name, arguments),
        behind_arguments,
        &[Fixed::Sign(Sign::Close)],
    )
}

/// A match that is given a name, behind `find (`.
fn read_search(alloc: Global, inside: &[Token]) -> Result<(Act, &[Token]), Refusal>
    ensures { Reads act (Token.Name find_word ∷ Token.Sign Sign.Open ∷ inside.now) (λ x. plain_act x.0) (λ x. x.1.now) result }
{
    let (made, rest) = read_found(alloc, inside)?;
    Ok((Act::Find(made), rest))
}

/// What comes behind a name and a parenthesis.
fn read_call(alloc: Global, name: Text, inside: &[Token]) -> Result<(Act, &[Token]), Refusal>
    requires { IsShortName name }
    ensures { Reads act (Token.Name name ∷ Token.Sign Sign.Open ∷ inside.now) (λ x. plain_act x.0) (λ x. x.1.now) result }
{
    if is_find(&name) {
        return read_search(alloc, inside);
    }
    read_operation(alloc, name, inside)
}

/// The moves behind the name of what is moved, at least one.
fn read_moved(alloc: Global, name: Text, rest: &[Token]) -> Result<(Act, &[Token]), Refusal>
    requires short { IsShortName name }
    requires no_call { first rest.now ≡ Some (Token.Sign Sign.Open) → ⊥ }
    ensures { Reads act (Token.Name name ∷ rest.now) (λ x. plain_act x.0) (λ x. x.1.now) result }
{
    let (step, behind_step) = read_move(rest)?;
    let (more, after) = read_moves(alloc, behind_step)?;
    Ok((Act::Moved(name, step, more), after))
}

/// What a name is bound to.
fn read_act(alloc: Global, tokens: &[Token]) -> Result<(Act, &[Token]), Refusal>
    ensures { Reads act tokens.now (λ x. plain_act x.0) (λ x. x.1.now) result }
{
    let (name, rest) = read_name(tokens)?;
    if let Some(inside) = behind(rest, Fixed::Sign(Sign::Open)) {
        return read_call(alloc, name, inside);
    }
    read_moved(alloc, name, rest)
}

/// What comes behind a name and its `=`.
fn read_bind(alloc: Global, name: Text, after: &[Token]) -> Result<(Statement, &[Token]), Refusal>
    requires { IsShortName name }
    ensures { Reads line (Token.Name name ∷ Token.Sign Sign.Assign ∷ after.now) (λ x. plain_statement x.0) (λ x. x.1.now) result }
{
    let (bound, behind_bound) = read_act(alloc, after)?;
    followed_by(
        Statement::Bind(name, bound),
        behind_bound,
        &[Fixed::NewLine],
    )
}

/// What comes behind an `emit` that is not bound.
fn read_emit(rest: &[Token]) -> Result<(Statement, &[Token]), Refusal>
    requires { first rest.now ≡ Some (Token.Sign Sign.Assign) → ⊥ }
    ensures { Reads line (Token.Name emit_word ∷ rest.now) (λ x. plain_statement x.0) (λ x. x.1.now) result }
{
    let inside = expect_all(rest, &[Fixed::Sign(Sign::Open)])?;
    let (name, after) = read_name_and(inside, &[Fixed::Sign(Sign::Close), Fixed::NewLine])?;
    Ok((Statement::Emit(name), after))
}

/// What comes behind the name with which a line begins.
fn read_named(alloc: Global, name: Text, rest: &[Token]) -> Result<(Statement, &[Token]), Refusal>
    requires { IsShortName name }
    ensures { Reads line (Token.Name name ∷ rest.now) (λ x. plain_statement x.0) (λ x. x.1.now) result }
{
    if let Some(after) = behind(rest, Fixed::Sign(Sign::Assign)) {
        return read_bind(alloc, name, after);
    }
    if is_emit(&name) {
        return read_emit(rest);
    }
    Err(Refusal::Syntax(rest.len()))
}

/// The line that stands first.
pub fn read_line(alloc: Global, tokens: &[Token]) -> Result<(Statement, &[Token]), Refusal>
    ensures { Reads line tokens.now (λ x. plain_statement x.0) (λ x. x.1.now) result }
{
    let (name, rest) = read_name(tokens)?;
    read_named(alloc, name, rest)
}
