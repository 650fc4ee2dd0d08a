ghost use Rattle.std.specs.Prelude.{◌≡◌, ℕ, ◌<◌, ◌≤◌, ◌^◌, List, length, option_map, Some, IfOk, IfErr, IfSome, OnOk};
ghost use Rattle.std.specs.Str.{chars};
ghost use Rattle.zl_value.specs.declared.position.Pos.{Pos as ThePos};
ghost use Rattle.zl_lexer.specs.declared.token.LexAnswer.{LexAnswer as TheAnswer};
ghost use Rattle.zl_lexer.specs.declared.token.Token.{Token as TheToken};
ghost use Rattle.zl_lexer.specs.Answers.{IsRefusal, GivesTokens, Refuses};
ghost use Rattle.zl_lexer.specs.Facts.{AreTokens, IsKind};
ghost use Rattle.zl_lexer.specs.Tokens.{HasForm, IsLexed, StopsAt, kind_of, name_kind, numbered_kind, with_kind};

use crate::front::{Form, Front, front_of};
use crate::number::{float_kind, int_kind};
use crate::place::Place;
use crate::word::word_of;
use crate::{LexAnswer, Lexed, Names, Token, TokenKind};
use std::alloc::{AllocError, Global};
use zl_value::Sequence;

/// The tokens of a text, or the first place at which it stops having any: where no token begins, where a comment begins
/// that isn't closed, or where a number begins that is refused. The forms are those of Zélus, and the limits of numbers
/// this project's own.
pub fn lex(alloc: Global, text: &str) -> Result<Lexed, LexAnswer>
    requires { length text.now ≤ 1048576 }
    ensures ok { IfOk result (λ l. IsLexed text.now l.tokens l.names l.end) }
    ensures err { IfErr result (IsRefusal text.now) }
    // Where the text has tokens they are the answer, unless memory runs out.
    ensures only { (tokens : List TheToken) (names : List (List ℕ)) (end : ThePos) →
        IsLexed text.now tokens names end → GivesTokens result tokens names end }
    // And where it stops, that is the answer.
    ensures stops { (answer : TheAnswer) → StopsAt text.now answer → Refuses result answer }
    ensures facts { IfOk result (λ l. AreTokens l.tokens l.names l.end) }
{
    read(alloc, text)
}

/// A text has one list of tokens, or one place at which it stops, and not both.
pub fn one_reading()
    ensures tokens { (text : List ℕ) (ts us : List TheToken) (ms ns : List (List ℕ)) (d e : ThePos) →
        IsLexed text ts ms d → IsLexed text us ns e → (ts ≡ us) × (ms ≡ ns) × (d ≡ e) }
    ensures stop { (text : List ℕ) (a b : TheAnswer) → StopsAt text a → StopsAt text b → a ≡ b }
    ensures either { (text : List ℕ) (ts : List TheToken) (ns : List (List ℕ)) (e : ThePos) (a : TheAnswer) →
        IsLexed text ts ns e → StopsAt text a → ⊥ }
{}

fn read(alloc: Global, text: &str) -> Result<Lexed, LexAnswer>
    requires { length text.now ≤ 1048576 }
    ensures ok { IfOk result (λ l. IsLexed text.now l.tokens l.names l.end) }
    ensures err { IfErr result (IsRefusal text.now) }
    ensures facts { IfOk result (λ l. AreTokens l.tokens l.names l.end) }
{
    let mut tokens = Vec::new(alloc);
    let mut names = Names::new(alloc);
    let mut place = Place::first();
    let mut rest = text;
    loop {
        match front_of(rest) {
            Front::End => {
                return Ok(Lexed {
                    tokens: Sequence::from_vec(tokens),
                    names,
                    end: place.at,
                });
            }
            Front::Bad => return Err(LexAnswer::BadToken { at: place.at }),
            Front::Passed(len) => {
                let (passed, behind) = place.past(rest, len);
                let (next, further) = passed.past_white(behind);
                place = next;
                rest = further;
            }
            Front::Token(len, form) => {
                let (next, behind) = place.past(rest, len);
                let word = &text[place.byte..next.byte];
                let Some(kind) = token_kind(alloc, &mut names, form, word)? else {
                    return Err(LexAnswer::Literal { at: place.at });
                };
                tokens.push(Token {
                    kind,
                    start: place.byte,
                    end: next.byte,
                    at: place.at,
                })?;
                place = next;
                rest = behind;
            }
        }
    }
}

/// What a token of this form is, or `None` for a number that is refused.
fn token_kind(
    alloc: Global,
    names: &mut Names,
    form: Form,
    text: &str,
) -> Result<Option<TokenKind>, AllocError>
    requires room { length names.old < 2 ^ 32 }
    requires form { HasForm (chars text.now) form }
    ensures kind { IfOk result (λ kind. kind ≡ option_map (numbered_kind names.old) (kind_of form (chars text.now))) }
    ensures names { OnOk result (names.new ≡ with_kind names.old (kind_of form (chars text.now))) }
    ensures kept { IfOk result (λ kind. IfSome kind (IsKind (length names.new))) }
{
    match form {
        Form::Name => Ok(Some(name_kind(alloc, names, text)?)),
        Form::Int => Ok(int_kind(text.as_bytes())),
        Form::Float => Ok(float_kind(text)),
        Form::Sign(sign) => Ok(Some(TokenKind::Sign(sign))),
    }
}

fn name_kind(alloc: Global, names: &mut Names, text: &str) -> Result<TokenKind, AllocError>
    requires { length names.old < 2 ^ 32 }
    ensures kind { IfOk result (λ kind. kind ≡ numbered_kind names.old (name_kind text.now)) }
    ensures names { OnOk result (names.new ≡ with_kind names.old (Some (name_kind text.now))) }
    ensures kept { IfOk result (IsKind (length names.new)) }
{
    match word_of(text) {
        Some(word) => Ok(TokenKind::Word(word)),
        None => Ok(TokenKind::Name(names.number(alloc, text)?)),
    }
}
