ghost use Rattle.std.specs.Prelude.{◌≤◌, length};

use std::alloc::Global;
use std::test::Fail;
use zl_lexer::{LexAnswer, Lexed, Sign, TokenKind, Word, lex};
use zl_value::{Frac, Pos};

fn pos(line: u32, column: u32) -> Pos {
    Pos { line, column }
}

/// The refusal of a text.
fn refusal(alloc: Global, text: &str) -> Option<LexAnswer>
    requires { length text.now ≤ 1048576 }
{
    match lex(alloc, text) {
        Ok(_) => None,
        Err(answer) => Some(answer),
    }
}

/// What the tokens are.
fn kinds(alloc: Global, lexed: &Lexed) -> Result<Vec<TokenKind>, Fail> {
    let mut kinds = Vec::new(alloc);
    for token in lexed.tokens.as_slice() {
        kinds.push(token.kind)?;
    }
    Ok(kinds)
}

#[test]
fn numbers_past_the_width_are_refused(rt: HostRuntime) {
    let wide = "let hybrid main() = x where rec der x = 9223372036854775808.0 init 0.0";
    let narrow = "let hybrid main() = x where rec der x = 1e-19 init 0.0";
    let at = pos(1, 41);
    assert_eq!(rt; refusal(rt.alloc(), wide), Some(LexAnswer::Literal { at }));
    assert_eq!(rt;
        refusal(rt.alloc(), narrow),
        Some(LexAnswer::Literal { at })
    );
    assert_eq!(rt;
        refusal(rt.alloc(), "1 9223372036854775808"),
        Some(LexAnswer::Literal { at: pos(1, 3) })
    );
}

#[test]
fn what_begins_no_token_is_refused(rt: HostRuntime) {
    assert_eq!(rt;
        refusal(rt.alloc(), "(* a"),
        Some(LexAnswer::BadToken { at: pos(1, 1) })
    );
    assert_eq!(rt;
        refusal(rt.alloc(), "x\n (*) (* b *)"),
        Some(LexAnswer::BadToken { at: pos(2, 2) })
    );
    assert_eq!(rt;
        refusal(rt.alloc(), "é ? 9223372036854775808"),
        Some(LexAnswer::BadToken { at: pos(1, 3) })
    );
}

#[test]
fn comments_nest(rt: HostRuntime) -> Result<(), Fail> {
    let lexed = lex(rt.alloc(), "(* a (* b *) *) x")?;
    assert_eq!(rt;
        kinds(rt.alloc(), &lexed)?.as_slice(),
        [TokenKind::Name(0)].as_slice()
    );
    assert_eq!(rt; lexed.end, pos(1, 18));
    Ok(())
}

#[test]
fn names_stand_in_order_of_first_appearance(rt: HostRuntime) -> Result<(), Fail> {
    let lexed = lex(rt.alloc(), "b a b été a")?;
    let numbers = [0, 1, 0, 2, 1];
    for (number, token) in numbers.iter().zip(lexed.tokens.as_slice()) {
        assert_eq!(rt; token.kind, TokenKind::Name(*number));
    }
    assert_eq!(rt; lexed.names.len(), 3);
    assert_eq!(rt; lexed.names.text(0), Some("b"));
    assert_eq!(rt; lexed.names.text(2), Some("été"));
    assert_eq!(rt; lexed.names.text(3), None);
    Ok(())
}

#[test]
fn the_longest_form_is_taken(rt: HostRuntime) -> Result<(), Fail> {
    let lexed = lex(rt.alloc(), "let lets <=-> 1e 2.5e+1\n+.9223372036854775807")?;
    let Ok(number) = Frac::make(25, 1) else {
        return Err("a number is refused".into());
    };
    let expected = [
        TokenKind::Word(Word::Let),
        TokenKind::Name(0),
        TokenKind::Sign(Sign::AtMost),
        TokenKind::Sign(Sign::Arrow),
        TokenKind::Int(1),
        TokenKind::Name(1),
        TokenKind::Float(number),
        TokenKind::Sign(Sign::PlusDot),
        TokenKind::Int(9223372036854775807),
    ];
    assert_eq!(rt; kinds(rt.alloc(), &lexed)?.as_slice(), expected.as_slice());
    let Some(sign) = lexed.tokens.as_slice().get(7) else {
        return Err("a token is missing".into());
    };
    assert_eq!(rt; sign.at, pos(2, 1));
    assert_eq!(rt; (sign.start, sign.end), (24, 26));
    Ok(())
}
