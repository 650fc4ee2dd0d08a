ghost use Rattle.std.specs.Prelude.{◌≡◌, ◌<◌, ◌≤◌, ◌^◌, ◌&&◌, ◌==◌, not, map, length, option_map};
ghost use Rattle.std.specs.List.{prefix_len};
ghost use Rattle.std.specs.Str.{is_utf8};
ghost use Rattle.zl_lexer.specs.Words.{is_identifier};
ghost use Rattle.zl_script.specs.Assignments.{name_len, assignment_of, set_at, set_of};

use crate::literal::Literal;
use crate::number::{read_literal, value_for};
use crate::table::Table;
use zl_lexer::is_identifier;
use zl_value::{Input, Set};

/// A name, and what its value says.
#[derive(Clone, Copy)]
pub(crate) struct Assignment<'a> {
    pub(crate) name: &'a [u8],
    pub(crate) value: Literal,
}

/// How many bytes stand before the first `=`.
fn name_len(word: &[u8]) -> usize
    ensures value { result ≡ name_len word.now }
    ensures within { result ≤ length word.now }
{
    word.iter().take_while(|c| **c != b'=').count()
}

fn is_name(text: &[u8]) -> bool
    ensures { result ≡ (is_utf8 text.now && is_identifier text.now) }
{
    match std::str::from_utf8(text) {
        Ok(name) => is_identifier(name),
        Err(_) => false,
    }
}

/// The name and the value of a word that is a name, `=` and a value.
pub(crate) fn read_assignment(word: &[u8]) -> Option<Assignment<'_>>
    ensures { option_map (λ a. record { name = a.name.now; value = a.value }) result ≡ assignment_of word.now }
{
    let (name, behind) = word.split_at(name_len(word));
    if !is_name(name) {
        return None;
    }
    match behind.split_first() {
        Some((_, value)) => match read_literal(value) {
            Some(value) => Some(Assignment { name, value }),
            None => None,
        },
        None => None,
    }
}

/// What an assignment sets, where its name is an input's and its value one of the input's type.
pub(crate) fn set_for(inputs: &[Input], table: &Table, name: &[u8], value: Literal) -> Option<Set>
    requires table { table.now ≡ map (λ i. i.name) inputs.now }
    requires few { length inputs.now < 2 ^ 32 }
    ensures { result ≡ set_of inputs.now (record { name = name.now; value = value }) }
{
    match table.find(name) {
        Some(number) => set_at(inputs, number, value),
        None => None,
    }
}

fn set_at(inputs: &[Input], number: usize, value: Literal) -> Option<Set>
    requires { length inputs.now < 2 ^ 32 }
    ensures { result ≡ set_at inputs.now number value }
{
    match inputs.get(number) {
        Some(input) => match value_for(input.ty, value) {
            Some(value) => Some(Set {
                input: number as u32,
                value,
            }),
            None => None,
        },
        None => None,
    }
}
