ghost use Rattle.std.specs.Prelude.{◌≡◌, ◌++◌, IfOk, OnOk};
ghost use Rattle.zl_cli.specs.Texts.{rule_text as text_of_rule, refusal_line as line_of_refusal};

use std::alloc::Global;
use zl_outside::Memory;
use zl_value::{Pos, Rule, Text, print_position};

pub const OK_LINE: &[u8] = b"ok\n";

pub const SCRIPT_LINE: &[u8] = b"refused script unbuilt 1\n";

pub const USAGE_LINE: &[u8] =
    b"usage: zpc check FILE, code FILE, run FILE SCRIPT, exec CODE SCRIPT, gen SEED\n";

pub const READ_FAULT_LINE: &[u8] = b"read fault\n";

pub const NO_MEMORY_LINE: &[u8] = b"no memory\n";

/// The name of a rule in a refusal.
fn rule_text(rule: Rule) -> &'static [u8]
    ensures { result.now ≡ text_of_rule rule }
{
    match rule {
        Rule::Size => b"size",
        Rule::Utf8 => b"utf8",
        Rule::Token => b"token",
        Rule::Literal => b"literal",
        Rule::Parse => b"parse",
        Rule::Deep => b"deep",
        Rule::NameUnknown => b"name-unknown",
        Rule::NameTwice => b"name-twice",
        Rule::DefinedTwice => b"defined-twice",
        Rule::Undefined => b"undefined",
        Rule::Arity => b"arity",
        Rule::Branch => b"branch",
        Rule::Main => b"main",
        Rule::Last => b"last",
        Rule::TypeClash => b"type-clash",
        Rule::TypeOpen => b"type-open",
        Rule::Kind => b"kind",
        Rule::Init => b"init",
        Rule::ExpandSize => b"expand-size",
        Rule::Causality => b"causality",
        Rule::Grade => b"grade",
        Rule::Unbuilt => b"unbuilt",
    }
}

fn append(line: &mut Vec<u8>, bytes: &[u8]) -> Result<(), Memory>
    ensures { OnOk result (line.new.items ≡ line.old.items ++ bytes.now) }
{
    match line.extend_from_slice(bytes) {
        Ok(()) => Ok(()),
        Err(_) => Err(Memory),
    }
}

/// The answer to a file that breaks a rule.
pub fn refusal_line(alloc: Global, rule: Rule, at: Pos) -> Result<Text, Memory>
    ensures { IfOk result (λ line. line ≡ line_of_refusal rule at) }
{
    let mut line = Vec::new(alloc);
    append(&mut line, b"refused ")?;
    append(&mut line, rule_text(rule))?;
    append(&mut line, b" ")?;
    print_position(&mut line, at)?;
    append(&mut line, b"\n")?;
    Ok(Text::from_vec(line))
}
