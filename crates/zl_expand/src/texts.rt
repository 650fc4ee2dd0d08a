//! The texts of names.
ghost use Rattle.std.specs.Prelude.{◌≡◌};
ghost use Rattle.zl_ast.specs.Names.{has_text, is_main};

use zl_lexer::Names;

/// Whether the name of this number has this text.
pub(crate) fn has_text(names: &Names, id: u32, text: &str) -> bool
    ensures { result ≡ has_text names.now id text.now }
{
    match names.text(id) {
        Some(name) => name == text,
        None => false,
    }
}

pub(crate) fn is_main(names: &Names, id: u32) -> bool
    ensures { result ≡ is_main names.now id }
{
    has_text(names, id, "main")
}
