ghost use Rattle.std.specs.Prelude.{◌≡◌, IfSome};
ghost use Rattle.zl_value.specs.Fraction.{IsFrac};
ghost use Rattle.zl_driver.specs.HorizonScript.{horizon_of, without_line_end as text_without_line_end};

use zl_value::{Frac, read_ratio};

/// The most bytes that a script has.
pub const LONGEST_SCRIPT: usize = 1_048_576;

/// The horizon of a script that is the line `horizon T` alone, in which T is digits or digits over digits, with or
/// without a line feed at its end. `None` exactly where the bytes aren't such a script, or T isn't in the width. It
/// takes no memory. The form is this project's own.
pub fn read_horizon(bytes: &[u8]) -> Option<Frac>
    ensures value { result ≡ horizon_of bytes.now }
    ensures kept { IfSome result IsFrac }
{
    if bytes.len() > LONGEST_SCRIPT {
        return None;
    }
    match bytes.strip_prefix(b"horizon ") {
        Some(time) => read_ratio(without_line_end(time)),
        None => None,
    }
}

fn without_line_end(text: &[u8]) -> &[u8]
    ensures { result.now ≡ text_without_line_end text.now }
{
    match text.last() {
        Some(b'\n') => &text[..text.len() - 1],
        _ => text,
    }
}
