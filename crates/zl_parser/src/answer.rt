use zl_value::Pos;

/// Why tokens have no tree.
#[derive(Clone, Copy, Debug, PartialEq, Eq)]
pub enum ParseAnswer {
    /// With this token no program goes on; the number of tokens stands for the end of the text.
    Parse { token: usize, at: Pos },
    /// This token would open a construct too many.
    Deep { token: usize, at: Pos },
    Memory,
}
