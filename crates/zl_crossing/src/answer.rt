use zl_value::Wide;

/// What a flow ends by.
#[derive(Clone, Copy, Debug, PartialEq, Eq)]
pub enum By {
    /// A line that began below zero reached zero, perhaps at the cap.
    Crossing,
    /// The cap, and no line has reached zero.
    Cap,
}

/// How long a flow lasts, in the model's unit of time, and what it ends by.
#[derive(Debug, Drop)]
pub struct First {
    pub duration: Wide,
    pub by: By,
}
