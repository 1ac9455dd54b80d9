//! What came of a call of `answer_next`.

/// What came of a call of `answer_next`.
#[derive(Clone, Copy, Debug)]
pub enum Reply {
    /// A text was read: its round is kept, or its piece was answered.
    Taken,
    /// The source has ended, and no text is left.
    Ended,
}
