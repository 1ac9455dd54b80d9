//! What a board came to: the lines of its replies, the pieces that wait, and the certificate.

/// What a board came to when all events were taken.
#[derive(Drop)]
pub struct Shared {
    /// A line for each event, and then `joined`, or `left` with the number of pieces that wait. For a wide board, a
    /// line for each of these pieces follows `left`.
    pub text: Vec<u8>,
    /// How many pieces wait.
    pub left: usize,
    /// The text of the certificate, if no piece waits.
    pub certificate: Option<Vec<u8>>,
}
