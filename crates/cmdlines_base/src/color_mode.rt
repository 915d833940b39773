//! Whether messages are coloured.

/// Whether a compiler colours its messages.
#[derive(Clone, Copy, Debug, PartialEq, Eq)]
pub enum ColorMode {
    Off,
    On,
    /// Where they go to a terminal.
    Auto,
}
