use thiserror::Error;

/// Why a text is no run's.
#[derive(Clone, Copy, Debug, PartialEq, Eq, Error)]
pub enum TextError {
    /// The first line, counted from 1, that no formed run continues. A text that ends too early is
    /// refused at the line behind its last newline, at line 1 where it has none.
    #[error("line {line} continues no run")]
    Line { line: u32 },
    /// Memory ran out.
    #[error("no memory")]
    NoMemory,
}
