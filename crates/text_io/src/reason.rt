use thiserror::Error;

/// Why a line of a scenario text is refused. Each is printed as its one word.
#[derive(Clone, Copy, Debug, PartialEq, Eq, Error)]
pub enum Reason {
    /// A line stands outside the sections, or a section that must be there is missing.
    #[error("section")]
    Section,
    /// A section, a clock, a port, a record or a query is out of order.
    #[error("order")]
    Order,
    /// The section has no such option.
    #[error("option")]
    UnknownOption,
    /// The option stands in the section already.
    #[error("repeated")]
    Repeated,
    /// A line is not of its section's form, or a value is out of its range.
    #[error("value")]
    Value,
    /// A number is above what the program takes.
    #[error("limit")]
    Limit,
    /// Ports are on two clocks, and `boundary_clock_jbod` does not allow that.
    #[error("jbod")]
    Jbod,
}
