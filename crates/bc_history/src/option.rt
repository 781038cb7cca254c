/// How the value of an option is written.
#[derive(Clone, Copy, Debug, PartialEq, Eq)]
pub enum Form {
    /// A number.
    Decimal,
    /// A number, or `0x` and 1 to so many hex digits.
    Hex(usize),
    /// Seconds; the value is in ns.
    Seconds,
    /// A number, which may have a minus sign.
    Signed,
    /// A clock's identity.
    Identity,
}

/// What an option is one of: the whole, a clock or a port.
#[derive(Clone, Copy, Debug, PartialEq, Eq)]
pub enum Scope {
    /// All ports and clocks.
    Global,
    /// One clock.
    Clock,
    /// One port.
    Port,
}
