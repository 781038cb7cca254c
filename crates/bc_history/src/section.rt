use crate::option::Scope;

/// The kinds of sections of a scenario text.
#[derive(Clone, Copy, Debug, PartialEq, Eq)]
pub enum Section {
    /// Options of the whole, of a clock or of a port.
    Options(Scope),
    /// What happens to ports.
    Records,
    /// Management queries.
    Queries,
    /// Whose turns they are.
    Schedule,
}

/// A line that begins a section. Numbers are those of the text, below 10^20.
#[derive(Clone, Copy, Debug, PartialEq, Eq)]
pub enum Header {
    /// The options of the whole.
    Global,
    /// A clock, by its number.
    Clock(u128),
    /// A port and the clock that it is on.
    Port { number: u128, clock: u128 },
    /// What happens to ports.
    Records,
    /// Management queries.
    Queries,
    /// Whose turns they are.
    Schedule,
}

/// What a line of a scenario text is, by its words and the section in force.
#[derive(Clone, Copy, Debug, PartialEq, Eq)]
pub enum Role {
    /// It has no words, or is a comment.
    Skipped,
    /// It begins with a bracket and is no header, or stands in no section.
    Astray,
    /// It begins a section.
    Begins(Header),
    /// It says something in a section of this kind.
    Says(Section),
}
