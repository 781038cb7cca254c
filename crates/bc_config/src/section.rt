ghost use Rattle.std.specs.Prelude.{◌≡◌};
ghost use Rattle.bc_history.specs.Scenario.SectionHeaders.{section_of, place_of, may_repeat, may_follow};

use bc_history::{Header, Scope, Section};

/// The section that a header begins.
pub(crate) fn section_of(header: Header) -> Section
    ensures { result ≡ section_of header }
{
    match header {
        Header::Global => Section::Options(Scope::Global),
        Header::Clock(_) => Section::Options(Scope::Clock),
        Header::Port { .. } => Section::Options(Scope::Port),
        Header::Records => Section::Records,
        Header::Queries => Section::Queries,
        Header::Schedule => Section::Schedule,
    }
}

/// Where a section stands in the order of sections.
fn place(section: Section) -> u8
    ensures { result ≡ place_of section }
{
    match section {
        Section::Options(Scope::Global) => 0,
        Section::Options(Scope::Clock) => 1,
        Section::Options(Scope::Port) => 2,
        Section::Records => 3,
        Section::Queries => 4,
        Section::Schedule => 5,
    }
}

/// Whether there may be several sections of the kind.
fn may_repeat(section: Section) -> bool
    ensures { result ≡ may_repeat section }
{
    match section {
        Section::Options(Scope::Clock) | Section::Options(Scope::Port) => true,
        Section::Options(Scope::Global) | Section::Records | Section::Queries | Section::Schedule =>
            false,
    }
}

/// Whether a section may stand behind another, or at the head of the text.
pub(crate) fn may_follow(former: Option<Section>, next: Section) -> bool
    ensures { result ≡ may_follow former next }
{
    match former {
        None => true,
        Some(former) => {
            place(former) < place(next) || place(former) == place(next) && may_repeat(next)
        }
    }
}
