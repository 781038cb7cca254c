ghost use Rattle.std.specs.Prelude.{◌≡◌, ◌≤◌, ◌+◌, if◌then◌else◌, is_some};
ghost use Rattle.ptp_profile.specs.Best.StateDecision.{wins_against, wins_by_topology, is_received_on, never_follows, decides_nothing, decided_code, code_of};
ghost use Rattle.state_decision.specs.Wins.{wins_of};

use ds_compare::{Steps, compare_counted, wins};
use ptp_base::{Announcement, Code, PortState};
use ptp_profile::{Order, PortBest};
use std::sync::ledger::Ledger;

/// What comparisons say of one port: all that its code needs of them.
#[derive(Clone, Copy)]
pub(crate) struct Wins {
    /// Whether the own announcement wins against the port's best.
    pub own_over_erbest: bool,
    /// Whether the own announcement wins against the best that any port hears.
    pub own_over_ebest: bool,
    /// Whether the best that any port hears wins by topology against the port's best.
    pub ebest_by_topology: bool,
}

/// Whether the announcement wins; an empty one loses to every other, uncompared
/// (IEEE 1588-2019, 9.3.3).
pub(crate) fn wins_against<L: Ledger>(
    a: &Announcement,
    other: &Option<Announcement>,
    steps: &mut Steps<L>,
) -> bool
    ensures wins { result ≡ wins_against a.now other.now }
    ensures counted { steps.new ≡ steps.old + (if is_some other.now then 1 else 0) }
{
    match other {
        None => true,
        Some(other) => wins(a, other, steps),
    }
}

/// Whether the first is better by topology alone. An empty one never wins so, and never loses so
/// (IEEE 1588-2019, 9.3.3). That is one comparison at most.
pub(crate) fn wins_by_topology<L: Ledger>(
    a: &Option<Announcement>,
    b: &Option<Announcement>,
    steps: &mut Steps<L>,
) -> bool
    ensures wins { result ≡ wins_by_topology a.now b.now }
    ensures counted { steps.new ≤ steps.old + 1 }
{
    match (a, b) {
        (Some(a), Some(b)) => compare_counted(a, b, steps) == Order::ATopo,
        _ => false,
    }
}

/// Whether the announcement was received on this port (IEEE 1588-2019, 9.3.3).
fn is_received_on(port: u16, best: &Option<Announcement>) -> bool
    ensures { result ≡ is_received_on port best.now }
{
    match best {
        None => false,
        Some(best) => best.receiver.port == port,
    }
}

/// Whether the own clock's class keeps its ports from becoming slaves (IEEE 1588-2019, 9.3.3).
fn never_follows(own: &Announcement) -> bool
    ensures { result ≡ never_follows own.now }
{
    own.quality.class >= 1 && own.quality.class <= 127
}

/// Whether nothing is decided of the port (IEEE 1588-2019, 9.3.3).
fn stays(port: &PortBest) -> bool
    ensures { result ≡ decides_nothing port.now.state port.now.best }
{
    match port.state {
        PortState::Faulty | PortState::Disabled | PortState::Initializing => true,
        PortState::Listening => port.best.is_none(),
        PortState::PreMaster
        | PortState::Master
        | PortState::Passive
        | PortState::Uncalibrated
        | PortState::Slave => false,
    }
}

/// The code of port `number` where it decides, by the own announcement, the best that any port
/// hears, and what the comparisons say (IEEE 1588-2019, 9.3.3, figure 33).
fn decided_code(
    own: &Announcement,
    ebest: &Option<Announcement>,
    number: u16,
    port: &PortBest,
    wins: Wins,
) -> Code
    requires wins { wins ≡ wins_of own.now ebest.now port.now.best }
    ensures { result ≡ decided_code own.now ebest.now number port.now.best }
{
    if never_follows(own) && wins.own_over_erbest {
        Code::M1
    } else if never_follows(own) {
        Code::P1
    } else if wins.own_over_ebest {
        Code::M2
    } else if is_received_on(number, ebest) {
        Code::S1
    } else if wins.ebest_by_topology {
        Code::P2
    } else {
        Code::M3
    }
}

/// The code of port `number`, by the own announcement, the best that any port hears, and what the
/// comparisons say (IEEE 1588-2019, 9.3.3, figure 33). It compares nothing.
pub(crate) fn code_of(
    own: &Announcement,
    ebest: &Option<Announcement>,
    number: u16,
    port: &PortBest,
    wins: Wins,
) -> Code
    requires wins { wins ≡ wins_of own.now ebest.now port.now.best }
    ensures { result ≡ code_of own.now ebest.now number port.now.state port.now.best }
{
    if stays(port) {
        Code::Stay
    } else {
        decided_code(own, ebest, number, port, wins)
    }
}
