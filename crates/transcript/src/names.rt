ghost use Rattle.std.specs.Prelude.{◌≡◌};
ghost use Rattle.ptp_profile.specs.Port.PrintedNames.{state_name};
ghost use Rattle.bc_history.specs.Run.Transcript.{timer_name, drop_name, fate_name, asked_name};
ghost use Rattle.transcript.specs.WordReaders.{named};

use bc_history::AskError;
use pmc_query::state_name;
use ptp_base::PortState;
use ptp_profile::{Fate, Reject, Timer};

/// All timers.
const TIMERS: [Timer; 5] = [
    Timer::AnnounceReceipt,
    Timer::Qualification,
    Timer::AnnounceSend,
    Timer::SyncSend,
    Timer::DelayRequest,
];

/// All that may become of a frame.
const FATES: [Fate; 19] = [
    Fate::Asleep,
    Fate::Dropped(Reject::Short),
    Fate::Dropped(Reject::Version),
    Fate::Dropped(Reject::Domain),
    Fate::Dropped(Reject::Type_),
    Fate::Dropped(Reject::Length),
    Fate::Dropped(Reject::Nanos),
    Fate::Dropped(Reject::TimeRange),
    Fate::Own,
    Fate::Far,
    Fate::Alternate,
    Fate::Crowded,
    Fate::Kept,
    Fate::Ignored,
    Fate::Waiting,
    Fate::Paired,
    Fate::Matched,
    Fate::Unmatched,
    Fate::Answered,
];

/// All reasons for which a query may make no request.
const ASK_ERRORS: [AskError; 3] = [AskError::Action, AskError::Unknown, AskError::Target];

/// All states of a port.
const STATES: [PortState; 9] = [
    PortState::Initializing,
    PortState::Faulty,
    PortState::Disabled,
    PortState::Listening,
    PortState::PreMaster,
    PortState::Master,
    PortState::Passive,
    PortState::Uncalibrated,
    PortState::Slave,
];

/// The name of a timer.
pub fn timer_name(timer: &Timer) -> &'static str
    ensures { result.now ≡ timer_name timer.now }
{
    match timer {
        Timer::AnnounceReceipt => "announce_receipt",
        Timer::Qualification => "qualification",
        Timer::AnnounceSend => "announce_send",
        Timer::SyncSend => "sync_send",
        Timer::DelayRequest => "delay_request",
    }
}

/// The name of the reason for which a frame was dropped.
fn drop_name(reject: &Reject) -> &'static str
    ensures { result.now ≡ drop_name reject.now }
{
    match reject {
        Reject::Short => "short",
        Reject::Version => "version",
        Reject::Domain => "domain",
        Reject::Type_ => "type",
        Reject::Length => "length",
        Reject::Nanos => "nanos",
        Reject::TimeRange => "timerange",
    }
}

/// The name of what became of a frame.
pub fn fate_name(fate: &Fate) -> &'static str
    ensures { result.now ≡ fate_name fate.now }
{
    match fate {
        Fate::Asleep => "asleep",
        Fate::Dropped(reject) => drop_name(reject),
        Fate::Own => "own",
        Fate::Far => "far",
        Fate::Alternate => "alternate",
        Fate::Crowded => "crowded",
        Fate::Kept => "kept",
        Fate::Ignored => "ignored",
        Fate::Waiting => "waiting",
        Fate::Paired => "paired",
        Fate::Matched => "matched",
        Fate::Unmatched => "unmatched",
        Fate::Answered => "answered",
    }
}

/// The name of the reason for which a query made no request.
pub fn asked_name(error: &AskError) -> &'static str
    ensures { result.now ≡ asked_name error.now }
{
    match error {
        AskError::Action => "action",
        AskError::Unknown => "unknown",
        AskError::Target => "target",
    }
}

/// The timer that a word names.
pub fn timer_named(word: &[u8]) -> Option<Timer>
    ensures { result ≡ named timer_name TIMERS word.now }
{
    TIMERS
        .iter()
        .find(|timer| timer_name(timer).as_bytes() == word)
        .copied()
}

/// What became of a frame, by its name.
pub fn fate_named(word: &[u8]) -> Option<Fate>
    ensures { result ≡ named fate_name FATES word.now }
{
    FATES
        .iter()
        .find(|fate| fate_name(fate).as_bytes() == word)
        .copied()
}

/// Why a query made no request, by its name.
pub fn asked_named(word: &[u8]) -> Option<AskError>
    ensures { result ≡ named asked_name ASK_ERRORS word.now }
{
    ASK_ERRORS
        .iter()
        .find(|error| asked_name(error).as_bytes() == word)
        .copied()
}

/// The state of a port that a word names.
pub fn state_named(word: &[u8]) -> Option<PortState>
    ensures { result ≡ named state_name STATES word.now }
{
    STATES
        .iter()
        .find(|state| state_name(state).as_bytes() == word)
        .copied()
}
