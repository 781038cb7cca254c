ghost use Rattle.std.specs.Prelude.{◌≡◌, ◌≤◌, ◌*◌};
ghost use Rattle.ptp_base.specs.Floor.{interval_of};
ghost use Rattle.ptp_base.specs.declared.time.TheConstants.{TICK_MAX};
ghost use Rattle.ptp_profile.specs.Port.PortTimers.{receipt_time, qualification_of, waiting_timers, sending_timers, following_timers, qualifying_timers};
ghost use Rattle.port_engine.specs.PortIntervals.{IsInterval, HasIntervals};

use port_fsm::{PortEvent, Timer, Timers};
use ptp_base::{Code, PortConf, interval};

/// The interval of a logarithm in ns (IEEE 1588-2019, 7.7.2.1).
pub(crate) fn interval_of(log: i8) -> u64
    requires { IsInterval log }
    ensures exact { result ≡ interval_of log }
    ensures few { result ≤ 1024000000000 }
{
    interval(log)
}

/// How long the port waits for an Announce, in ns (IEEE 1588-2019, 9.2.6.12).
pub(crate) fn receipt_time(conf: &PortConf) -> u64
    requires { HasIntervals conf.now }
    ensures exact { result ≡ receipt_time conf.now }
    ensures few { result ≤ 255 * 1024000000000 }
{
    u64::from(conf.receipt) * interval_of(conf.log_announce)
}

/// When a port that enters PRE_MASTER at `moment` is qualified, in ticks (IEEE 1588-2019, 9.2.6.11).
fn qualification(conf: &PortConf, moment: u64, steps: u16, cause: PortEvent) -> u64
    requires intervals { HasIntervals conf.now }
    requires early { moment ≤ TICK_MAX }
    ensures { result ≡ qualification_of conf.now moment steps cause }
{
    match cause {
        PortEvent::Decided(Code::M3) => {
            moment + (u64::from(steps) + 1) * interval_of(conf.log_announce)
        }
        _ => moment,
    }
}

/// LISTENING and PASSIVE from `moment` on: announce receipt alone.
pub(crate) fn waiting(conf: &PortConf, moment: u64) -> Timers
    requires intervals { HasIntervals conf.now }
    requires early { moment ≤ TICK_MAX }
    ensures { result ≡ waiting_timers conf.now moment }
{
    let mut timers = Timers::none();
    timers.set(Timer::AnnounceReceipt, moment + receipt_time(conf));
    timers
}

/// MASTER from `moment` on: the first Announce and the first Sync an interval later.
pub(crate) fn sending(conf: &PortConf, moment: u64) -> Timers
    requires intervals { HasIntervals conf.now }
    requires early { moment ≤ TICK_MAX }
    ensures { result ≡ sending_timers conf.now moment }
{
    let mut timers = Timers::none();
    timers.set(Timer::AnnounceSend, moment + interval_of(conf.log_announce));
    timers.set(Timer::SyncSend, moment + interval_of(conf.log_sync));
    timers
}

/// UNCALIBRATED by a decision from `moment` on: announce receipt, and the first Delay_Req an
/// interval later.
pub(crate) fn following(conf: &PortConf, moment: u64) -> Timers
    requires intervals { HasIntervals conf.now }
    requires early { moment ≤ TICK_MAX }
    ensures { result ≡ following_timers conf.now moment }
{
    let mut timers = waiting(conf, moment);
    timers.set(Timer::DelayRequest, moment + interval_of(conf.log_delay));
    timers
}

/// PRE_MASTER from `moment` on: qualification alone.
pub(crate) fn qualifying(conf: &PortConf, moment: u64, steps: u16, cause: PortEvent) -> Timers
    requires intervals { HasIntervals conf.now }
    requires early { moment ≤ TICK_MAX }
    ensures { result ≡ qualifying_timers (qualification_of conf.now moment steps cause) }
{
    let mut timers = Timers::none();
    timers.set(
        Timer::Qualification,
        qualification(conf, moment, steps, cause),
    );
    timers
}
