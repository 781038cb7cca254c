ghost use Rattle.ptp_base.specs.declared.time.TheConstants.{FREQ_MAX, TICK_MAX, TIME_MAX};
ghost use Rattle.std.specs.Prelude.{◌≡◌, ◌≢◌, ◌<◌, ◌≤◌, length, IfOk, OnErr, OnOk};
ghost use Rattle.ptp_base.specs.Floor.{IsWithin};
ghost use Rattle.model_clock.specs.Clock.{IsClock};
ghost use Rattle.ptp_profile.specs.Roles.SeatLogs.{change_of, exchange_answer, log_at, HasOrder};
ghost use Rattle.hub_core.specs.HubView.{clock_reading, with_change, IsAnswerOf};

use crate::hub::Hub;
use ptp_base::NoMemory;
use ptp_profile::{Held, Reading, Receipt, Refused};

/// Why a clock was not changed.
#[derive(Clone, Copy, Debug, PartialEq, Eq)]
pub enum PlainRefused {
    /// There was no memory.
    NoMemory,
    /// The stamp is not in force any more, or the log is full.
    Refused(Refused),
}

impl From<NoMemory> for PlainRefused {
    ghost use Rattle.std.specs.Prelude.{◌≡◌};
    ghost use Rattle.hub_core.specs.declared.adjust.PlainRefused.TheVariants.{NoMemory as Lacks};

    ghost from_gives = { λ _ e. e ≡ Lacks };

    fn from(_e: NoMemory) -> PlainRefused {
        PlainRefused::NoMemory
    }
}

impl Hub {
    /// A clock after its whole log, with the stamp in force. The clock is there. Does not allocate.
    pub fn read(&self, clock: u8) -> Reading
        requires there { clock < length self.now.scenario.clocks }
        ensures reading { result ≡ clock_reading self.now clock }
        ensures state { IsClock result.state }
    {
        self.machine.roles.read(clock)
    }

    /// Changes a clock under a held stamp: adds `step` ns to its time, within `TIME_MAX`, and sets
    /// its frequency to `freq` ppb times 65,536, within `FREQ_MAX`, at `tick`, at most `TICK_MAX`.
    /// Superseded where another stamp is in force, else Spent where the log has `seat_rows` entries
    /// or more. A refusal leaves the hub as it was. The clock is there, and an order of its log gave
    /// it to the holder. The place in the log is taken before anything changes.
    pub fn adjust(
        &mut self,
        held: Held,
        tick: u64,
        step: i64,
        freq: i64,
    ) -> Result<Receipt, PlainRefused>
        requires there { held.clock < length self.old.scenario.clocks }
        requires somebody { held.ctrl ≢ 0 }
        requires ordered { HasOrder (log_at self.old.logs held.clock) held.gener held.ctrl }
        requires tick { tick ≤ TICK_MAX }
        requires step { IsWithin TIME_MAX step }
        requires freq { IsWithin FREQ_MAX freq }
        ensures answer { IsAnswerOf (exchange_answer self.old.scenario.options.seat_rows held
            (log_at self.old.logs held.clock)) result }
        ensures taken { OnOk result (self.new
            ≡ with_change self.old held.clock (change_of held tick step freq)) }
        ensures number { IfOk result (λ receipt.
            receipt.number ≡ length (log_at self.new.logs held.clock)) }
        ensures same { OnErr result (self.new ≡ self.old) }
    {
        self.machine.roles.reserve()?;
        match self.machine.roles.adjust(held, tick, step, freq) {
            Ok(receipt) => Ok(receipt),
            Err(refused) => Err(PlainRefused::Refused(refused)),
        }
    }
}
