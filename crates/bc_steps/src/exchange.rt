ghost use Rattle.ptp_base.specs.declared.time.TheConstants.{TICK_MAX};
ghost use Rattle.std.specs.Prelude.{◌≡◌, ◌≢◌, ◌<◌, ◌≤◌, length, slice_set, IfOk, OnOk, OnErr};
ghost use Rattle.ptp_profile.specs.declared.timing.Action.TheVariants.{Unlocked};
ghost use Rattle.ptp_profile.specs.Roles.SeatLogs.{log_at, HasOrder};
ghost use Rattle.bc_history.specs.Run.ExchangeOutcomes.{exchange_result, refusal_outcome};
ghost use Rattle.bc_steps.specs.ExchangeBounds.{IsAskable, outcome_at, with_exchange};

use bc_history::Outcome;
use hub_core::{Hub, PlainRefused};
use ptp_base::NoMemory;
use ptp_profile::{Action, Held, Refused};

/// What an exchange gave that was refused so.
fn refusal_outcome(refused: Refused) -> Outcome
    ensures { result ≡ refusal_outcome refused }
{
    match refused {
        Refused::Superseded { newer, at } => Outcome::Superseded { newer, at },
        Refused::Spent { at } => Outcome::Spent { at },
    }
}

/// The exchange of an action under a held stamp at a tick: the clock is changed, or it is refused.
/// Want of memory leaves the hub as it was.
pub fn exchange(hub: &mut Hub, held: Held, tick: u64, action: Action) -> Result<Outcome, NoMemory>
    requires asks { action ≢ Unlocked }
    requires askable { IsAskable action }
    requires there { held.clock < length hub.old.scenario.clocks }
    requires somebody { held.ctrl ≢ 0 }
    requires ordered { HasOrder (log_at hub.old.logs held.clock) held.gener held.ctrl }
    requires tick { tick ≤ TICK_MAX }
    ensures outcome { IfOk result (λ outcome. outcome ≡ outcome_at hub.old held tick action) }
    ensures log { OnOk result (hub.new ≡ with_exchange hub.old held tick action) }
    ensures same { OnErr result (hub.new ≡ hub.old) }
{
    let (step, freq) = match action {
        Action::Jump { step, freq } => (step, freq),
        Action::Locked { freq } => (0, freq),
        Action::Unlocked => unreachable!(),
    };
    match hub.adjust(held, tick, step, freq) {
        Ok(receipt) => Ok(Outcome::Changed {
            number: receipt.number,
        }),
        Err(PlainRefused::Refused(refused)) => Ok(refusal_outcome(refused)),
        Err(PlainRefused::NoMemory) => Err(NoMemory),
    }
}
