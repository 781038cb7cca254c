ghost use Rattle.std.specs.Prelude.{◌≡◌, ◌<◌, ◌↔◌, length, Err, OnErr, OnOk};
ghost use Rattle.ptp_base.specs.declared.limits.TheConstants.{ENTRIES_MAX};
ghost use Rattle.bc_history.specs.Phases.Step.{state_of};
ghost use Rattle.bc_history.specs.Run.NextInputs.{IsDue};
ghost use Rattle.hub_core.specs.HubView.{IsInWindow, IsMeasuredTime, entry_by, newest_seen, reading_at, with_entry};

use bc_history::Input;
use hub_core::{Hub, HubError, Steps};
use std::marker::Brand;
use std::sync::ledger::{Blank, Ledger};

/// `Hub::take`, by a count of its own.
fn count_event<L: Ledger>(hub: &mut Hub, input: Input, blank: Blank) -> Result<(), HubError>
    requires due { IsDue hub.old.scenario (state_of hub.old.scenario hub.old.entries) input }
    requires within { IsInWindow hub.old input }
    requires name { blank.name ≡ L.name }
    requires parts { blank.parts ≡ L.parts }
    requires some { 0 < blank.parts }
    ensures events { (result ≡ Err HubError.Events) ↔ (length hub.old.entries ≡ ENTRIES_MAX) }
    ensures entry { OnOk result (hub.new
        ≡ with_entry hub.old (entry_by hub.old input (newest_seen hub.new.entries))) }
    ensures reading { OnOk result (newest_seen hub.new.entries ≡ reading_at hub.old input) }
    ensures measured { OnOk result
        (IsMeasuredTime (entry_by hub.old input (newest_seen hub.new.entries)).effects) }
    ensures same { OnErr result (hub.new ≡ hub.old) }
{
    hub.take(input, &mut Steps::<L>::start(blank))
}

/// `Hub::take`, where nobody asks for the count of comparisons.
pub(crate) fn take_event(hub: &mut Hub, input: Input) -> Result<(), HubError>
    requires due { IsDue hub.old.scenario (state_of hub.old.scenario hub.old.entries) input }
    requires within { IsInWindow hub.old input }
    ensures events { (result ≡ Err HubError.Events) ↔ (length hub.old.entries ≡ ENTRIES_MAX) }
    ensures entry { OnOk result (hub.new
        ≡ with_entry hub.old (entry_by hub.old input (newest_seen hub.new.entries))) }
    ensures reading { OnOk result (newest_seen hub.new.entries ≡ reading_at hub.old input) }
    ensures measured { OnOk result
        (IsMeasuredTime (entry_by hub.old input (newest_seen hub.new.entries)).effects) }
    ensures same { OnErr result (hub.new ≡ hub.old) }
{
    count_event::<Brand>(hub, input, Blank::new(1))
}
