ghost use Rattle.ptp_base.specs.declared.time.TheConstants.{TICK_MAX};
ghost use Rattle.std.specs.Prelude.{◌≡◌, ℕ, ◌+◌, ◌*◌, ◌≤◌, ◌<◌, List, [], map, length, All, fold, Option};
ghost use Rattle.ptp_base.specs.declared.limits.TheConstants.{PORTS_MAX};
ghost use Rattle.ptp_base.specs.declared.identity.PortId.{PortId};
ghost use Rattle.ptp_base.specs.declared.announcement.Announcement.{Announcement};
ghost use Rattle.ptp_profile.specs.Best.MasterData.{after_code};
ghost use Rattle.data_sets.specs.DataSetsView.{master_in};
ghost use Rattle.bc_history.specs.declared.scenario.Options.{Options};
ghost use Rattle.bc_history.specs.Phases.DecisionPhase.{is_new_parent, with_code, code_with};
ghost use Rattle.bc_history.specs.Phases.HubPort.{HubPort as Model};
ghost use Rattle.bc_history.specs.Phases.OpeningState.{local_announcement};
ghost use Rattle.bc_ports.specs.Representation.{PortsRepresent, ArePortsOf, IsClockOf};
ghost use Rattle.ptp_profile.specs.Best.StateDecision.{bests_of};
ghost use Rattle.bc_ports.specs.DecisionCost.{passing, setting_cost};
ghost use Rattle.bc_ports.specs.DecisionScratch.{IsNear, OthersStay, port_bests};

use crate::hub_port::HubPort;
use data_sets::DataSets;
use ptp_base::{Announcement, Code, PortId, Room};
use ptp_profile::PortBest;
use state_decision::{Decider, Steps};
use std::sync::ledger::Ledger;

/// Adds the state of each port, and its Erbest (IEEE 1588-2019, 9.3.2).
pub fn push_bests<L: Ledger>(
    ports: &[HubPort],
    moment: u64,
    out: &mut Room<PortBest>,
    steps: &mut Steps<L>,
)
    requires empty { out.old.items ≡ [] }
    requires room { length ports.now ≤ out.old.spare }
    ensures bests { (n : ℕ) (hs : List Model) → PortsRepresent n moment ports.now hs →
        out.new.items ≡ port_bests moment hs }
    ensures near { All (λ b. IsNear b.best) out.new.items }
    ensures length { length out.new.items ≡ length ports.now }
    ensures spare { length out.old.items + out.old.spare ≤ length out.new.items + out.new.spare }
    ensures counted { (n : ℕ) (hs : List Model) → PortsRepresent n moment ports.now hs →
        steps.new ≤ steps.old + 15 * passing moment hs }
{
    for port in ports {
        let best = PortBest {
            state: port.engine.state(),
            best: port.best(moment, steps),
        };
        out.push(best);
    }
}

/// Sets what each port hears, by rising number. It takes comparisons only where a port hears another
/// best than at the last decision.
pub fn set_bests<L: Ledger>(decider: &mut Decider, bests: &[PortBest], steps: &mut Steps<L>)
    requires same_length { length bests.now ≡ length decider.old.bests }
    requires few { length bests.now ≤ PORTS_MAX }
    ensures bests { decider.new ≡ record decider.old { bests = bests.now } }
    ensures same_bests { bests_of bests.now ≡ bests_of decider.old.bests → steps.new ≡ steps.old }
    ensures counted { steps.new ≤ steps.old + setting_cost (length bests.now) }
{
    for (i, best) in bests.iter().enumerate() {
        decider.set((i + 1) as u16, *best, steps);
    }
}

/// Applies the codes of all ports to the data sets, in rising number (IEEE 1588-2019, 9.3.5).
pub fn apply_codes(sets: &mut DataSets, codes: &[Code], best: &Option<Announcement>)
    requires { IsNear best.now }
    ensures master { (o : Options) → IsClockOf o sets.old →
        master_in sets.new
        ≡ fold (after_code (local_announcement o) best.now) (master_in sets.old) codes.now }
    ensures clock { (o : Options) → IsClockOf o sets.old → IsClockOf o sets.new }
    ensures others { OthersStay sets.old sets.new }
{
    for code in codes {
        sets.apply(*code, best.as_ref());
    }
}

/// Whether the best announcement comes from another sender than the parent.
pub fn is_new_parent(best: &Option<Announcement>, parent: PortId) -> bool
    ensures { result ≡ is_new_parent best.now parent }
{
    match best {
        None => false,
        Some(best) => best.sender != parent,
    }
}

/// Each port takes its code.
pub fn decide_ports(ports: &mut [HubPort], codes: &[Code], is_new: bool, moment: u64, steps: u16)
    requires moment { moment ≤ TICK_MAX }
    requires same { length codes.now ≡ length ports.old }
    ensures ports { (n : ℕ) (own : Announcement) (best : Option Announcement) (parent : PortId)
        (hs : List Model) →
        is_new ≡ is_new_parent best parent → codes.now ≡ map (code_with own moment best) hs →
        PortsRepresent n moment ports.old hs →
        PortsRepresent n moment ports.new (map (with_code own moment best parent steps) hs) }
    ensures of { (o : Options) → ArePortsOf o 1 ports.old → ArePortsOf o 1 ports.new }
    ensures length { length ports.new ≡ length ports.old }
{
    for i in 0..ports.len() {
        ports[i].decide(codes[i], is_new, moment, steps);
    }
}
