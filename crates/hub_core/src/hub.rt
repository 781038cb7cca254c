ghost use Rattle.std.specs.Prelude.{◌≡◌, ◌+◌, ◌<◌, ◌≤◌, ◌↔◌, false, length, reverse, All, Err, IfOk, OnOk, OnErr};
ghost use Rattle.std.specs.Option.{option_and_then};
ghost use Rattle.ptp_base.specs.declared.limits.TheConstants.{ENTRIES_MAX};
ghost use Rattle.ptp_profile.specs.Roles.SeatLogs.{logs_from};
ghost use Rattle.ptp_profile.specs.Port.PortTimers.{due_of};
ghost use Rattle.bc_history.specs.Run.History.{IsHistory};
ghost use Rattle.bc_history.specs.Phases.Inputs.{port_at, IsReadTime};
ghost use Rattle.bc_history.specs.Scenario.ScenarioRules.{IsScenario};
ghost use Rattle.bc_history.specs.Run.NextInputs.{IsDue};
ghost use Rattle.bc_history.specs.Phases.HubPort.{HubPort};
ghost use Rattle.bc_history.specs.Phases.Step.{state_of};
ghost use Rattle.bc_windows.specs.Windows.{IsMadeBy};
ghost use Rattle.bc_ports.specs.DecisionCost.{setting_cost};
ghost use Rattle.hub_core.specs.EffectRooms.{TellsFew};
ghost use Rattle.hub_core.specs.FollowerInputs.{IsServed};
ghost use Rattle.hub_core.specs.HubCost.{IsCountedAt, decides, event_at, few_comparisons, former_bests, present_bests};
ghost use Rattle.hub_core.specs.HubView.{AreLawfulLogs, HubState, HubYields, IsInWindow, IsMeasuredTime, draft_entry, entry_by, newest_seen, hub_at_opening, reading_at, with_entry};

use crate::effect_rooms::{EffectCopies, EffectRooms};
use crate::hub_parts::HubParts;
use crate::windows::GivenWindows;
use bc_history::{Effects, Entries, Entry, Input, Logs, Scenario};
use bc_ports::Steps;
use ptp_base::{ENTRIES_MAX, Items, NoMemory};
use ptp_profile::Timer;
use std::alloc::Global;
use std::marker::Model;
use std::snapshot::Snapshot;
use std::sync::ledger::Ledger;

/// Why the hub takes no event.
#[derive(Clone, Copy, Debug, PartialEq, Eq)]
pub enum HubError {
    /// There was no memory.
    NoMemory,
    /// The history has `ENTRIES_MAX` entries.
    Events,
}

impl From<NoMemory> for HubError {
    ghost use Rattle.std.specs.Prelude.{◌≡◌};
    ghost use Rattle.hub_core.specs.declared.hub.HubError.TheVariants.{NoMemory as Lacks};

    ghost from_gives = { λ _ e. e ≡ Lacks };

    fn from(_e: NoMemory) -> HubError {
        HubError::NoMemory
    }
}

/// A boundary clock, one event at a time: its ports decide by the best master clock algorithm, and
/// what drives each clock follows from that. Contracts see the scenario that it was made with, its
/// history, the clocks' logs and the windows that it was given, the newest first.
#[derive(Drop)]
pub struct Hub {
    pub(crate) alloc: Global,
    scenario: Snapshot<Scenario>,
    pub(crate) machine: HubParts,
    pub(crate) entries: Entries,
    /// How many queries came.
    pub(crate) asked: u32,
    /// The sequence of the next request: how many requests there were, modulo 65,536.
    pub(crate) sequence: u16,
    pub(crate) windows: GivenWindows,
}

impl Model for Hub {
    ghost use Rattle.hub_core.specs.GivenWindows.{windows_of};
    ghost use Rattle.hub_core.specs.HubView.{HubState, history_of, IsHub};

    ghost Value = { HubState };

    ghost view = { λ i. record { scenario = i.scenario.value; entries = history_of i; logs = i.machine.roles.seats.logs; windows = windows_of i.windows } };

    ghost invariant = { IsHub };
}

impl Hub {
    /// A hub before its first event.
    pub fn new(alloc: Global, s: &Scenario) -> Result<Hub, NoMemory>
        ensures { IfOk result (λ hub. hub ≡ hub_at_opening s.now) }
    {
        s.rules();
        Ok(Hub {
            alloc,
            scenario: Snapshot::of(s),
            machine: HubParts::new(alloc, s)?,
            entries: Items::new(alloc),
            asked: 0,
            sequence: 0,
            windows: GivenWindows::none(),
        })
    }

    /// One event, and what it told: the history has one entry more, with the reading of the port's clock
    /// where the input comes with one, and its orders stand in the logs. The input is the next one of its
    /// actor, due, and up to the end of the present window, if there is one. Events exactly where the
    /// history has `ENTRIES_MAX` entries. A refusal leaves the hub as it was. Comparisons of announcements
    /// are counted: none where the entry raises no decision, and few where each port's best is that of the
    /// last decision.
    pub fn event<L: Ledger>(
        &mut self,
        input: Input,
        steps: &mut Steps<L>,
    ) -> Result<Effects, HubError>
        requires due { IsDue self.old.scenario (state_of self.old.scenario self.old.entries) input }
        requires within { IsInWindow self.old input }
        ensures events { (result ≡ Err HubError.Events) ↔ (length self.old.entries ≡ ENTRIES_MAX) }
        ensures entry { OnOk result (self.new
            ≡ with_entry self.old (entry_by self.old input (newest_seen self.new.entries))) }
        ensures reading { OnOk result (newest_seen self.new.entries ≡ reading_at self.old input) }
        ensures effects { IfOk result (λ effects. effects
            ≡ (entry_by self.old input (newest_seen self.new.entries)).effects) }
        ensures measured { IfOk result IsMeasuredTime }
        ensures same { OnErr result (self.new ≡ self.old) }
        ensures uncounted { decides self.old input ≡ false → steps.new ≡ steps.old }
        ensures same_bests { present_bests self.old input ≡ former_bests self.old →
            steps.new ≤ steps.old + few_comparisons self.old input }
        ensures counted { steps.new ≤ steps.old + few_comparisons self.old input
            + setting_cost (length self.old.scenario.ports) }
    {
        if self.entries.len() >= ENTRIES_MAX as usize {
            return Err(HubError::Events);
        }
        Ok(match input {
            Input::Query { tick, text } => self.take_query(tick, text)?,
            input => self.tell(input, steps)?,
        })
    }

    /// One event, as by `event`. What it told stands in the newest entry alone, and no copy is made.
    pub fn take<L: Ledger>(&mut self, input: Input, steps: &mut Steps<L>) -> Result<(), HubError>
        requires due { IsDue self.old.scenario (state_of self.old.scenario self.old.entries) input }
        requires within { IsInWindow self.old input }
        ensures events { (result ≡ Err HubError.Events) ↔ (length self.old.entries ≡ ENTRIES_MAX) }
        ensures entry { OnOk result (self.new
            ≡ with_entry self.old (entry_by self.old input (newest_seen self.new.entries))) }
        ensures reading { OnOk result (newest_seen self.new.entries ≡ reading_at self.old input) }
        ensures measured { OnOk result (IsMeasuredTime
            (entry_by self.old input (newest_seen self.new.entries)).effects) }
        ensures same { OnErr result (self.new ≡ self.old) }
        ensures uncounted { decides self.old input ≡ false → steps.new ≡ steps.old }
        ensures same_bests { present_bests self.old input ≡ former_bests self.old →
            steps.new ≤ steps.old + few_comparisons self.old input }
        ensures counted { steps.new ≤ steps.old + few_comparisons self.old input
            + setting_cost (length self.old.scenario.ports) }
    {
        if self.entries.len() >= ENTRIES_MAX as usize {
            return Err(HubError::Events);
        }
        match input {
            Input::Query { tick, text } => {
                self.take_query(tick, text)?;
            }
            input => self.serve(input, steps)?,
        }
        Ok(())
    }

    /// One event of a port or of a follower, where the history has a place for it.
    fn serve<L: Ledger>(&mut self, input: Input, steps: &mut Steps<L>) -> Result<(), NoMemory>
        requires due { IsDue self.old.scenario (state_of self.old.scenario self.old.entries) input }
        requires within { IsInWindow self.old input }
        requires own { IsServed input }
        requires few { length self.old.entries < ENTRIES_MAX }
        ensures yields { OnOk result (HubYields self.old input self.new
            (entry_by self.old input (newest_seen self.new.entries)).effects) }
        ensures few { OnOk result (TellsFew self.old.scenario
            (entry_by self.old input (newest_seen self.new.entries)).effects) }
        ensures same { OnErr result (self.new ≡ self.old) }
        ensures counted { OnOk result (IsCountedAt self.old.scenario self.old.entries
            (event_at self.old input) steps.old steps.new) }
        ensures uncounted { OnErr result (steps.new ≡ steps.old) }
        ensures most { steps.new ≤ steps.old + few_comparisons self.old input
            + setting_cost (length self.old.scenario.ports) }
    {
        let ports = self.machine.core.ports.len();
        let clocks = self.machine.roles.clocks();
        let rooms = EffectRooms::with(self.alloc, ports, clocks)?;
        self.machine.roles.reserve()?;
        let last = self.entries.len();
        self.entries.push(draft(self.alloc))?;
        let entry = self.machine.take(self.alloc, input, rooms, steps);
        self.entries.set(last, entry);
        Ok(())
    }

    /// One event of a port or of a follower, where the history has a place for it, and a copy of what it
    /// told, whose places are there before anything changes.
    fn tell<L: Ledger>(&mut self, input: Input, steps: &mut Steps<L>) -> Result<Effects, NoMemory>
        requires due { IsDue self.old.scenario (state_of self.old.scenario self.old.entries) input }
        requires within { IsInWindow self.old input }
        requires own { IsServed input }
        requires few { length self.old.entries < ENTRIES_MAX }
        ensures yields { IfOk result (HubYields self.old input self.new) }
        ensures same { OnErr result (self.new ≡ self.old) }
        ensures counted { OnOk result (IsCountedAt self.old.scenario self.old.entries
            (event_at self.old input) steps.old steps.new) }
        ensures uncounted { OnErr result (steps.new ≡ steps.old) }
        ensures most { steps.new ≤ steps.old + few_comparisons self.old input
            + setting_cost (length self.old.scenario.ports) }
    {
        let ports = self.machine.core.ports.len();
        let clocks = self.machine.roles.clocks();
        let copies = EffectCopies::with(self.alloc, ports, clocks)?;
        self.serve(input, steps)?;
        let newest = self.entries.len() - 1;
        Ok(copies.of(self.alloc, &self.entries.items()[newest].effects))
    }

    /// The moment and the timer of a port that is due first, if the port is there and one is set.
    /// Does not allocate.
    pub fn due(&self, port: u16) -> Option<(u64, Timer)>
        ensures { result ≡ option_and_then (λ (h : HubPort). due_of h.port.timers)
            (port_at (state_of self.now.scenario self.now.entries).core.ports port) }
    {
        if port == 0 {
            return None;
        }
        let port = self.machine.core.ports.get(port as usize - 1)?;
        port.engine.due()
    }

    /// How many queries came. Does not allocate.
    pub fn asked(&self) -> u32
        ensures { result ≡ (state_of self.now.scenario self.now.entries).queries }
    {
        self.asked
    }

    /// Says what always holds of a hub: its scenario keeps the rules; its entries are a history of the
    /// scenario, read times, and lie in the windows that it was given; its logs are lawful, one for
    /// each clock. It changes nothing: who calls it is told so.
    pub fn rules(&self)
        ensures scenario { IsScenario self.now.scenario }
        ensures history { IsHistory self.now.scenario self.now.entries }
        ensures times { All IsReadTime self.now.entries }
        ensures windows { IsMadeBy self.now.scenario self.now.windows self.now.entries }
        ensures lawful { AreLawfulLogs self.now }
        ensures logs { length self.now.logs ≡ length self.now.scenario.clocks }
    {
        let _ = self.machine.roles.clocks();
    }

    /// Lends the history, the oldest entry first. Does not allocate.
    pub fn entries(&self) -> &Entries
        ensures { result.now ≡ reverse self.now.entries }
    {
        &self.entries
    }

    /// The history, the oldest entry first, and the clocks' logs. Does not allocate.
    pub fn part(self) -> (Entries, Logs)
        ensures entries { result.0 ≡ reverse self.entries }
        ensures logs { result.1 ≡ logs_from 0 self.scenario.clocks self.logs }
        ensures history { IsHistory self.scenario self.entries }
        ensures lawful { AreLawfulLogs self }
    {
        let Hub {
            machine,
            entries,
            ..
        } = self;
        (entries, machine.roles.part())
    }
}

/// What stands in the place of an entry while it is made.
fn draft(alloc: Global) -> Entry
    ensures { result ≡ draft_entry }
{
    Entry {
        input: Input::Down { port: 0, tick: 0 },
        moment: 0,
        seen: None,
        effects: Effects {
            fate: None,
            states: Items::new(alloc),
            parent: None,
            orders: Items::new(alloc),
            measure: None,
            frames: Items::new(alloc),
            told: None,
            asked: None,
            answers: Items::new(alloc),
        },
    }
}
