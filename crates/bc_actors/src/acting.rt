//! The hub and all who act, as the one value under the lock.

ghost use Rattle.std.specs.Prelude.{◌≡◌, ◌<◌, ◌≤◌, ◌*◌, min, length, IfOk, IfSome, OnErr};
ghost use Rattle.ptp_base.specs.declared.limits.TheConstants.{ENTRIES_MAX};
ghost use Rattle.bc_history.specs.Run.Actors.{actors_of};
ghost use Rattle.run_legal.specs.Runs.LegalRuns.{IsLegal, IsWindowed, window_at};
ghost use Rattle.bc_windows.specs.Windows.{bound_of};
ghost use Rattle.bc_actors.specs.ActingState.{IsNumberOf, TurnMakes};
ghost use Rattle.bc_actors.specs.LeastDue.{AreIdle, IsLeastDue, IsLeastTick, IsSomebodyDue};
ghost use Rattle.bc_actors.specs.RunErrors.{IsFull};

use bc_history::{Run, Scenario};
use bc_replay::{actors_of, take_step};
use bc_steps::{Actor, Hub, HubError};
use ptp_base::{ENTRIES_MAX, NoMemory};
use run_legal::assemble;
use std::alloc::Global;
use std::marker::{Brand, Model, PhantomData};

/// Names the scenario of a run, so that it is known again at each lock.
pub(crate) trait Naming {
    ghost use Rattle.bc_history.specs.declared.scenario.Scenario.{Scenario};

    ghost scenario: { Scenario };
}

impl Naming for Brand {
    ghost use Rattle.bc_history.specs.Scenario.Defaults.{silent};

    ghost scenario = { silent 0 0 };
}

/// What a turn of an actor did.
#[derive(Clone, Copy, Debug, PartialEq, Eq)]
pub(crate) enum Turn {
    /// It added an entry to the history: its index, from 1.
    Event { entry: u32 },
    /// It took a reading or made an exchange.
    Free,
    /// Nothing: no step of the actor was due.
    Idle,
}

/// Lets all who act in a scenario take their steps, one of one actor at a time.
pub(crate) trait Acts {
    ghost use Rattle.std.specs.Prelude.{ℕ};

    /// The numbers of those who act.
    ghost numbers: { ℕ → Type 0 };

    /// The next step of the actor of a number, where one is due.
    fn turn(&mut self, number: u8) -> Result<Turn, HubError>
        requires there { numbers number };
}

impl<N: Naming> Acts for Acting<N> {
    ghost use Rattle.bc_actors.specs.ActingState.{IsNumberOf};

    ghost numbers = { IsNumberOf N.scenario };

    fn turn(&mut self, number: u8) -> Result<Turn, HubError> {
        self.step(number)
    }
}

/// How a run goes on between two rounds.
#[derive(Clone, Copy, Debug, PartialEq, Eq)]
pub(crate) enum Next {
    /// Nobody has a step that is due before the run ends.
    Finished,
    /// Somebody has one, and the history has `ENTRIES_MAX` entries.
    Full,
    /// Somebody has one in the present window.
    Round,
}

/// The hub and all who act in the scenario. Contracts see both.
#[derive(Drop)]
pub(crate) struct Acting<N: Naming> {
    hub: Hub,
    actors: Vec<Actor>,
    of: PhantomData<N>,
}

impl<N: Naming> Model for Acting<N> {
    ghost use Rattle.bc_actors.specs.ActingState.{ActingState, IsActing};

    ghost Value = { ActingState };

    ghost view = { λ a. record { hub = a.hub; actors = a.actors.items } };

    ghost invariant = { λ a. IsActing N.scenario (record { hub = a.hub; actors = a.actors.items }) };
}

/// The last tick of the window of a tick, both in ns of the scenario, or the end of the run where
/// that is earlier.
fn window_end(s: &Scenario, tick: u64) -> u64
    requires due { tick ≤ s.now.options.duration }
    ensures { result ≡ min (window_at s.now tick * s.now.options.window) s.now.options.duration }
{
    s.rules();
    let window = s.options.window;
    let number = (tick + (window - 1)) / window;
    (number * window).min(s.options.duration)
}

impl<N: Naming> Acting<N> {
    /// All who act in a scenario, with a hub before its first event.
    pub fn new(alloc: Global, s: &Scenario) -> Result<Acting<N>, NoMemory>
        requires named { s.now ≡ N.scenario }
    {
        s.rules();
        let mut hub = Hub::new(alloc, s)?;
        // The window of tick 0, so that each entry has one.
        hub.window(0);
        Ok(Acting {
            hub,
            actors: actors_of(alloc, s)?,
            of: PhantomData,
        })
    }

    /// How many act. Does not allocate.
    pub fn count(&self) -> u8
        ensures { result ≡ length (actors_of N.scenario) }
    {
        self.actors.len() as u8
    }

    /// The next step of the actor of a number, from 1, where one is due in the present window. Events
    /// where the step is an event and there are `ENTRIES_MAX` entries. A refusal changes nothing.
    pub fn step(&mut self, number: u8) -> Result<Turn, HubError>
        requires there { IsNumberOf N.scenario number }
        ensures turn { IfOk result (TurnMakes self.old.hub self.new.hub) }
        ensures same { OnErr result (self.new ≡ self.old) }
    {
        let before = self.hub.entries().len();
        let actor = &mut self.actors[number as usize - 1];
        // The hub's window ends before the run does.
        if !take_step(&mut self.hub, actor, u64::MAX)? {
            return Ok(Turn::Idle);
        }
        let after = self.hub.entries().len();
        Ok(if before < after {
            Turn::Event {
                entry: after as u32,
            }
        } else {
            Turn::Free
        })
    }

    /// The least tick, in ns of the scenario, at which somebody has a step that is due before the run
    /// ends, if anybody has one.
    fn least_due(&self) -> Option<u64>
        ensures { IsLeastDue self.now.hub self.now.actors result }
    {
        let mut least: Option<u64> = None;
        'actors: for actor in &self.actors {
            if let Some(tick) = actor.due(&self.hub) {
                least = match least {
                    Some(former) if former <= tick => least,
                    _ => Some(tick),
                };
            }
        }
        least
    }

    /// Gives the window of a tick, which is the least that is due.
    fn give_window(&mut self, s: &Scenario, tick: u64)
        requires named { s.now ≡ N.scenario }
        requires least { IsLeastTick self.old.hub self.old.actors tick }
        requires beyond { IfSome (bound_of self.old.hub.windows) (λ end. end < tick) }
        ensures entries { self.new.hub.entries ≡ self.old.hub.entries }
    {
        self.hub.window(window_end(s, tick));
    }

    /// How the run goes on: where nobody has a step in the present window, the next one is given.
    pub fn next(&mut self, s: &Scenario) -> Next
        requires named { s.now ≡ N.scenario }
        ensures finished { result ≡ Next.Finished → AreIdle self.new.hub self.new.actors }
        ensures full { result ≡ Next.Full → (length self.new.hub.entries ≡ ENTRIES_MAX)
            × IsSomebodyDue self.new.hub self.new.actors }
    {
        let Some(tick) = self.least_due() else {
            return Next::Finished;
        };
        if self.hub.entries().len() >= ENTRIES_MAX as usize {
            return Next::Full;
        }
        match self.hub.bound() {
            Some(end) if tick <= end => {}
            _ => self.give_window(s, tick),
        }
        Next::Round
    }

    /// The run so far.
    pub fn part(self) -> Run
        ensures legal { AreIdle self.hub self.actors → IsLegal N.scenario result }
        ensures windowed { IsWindowed N.scenario result }
        ensures full { length self.hub.entries ≡ ENTRIES_MAX
            → IsSomebodyDue self.hub self.actors → IsFull N.scenario result }
    {
        let Acting { hub, .. } = self;
        hub.rules();
        let (entries, logs) = hub.part();
        assemble(entries, logs)
    }
}
