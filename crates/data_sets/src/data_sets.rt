ghost use Rattle.std.specs.Prelude.{◌≡◌, ◌≢◌, ◌<◌, pos, IfSome};
ghost use Rattle.std.specs.Option.{option_copied};
ghost use Rattle.ptp_base.specs.declared.limits.TheConstants.{STEPS_END};
ghost use Rattle.ptp_profile.specs.Best.MasterData.{after_code, master_of, local_master};
ghost use Rattle.data_sets.specs.DataSetsView.{master_in, announced_by, port_zero, with_master};

use crate::port_set::PortSets;
use ptp_base::{Announcement, ClockId, Code, PortId, Quality, TimeProps};

/// The data sets of a clock (IEEE 1588-2019, 8.2). Those of `own`, `domain` and `local_time` say
/// what the clock is, those from `parent` to `time` whom it takes its time from.
#[derive(Debug, Drop)]
pub struct DataSets {
    /// defaultDS: what the clock says of itself where it is the grandmaster. Its sender is a port
    /// of the clock.
    pub own: Announcement,
    /// defaultDS.domainNumber.
    pub domain: u8,
    /// The time properties of the clock itself (9.4).
    pub local_time: TimeProps,
    /// currentDS.stepsRemoved: boundary clocks between this clock and the grandmaster, and this
    /// one.
    pub steps: u16,
    /// currentDS.offsetFromMaster, in ns times 65,536, held within i64.
    pub offset: i64,
    /// currentDS.meanDelay, in ns times 65,536, held within i64.
    pub delay: i64,
    /// parentDS.parentPortIdentity: the port that the time comes from. It is port 0 of this clock
    /// where it follows nobody.
    pub parent: PortId,
    /// parentDS.grandmasterIdentity.
    pub grandmaster: ClockId,
    /// parentDS.grandmasterClockQuality, with the priorities.
    pub gm_quality: Quality,
    /// timePropertiesDS.
    pub time: TimeProps,
    /// portDS of each port, by rising port.
    pub ports: PortSets,
}

/// Port 0 of the clock that sent the announcement, which stands for the clock itself.
fn own_port(own: &Announcement) -> PortId
    ensures { result ≡ port_zero own.now }
{
    PortId {
        clock: own.sender.clock,
        port: 0,
    }
}

impl DataSets {
    /// The data sets of a clock that follows nobody: the own values, no steps, offset and delay 0.
    /// Does not allocate.
    pub fn new(own: Announcement, domain: u8, local_time: TimeProps, ports: PortSets) -> DataSets
        ensures { result ≡ record {
          own = own;
          domain = domain;
          local_time = local_time;
          steps = 0;
          offset = pos 0;
          delay = pos 0;
          parent = port_zero own;
          grandmaster = own.grandmaster;
          gm_quality = own.quality;
          time = local_time;
          ports = ports;
        } }
    {
        DataSets {
            own,
            domain,
            local_time,
            steps: 0,
            offset: 0,
            delay: 0,
            parent: own_port(&own),
            grandmaster: own.grandmaster,
            gm_quality: own.quality,
            time: local_time,
            ports,
        }
    }

    /// M1 and M2: the clock follows nobody (IEEE 1588-2019, table 30).
    fn follow_nobody(&mut self)
        ensures { self.new ≡ with_master self.old (local_master (announced_by self.old)) }
    {
        self.steps = 0;
        self.parent = own_port(&self.own);
        self.grandmaster = self.own.grandmaster;
        self.gm_quality = self.own.quality;
        self.time = self.local_time;
    }

    /// S1: the clock follows the sender of an announcement (IEEE 1588-2019, table 33).
    fn follow(&mut self, best: &Announcement)
        requires { best.now.steps < STEPS_END }
        ensures { self.new ≡ with_master self.old (master_of best.now) }
    {
        self.steps = best.steps + 1;
        self.parent = best.sender;
        self.grandmaster = best.grandmaster;
        self.gm_quality = best.quality;
        self.time = best.time;
    }

    /// Applies the code of a port, with the best announcement of all ports (IEEE 1588-2019, 9.3.5,
    /// tables 30 to 33). M1 and M2 set the parent to port 0 of this clock, grandmaster and quality
    /// to the own ones, the steps to 0 and the time to `local_time`. S1 takes parent, grandmaster,
    /// quality and time from `best`, and one step more; without a `best` it changes nothing, as the
    /// other codes do. At S1 a `best` is of fewer than `STEPS_END` steps. Does not allocate.
    pub fn apply(&mut self, code: Code, best: Option<&Announcement>)
        requires near { code ≡ Code.S1 → IfSome (option_copied best) (λ a. a.steps < STEPS_END) }
        ensures master { master_in self.new
            ≡ after_code (announced_by self.old) (option_copied best.entry) (master_in self.old)
            code }
        ensures rest { self.new ≡ with_master self.old (master_in self.new) }
        ensures same { code ≢ Code.M1 → code ≢ Code.M2 → code ≢ Code.S1 → self.new ≡ self.old }
    {
        match (code, best) {
            (Code::M1 | Code::M2, _) => self.follow_nobody(),
            (Code::S1, Some(best)) => self.follow(best),
            (Code::S1, None) | (Code::Stay | Code::M3 | Code::P1 | Code::P2, _) => {}
        }
    }
}
