ghost use Rattle.std.specs.Prelude.{◌≡◌, ◌≤◌, length, All, IfOk, None};
ghost use Rattle.bc_history.specs.Phases.OpeningState.{local_announcement, local_port, opening};
ghost use Rattle.ptp_base.specs.declared.limits.TheConstants.{DELAYS_MAX, PORTS_MAX};
ghost use Rattle.bc_history.specs.Scenario.ScenarioRules.{IsPortConf};
ghost use Rattle.bc_ports.specs.OpenPorts.{ArePortsFrom, IsOpenPort, port_set_from, port_sets_from};
ghost use Rattle.ptp_profile.specs.Best.StateDecision.{bests_of};
ghost use Rattle.bc_ports.specs.DecisionCost.{no_bests};
ghost use Rattle.bc_ports.specs.Representation.{ClockRepresents, IsSound};

use crate::boundary_clock::BoundaryClock;
use crate::hub_port::HubPort;
use crate::scratch::DecisionScratch;
use bc_history::{Options, Scenario};
use data_sets::{DataSets, PortSet, PortSets};
use foreign_master::Records;
use port_engine::PortEngine;
use ptp_base::{
    Announcement, FOREIGN_MASTER_TIME_WINDOW, Items, NoMemory, PortConf, PortId, PortState,
    Quality, TimeProps, interval,
};
use state_decision::Decider;
use std::alloc::Global;

/// What the own clock would announce (D0 of IEEE 1588-2019, 9.3.4).
fn local_announcement(options: &Options) -> Announcement
    ensures { result ≡ local_announcement options.now }
{
    let own = local_port(options, 0);
    Announcement {
        grandmaster: options.clock_identity,
        quality: Quality {
            priority1: options.priority1,
            class: options.clock_class,
            accuracy: options.clock_accuracy,
            variance: options.offset_scaled_log_variance,
            priority2: options.priority2,
        },
        steps: 0,
        sender: own,
        receiver: own,
        time: TimeProps {
            utc_offset: options.utc_offset,
            flags: options.time_flags,
            source: options.time_source,
        },
        alternate: false,
    }
}

/// The identity of a port of the own clock.
fn local_port(options: &Options, port: u16) -> PortId
    ensures { result ≡ local_port options.now port }
{
    PortId {
        clock: options.clock_identity,
        port,
    }
}

/// A port as a run begins: LISTENING, with no Announce kept.
fn open_port(
    alloc: Global,
    options: &Options,
    port: u16,
    conf: &PortConf,
) -> Result<HubPort, NoMemory>
    requires some { 1 ≤ options.now.delay_filter_length }
    requires few { options.now.delay_filter_length ≤ DELAYS_MAX }
    requires conf { IsPortConf conf.now }
    ensures { IfOk result (IsOpenPort options.now port conf.now) }
{
    let id = local_port(options, port);
    Ok(HubPort {
        engine: PortEngine::new(alloc, conf, id, options.delay_filter_length)?,
        records: Records::new(
            alloc,
            id,
            FOREIGN_MASTER_TIME_WINDOW * interval(conf.log_announce),
        )?,
    })
}

/// The ports as a run begins.
fn open_ports(
    alloc: Global,
    options: &Options,
    confs: &[PortConf],
) -> Result<Vec<HubPort>, NoMemory>
    requires some { 1 ≤ options.now.delay_filter_length }
    requires length { options.now.delay_filter_length ≤ DELAYS_MAX }
    requires few { length confs.now ≤ PORTS_MAX }
    requires confs { All IsPortConf confs.now }
    ensures length { IfOk result (λ ports. ports.len ≡ length confs.now) }
    ensures ports { IfOk result (λ ports. ArePortsFrom options.now 1 ports.items confs.now) }
{
    let mut ports = Vec::new(alloc);
    let mut number: u16 = 0;
    for conf in confs {
        number += 1;
        ports.push(open_port(alloc, options, number, conf)?)?;
    }
    Ok(ports)
}

/// portDS of a port as a run begins (IEEE 1588-2019, 8.2.15).
fn port_set_of(options: &Options, port: u16, conf: &PortConf) -> PortSet
    ensures { result ≡ port_set_from options.now port conf.now }
{
    PortSet {
        id: local_port(options, port),
        state: PortState::Listening,
        log_announce: conf.log_announce,
        log_sync: conf.log_sync,
        log_delay: conf.log_delay,
        receipt: conf.receipt,
    }
}

/// portDS of each port as a run begins.
fn port_sets(alloc: Global, options: &Options, confs: &[PortConf]) -> Result<PortSets, NoMemory>
    requires few { length confs.now ≤ PORTS_MAX }
    ensures { IfOk result (λ sets. sets ≡ port_sets_from options.now 1 confs.now) }
{
    let mut sets = Items::new(alloc);
    let mut number: u16 = 0;
    for conf in confs {
        number += 1;
        sets.push(port_set_of(options, number, conf))?;
    }
    Ok(sets)
}

impl BoundaryClock {
    /// As a run begins: every port in LISTENING, and this clock as its own master.
    pub fn new(alloc: Global, s: &Scenario) -> Result<BoundaryClock, NoMemory>
        ensures clock { IfOk result
            (λ n. ClockRepresents s.now.options n (opening s.now).core None) }
        ensures sound { IfOk result IsSound }
        ensures length { IfOk result (λ n. n.ports.len ≡ length s.now.ports) }
        ensures bests { IfOk result (λ n. bests_of n.decider.bests ≡ no_bests s.now.ports) }
    {
        s.rules();
        let own = local_announcement(&s.options);
        let sets = port_sets(alloc, &s.options, s.ports.items())?;
        Ok(BoundaryClock {
            moment: 0,
            sets: DataSets::new(own, s.options.domain_number, own.time, sets),
            ports: open_ports(alloc, &s.options, s.ports.items())?,
            scratch: DecisionScratch::with(alloc, s.ports.len())?,
            decider: Decider::new(alloc, own, s.ports.len() as u16)?,
        })
    }
}
