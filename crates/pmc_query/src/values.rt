//! The values of management messages, and their octets.

ghost use Rattle.std.specs.Prelude.{◌≡◌, ◌≤◌, ◌++◌, length, IfOk, OnOk};
ghost use Rattle.byteorder.specs.Endian.{big_bytes};
ghost use Rattle.ptp_management.specs.ManagementFields.{fields_octets};
ghost use Rattle.ptp_profile.specs.Port.PortStates.{state_number};
ghost use Rattle.ptp_management.specs.ManagementQueries.{clock_values, port_value, port_values};
ghost use Rattle.pmc_query.specs.AnsweredSets.{answering, answering_port};

use data_sets::{DataSets, PortSet};
use ptp_base::{NoMemory, Octets, PortId, PortState};
use ptp_management::{Field, ManagementId};
use ptp_tlv::shape_of;
use std::alloc::Global;

// A port's identity as one number of ten octets.
fn port_value(port: &PortId) -> u128
    ensures { result ≡ port_value port.now }
{
    port.clock.id as u128 * 65536 + port.port as u128
}

// portState (IEEE 1588-2019, 8.2.15.3.1).
fn state_number(state: PortState) -> u128
    ensures { result ≡ state_number state }
{
    match state {
        PortState::Initializing => 1,
        PortState::Faulty => 2,
        PortState::Disabled => 3,
        PortState::Listening => 4,
        PortState::PreMaster => 5,
        PortState::Master => 6,
        PortState::Passive => 7,
        PortState::Uncalibrated => 8,
        PortState::Slave => 9,
    }
}

fn default_values(alloc: Global, d: &DataSets) -> Result<Vec<u128>, NoMemory>
    ensures { IfOk result
        (λ values. values.items ≡ clock_values (answering d.now) ManagementId.DefaultDataSet) }
{
    let quality = &d.own.quality;
    Ok(vec![in alloc;
        1,
        0,
        d.ports.len() as u128,
        quality.priority1 as u128,
        quality.class as u128,
        quality.accuracy as u128,
        quality.variance as u128,
        quality.priority2 as u128,
        d.own.sender.clock.id as u128,
        d.domain as u128,
        0,
    ]?)
}

fn current_values(alloc: Global, d: &DataSets) -> Result<Vec<u128>, NoMemory>
    ensures { IfOk result
        (λ values. values.items ≡ clock_values (answering d.now) ManagementId.CurrentDataSet) }
{
    Ok(vec![in alloc;
        d.steps as u128,
        d.offset.cast_unsigned() as u128,
        d.delay.cast_unsigned() as u128,
    ]?)
}

fn parent_values(alloc: Global, d: &DataSets) -> Result<Vec<u128>, NoMemory>
    ensures { IfOk result
        (λ values. values.items ≡ clock_values (answering d.now) ManagementId.ParentDataSet) }
{
    let quality = &d.gm_quality;
    Ok(vec![in alloc;
        port_value(&d.parent),
        0,
        0,
        0xFFFF,
        0x7FFF_FFFF,
        quality.priority1 as u128,
        quality.class as u128,
        quality.accuracy as u128,
        quality.variance as u128,
        quality.priority2 as u128,
        d.grandmaster.id as u128,
    ]?)
}

fn time_values(alloc: Global, d: &DataSets) -> Result<Vec<u128>, NoMemory>
    ensures { IfOk result
        (λ values.
        values.items ≡ clock_values (answering d.now) ManagementId.TimePropertiesDataSet) }
{
    Ok(vec![in alloc;
        d.time.utc_offset.cast_unsigned() as u128,
        d.time.flags as u128,
        d.time.source as u128,
    ]?)
}

/// The values of a message's fields, in their order; none of PORT_DATA_SET.
pub fn clock_values(alloc: Global, d: &DataSets, id: ManagementId) -> Result<Vec<u128>, NoMemory>
    ensures { IfOk result (λ values. values.items ≡ clock_values (answering d.now) id) }
{
    match id {
        ManagementId::NullManagement | ManagementId::PortDataSet => Ok(Vec::new(alloc)),
        ManagementId::DefaultDataSet => default_values(alloc, d),
        ManagementId::CurrentDataSet => current_values(alloc, d),
        ManagementId::ParentDataSet => parent_values(alloc, d),
        ManagementId::TimePropertiesDataSet => time_values(alloc, d),
        ManagementId::Priority1 => Ok(vec![in alloc; d.own.quality.priority1 as u128, 0]?),
        ManagementId::Priority2 => Ok(vec![in alloc; d.own.quality.priority2 as u128, 0]?),
        ManagementId::Domain => Ok(vec![in alloc; d.domain as u128, 0]?),
    }
}

/// The values of a port's data set.
pub fn port_values(alloc: Global, port: &PortSet) -> Result<Vec<u128>, NoMemory>
    ensures { IfOk result (λ values. values.items ≡ port_values (answering_port port.now)) }
{
    Ok(vec![in alloc;
        port_value(&port.id),
        state_number(port.state),
        port.log_delay.cast_unsigned() as u128,
        0,
        port.log_announce.cast_unsigned() as u128,
        port.receipt as u128,
        port.log_sync.cast_unsigned() as u128,
        1,
        0,
        2,
    ]?)
}

// Appends the lowest octets of a number, the high one first.
fn add_number(value: u128, width: usize, out: &mut Octets) -> Result<(), NoMemory>
    requires { width ≤ 16 }
    ensures { OnOk result (out.new ≡ out.old ++ big_bytes width value) }
{
    let octets = value.to_be_bytes();
    out.append(&octets[16 - width..])
}

/// Values in the octets of fields, the high octet of each first.
pub fn fields_octets(alloc: Global, fields: &[Field], values: &[u128]) -> Result<Octets, NoMemory>
    requires { length values.now ≡ length fields.now }
    ensures { IfOk result (λ octets. octets ≡ fields_octets fields.now values.now) }
{
    let mut out = Octets::new(alloc);
    for (i, field) in fields.iter().enumerate() {
        add_number(values[i], shape_of(*field).width, &mut out)?;
    }
    Ok(out)
}
