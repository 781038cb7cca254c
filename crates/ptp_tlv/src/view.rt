//! A management message as it stands in its octets.

ghost use Rattle.std.specs.Prelude.{◌≡◌, ◌≢◌, ◌≤◌, length, slice_index};
ghost use Rattle.std.specs.Option.{option_map};
ghost use Rattle.ptp_profile.specs.Wire.MessageFormat.{number_at};
ghost use Rattle.ptp_management.specs.ManagementMessages.{is_managed, managed_at, managed_read, action_numbered, tlv_at, is_tlv, IsManaged};
ghost use Rattle.ptp_tlv.specs.LentMessages.{managed_of, tlv_of};

use ptp_base::PortId;
use ptp_management::{Action, tests_tell_management};
use ptp_profile::big_endian::{port_at, u16_at};

// Where the fields stand, counted in octets from the first one (IEEE 1588-2019, 13.3 and 15.4.1).
const MESSAGE_TYPE: usize = 0;

const VERSION: usize = 1;

const MESSAGE_LENGTH: usize = 2;

const DOMAIN_NUMBER: usize = 4;

const SOURCE_PORT_IDENTITY: usize = 20;

const SEQUENCE_ID: usize = 30;

const TARGET_PORT_IDENTITY: usize = 34;

const ACTION_FIELD: usize = 46;

// The TLV (15.5.2 and 15.5.4).
const TLV_TYPE: usize = 48;

const LENGTH_FIELD: usize = 50;

// What the length field counts begins here: managementId or managementErrorId.
const VALUE: usize = 52;

const ERROR_MANAGEMENT_ID: usize = 54;

// The data of a MANAGEMENT TLV.
const DATA: usize = 54;

/// A management message that is lent from its octets (15.4.1). Its boundary hops are left out.
#[derive(Clone, Copy)]
pub struct Lent<'a> {
    /// sourcePortIdentity.
    pub sender: PortId,
    /// targetPortIdentity.
    pub target: PortId,
    /// sequenceId.
    pub seq: u16,
    /// actionField.
    pub action: Action,
    /// The one TLV.
    pub tlv: LentTlv<'a>,
}

/// The TLV of a management message (15.5.2 and 15.5.4).
#[derive(Clone, Copy)]
pub enum LentTlv<'a> {
    /// MANAGEMENT: managementId, and the octets of the data field.
    Management { id: u16, octets: &'a [u8] },
    /// MANAGEMENT_ERROR_STATUS: managementErrorId, and the managementId that it is about.
    Error { error: u16, id: u16 },
}

// Whether the TLV's type may have its length.
fn is_tlv(kind: u16, length: u16) -> bool
    ensures { result ≡ is_tlv kind length }
{
    (kind == 1 && length >= 2) || (kind == 2 && length == 8)
}

// Whether the octets are a management message of the domain.
#[tactic(auto, unfolding(ptp_management::specs::ManagementMessages::is_managed))]
fn is_managed(octets: &[u8], domain: u8) -> bool
    ensures { result ≡ is_managed domain octets.now }
{
    if octets.len() < DATA {
        return false;
    }
    let length = u16_at(octets, MESSAGE_LENGTH) as usize;
    let value = u16_at(octets, LENGTH_FIELD);
    octets[VERSION] % 16 == 2
        && octets[DOMAIN_NUMBER] == domain
        && octets[MESSAGE_TYPE] == 13
        && length >= DATA
        && length <= octets.len()
        && octets[ACTION_FIELD] % 16 <= 4
        && is_tlv(u16_at(octets, TLV_TYPE), value)
        && VALUE + value as usize == length
}

// The action of a number (15.4.1.6).
fn action_numbered(number: u8) -> Action
    ensures { result ≡ action_numbered number }
{
    match number {
        0 => Action::Get,
        1 => Action::Set,
        2 => Action::Response,
        3 => Action::Command,
        _ => Action::Acknowledge,
    }
}

// The TLV that ends at messageLength.
fn tlv_at(octets: &[u8]) -> LentTlv<'_>
    requires enough { 54 ≤ number_at 2 2 octets.now }
    requires whole { number_at 2 2 octets.now ≤ length octets.now }
    requires id { number_at 48 2 octets.now ≢ 1 → 56 ≤ length octets.now }
    ensures { tlv_of result ≡ tlv_at octets.now }
{
    let length = u16_at(octets, MESSAGE_LENGTH) as usize;
    if u16_at(octets, TLV_TYPE) == 1 {
        LentTlv::Management {
            id: u16_at(octets, VALUE),
            octets: &octets[DATA..length],
        }
    } else {
        LentTlv::Error {
            error: u16_at(octets, VALUE),
            id: u16_at(octets, ERROR_MANAGEMENT_ID),
        }
    }
}

// The message, where the tests hold.
fn managed_at(octets: &[u8]) -> Lent<'_>
    requires { IsManaged (slice_index octets.now 4) octets.now }
    ensures { managed_of result ≡ managed_at octets.now }
{
    Lent {
        sender: port_at(octets, SOURCE_PORT_IDENTITY),
        target: port_at(octets, TARGET_PORT_IDENTITY),
        seq: u16_at(octets, SEQUENCE_ID),
        action: action_numbered(octets[ACTION_FIELD] % 16),
        tlv: tlv_at(octets),
    }
}

/// The management message that the octets are in a domain, or none. It has version 2, majorSdoId 0,
/// a known action, a messageLength of 54 at least and of no more than the octets, and one TLV that
/// ends there. Hops, reserved bits and what stands behind messageLength are free. Does not allocate.
pub fn lend(octets: &[u8], domain: u8) -> Option<Lent<'_>>
    ensures { option_map managed_of result ≡ managed_read domain octets.now }
{
    if !is_managed(octets, domain) {
        return None;
    }
    tests_tell_management();
    Some(managed_at(octets))
}
