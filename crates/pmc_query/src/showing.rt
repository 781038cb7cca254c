//! Which octets can be printed.

ghost use Rattle.std.specs.Prelude.{◌≡◌, slice_index};
ghost use Rattle.std.specs.Option.{option_map};
ghost use Rattle.ptp_management.specs.ManagementMessages.{managed_read};
ghost use Rattle.ptp_management.specs.ManagementQueries.{can_show, has_state, is_known, shows};
ghost use Rattle.ptp_management.specs.ManagementFields.{id_numbered};
ghost use Rattle.ptp_tlv.specs.LentMessages.{managed_of, tlv_of};

use ptp_management::{Action, ManagementId};
use ptp_tlv::{Lent, LentTlv, lend, numbered, width_of};

// Where portState stands in the data of PORT_DATA_SET (IEEE 1588-2019, 15.5.3.7.1).
const PORT_STATE: usize = 10;

// Whether the data of PORT_DATA_SET have a state from 1 to 9.
fn has_state(id: ManagementId, octets: &[u8]) -> bool
    ensures { result ≡ has_state id octets.now }
{
    match id {
        ManagementId::PortDataSet => {
            let state = octets.get(PORT_STATE).copied().unwrap_or(0);
            state >= 1 && state <= 9
        }
        ManagementId::NullManagement
        | ManagementId::DefaultDataSet
        | ManagementId::CurrentDataSet
        | ManagementId::ParentDataSet
        | ManagementId::TimePropertiesDataSet
        | ManagementId::Priority1
        | ManagementId::Priority2
        | ManagementId::Domain => true,
    }
}

// Whether the data are those of a known message.
fn is_known(id: u16, octets: &[u8]) -> bool
    ensures { result ≡ is_known (id_numbered id) octets.now }
{
    match numbered(id) {
        None => false,
        Some(known) => octets.len() == width_of(known) && has_state(known, octets),
    }
}

// Whether a message can be printed.
fn can_show(m: &Lent) -> bool
    ensures { result ≡ can_show m.now.action (tlv_of m.now.tlv) }
{
    match m.action {
        Action::Get | Action::Set | Action::Command => false,
        Action::Response => match m.tlv {
            LentTlv::Management { id, octets } => is_known(id, octets),
            LentTlv::Error { .. } => true,
        },
        Action::Acknowledge => match m.tlv {
            LentTlv::Management { .. } => false,
            LentTlv::Error { .. } => true,
        },
    }
}

/// The management message that octets are in the domain of their own octet 4.
pub fn lend_itself(octets: &[u8]) -> Option<Lent<'_>>
    ensures { option_map managed_of result ≡ managed_read (slice_index octets.now 4) octets.now }
{
    lend(octets, octets.get(4).copied().unwrap_or(0))
}

/// Whether octets can be printed: they are a management message (IEEE 1588-2019, 15.4.1) in the
/// domain of their own octet 4, and an error of the action RESPONSE or ACKNOWLEDGE, or a RESPONSE of
/// a known id with as many octets as that has, for PORT_DATA_SET with a portState from 1 to 9. Every
/// answer of `answer` is so. Does not allocate.
#[tactic(auto, unfolding(ptp_management::specs::ManagementQueries::shows))]
pub fn shows(octets: &[u8]) -> bool
    ensures { result ≡ shows octets.now }
{
    match lend_itself(octets) {
        None => false,
        Some(m) => can_show(&m),
    }
}
