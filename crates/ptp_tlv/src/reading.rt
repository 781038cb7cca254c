//! Octets as a management message.

ghost use Rattle.std.specs.Prelude.{◌≡◌, IfOk, IfErr, Some, None, Err};
ghost use Rattle.ptp_management.specs.declared.managed.Managed.{Managed};
ghost use Rattle.ptp_management.specs.declared.managed.ReadError.{ReadError};
ghost use Rattle.ptp_management.specs.ManagementMessages.{ReadsManaged, managed_read};
ghost use Rattle.ptp_tlv.specs.LentMessages.{tlv_of};

use crate::view::{LentTlv, lend};
use ptp_base::Octets;
use ptp_management::{Managed, ReadError, Tlv, managed_is_what_is_read};
use std::alloc::Global;

// The TLV in memory of its own.
fn tlv_copy(alloc: Global, tlv: &LentTlv) -> Result<Tlv, ReadError>
    ensures ok { IfOk result (λ own. own ≡ tlv_of tlv.now) }
    ensures err { IfErr result (λ e. e ≡ ReadError.NoMemory) }
{
    match tlv {
        LentTlv::Management { id, octets } => {
            let mut own = Octets::new(alloc);
            if own.append(octets).is_err() {
                return Err(ReadError::NoMemory);
            }
            Ok(Tlv::Management {
                id: *id,
                octets: own,
            })
        }
        LentTlv::Error { error, id } => Ok(Tlv::Error {
            error: *error,
            id: *id,
        }),
    }
}

/// The management message that stands in the octets, for a clock of a domain (IEEE 1588-2019, 13.3
/// and 15.4.1). `Bad` says that they are none: `lend` says which octets are one.
pub fn read(alloc: Global, octets: &[u8], domain: u8) -> Result<Managed, ReadError>
    // What is read stands there, with its fields.
    ensures ok { IfOk result (λ m. managed_read domain octets.now ≡ Some m) }
    ensures reads { IfOk result (λ m. ReadsManaged octets.now domain m) }

    // Bad is said exactly where no message stands there.
    ensures bad { result ≡ Err ReadError.Bad → managed_read domain octets.now ≡ None }
    ensures only { managed_read domain octets.now ≡ None → result ≡ Err ReadError.Bad }
    ensures none { result ≡ Err ReadError.Bad → (m : Managed) →
        ¬ (ReadsManaged octets.now domain m) }
{
    managed_is_what_is_read();
    match lend(octets, domain) {
        None => Err(ReadError::Bad),
        Some(seen) => {
            let tlv = tlv_copy(alloc, &seen.tlv)?;
            Ok(Managed {
                sender: seen.sender,
                target: seen.target,
                seq: seen.seq,
                action: seen.action,
                tlv,
            })
        }
    }
}
