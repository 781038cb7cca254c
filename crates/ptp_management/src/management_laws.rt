ghost use Rattle.std.specs.Prelude.{◌≡◌, ◌↔◌, ℕ, List, ◌++◌, Some, IsTrue};
ghost use Rattle.ptp_management.specs.declared.managed.Managed.{Managed};
ghost use Rattle.ptp_management.specs.declared.managed.Tlv.{Tlv};
ghost use Rattle.ptp_management.specs.ManagementMessages.{IsManaged, ReadsManaged, is_managed, managed_octets, managed_read, FitsManaged, FitsTlv, IsShort};

use crate::managed::{Managed, Tlv};
use ptp_profile::port_numbers_fit;

/// What was written of a management message is read again, whatever stands behind it, and no two
/// messages have one spelling.
pub fn one_management_spelling()
    ensures again { (domain : ℕ) (m : Managed) (rest : List ℕ) → FitsManaged m →
        ReadsManaged (managed_octets domain m ++ rest) domain m }
    ensures apart { (domain : ℕ) (m n : Managed) → FitsManaged m → FitsManaged n →
        managed_octets domain m ≡ managed_octets domain n → m ≡ n }
{}

/// A message is read exactly where the octets read as it.
pub fn managed_is_what_is_read()
    ensures { (domain : ℕ) (b : List ℕ) (m : Managed) →
        (managed_read domain b ≡ Some m) ↔ ReadsManaged b domain m }
{}

/// The tests of a management message are what the standard asks of it.
pub fn tests_tell_management()
    ensures { (domain : ℕ) (b : List ℕ) → IsTrue (is_managed domain b) ↔ IsManaged domain b }
{}

fn tlv_fits(tlv: &Tlv)
    requires { IsShort tlv.now }
    ensures { FitsTlv tlv.now }
{
    match tlv {
        Tlv::Management { id, .. } => {
            let _id = *id;
        }
        Tlv::Error { error, id } => {
            let _error = *error;
            let _id = *id;
        }
    }
}

/// A management message in memory holds numbers that fit, so what was written of it is read again.
pub fn holds_management_numbers(m: &Managed)
    requires { IsShort m.now.tlv }
    ensures fits { FitsManaged m.now }
    ensures again { (domain : ℕ) (rest : List ℕ) →
        ReadsManaged (managed_octets domain m.now ++ rest) domain m.now }
    ensures read { (domain : ℕ) (rest : List ℕ) →
        managed_read domain (managed_octets domain m.now ++ rest) ≡ Some m.now }
{
    let _seq = m.seq;
    port_numbers_fit(&m.sender);
    port_numbers_fit(&m.target);
    tlv_fits(&m.tlv);
}
