ghost use Rattle.std.specs.Prelude.{◌≡◌, ◌≤◌, not, length, position};
ghost use Rattle.std.specs.List.{position_or_len};
ghost use Rattle.foreign_master.specs.ForeignMasterTable.{is_of, is_above, is_present};

use crate::foreign_master::ForeignMaster;
use crate::window::is_in_window;
use ptp_base::PortId;

/// The foreign master of a sender.
pub(crate) fn find_sender(masters: &[ForeignMaster], sender: PortId) -> Option<usize>
    ensures { result ≡ position (is_of sender) masters.now }
{
    masters
        .iter()
        .position(|master| master.said.sender == sender)
}

/// The first foreign master of a sender above this one.
fn find_above(masters: &[ForeignMaster], sender: PortId) -> Option<usize>
    ensures { result ≡ position (is_above sender) masters.now }
{
    masters
        .iter()
        .position(|master| sender < master.said.sender)
}

/// The place of a sender: before the first foreign master of a sender above it, or at the end.
pub(crate) fn find_place(masters: &[ForeignMaster], sender: PortId) -> usize
    ensures place { result ≡ position_or_len (is_above sender) masters.now }
    ensures within { result ≤ length masters.now }
{
    match find_above(masters, sender) {
        Some(above) => above,
        None => masters.len(),
    }
}

/// The first foreign master that has left the window.
pub(crate) fn find_left(masters: &[ForeignMaster], window: u64, at: u64) -> Option<usize>
    ensures { result ≡ position (λ p. not (is_present window at p)) masters.now }
{
    masters
        .iter()
        .position(|master| !is_in_window(master.last, window, at))
}
