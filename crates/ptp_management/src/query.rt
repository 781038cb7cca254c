//! What a query asks, and what it is answered.

use crate::managed::Action;
use ptp_base::{Items, Octets};

/// What a query asks for.
#[derive(Clone, Copy, Debug, PartialEq, Eq)]
pub struct Request {
    /// Get, Set or Command.
    pub action: Action,
    /// managementId.
    pub id: u16,
    /// The port that is asked, 65,535 for all ports.
    pub target: u16,
}

/// Why a query makes no request.
#[derive(Clone, Copy, Debug, PartialEq, Eq)]
pub enum AskError {
    /// The first word is no action.
    Action,
    /// The second word is no name of a management message.
    Unknown,
    /// The third word names no target, or there is a fourth.
    Target,
}

/// Answers to a query, each the octets of a management message.
pub type Answers = Items<Octets>;
