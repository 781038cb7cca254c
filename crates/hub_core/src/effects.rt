ghost use Rattle.std.specs.Prelude.{◌≡◌, length, map};
ghost use Rattle.hub_core.specs.EffectParts.{effects_with, follower_entry, portless_effects, query_entry, sent_by};
ghost use Rattle.hub_core.specs.EffectRooms.{HasPlacesFor};

use crate::reply::Reply;
use bc_history::{Answers, AskError, Effects, Entry, Input, RoleOrders, Sends, Sent, Told};
use bc_ports::EventOutcome;
use port_engine::Frames;
use ptp_base::{Items, Room};
use std::alloc::Global;

/// The frames that a port sent, in reserved places. Does not allocate.
pub fn sends_of(port: u16, frames: Frames, out: Room<Sent>) -> Sends
    requires { HasPlacesFor (length frames.items) out }
    ensures { result ≡ map (sent_by port) frames.items }
{
    let mut out = out;
    for octets in frames.into_items().into_vec() {
        out.push(Sent { port, octets });
    }
    out.done()
}

/// The list with no more places than elements, as far as the allocator has it so.
fn trimmed<T: Drop>(items: Items<T>) -> Items<T>
    ensures { result ≡ items }
{
    let mut elements = items.into_vec();
    elements.shrink_to_fit();
    Items::from_vec(elements)
}

/// What an event of a port tells, in as little memory as the allocator has for it: followers are told
/// nothing, and nobody asks.
pub fn effects_with(
    alloc: Global,
    outcome: EventOutcome,
    orders: RoleOrders,
    frames: Sends,
) -> Effects
    ensures { result ≡ effects_with outcome orders frames }
{
    let EventOutcome {
        fate,
        states,
        parent,
        measure,
    } = outcome;
    Effects {
        fate,
        states: trimmed(states),
        parent,
        orders: trimmed(orders),
        measure,
        frames: trimmed(frames),
        told: None,
        asked: None,
        answers: Items::new(alloc),
    }
}

/// What an input of no port tells: a follower its lead, a query why it makes no request, or its
/// answers. Does not allocate.
fn portless_effects(
    alloc: Global,
    told: Option<Told>,
    asked: Option<AskError>,
    answers: Answers,
) -> Effects
    ensures { result ≡ portless_effects told asked answers }
{
    Effects {
        fate: None,
        states: Items::new(alloc),
        parent: None,
        orders: Items::new(alloc),
        measure: None,
        frames: Items::new(alloc),
        told,
        asked,
        answers,
    }
}

/// The entry of a follower, at a moment in ns: it tells what the follower is told, and nothing else.
pub fn follower_entry(alloc: Global, input: Input, moment: u64, told: Option<Told>) -> Entry
    ensures { result ≡ follower_entry input moment told }
{
    Entry {
        input,
        moment,
        seen: None,
        effects: portless_effects(alloc, told, None, Items::new(alloc)),
    }
}

/// The entry of a query, at a moment in ns: it tells why it makes no request, or what answers it.
pub fn query_entry(alloc: Global, input: Input, moment: u64, reply: Reply) -> Entry
    ensures { result ≡ query_entry input moment reply.asked reply.answers }
{
    Entry {
        input,
        moment,
        seen: None,
        effects: query_effects(alloc, reply),
    }
}

/// What a query tells. Does not allocate.
pub fn query_effects(alloc: Global, reply: Reply) -> Effects
    ensures { result ≡ portless_effects None reply.asked reply.answers }
{
    portless_effects(alloc, None, reply.asked, reply.answers)
}
