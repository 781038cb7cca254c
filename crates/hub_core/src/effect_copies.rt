ghost use Rattle.std.specs.Prelude.{◌≡◌, ℕ, ◌+◌, ◌≤◌, ◌++◌, length, take, drop, All};
ghost use Rattle.ptp_base.specs.declared.limits.TheConstants.{SENT_MAX};
ghost use Rattle.hub_core.specs.EffectRooms.{AreCopies, AreFew, HasPlacesFor, IsShort};

use crate::effect_rooms::EffectCopies;
use bc_history::{Effects, Sends, Sent};
use ptp_base::{Items, Octets, Room};
use std::alloc::Global;

/// The elements again, in reserved places. Does not allocate.
fn copied<T: Copy + Drop>(from: &[T], out: Room<T>) -> Items<T>
    requires { HasPlacesFor (length from.now) out }
    ensures { result ≡ from.now }
{
    let mut out = out;
    for item in from {
        out.push(*item);
    }
    out.done()
}

/// The frame again, in reserved places. Does not allocate.
fn copied_frame(sent: &Sent, room: Room<u8>) -> Sent
    requires short { IsShort sent.now }
    requires room { HasPlacesFor SENT_MAX room }
    ensures { result ≡ sent.now }
{
    let mut room = room;
    room.append(sent.octets.items());
    Sent {
        port: sent.port,
        octets: Octets::from_vec(room.done().into_vec()),
    }
}

/// The frame of an index again, where there is one, in reserved places. Does not allocate.
fn push_frame(from: &[Sent], at: usize, room: Room<u8>, out: Room<Sent>) -> Room<Sent>
    requires short { All IsShort from.now }
    requires room { HasPlacesFor SENT_MAX room }
    requires place { 1 ≤ out.spare }
    ensures items { result.items ≡ out.items ++ take 1 (drop at from.now) }
    ensures spare { out.spare ≤ result.spare + 1 }
{
    let mut out = out;
    if at < from.len() {
        out.push(copied_frame(&from[at], room));
    }
    out
}

/// The frames again, at most two, in reserved places. Does not allocate.
fn copied_frames(from: &[Sent], first: Room<u8>, second: Room<u8>, out: Room<Sent>) -> Sends
    requires few { length from.now ≤ 2 }
    requires short { All IsShort from.now }
    requires first { HasPlacesFor SENT_MAX first }
    requires second { HasPlacesFor SENT_MAX second }
    requires out { HasPlacesFor 2 out }
    ensures { result ≡ from.now }
{
    let one = push_frame(from, 0, first, out);
    let two = push_frame(from, 1, second, one);
    two.done()
}

impl EffectCopies {
    /// What an event told, again. Does not allocate.
    pub fn of(self, alloc: Global, effects: &Effects) -> Effects
        requires places { (ports : ℕ) × ((clocks : ℕ)
            × (AreCopies ports clocks self × AreFew ports clocks effects.now)) }
        ensures { result ≡ effects.now }
    {
        let EffectCopies {
            moves,
            orders,
            sends,
            first,
            second,
        } = self;
        Effects {
            fate: effects.fate,
            states: copied(effects.states.items(), moves),
            parent: effects.parent,
            orders: copied(effects.orders.items(), orders),
            measure: effects.measure,
            frames: copied_frames(effects.frames.items(), first, second, sends),
            told: effects.told,
            asked: effects.asked,
            answers: Items::new(alloc),
        }
    }
}
