ghost use Rattle.std.specs.Prelude.{◌≡◌, ◌+◌, ◌*◌, ◌<◌, ◌≤◌, ◌++◌, All, [], fold, length, take};
ghost use Rattle.ptp_profile.specs.Roles.Edges.{edges_of, orders_of};
ghost use Rattle.role_gen.specs.Generation.{HaveCtrls};
ghost use Rattle.bc_roles.specs.NextGeneration.{AreEdges, GenerationYields};
ghost use Rattle.bc_roles.specs.OrderRules.{with_given, AreAllowed, IsAllowed};
ghost use Rattle.bc_roles.specs.RolesInvariant.{SeatsAgree};
ghost use Rattle.bc_roles.specs.RolesView.{roles_view};
ghost use Rattle.bc_roles.specs.Stamps.{with_stamp, with_stamps};

use discipline_seat::PlainSeats;
use ptp_base::{CLOCKS_MAX, ENTRIES_MAX, Items, PORTS_MAX, PortId, PortState, Room};
use ptp_profile::{Edge, RoleOrder, Stamp};
use role_gen::{Generations, edges, orders};

/// Writes the edges that the ports' states give.
pub(crate) fn place_edges(
    states: &[PortState],
    map: &[u8],
    parent: PortId,
    next: &mut Vec<Option<Edge>>,
)
    requires same { length states.now ≡ length map.now }
    requires few { length states.now ≤ PORTS_MAX }
    requires clocks { length next.old.items ≤ CLOCKS_MAX }
    requires placed { All (λ clock. clock < length next.old.items) map.now }
    ensures edges { next.new.items ≡ edges_of (length next.old.items) parent states.now map.now }
    ensures forest { AreEdges (length next.old.items) next.new.items }
    ensures ctrls { HaveCtrls next.new.items }
{
    edges(states, map, parent, next.as_mut_slice());
}

/// Writes the orders of the next generation, in which the edges become `next`, and answers how many
/// they are.
pub(crate) fn draft(
    generations: &Generations,
    next: &[Option<Edge>],
    drafts: &mut Vec<RoleOrder>,
) -> usize
    requires same { length generations.now.edges ≡ length next.now }
    requires few { length next.now ≤ CLOCKS_MAX }
    requires ctrls { HaveCtrls next.now }
    requires below { generations.now.gener < ENTRIES_MAX }
    requires pairs { length drafts.old.items ≡ 2 * length next.now }
    ensures orders { take result drafts.new.items
        ≡ orders_of (generations.now.gener + 1) generations.now.edges next.now }
    ensures within { result ≤ length drafts.new.items }
    ensures pairs { length drafts.new.items ≡ length drafts.old.items }
{
    let gener = generations.generation() + 1;
    orders(gener, generations.edges(), next, drafts.as_mut_slice())
}

/// Gives a clock to whom the order names: its seat takes the order, and the clock has its stamp.
fn give(stamps: &mut Vec<Stamp>, seats: &mut PlainSeats, order: &RoleOrder)
    requires agree { SeatsAgree stamps.old.items seats.old }
    requires allowed { IsAllowed stamps.old.items order.now }
    requires spare { 1 ≤ seats.old.spare }
    ensures stamps { stamps.new.items ≡ with_stamp stamps.old.items order.now }
    ensures seats { seats.new ≡ with_given seats.old order.now }
    ensures agree { SeatsAgree stamps.new.items seats.new }
{
    seats.order(order.clock, order.gener, order.ctrl);
    stamps[order.clock as usize] = Stamp {
        gener: order.gener,
        ctrl: order.ctrl,
    };
}

/// Gives the clocks to whom the orders name, one order after another.
fn give_all(stamps: &mut Vec<Stamp>, seats: &mut PlainSeats, drafts: &[RoleOrder])
    requires agree { SeatsAgree stamps.old.items seats.old }
    requires allowed { AreAllowed stamps.old.items drafts.now }
    requires spare { length drafts.now ≤ seats.old.spare }
    ensures stamps { stamps.new.items ≡ with_stamps stamps.old.items drafts.now }
    ensures seats { seats.new ≡ fold with_given seats.old drafts.now }
    ensures agree { SeatsAgree stamps.new.items seats.new }
{
    'given: for order in drafts {
        give(stamps, seats, order);
    }
}

/// Tells the orders.
fn tell(drafts: &[RoleOrder], out: Room<RoleOrder>) -> Items<RoleOrder>
    requires room { length drafts.now ≤ out.spare }
    ensures { result ≡ out.items ++ drafts.now }
{
    let mut told = out;
    'told: for order in drafts {
        told.push(*order);
    }
    told.done()
}

/// Begins the generation of these edges and orders, where an edge differs: gives the orders to the
/// clocks, and tells them.
pub(crate) fn go_on(
    generations: &mut Generations,
    stamps: &mut Vec<Stamp>,
    seats: &mut PlainSeats,
    next: &[Option<Edge>],
    drafts: &[RoleOrder],
    out: Room<RoleOrder>,
) -> Items<RoleOrder>
    requires same { length next.now ≡ length generations.old.edges }
    requires below { generations.old.gener < ENTRIES_MAX }
    requires drafts { drafts.now
        ≡ orders_of (generations.old.gener + 1) generations.old.edges next.now }
    requires agree { SeatsAgree stamps.old.items seats.old }
    requires allowed { AreAllowed stamps.old.items drafts.now }
    requires spare { length drafts.now ≤ seats.old.spare }
    requires empty { out.items ≡ [] }
    requires room { length drafts.now ≤ out.spare }
    ensures goes { GenerationYields (roles_view generations.old stamps.old.items seats.old) next.now
        (roles_view generations.new stamps.new.items seats.new) result }
    ensures agree { SeatsAgree stamps.new.items seats.new }
{
    match generations.advance(next) {
        None => out.done(),
        Some(_) => {
            give_all(stamps, seats, drafts);
            tell(drafts, out)
        }
    }
}
