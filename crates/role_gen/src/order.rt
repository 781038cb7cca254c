ghost use Rattle.std.specs.Prelude.{◌≡◌, ℕ, ◌+◌, ◌*◌, ◌<◌, ◌≤◌, ◌⊎◌, ◌++◌, drop, take, length, if◌then◌else◌, []};
ghost use Rattle.std.specs.Option.{option_to_list};
ghost use Rattle.ptp_base.specs.declared.limits.TheConstants.{CLOCKS_MAX};
ghost use Rattle.ptp_profile.specs.Roles.Edges.{is_same_edge, revoke, revokes, grant, grants, orders_of, ctrls_of};
ghost use Rattle.ptp_profile.specs.Roles.Forest.{IsForest, IsPart, ctrls_after};
ghost use Rattle.role_gen.specs.Generation.{HaveCtrls, HasCtrlIfAny};

use ptp_profile::{
    Edge, RoleOrder, orders_lead_to_the_new_edges, orders_leave_forests, orders_leave_parts,
};

/// The order that takes a clock from whom its old edge names, where the edge changed.
fn revoked(gener: u32, clock: u8, old: &Option<Edge>, new: &Option<Edge>) -> Option<RoleOrder>
    ensures { option_to_list result
        ≡ (if is_same_edge old.now new.now then [] else revoke gener clock old.now) }
{
    match old {
        Some(_) if old != new => Some(RoleOrder {
            clock,
            gener,
            ctrl: 0,
        }),
        _ => None,
    }
}

/// The order that gives a clock to whom its new edge names, where the edge changed.
fn granted(gener: u32, clock: u8, old: &Option<Edge>, new: &Option<Edge>) -> Option<RoleOrder>
    requires { HasCtrlIfAny new.now }
    ensures { option_to_list result
        ≡ (if is_same_edge old.now new.now then [] else grant gener clock new.now) }
{
    match new {
        Some(edge) if old != new => Some(RoleOrder {
            clock,
            gener,
            ctrl: edge.ctrl(),
        }),
        _ => None,
    }
}

/// Writes the order, if there is one, behind the first `count` ones, and answers how many there are
/// then.
fn put(out: &mut [RoleOrder], count: usize, order: Option<RoleOrder>) -> usize
    requires { count < length out.old }
    ensures count { result ≡ count + length (option_to_list order) }
    ensures front { take result out.new ≡ take count out.old ++ option_to_list order }
    ensures rest { drop result out.new ≡ drop result out.old }
{
    match order {
        Some(order) => {
            out[count] = order;
            count + 1
        }
        None => count,
    }
}

/// Writes a revoke of each clock that had an edge and whose edge changed.
fn put_revokes(
    gener: u32,
    old: &[Option<Edge>],
    new: &[Option<Edge>],
    out: &mut [RoleOrder],
) -> usize
    requires same_length { length old.now ≡ length new.now }
    requires few { length old.now ≤ CLOCKS_MAX }
    requires places { length old.now ≤ length out.old }
    ensures front { take result out.new ≡ revokes gener old.now new.now }
    ensures count { result ≤ length old.now }
    ensures rest { drop result out.new ≡ drop result out.old }
{
    let mut count = 0;
    for (clock, before) in old.iter().enumerate() {
        count = put(out, count, revoked(gener, clock as u8, before, &new[clock]));
    }
    count
}

/// Writes a grant of each clock whose edge changed to a new one, behind the first `revokes` orders.
fn put_grants(
    gener: u32,
    old: &[Option<Edge>],
    new: &[Option<Edge>],
    out: &mut [RoleOrder],
    revokes: usize,
) -> usize
    requires same_length { length old.now ≡ length new.now }
    requires few { length old.now ≤ CLOCKS_MAX }
    requires ctrls { HaveCtrls new.now }
    requires places { revokes + length old.now ≤ length out.old }
    ensures front { take result out.new ≡ take revokes out.old ++ grants gener old.now new.now }
    ensures count { revokes ≤ result }
    ensures within { result ≤ length out.old }
    ensures rest { drop result out.new ≡ drop result out.old }
{
    let mut count = revokes;
    for (clock, before) in old.iter().enumerate() {
        count = put(out, count, granted(gener, clock as u8, before, &new[clock]));
    }
    count
}

/// Writes the orders of the generation in which the edges of the clocks become `new`, and answers how
/// many they are: a revoke of each clock that had an edge and whose edge changed, in rising clocks,
/// then a grant of each clock whose edge changed to a new one, in rising clocks (project). So no order
/// makes a clock copy one that copies it back, whichever of them have come. There are at most
/// `CLOCKS_MAX` clocks, the controllers of the new edges fit into octets, and `out` has two places for
/// each clock. Does not allocate.
pub fn orders(
    gener: u32,
    old: &[Option<Edge>],
    new: &[Option<Edge>],
    out: &mut [RoleOrder],
) -> usize
    requires same_length { length old.now ≡ length new.now }
    requires few { length old.now ≤ CLOCKS_MAX }
    requires ctrls { HaveCtrls new.now }
    requires places { length out.old ≡ 2 * length old.now }
    ensures count { result ≡ length (orders_of gener old.now new.now) }
    ensures orders { out.new ≡ orders_of gener old.now new.now ++ drop result out.old }
    ensures parts { (k : ℕ) →
        IsPart (ctrls_after (ctrls_of old.now) (take k (orders_of gener old.now new.now)))
        (ctrls_of old.now)
        ⊎ IsPart (ctrls_after (ctrls_of old.now) (take k (orders_of gener old.now new.now)))
        (ctrls_of new.now) }
    ensures forests { (k : ℕ) → IsForest (ctrls_of old.now) → IsForest (ctrls_of new.now)
        → IsForest (ctrls_after (ctrls_of old.now) (take k (orders_of gener old.now new.now))) }
    ensures at_last { ctrls_after (ctrls_of old.now) (orders_of gener old.now new.now)
        ≡ ctrls_of new.now }
{
    orders_leave_parts();
    orders_leave_forests();
    orders_lead_to_the_new_edges();
    let revokes = put_revokes(gener, old, new, out);
    put_grants(gener, old, new, out, revokes)
}
