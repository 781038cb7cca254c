ghost use Rattle.std.specs.Prelude.{◌≡◌, ◌≢◌, ◌+◌, ◌<◌, ◌≤◌, [], All, IfOk, OnOk, length};
ghost use Rattle.ptp_profile.specs.Roles.SeatLogs.{HasOrder};
ghost use Rattle.discipline_seat.specs.CrewOrders.{IsCrewHub, IsMember, IsReady, crew_ctrl};
ghost use Rattle.discipline_seat.specs.Rule.SeatLog.{owner_named, pass_owner};
ghost use Rattle.discipline_seat.specs.Rule.SeatView.{seen_log};
ghost use Rattle.discipline_seat.specs.SeatValue.{IsSeatOf};

use crate::*;
use model_clock::ClockState;
use ptp_base::NoMemory;
use std::alloc::Global;
use std::thread::{Threads, map_vec};

/// The pass of a port or of a clock's follower, with the stamp under which it changes its clock,
/// the numbers of its receipts, and how often it was superseded.
#[derive(Drop)]
struct Member {
    held: Held,
    pass: Pass,
    numbers: Vec<u32>,
    late: u32,
}

/// What came of a member's changes.
#[derive(Drop)]
struct Tally {
    held: Held,
    numbers: Vec<u32>,
    late: u32,
}

/// Seats of 16 clocks with the seats of all who step, and an empty place for the passes.
#[derive(Drop)]
struct Crew {
    seats: Seats,
    hub: HubSeat,
    left: Passes,
    members: Vec<Member>,
}

/// Who has a clock in a generation. A follower can't have clock 0 while the others copy that clock,
/// so that of clock 0 has its turn with ports 17 to 31, and port 32 has its with the followers.
fn controller(gener: u32, clock: u8) -> u8
    requires some { 1 ≤ gener }
    requires last { gener ≤ 3 }
    requires clock { clock < 16 }
    ensures ctrl { result ≡ crew_ctrl gener clock }
    ensures somebody { result ≢ 0 }
{
    if gener == 1 {
        clock + 1
    } else if gener == 2 {
        if clock == 0 { 129 } else { clock + 16 }
    } else if clock == 0 {
        32
    } else {
        128
    }
}

/// In which generation the owner of a pass has its turn, and at which clock.
fn turn_of(number: u8) -> (u32, u8)
    requires { number < 48 }
    ensures some { 1 ≤ result.0 }
    ensures last { result.0 ≤ 3 }
    ensures clock { result.1 < 16 }
    ensures named { owner_named result.1 (crew_ctrl result.0 result.1) ≡ pass_owner 32 number }
{
    if number < 16 {
        (1, number)
    } else if number < 31 {
        (2, number - 15)
    } else if number == 31 {
        (3, 0)
    } else if number == 32 {
        (2, 0)
    } else {
        (3, number - 32)
    }
}

/// A pass with its stamp, which has changed nothing.
fn enlisted(alloc: Global, seats: &Seats, pass: Pass, number: u8) -> Result<Member, NoMemory>
    requires number { number < 48 }
    requires pass { IsSeatOf seats.now pass }
    requires owner { pass.view.owner ≡ pass_owner 32 number }
    ensures { IfOk result (λ m. IsMember seats.now m.held m.pass) }
{
    let (gener, clock) = turn_of(number);
    let held = Held {
        clock,
        gener,
        ctrl: controller(gener, clock),
    };
    Ok(Member {
        held,
        pass,
        numbers: Vec::with_capacity(alloc, 1000)?,
        late: 0,
    })
}

/// Seats of 16 clocks that read 0 at tick 0.
fn crewed(alloc: Global) -> Result<Crew, NoMemory>
    ensures clocks { IfOk result (λ r. length r.seats.openings.items ≡ 16) }
    ensures hub { IfOk result (λ r. IsSeatOf r.seats r.hub) }
    ensures counted { IfOk result (λ r. r.hub.view.passes ≡ 48) }
    ensures ordered { IfOk result (λ r. IsCrewHub r.hub.view 1 0) }
    ensures made { IfOk result (λ r. r.left.made ≡ 48) }
    ensures left { IfOk result (λ r. r.left.passes ≡ []) }
    ensures count { IfOk result (λ r. length r.members.items ≡ 48) }
    ensures members { IfOk result (λ r.
        All (λ m. IsMember r.seats m.held m.pass) r.members.items) }
{
    let clock = ClockState {
        tick: 0,
        time: 0,
        freq: 0,
        drift: 0,
    };
    let (seats, hub, mut passes) = Seats::new(alloc, &[clock; 16], 4000, 32)?;
    let mut members = Vec::new(alloc);
    for number in 0..48u8 {
        let Some(pass) = passes.take() else {
            return Err(NoMemory);
        };
        members.push(enlisted(alloc, &seats, pass, number)?)?;
    }
    Ok(Crew {
        seats,
        hub,
        left: passes,
        members,
    })
}

/// The hub takes a clock back, and gives it to whose turn it is.
fn hand_on(seats: &Seats, hub: &mut HubSeat, gener: u32, clock: u8)
    requires clocks { length seats.now.openings.items ≡ 16 }
    requires some { 1 ≤ gener }
    requires last { gener ≤ 3 }
    requires clock { clock < 16 }
    requires hub { IsSeatOf seats.now hub.old }
    requires spare { 2 ≤ hub.old.spare }
    requires ordered { IsCrewHub hub.old.view gener clock }
    ensures hub { IsSeatOf seats.now hub.new }
    ensures passes { hub.new.view.passes ≡ hub.old.view.passes }
    ensures spare { hub.old.spare ≤ hub.new.spare + 2 }
    ensures ordered { IsCrewHub hub.new.view gener (clock + 1) }
{
    let ctrl = controller(gener, clock);
    let revoked = seats.order(hub, clock, gener, 0);
    let granted = seats.order(hub, clock, gener, ctrl);
}

/// All clocks go to whose turn it is.
fn hand_all_on(seats: &Seats, hub: &mut HubSeat, gener: u32) -> Result<(), NoMemory>
    requires clocks { length seats.now.openings.items ≡ 16 }
    requires some { 1 ≤ gener }
    requires last { gener ≤ 3 }
    requires hub { IsSeatOf seats.now hub.old }
    requires ordered { IsCrewHub hub.old.view gener 0 }
    ensures hub { OnOk result (IsSeatOf seats.now hub.new) }
    ensures passes { OnOk result (hub.new.view.passes ≡ hub.old.view.passes) }
    ensures ordered { OnOk result (IsCrewHub hub.new.view (gener + 1) 0) }
{
    hub.reserve(32)?;
    for clock in 0..16u8 {
        hand_on(seats, hub, gener, clock);
    }
    Ok(())
}

/// The hub meets a pass, which then knows of the orders up to this generation and has places for
/// 1,000 changes.
fn met(seats: &Seats, hub: &mut HubSeat, gener: u32, member: Member) -> Result<Member, NoMemory>
    requires hub { IsSeatOf seats.now hub.old }
    requires ordered { IsCrewHub hub.old.view (gener + 1) 0 }
    requires member { IsMember seats.now member.held member.pass }
    ensures hub { OnOk result (IsSeatOf seats.now hub.new) }
    ensures passes { OnOk result (hub.new.view.passes ≡ hub.old.view.passes) }
    ensures ordered { OnOk result (IsCrewHub hub.new.view (gener + 1) 0) }
    ensures ready { IfOk result (λ m. IsReady seats.now gener m.held m.pass) }
{
    let Member {
        held,
        mut pass,
        numbers,
        late,
    } = member;
    pass.reserve(1000)?;
    seats.meet(hub, &mut pass, &NoPage);
    Ok(Member {
        held,
        pass,
        numbers,
        late,
    })
}

/// The hub meets all passes.
fn all_met(
    alloc: Global,
    seats: &Seats,
    hub: &mut HubSeat,
    gener: u32,
    mut members: Vec<Member>,
) -> Result<Vec<Member>, NoMemory>
    requires hub { IsSeatOf seats.now hub.old }
    requires ordered { IsCrewHub hub.old.view (gener + 1) 0 }
    requires members { All (λ m. IsMember seats.now m.held m.pass) members.items }
    ensures hub { OnOk result (IsSeatOf seats.now hub.new) }
    ensures passes { OnOk result (hub.new.view.passes ≡ hub.old.view.passes) }
    ensures ordered { OnOk result (IsCrewHub hub.new.view (gener + 1) 0) }
    ensures count { IfOk result (λ r. length r.items ≡ length members.items) }
    ensures ready { IfOk result (λ r.
        All (λ m. IsReady seats.now gener m.held m.pass) r.items) }
    ensures members { IfOk result (λ r. All (λ m. IsMember seats.now m.held m.pass) r.items) }
{
    let mut ready = Vec::new(alloc);
    while let Some(member) = members.pop() {
        ready.push(met(seats, hub, gener, member)?)?;
    }
    Ok(ready)
}

/// Who has no clock so far looks at one 1,000 times.
fn look_often(seats: &Seats, clock: u8, pass: &mut Pass)
    requires clocks { length seats.now.openings.items ≡ 16 }
    requires clock { clock < 16 }
    requires pass { IsSeatOf seats.now pass.old }
    ensures pass { IsSeatOf seats.now pass.new }
    ensures owner { pass.new.view.owner ≡ pass.old.view.owner }
{
    for turn in 0..1000u32 {
        let reading = seats.read(pass, clock);
    }
}

/// A member changes its clock.
fn change(seats: &Seats, held: Held, pass: &mut Pass, tick: u32) -> Result<Receipt, Refused>
    requires clocks { length seats.now.openings.items ≡ 16 }
    requires clock { held.clock < 16 }
    requires somebody { held.ctrl ≢ 0 }
    requires pass { IsSeatOf seats.now pass.old }
    requires spare { 1 ≤ pass.old.spare }
    requires named { owner_named held.clock held.ctrl ≡ pass.old.view.owner }
    requires given { HasOrder (seen_log pass.old.view held.clock) held.gener held.ctrl }
    ensures pass { IsSeatOf seats.now pass.new }
    ensures spare { pass.old.spare ≤ pass.new.spare + 1 }
    ensures owner { pass.new.view.owner ≡ pass.old.view.owner }
    ensures given { HasOrder (seen_log pass.new.view held.clock) held.gener held.ctrl }
{
    seats.adjust(pass, held, u64::from(tick), 1, 0)
}

/// A member changes its clock 1,000 times, each time at another tick. Its receipts' numbers are
/// kept, and where a clock was given on it counts how often it is superseded by this generation.
fn change_often(
    seats: &Seats,
    gener: u32,
    held: Held,
    pass: &mut Pass,
    numbers: &mut Vec<u32>,
) -> u32
    requires clocks { length seats.now.openings.items ≡ 16 }
    requires clock { held.clock < 16 }
    requires somebody { held.ctrl ≢ 0 }
    requires pass { IsSeatOf seats.now pass.old }
    requires spare { 1000 ≤ pass.old.spare }
    requires named { owner_named held.clock held.ctrl ≡ pass.old.view.owner }
    requires given { HasOrder (seen_log pass.old.view held.clock) held.gener held.ctrl }
    ensures pass { IsSeatOf seats.now pass.new }
    ensures owner { pass.new.view.owner ≡ pass.old.view.owner }
{
    let mut late: u32 = 0;
    for turn in 0..1000u32 {
        match change(seats, held, pass, turn) {
            Ok(receipt) => {
                let kept = numbers.push(receipt.number).is_ok();
            }
            Err(Refused::Superseded { newer, .. }) => {
                if newer == gener {
                    late = late.saturating_add(1);
                }
            }
            Err(Refused::Spent { .. }) => {}
        }
    }
    late
}

/// A member changes its clock 1,000 times, in its turn and later; before it, it only reads, as no
/// order gave it the stamp.
fn work(seats: &Seats, gener: u32, member: Member) -> Member
    requires clocks { length seats.now.openings.items ≡ 16 }
    requires ready { IsReady seats.now gener member.held member.pass }
    ensures { IsMember seats.now result.held result.pass }
{
    let Member {
        held,
        mut pass,
        mut numbers,
        late,
    } = member;
    let mut more: u32 = 0;
    if gener < held.gener {
        look_often(seats, held.clock, &mut pass);
    } else {
        more = change_often(seats, gener, held, &mut pass, &mut numbers);
    }
    Member {
        held,
        pass,
        numbers,
        late: late.saturating_add(more),
    }
}

/// All members at once, each in a thread of its own.
fn at_work<R: Threads + Sync>(
    rt: &R,
    seats: &Seats,
    gener: u32,
    members: Vec<Member>,
) -> Result<Vec<Member>, NoMemory>
    requires clocks { length seats.now.openings.items ≡ 16 }
    requires members { All (λ m. IsReady seats.now gener m.held m.pass) members.items }
    ensures count { IfOk result (λ r. length r.items ≡ length members.items) }
    ensures members { IfOk result (λ r. All (λ m. IsMember seats.now m.held m.pass) r.items) }
{
    Ok(map_vec(rt, members, &|member| work(seats, gener, member))?)
}

/// A generation: the clocks go to whose turn it is, the hub meets all passes, all are at work on
/// threads, and the hub meets them again.
fn worked<R: Threads + Sync>(
    rt: &R,
    alloc: Global,
    seats: &Seats,
    hub: &mut HubSeat,
    gener: u32,
    members: Vec<Member>,
) -> Result<Vec<Member>, NoMemory>
    requires clocks { length seats.now.openings.items ≡ 16 }
    requires some { 1 ≤ gener }
    requires last { gener ≤ 3 }
    requires hub { IsSeatOf seats.now hub.old }
    requires ordered { IsCrewHub hub.old.view gener 0 }
    requires members { All (λ m. IsMember seats.now m.held m.pass) members.items }
    ensures hub { OnOk result (IsSeatOf seats.now hub.new) }
    ensures passes { OnOk result (hub.new.view.passes ≡ hub.old.view.passes) }
    ensures ordered { OnOk result (IsCrewHub hub.new.view (gener + 1) 0) }
    ensures count { IfOk result (λ r. length r.items ≡ length members.items) }
    ensures members { IfOk result (λ r. All (λ m. IsMember seats.now m.held m.pass) r.items) }
{
    hand_all_on(seats, hub, gener)?;
    let ready = all_met(alloc, seats, hub, gener, members)?;
    let members = at_work(rt, seats, gener, ready)?;
    all_met(alloc, seats, hub, gener, members)
}

/// All passes are given back, and the seats end.
fn finished(alloc: Global, crew: Crew) -> Result<(Logs, Vec<Tally>), NoMemory>
    requires hub { IsSeatOf crew.seats crew.hub }
    requires counted { crew.hub.view.passes ≡ 48 }
    requires made { crew.left.made ≡ 48 }
    requires left { crew.left.passes ≡ [] }
    requires count { length crew.members.items ≡ 48 }
    requires members { All (λ m. IsMember crew.seats m.held m.pass) crew.members.items }
{
    let Crew {
        seats,
        hub,
        left: mut passes,
        mut members,
    } = crew;
    let mut tallies = Vec::new(alloc);
    while let Some(member) = members.pop() {
        let Member {
            held,
            pass,
            numbers,
            late,
        } = member;
        passes.put(pass);
        tallies.push(Tally {
            held,
            numbers,
            late,
        })?;
    }
    match seats.close(alloc, hub, passes) {
        Ok(logs) => Ok((logs, tallies)),
        Err(left) => Err(NoMemory),
    }
}

/// The logs, and what came of each member's changes, where all have had their turns.
fn crew_logs<R: Threads + Sync>(rt: &R, alloc: Global) -> Result<(Logs, Vec<Tally>), NoMemory> {
    let Crew {
        seats,
        mut hub,
        left,
        members,
    } = crewed(alloc)?;
    let members = worked(rt, alloc, &seats, &mut hub, 1, members)?;
    let members = worked(rt, alloc, &seats, &mut hub, 2, members)?;
    let members = worked(rt, alloc, &seats, &mut hub, 3, members)?;
    finished(
        alloc,
        Crew {
            seats,
            hub,
            left,
            members,
        },
    )
}

/// Whether the log has the two orders of the member's generation, and at the number of each of the
/// receipts, one after the other, the change of the tick that is its place here.
fn has_turn(entries: &[LogEntry], tally: &Tally) -> bool {
    let Held { gener, ctrl, .. } = tally.held;
    let mut at = (gener as usize).wrapping_sub(1).wrapping_mul(1002);
    let revoked = LogEntry::Order { gener, ctrl: 0 };
    let granted = LogEntry::Order { gener, ctrl };
    if entries.get(at) != Some(&revoked) || entries.get(at.wrapping_add(1)) != Some(&granted) {
        return false;
    }
    at = at.wrapping_add(2);
    let mut tick: u64 = 0;
    for number in tally.numbers.as_slice() {
        let change = LogEntry::Change {
            gener,
            ctrl,
            tick,
            step: 1,
            freq: 0,
        };
        if entries.get(at) != Some(&change) || *number as usize != at.wrapping_add(1) {
            return false;
        }
        at = at.wrapping_add(1);
        tick = tick.saturating_add(1);
    }
    true
}

#[test]
fn a_crew_shares_the_clocks(rt: HostRuntime) {
    match crew_logs(&rt, rt.alloc()) {
        Ok((logs, tallies)) => {
            assert_eq!(rt; logs.len(), 16);
            assert_eq!(rt; tallies.len(), 48);
            for log in logs.items() {
                assert_eq!(rt; log.entries.len(), 3006);
                for tally in tallies.as_slice() {
                    if tally.held.clock == log.clock {
                        assert_eq!(rt; tally.numbers.len(), 1000);
                        assert!(rt; has_turn(log.entries.items(), tally));
                        let later = 3u32.saturating_sub(tally.held.gener);
                        assert_eq!(rt; tally.late, later.saturating_mul(1000));
                    }
                }
            }
        }
        Err(NoMemory) => assert_eq!(rt; 0, 1),
    }
}
