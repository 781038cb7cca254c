ghost use Rattle.std.specs.Prelude.{◌≡◌, ◌+◌, ◌≤◌, ◌∷◌, [], IfOk, OnOk, length};
ghost use Rattle.ptp_profile.specs.Roles.SeatLogs.{HasOrder};
ghost use Rattle.discipline_seat.specs.declared.view.Owner.TheVariants.{Follower, Port};
ghost use Rattle.discipline_seat.specs.Rule.SeatView.{seen_log};
ghost use Rattle.discipline_seat.specs.SeatValue.{IsSeatOf};
ghost use Rattle.discipline_seat.specs.HubOrders.{IsOrderedBy};
ghost use Rattle.ptp_profile.specs.declared.seats.LogEntry.TheVariants.{Order};

use crate::*;
use model_clock::ClockState;
use ptp_base::NoMemory;
use std::alloc::Global;
use std::thread::{Threads, join};

const SECOND: u64 = 1_000_000_000;

/// Port 1, to which its clock was given in generation 1.
const PORT: Held = Held {
    clock: 0,
    gener: 1,
    ctrl: 1,
};

/// A clock that reads 0 at tick 0, with room for six entries and two rows.
fn clock(alloc: Global) -> Result<PlainSeats, NoMemory>
    ensures logs { IfOk result (λ seats. seats.logs ≡ [] ∷ []) }
    ensures spare { IfOk result (λ seats. 6 ≤ seats.spare) }
{
    let clock = ClockState {
        tick: 0,
        time: 0,
        freq: 0,
        drift: 0,
    };
    let mut seats = PlainSeats::new(alloc, &[clock], 2)?;
    seats.reserve(6)?;
    Ok(seats)
}

/// The clock is given to port 1.
fn given(seats: &mut PlainSeats) -> Receipt
    requires logs { seats.old.logs ≡ [] ∷ [] }
    requires spare { 1 ≤ seats.old.spare }
    ensures logs { seats.new.logs ≡ (Order 1 1 ∷ []) ∷ [] }
    ensures spare { seats.old.spare ≤ seats.new.spare + 1 }
{
    seats.order(0, 1, 1)
}

/// What the port is answered where it steps its clock, and what the clock then reads.
fn stepped(alloc: Global) -> Result<(Receipt, Result<Receipt, Refused>, Reading), NoMemory> {
    let mut seats = clock(alloc)?;
    let first = given(&mut seats);
    let second = seats.adjust(PORT, 5 * SECOND, 50_000, 0);
    Ok((first, second, seats.read(0)))
}

#[test]
fn a_port_steps_its_clock(rt: HostRuntime) {
    let state = ClockState {
        tick: 5_000_000_000,
        time: 5_000_050_000,
        freq: 0,
        drift: 0,
    };
    let reading = Reading {
        number: 2,
        gener: 1,
        ctrl: 1,
        state,
    };
    assert_eq!(rt;
        stepped(rt.alloc()).ok(),
        Some((Receipt { number: 1 }, Ok(Receipt { number: 2 }), reading))
    );
}

/// The clock is given to the port anew.
fn given_anew(seats: &mut PlainSeats) -> Receipt
    requires logs { seats.old.logs ≡ (Order 1 1 ∷ []) ∷ [] }
    requires spare { 1 ≤ seats.old.spare }
    ensures logs { seats.new.logs ≡ (Order 2 1 ∷ Order 1 1 ∷ []) ∷ [] }
    ensures spare { seats.old.spare ≤ seats.new.spare + 1 }
{
    seats.order(0, 2, 1)
}

/// What the port is answered under a stamp once it was given the clock twice.
fn answered(alloc: Global, anew: bool) -> Result<Result<Receipt, Refused>, NoMemory> {
    let mut seats = clock(alloc)?;
    let first = given(&mut seats);
    let second = given_anew(&mut seats);
    if anew {
        let held = Held { gener: 2, ..PORT };
        Ok(seats.adjust(held, 5 * SECOND, 0, 0))
    } else {
        Ok(seats.adjust(PORT, 5 * SECOND, 0, 0))
    }
}

/// How many entries the log has that is lent, and how many logs part.
fn parted(alloc: Global) -> Result<(usize, usize), NoMemory> {
    let mut seats = clock(alloc)?;
    let first = given(&mut seats);
    let entries = seats.log(0).len();
    Ok((entries, seats.part().len()))
}

#[test]
fn holders_are_refused(rt: HostRuntime) {
    let superseded = Refused::Superseded { newer: 2, at: 2 };
    assert_eq!(rt; answered(rt.alloc(), false).ok(), Some(Err(superseded)));
    assert_eq!(rt;
        answered(rt.alloc(), true).ok(),
        Some(Err(Refused::Spent { at: 2 }))
    );
    assert_eq!(rt; parted(rt.alloc()).ok(), Some((1, 1)));
}

/// Seats of a clock with the seats of all who step.
#[derive(Drop)]
struct OneClock {
    seats: Seats,
    hub: HubSeat,
    passes: Passes,
    pass: Pass,
    other: Pass,
    follower: Pass,
}

/// Seats of a clock that reads 0 at tick 0, given to port 1, which knows of it and has places for
/// 1,000 changes, with the passes of ports 1 and 2 and of the clock's follower.
fn shared(alloc: Global, rows: u32) -> Result<OneClock, NoMemory>
    requires row { 1 ≤ rows }
    requires rows { rows ≤ 262143 }
    ensures clock { IfOk result (λ r. length r.seats.openings.items ≡ 1) }
    ensures hub { IfOk result (λ r. IsSeatOf r.seats r.hub) }
    ensures pass { IfOk result (λ r. IsSeatOf r.seats r.pass) }
    ensures other { IfOk result (λ r. IsSeatOf r.seats r.other) }
    ensures follower { IfOk result (λ r. IsSeatOf r.seats r.follower) }
    ensures taken { IfOk result (λ r. r.passes ≡ record { passes = []; made = 3 }) }
    ensures counted { IfOk result (λ r. r.hub.view.passes ≡ 3) }
    ensures owner { IfOk result (λ r. r.pass.view.owner ≡ Port 1) }
    ensures order { IfOk result (λ r. HasOrder (seen_log r.pass.view 0) 1 1) }
    ensures ordered { IfOk result (λ r. IsOrderedBy r.hub.view 1 1 1) }
    ensures hub_spare { IfOk result (λ r. 2 ≤ r.hub.spare) }
    ensures spare { IfOk result (λ r. 1000 ≤ r.pass.spare) }
{
    let clock = ClockState {
        tick: 0,
        time: 0,
        freq: 0,
        drift: 0,
    };
    let (seats, mut hub, mut passes) = Seats::new(alloc, &[clock], rows, 2)?;
    let Some(mut pass) = passes.take() else {
        return Err(NoMemory);
    };
    let Some(other) = passes.take() else {
        return Err(NoMemory);
    };
    let Some(follower) = passes.take() else {
        return Err(NoMemory);
    };
    hub.reserve(3)?;
    pass.reserve(1000)?;
    let receipt = seats.order(&mut hub, 0, 1, 1);
    seats.meet(&mut hub, &mut pass, &NoPage);
    Ok(OneClock {
        seats,
        hub,
        passes,
        pass,
        other,
        follower,
    })
}

/// The same, tried once more where there was no memory.
fn shared_at_last(alloc: Global, rows: u32) -> Result<OneClock, NoMemory>
    requires row { 1 ≤ rows }
    requires rows { rows ≤ 262143 }
    ensures clock { IfOk result (λ r. length r.seats.openings.items ≡ 1) }
    ensures hub { IfOk result (λ r. IsSeatOf r.seats r.hub) }
    ensures pass { IfOk result (λ r. IsSeatOf r.seats r.pass) }
    ensures other { IfOk result (λ r. IsSeatOf r.seats r.other) }
    ensures follower { IfOk result (λ r. IsSeatOf r.seats r.follower) }
    ensures taken { IfOk result (λ r. r.passes ≡ record { passes = []; made = 3 }) }
    ensures counted { IfOk result (λ r. r.hub.view.passes ≡ 3) }
    ensures owner { IfOk result (λ r. r.pass.view.owner ≡ Port 1) }
    ensures order { IfOk result (λ r. HasOrder (seen_log r.pass.view 0) 1 1) }
    ensures spare { IfOk result (λ r. 1000 ≤ r.pass.spare) }
{
    match shared(alloc, rows) {
        Ok(all) => Ok(all),
        Err(NoMemory) => shared(alloc, rows),
    }
}

/// Ends the seats, with what a refused closing handed back where there was no memory at first.
fn closed(alloc: Global, all: OneClock) -> Result<Logs, NoMemory>
    requires hub { IsSeatOf all.seats all.hub }
    requires pass { IsSeatOf all.seats all.pass }
    requires other { IsSeatOf all.seats all.other }
    requires follower { IsSeatOf all.seats all.follower }
    requires taken { all.passes ≡ record { passes = []; made = 3 } }
    requires counted { all.hub.view.passes ≡ 3 }
{
    let OneClock {
        seats,
        hub,
        mut passes,
        pass,
        other,
        follower,
    } = all;
    passes.put(pass);
    passes.put(other);
    passes.put(follower);
    match seats.close(alloc, hub, passes) {
        Ok(logs) => Ok(logs),
        Err(left) => {
            let Left { seats, hub, passes } = left;
            match seats.close(alloc, hub, passes) {
                Ok(logs) => Ok(logs),
                Err(left) => Err(NoMemory),
            }
        }
    }
}

/// The port steps its clock.
fn step(seats: &Seats, pass: &mut Pass) -> Result<Receipt, Refused>
    requires clock { length seats.now.openings.items ≡ 1 }
    requires pass { IsSeatOf seats.now pass.old }
    requires spare { 1 ≤ pass.old.spare }
    requires owner { pass.old.view.owner ≡ Port 1 }
    requires order { HasOrder (seen_log pass.old.view 0) 1 1 }
    ensures pass { IsSeatOf seats.now pass.new }
    ensures spare { pass.old.spare ≤ pass.new.spare + 1 }
    ensures owner { pass.new.view.owner ≡ Port 1 }
    ensures order { HasOrder (seen_log pass.new.view 0) 1 1 }
{
    seats.adjust(pass, PORT, 5 * SECOND, 50_000, 0)
}

/// What a port is answered where it steps its clock twice, and what the clock then reads.
fn stepped_twice(
    alloc: Global,
    rows: u32,
) -> Result<(Result<Receipt, Refused>, Result<Receipt, Refused>, Reading), NoMemory>
    requires row { 1 ≤ rows }
    requires rows { rows ≤ 262143 }
{
    let mut all = shared(alloc, rows)?;
    let first = step(&all.seats, &mut all.pass);
    let second = step(&all.seats, &mut all.pass);
    Ok((first, second, all.seats.read(&mut all.pass, 0)))
}

#[test]
fn a_port_steps_a_shared_clock(rt: HostRuntime) {
    let state = ClockState {
        tick: 5_000_000_000,
        time: 5_000_050_000,
        freq: 0,
        drift: 0,
    };
    let reading = Reading {
        number: 2,
        gener: 1,
        ctrl: 1,
        state,
    };
    assert_eq!(rt;
        stepped_twice(rt.alloc(), 2).ok(),
        Some((
            Ok(Receipt { number: 2 }),
            Err(Refused::Spent { at: 2 }),
            reading
        ))
    );
}

/// The logs where the port steps its clock twice, of which the log has room for one.
fn logged(alloc: Global) -> Result<Logs, NoMemory> {
    let OneClock {
        seats,
        hub,
        passes,
        mut pass,
        other,
        follower,
    } = shared_at_last(alloc, 2)?;
    let first = step(&seats, &mut pass);
    let second = step(&seats, &mut pass);
    closed(
        alloc,
        OneClock {
            seats,
            hub,
            passes,
            pass,
            other,
            follower,
        },
    )
}

/// With any one allocation failing, the logs are the same: a refused closing hands all back.
#[test]
fn logs_are_whole(rt: HostRuntime) {
    match logged(rt.alloc()) {
        Ok(logs) => {
            assert_eq!(rt; logs.len(), 1);
            let whole = [
                LogEntry::Order { gener: 1, ctrl: 1 },
                LogEntry::Change {
                    gener: 1,
                    ctrl: 1,
                    tick: 5 * SECOND,
                    step: 50_000,
                    freq: 0,
                },
            ];
            for log in logs.items() {
                assert_eq!(rt; log.clock, 0);
                assert_eq!(rt; log.entries.items(), whole.as_slice());
            }
        }
        Err(NoMemory) => assert_eq!(rt; 0, 1),
    }
}

/// How often the port is given a receipt, of so many times that it steps its clock.
fn step_often(seats: &Seats, pass: &mut Pass, times: u32) -> u32
    requires clock { length seats.now.openings.items ≡ 1 }
    requires pass { IsSeatOf seats.now pass.old }
    requires spare { times ≤ pass.old.spare }
    requires owner { pass.old.view.owner ≡ Port 1 }
    requires order { HasOrder (seen_log pass.old.view 0) 1 1 }
    ensures pass { IsSeatOf seats.now pass.new }
    ensures count { result ≤ times }
{
    let mut receipts: u32 = 0;
    for turn in 0..times {
        if step(seats, pass).is_ok() {
            receipts += 1;
        }
    }
    receipts
}

/// The hub takes the clock from port 1 and gives it to port 2.
fn hand_over(seats: &Seats, hub: &mut HubSeat) -> (Receipt, Receipt)
    requires clock { length seats.now.openings.items ≡ 1 }
    requires hub { IsSeatOf seats.now hub.old }
    requires spare { 2 ≤ hub.old.spare }
    requires ordered { IsOrderedBy hub.old.view 1 1 1 }
    ensures hub { IsSeatOf seats.now hub.new }
    ensures passes { hub.new.view.passes ≡ hub.old.view.passes }
{
    let revoked = seats.order(hub, 0, 2, 0);
    let granted = seats.order(hub, 0, 2, 2);
    (revoked, granted)
}

/// Two threads: the port steps its clock 1,000 times on the one, and the hub's seat meets another
/// pass as often on the other.
fn steps_and_meets<R: Threads + Sync>(rt: &R, alloc: Global) -> Result<(u32, Reading), NoMemory> {
    let OneClock {
        seats,
        mut hub,
        passes,
        mut pass,
        mut other,
        mut follower,
    } = shared(alloc, 2000)?;
    let (receipts, met) = join(
        rt,
        || step_often(&seats, &mut pass, 1000),
        || meet_often(&seats, &mut hub, &mut other, 1000),
    );
    Ok((receipts, seats.read(&mut follower, 0)))
}

/// The hub's seat meets a pass so often.
fn meet_often(seats: &Seats, hub: &mut HubSeat, pass: &mut Pass, times: u32) -> u32
    requires hub { IsSeatOf seats.now hub.old }
    requires pass { IsSeatOf seats.now pass.old }
    ensures hub { IsSeatOf seats.now hub.new }
    ensures pass { IsSeatOf seats.now pass.new }
{
    for turn in 0..times {
        seats.meet(hub, pass, &NoPage);
    }
    times
}

#[test]
fn a_port_steps_its_clock_while_the_hub_meets(rt: HostRuntime) {
    match steps_and_meets(&rt, rt.alloc()) {
        Ok((receipts, reading)) => {
            assert_eq!(rt; receipts, 1000);
            assert_eq!(rt; reading.number, 1001);
        }
        Err(NoMemory) => assert_eq!(rt; 0, 1),
    }
}

/// What the port saw that steps its clock until it is refused, or 1,000 times: the number of its
/// last receipt, and the refusal.
fn step_until_refused(seats: &Seats, pass: &mut Pass) -> (u32, Option<Refused>)
    requires clock { length seats.now.openings.items ≡ 1 }
    requires pass { IsSeatOf seats.now pass.old }
    requires spare { 1000 ≤ pass.old.spare }
    requires owner { pass.old.view.owner ≡ Port 1 }
    requires order { HasOrder (seen_log pass.old.view 0) 1 1 }
    ensures pass { IsSeatOf seats.now pass.new }
{
    let mut last: u32 = 0;
    for turn in 0..1000u32 {
        match step(seats, pass) {
            Ok(receipt) => last = receipt.number,
            Err(refused) => return (last, Some(refused)),
        }
    }
    (last, None)
}

/// What came of a clock that was given to another port.
#[derive(Drop)]
struct HandedOver {
    last: u32,
    refused: Option<Refused>,
    revoked: Receipt,
    granted: Receipt,
    logs: Logs,
}

/// The same as `step_until_refused`, of a pass that is given and comes back.
fn refused_at_last(seats: &Seats, mut pass: Pass) -> (Pass, u32, Option<Refused>)
    requires clock { length seats.now.openings.items ≡ 1 }
    requires pass { IsSeatOf seats.now pass }
    requires spare { 1000 ≤ pass.spare }
    requires owner { pass.view.owner ≡ Port 1 }
    requires order { HasOrder (seen_log pass.view 0) 1 1 }
    ensures { IsSeatOf seats.now result.0 }
{
    let (last, refused) = step_until_refused(seats, &mut pass);
    (pass, last, refused)
}

/// The same as `hand_over`, of a hub's seat that is given and comes back.
fn hand_over_by(seats: &Seats, mut hub: HubSeat) -> (HubSeat, Receipt, Receipt)
    requires clock { length seats.now.openings.items ≡ 1 }
    requires hub { IsSeatOf seats.now hub }
    requires spare { 2 ≤ hub.spare }
    requires ordered { IsOrderedBy hub.view 1 1 1 }
    requires counted { hub.view.passes ≡ 3 }
    ensures hub { IsSeatOf seats.now result.0 }
    ensures counted { result.0.view.passes ≡ 3 }
{
    let (revoked, granted) = hand_over(seats, &mut hub);
    (hub, revoked, granted)
}

/// Two threads: the port steps its clock while the hub gives the clock to another.
fn handed_over<R: Threads + Sync>(rt: &R, alloc: Global) -> Result<HandedOver, NoMemory> {
    let OneClock {
        seats,
        hub,
        passes,
        pass,
        other,
        follower,
    } = shared(alloc, 2000)?;
    let table = &seats;
    let ((pass, last, refused), (hub, revoked, granted)) = join(
        rt,
        move || refused_at_last(table, pass),
        move || hand_over_by(table, hub),
    );
    let all = OneClock {
        seats,
        hub,
        passes,
        pass,
        other,
        follower,
    };
    Ok(HandedOver {
        last,
        refused,
        revoked,
        granted,
        logs: closed(alloc, all)?,
    })
}

/// How many of the entries behind the first so many are changes.
fn changes_behind(entries: &[LogEntry], first: u32) -> u32 {
    let mut changes: u32 = 0;
    let mut number: u32 = 0;
    for entry in entries {
        number = number.saturating_add(1);
        if number > first {
            match *entry {
                LogEntry::Order { .. } => {}
                LogEntry::Change { .. } => changes = changes.saturating_add(1),
            }
        }
    }
    changes
}

#[test]
fn handover(rt: HostRuntime) {
    match handed_over(&rt, rt.alloc()) {
        Ok(all) => {
            assert!(rt; all.last < all.revoked.number);
            assert!(rt; all.revoked.number < all.granted.number);
            match all.refused {
                None => {}
                Some(Refused::Superseded { newer, at }) => {
                    assert_eq!(rt; newer, 2);
                    assert!(rt; all.revoked.number <= at);
                }
                Some(Refused::Spent { .. }) => assert_eq!(rt; 0, 1),
            }
            assert_eq!(rt; all.logs.len(), 1);
            for log in all.logs.items() {
                assert_eq!(rt; log.entries.len(), all.granted.number as usize);
                assert_eq!(rt; changes_behind(log.entries.items(), all.revoked.number), 0);
            }
        }
        Err(NoMemory) => assert_eq!(rt; 0, 1),
    }
}

/// Clock 0's follower, to which its clock was given in generation 2: it copies clock 1.
const FOLLOWER: Held = Held {
    clock: 0,
    gener: 2,
    ctrl: 129,
};

/// Seats of two clocks, of which the first was given to its follower, which knows of it.
fn followed(alloc: Global) -> Result<(Seats, HubSeat, Pass), NoMemory>
    ensures clocks { IfOk result (λ r. length r.0.openings.items ≡ 2) }
    ensures hub { IfOk result (λ r. IsSeatOf r.0 r.1) }
    ensures hub_spare { IfOk result (λ r. 2 ≤ r.1.spare) }
    ensures ordered { IfOk result (λ r. IsOrderedBy r.1.view 2 129 1) }
    ensures pass { IfOk result (λ r. IsSeatOf r.0 r.2) }
    ensures spare { IfOk result (λ r. 2 ≤ r.2.spare) }
    ensures owner { IfOk result (λ r. r.2.view.owner ≡ Follower 0) }
    ensures order { IfOk result (λ r. HasOrder (seen_log r.2.view 0) 2 129) }
{
    let clock = ClockState {
        tick: 0,
        time: 0,
        freq: 0,
        drift: 0,
    };
    let (seats, mut hub, mut passes) = Seats::new(alloc, &[clock, clock], 8, 1)?;
    let Some(port) = passes.take() else {
        return Err(NoMemory);
    };
    let Some(mut pass) = passes.take() else {
        return Err(NoMemory);
    };
    hub.reserve(3)?;
    pass.reserve(2)?;
    let receipt = seats.order(&mut hub, 0, 2, 129);
    seats.meet(&mut hub, &mut pass, &NoPage);
    Ok((seats, hub, pass))
}

/// The follower steps its clock.
fn follow(seats: &Seats, pass: &mut Pass) -> Result<Receipt, Refused>
    requires clocks { length seats.now.openings.items ≡ 2 }
    requires pass { IsSeatOf seats.now pass.old }
    requires spare { 1 ≤ pass.old.spare }
    requires owner { pass.old.view.owner ≡ Follower 0 }
    requires order { HasOrder (seen_log pass.old.view 0) 2 129 }
    ensures pass { IsSeatOf seats.now pass.new }
    ensures spare { pass.old.spare ≤ pass.new.spare + 1 }
    ensures owner { pass.new.view.owner ≡ Follower 0 }
    ensures order { HasOrder (seen_log pass.new.view 0) 2 129 }
{
    seats.adjust(pass, FOLLOWER, 5 * SECOND, 50_000, 0)
}

/// The hub takes the clock from its follower and gives it to port 1.
fn take_back(seats: &Seats, hub: &mut HubSeat) -> (Receipt, Receipt)
    requires clocks { length seats.now.openings.items ≡ 2 }
    requires hub { IsSeatOf seats.now hub.old }
    requires spare { 2 ≤ hub.old.spare }
    requires ordered { IsOrderedBy hub.old.view 2 129 1 }
{
    let revoked = seats.order(hub, 0, 3, 0);
    let granted = seats.order(hub, 0, 3, 1);
    (revoked, granted)
}

/// What the follower is answered before and after the clock is taken from it.
fn followed_late(
    alloc: Global,
) -> Result<(Result<Receipt, Refused>, Result<Receipt, Refused>), NoMemory> {
    let (seats, mut hub, mut pass) = followed(alloc)?;
    let first = follow(&seats, &mut pass);
    let (revoked, granted) = take_back(&seats, &mut hub);
    Ok((first, follow(&seats, &mut pass)))
}

#[test]
fn a_follower_is_late(rt: HostRuntime) {
    let superseded = Refused::Superseded { newer: 3, at: 4 };
    assert_eq!(rt;
        followed_late(rt.alloc()).ok(),
        Some((Ok(Receipt { number: 2 }), Err(superseded)))
    );
}
