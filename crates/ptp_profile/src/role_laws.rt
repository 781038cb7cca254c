ghost use Rattle.std.specs.Prelude.{◌≡◌, ◌≢◌, ℕ, suc, ◌+◌, ◌*◌, ◌<◌, ◌≤◌, ◌⊎◌, ◌↔◌, ◌==◌, if◌then◌else◌, ◌++◌, List, [], ◌∷◌, length, map, take, reverse, replicate, slice_index, slice_get, count_by, filter, Option, Some, None, IsTrue, ℤ, pos};
ghost use Rattle.ptp_base.specs.declared.identity.PortId.{PortId};
ghost use Rattle.ptp_base.specs.declared.port_state.PortState.{PortState};
ghost use Rattle.ptp_base.specs.declared.port_state.PortState.TheVariants.{Master, PreMaster, Slave, Uncalibrated};
ghost use Rattle.ptp_profile.specs.declared.roles.Edge.{Edge};
ghost use Rattle.ptp_profile.specs.declared.roles.Edge.TheVariants.{Follow, Port};
ghost use Rattle.ptp_profile.specs.declared.roles.RoleOrder.{RoleOrder};
ghost use Rattle.ptp_profile.specs.declared.seats.LogEntry.{LogEntry};
ghost use Rattle.ptp_profile.specs.declared.seats.LogEntry.TheVariants.{Change, Order};
ghost use Rattle.ptp_profile.specs.Port.PortStates.{is_following};
ghost use Rattle.ptp_profile.specs.Roles.Edges.{are_same_edges, AtMostOneFollows, edge_at, edges_of, is_same_edge, revoke, grant, ctrls_of, orders_of, stamp_of, notice_of};
ghost use Rattle.ptp_profile.specs.Roles.Forest.{IsForest, IsPart, ctrls_after};
ghost use Rattle.ptp_profile.specs.Roles.SeatLogs.{clock_after, HasOrder, IsChanged, IsLawful, IsStamped, IsSuperseded, entry_at, log_after, order_entry, stamp_after};

/// The edges make a forest: who copies a clock copies one that a port drives.
pub fn edges_make_a_forest()
    ensures { (clocks : ℕ) (parent : PortId) (states : List PortState) (port_clocks : List ℕ) →
        length states < 128 → IsForest (ctrls_of (edges_of clocks parent states port_clocks)) }
{}

/// Clocks that copy each other, or themselves, are no forest.
pub fn copying_in_a_circle_is_no_forest()
    ensures itself { ¬ IsForest (128 ∷ []) }
    ensures each_other { ¬ IsForest (129 ∷ 128 ∷ []) }
{}

/// A part of a forest is a forest.
pub fn a_part_of_a_forest_is_one()
    ensures { (part whole : List ℕ) → IsPart part whole → IsForest whole → IsForest part }
{}

/// After any number of a generation's orders the controllers are those of a part of the old edges or
/// of a part of the new ones.
pub fn orders_leave_parts()
    ensures { (gener k : ℕ) (olds news : List (Option Edge)) → length olds ≡ length news →
        IsPart (ctrls_after (ctrls_of olds) (take k (orders_of gener olds news))) (ctrls_of olds)
        ⊎ IsPart (ctrls_after (ctrls_of olds) (take k (orders_of gener olds news)))
        (ctrls_of news) }
{}

/// After any number of a generation's orders the controllers are a forest.
pub fn orders_leave_forests()
    ensures { (gener k : ℕ) (olds news : List (Option Edge)) → length olds ≡ length news →
        IsForest (ctrls_of olds) → IsForest (ctrls_of news) →
        IsForest (ctrls_after (ctrls_of olds) (take k (orders_of gener olds news))) }
{}

/// A generation's orders lead from the old edges' controllers to the new edges'.
pub fn orders_lead_to_the_new_edges()
    ensures { (gener : ℕ) (olds news : List (Option Edge)) → length olds ≡ length news
        → ctrls_after (ctrls_of olds) (orders_of gener olds news) ≡ ctrls_of news }
{}

/// Where at most one port follows a master, it drives its clock, and the other clocks copy that one
/// once the port is in SLAVE.
pub fn one_port_drives_all_clocks()
    ensures port { (clocks c i : ℕ) (parent : PortId) (states : List PortState)
        (port_clocks : List ℕ) (s : PortState) →
        AtMostOneFollows states → slice_get states i ≡ Some s → IsTrue (is_following s) →
        slice_get port_clocks i ≡ Some c → c < clocks →
        edge_at (edges_of clocks parent states port_clocks) c ≡ Some (Port (suc i) parent) }
    ensures others { (clocks c d i : ℕ) (parent : PortId) (states : List PortState)
        (port_clocks : List ℕ) →
        AtMostOneFollows states → slice_get states i ≡ Some Slave →
        slice_get port_clocks i ≡ Some c → d < clocks → d ≢ c →
        edge_at (edges_of clocks parent states port_clocks) d ≡ Some (Follow c) }
    ensures waiting { (clocks c d i : ℕ) (parent : PortId) (states : List PortState)
        (port_clocks : List ℕ) →
        AtMostOneFollows states → slice_get states i ≡ Some Uncalibrated →
        slice_get port_clocks i ≡ Some c → d ≢ c →
        edge_at (edges_of clocks parent states port_clocks) d ≡ None }
    ensures nobody { (clocks d : ℕ) (parent : PortId) (states : List PortState)
        (port_clocks : List ℕ) →
        count_by is_following states ≡ 0 →
        edge_at (edges_of clocks parent states port_clocks) d ≡ None }
{}

/// Edges differ exactly where they are not the same list.
pub fn the_same_edges_are_equal()
    ensures { (olds news : List (Option Edge)) → IsTrue (are_same_edges olds news) ↔ (olds ≡ news) }
{}

/// In a generation a clock whose edge changed is taken, if it had one, and then given, if it has a
/// new one; other clocks have no order.
pub fn a_changed_clock_is_taken_and_given()
    ensures { (gener clock : ℕ) (olds news : List (Option Edge)) → length olds ≡ length news
        → filter (λ (order : RoleOrder). order.clock == clock) (orders_of gener olds news)
        ≡ (if is_same_edge (edge_at olds clock) (edge_at news clock) then []
        else revoke gener clock (edge_at olds clock) ++ grant gener clock (edge_at news clock)) }
{}

/// A generation has at most two orders for each clock.
pub fn a_generation_has_few_orders()
    ensures { (gener : ℕ) (olds news : List (Option Edge)) →
        length (orders_of gener olds news) ≤ 2 * length olds }
{}

/// The controllers that all orders leave are those of the stamps.
pub fn stamps_have_the_controllers()
    ensures { (clocks clock : ℕ) (orders : List RoleOrder) → clock < clocks →
        (stamp_of clock orders).ctrl
        ≡ slice_index (ctrls_after (replicate clocks 0) (reverse orders)) clock }
{}

/// The stamp in force in a lawful log is that of the clock's last order.
pub fn a_lawful_log_has_the_last_stamp()
    ensures { (clock : ℕ) (orders : List RoleOrder) (log : List LogEntry) →
        IsLawful clock orders log → stamp_after log ≡ stamp_of clock orders }
{}

/// A log stays lawful as orders come, for its clock or another, and as changes come under the stamp
/// in force.
pub fn lawful_logs_grow()
    ensures opened { (clock : ℕ) → IsLawful clock [] [] }
    ensures ordered { (clock : ℕ) (order : RoleOrder) (orders : List RoleOrder)
        (log : List LogEntry) →
        order.clock ≡ clock → IsLawful clock orders log →
        IsLawful clock (order ∷ orders) (order_entry order ∷ log) }
    ensures elsewhere { (clock : ℕ) (order : RoleOrder) (orders : List RoleOrder)
        (log : List LogEntry) →
        order.clock ≢ clock → IsLawful clock orders log → IsLawful clock (order ∷ orders) log }
    ensures changed { (clock : ℕ) (orders : List RoleOrder) (log : List LogEntry)
        (gener ctrl tick : ℕ) (step freq : ℤ) →
        IsStamped (Change gener ctrl tick step freq) log → IsLawful clock orders log →
        IsLawful clock orders (Change gener ctrl tick step freq ∷ log) }
{}

/// A change of a lawful log bears the stamp that was in force after the entries before it.
pub fn a_change_bears_the_stamp_in_force()
    ensures { (clock : ℕ) (orders : List RoleOrder) (log : List LogEntry) (n : ℕ)
        (entry : LogEntry) →
        IsLawful clock orders log → entry_at (suc n) log ≡ Some entry →
        IsStamped entry (log_after n log) }
{}

/// Entries are numbered from the opening on, the first by 1, and keep their numbers as a log grows.
pub fn entries_are_numbered_from_one()
    ensures none { (log : List LogEntry) → entry_at 0 log ≡ None }
    ensures place { (n : ℕ) (log : List LogEntry) →
        entry_at (suc n) log ≡ slice_get (reverse log) n }
    ensures next { (entry : LogEntry) (log : List LogEntry) →
        entry_at (suc (length log)) (entry ∷ log) ≡ Some entry }
    ensures kept { (n : ℕ) (entry : LogEntry) (log : List LogEntry) → n ≤ length log →
        entry_at n (entry ∷ log) ≡ entry_at n log }
    ensures before { (n : ℕ) (entry : LogEntry) (log : List LogEntry) → n ≤ length log →
        log_after n (entry ∷ log) ≡ log_after n log }
{}

/// Two clocks with a port each. Port 1 follows a master and locks: it drives clock 0, and then clock
/// 1 copies clock 0.
pub fn a_port_drives_the_other_clock()
    ensures waits { (m : PortId) →
        edges_of 2 m (Uncalibrated ∷ Master ∷ []) (0 ∷ 1 ∷ []) ≡ Some (Port 1 m) ∷ None ∷ [] }
    ensures drives { (m : PortId) →
        edges_of 2 m (Slave ∷ Master ∷ []) (0 ∷ 1 ∷ []) ≡ Some (Port 1 m) ∷ Some (Follow 0) ∷ [] }
    ensures first { (m : PortId) →
        orders_of 1 (None ∷ None ∷ []) (Some (Port 1 m) ∷ None ∷ [])
        ≡ record { clock = 0; gener = 1; ctrl = 1 } ∷ [] }
    ensures second { let m : PortId = record
        { clock = record { id = 0x000a00fffe000001 }; port = 1 } in orders_of 2
        (Some (Port 1 m) ∷ None ∷ []) (Some (Port 1 m) ∷ Some (Follow 0) ∷ [])
        ≡ record { clock = 1; gener = 2; ctrl = 128 } ∷ [] }
    ensures told { (m : PortId) →
        let orders : List RoleOrder = record { clock = 1; gener = 2; ctrl = 128 }
        ∷ record { clock = 0; gener = 1; ctrl = 1 }
        ∷ [] in notice_of 2 1 (Slave ∷ Master ∷ []) (Some (Port 1 m) ∷ Some (Follow 0) ∷ []) orders
        ≡ record { gener = 2; slave = 1; lead = Some (record { gener = 2; source = 0 }) } }
{}

/// The logs of these two clocks: port 1 steps clock 0 by 50,000 ns and locks it, and the follower of
/// clock 1 steps that.
pub fn two_logs_are_lawful()
    ensures port { IsLawful 0
        (record { clock = 1; gener = 2; ctrl = 128 } ∷ record { clock = 0; gener = 1; ctrl = 1 }
        ∷ [])
        (Change 1 1 6500000000 (pos 0) (pos 0) ∷ Change 1 1 5500000000 (pos 50000) (pos 0)
        ∷ Order 1 1 ∷ []) }
    ensures follower { IsLawful 1
        (record { clock = 1; gener = 2; ctrl = 128 } ∷ record { clock = 0; gener = 1; ctrl = 1 }
        ∷ [])
        (Change 2 128 8000000000 (pos 50000) (pos 0) ∷ Order 2 128 ∷ []) }
    ensures stepped { clock_after (record { tick = 0; time = pos 0; freq = pos 0; drift = pos 0 })
        (Change 1 1 6500000000 (pos 0) (pos 0) ∷ Change 1 1 5500000000 (pos 50000) (pos 0)
        ∷ Order 1 1 ∷ [])
        ≡ record { tick = 6500000000; time = pos 6500050000; freq = pos 0; drift = pos 0 } }
{}

/// Port 2 drives clock 1, which clock 0 copies. Port 1, on clock 0, then follows a master in its
/// place, and locks: clock 0 is taken and given in one generation, clock 1 is left to nobody and
/// then copies clock 0.
pub fn roles_change_sides()
    ensures before { (m : PortId) →
        edges_of 2 m (Master ∷ Slave ∷ []) (0 ∷ 1 ∷ []) ≡ Some (Follow 1) ∷ Some (Port 2 m) ∷ [] }
    ensures copies { (m : PortId) →
        ctrls_of (Some (Follow 1) ∷ Some (Port 2 m) ∷ []) ≡ 129 ∷ 2 ∷ [] }
    ensures third { (m other : PortId) →
        orders_of 3 (edges_of 2 m (Master ∷ Slave ∷ []) (0 ∷ 1 ∷ []))
        (edges_of 2 other (Uncalibrated ∷ PreMaster ∷ []) (0 ∷ 1 ∷ []))
        ≡ record { clock = 0; gener = 3; ctrl = 0 } ∷ record { clock = 1; gener = 3; ctrl = 0 }
        ∷ record { clock = 0; gener = 3; ctrl = 1 } ∷ [] }
    ensures fourth { let m : PortId = record
        { clock = record { id = 0x000a00fffe000001 }; port = 1 } in orders_of 4
        (edges_of 2 m (Uncalibrated ∷ PreMaster ∷ []) (0 ∷ 1 ∷ []))
        (edges_of 2 m (Slave ∷ PreMaster ∷ []) (0 ∷ 1 ∷ []))
        ≡ record { clock = 1; gener = 4; ctrl = 128 } ∷ [] }
{}

/// A port gives up its clock in the generation in which another port takes the other clock.
pub fn one_port_takes_over()
    ensures { (m other : PortId) →
        orders_of 2 (edges_of 2 m (Uncalibrated ∷ Master ∷ []) (0 ∷ 1 ∷ []))
        (edges_of 2 other (PreMaster ∷ Uncalibrated ∷ []) (0 ∷ 1 ∷ []))
        ≡ record { clock = 0; gener = 2; ctrl = 0 } ∷ record { clock = 1; gener = 2; ctrl = 2 }
        ∷ [] }
{}

/// A port that falls back from SLAVE to UNCALIBRATED keeps its clock under its old stamp, and the
/// other clock is left to nobody.
pub fn a_port_without_lock_keeps_its_clock()
    ensures orders { let m : PortId = record
        { clock = record { id = 0x000a00fffe000001 }; port = 1 } in orders_of 3
        (edges_of 2 m (Slave ∷ Master ∷ []) (0 ∷ 1 ∷ []))
        (edges_of 2 m (Uncalibrated ∷ Master ∷ []) (0 ∷ 1 ∷ []))
        ≡ record { clock = 1; gener = 3; ctrl = 0 } ∷ [] }
    ensures stamps { let orders : List RoleOrder = record { clock = 1; gener = 3; ctrl = 0 }
        ∷ record { clock = 1; gener = 2; ctrl = 128 } ∷ record { clock = 0; gener = 1; ctrl = 1 }
        ∷ [] in map (λ clock. stamp_of clock orders) (0 ∷ 1 ∷ 2 ∷ [])
        ≡ record { gener = 1; ctrl = 1 } ∷ record { gener = 3; ctrl = 0 }
        ∷ record { gener = 0; ctrl = 0 } ∷ [] }
{}

/// A new parent of the same port takes the clock and gives it again.
pub fn a_new_parent_is_a_new_edge()
    ensures { let m : PortId = record { clock = record { id = 0x000a00fffe000001 }; port = 1 } in
        let other : PortId = record { clock = record { id = 0x000b00fffe000002 }; port = 1 }
        in orders_of 2 (edges_of 1 m (Uncalibrated ∷ []) (0 ∷ []))
        (edges_of 1 other (Uncalibrated ∷ []) (0 ∷ []))
        ≡ record { clock = 0; gener = 2; ctrl = 0 }
        ∷ record { clock = 0; gener = 2; ctrl = 1 } ∷ [] }
{}

/// A follower that still holds a clock under generation 2 is told that generation 3 is in force.
pub fn an_old_holder_is_superseded()
    ensures answer { (tick : ℕ) (step freq : ℤ) →
        IsSuperseded (Order 3 1 ∷ Order 3 0 ∷ Change 2 129 tick step freq ∷ Order 2 129 ∷ [])
        (record { clock = 0; gener = 2; ctrl = 129 }) 3 4 }
    ensures change { (tick : ℕ) (step freq : ℤ) →
        IsChanged (Order 3 1 ∷ Order 3 0 ∷ Change 2 129 tick step freq ∷ Order 2 129 ∷ [])
        (record { clock = 0; gener = 2; ctrl = 129 }) tick step freq 2 }
{}

/// The stamp in force in a log, if it names a controller, was ordered there.
pub fn a_stamp_was_ordered()
    ensures { (log : List LogEntry) → (stamp_after log).ctrl ≢ 0 →
        HasOrder log (stamp_after log).gener (stamp_after log).ctrl }
{}
