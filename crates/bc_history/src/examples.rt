ghost use Rattle.std.specs.Prelude.{◌≡◌, ◌∷◌, [], Some, None, option_map, pos, ◌++◌, codes, drop, flat_map, length, map, take};
ghost use Rattle.hex.specs.Hex.{encode_lower};
ghost use Rattle.ptp_management.specs.ManagementMessages.{managed_read};
ghost use Rattle.ptp_management.specs.declared.managed.Action.TheVariants.{Response};
ghost use Rattle.ptp_management.specs.declared.query.AskError.TheVariants.{Target, Unknown};
ghost use Rattle.ptp_management.specs.declared.managed.Tlv.TheVariants.{Error};
ghost use Rattle.bc_history.specs.declared.entry.Effects.{Effects};
ghost use Rattle.bc_history.specs.Run.Transcript.{entry_text};
ghost use Rattle.bc_history.specs.Run.History.{IsFinished};
ghost use Rattle.bc_history.specs.Run.NextInputs.{IsDue};
ghost use Rattle.bc_history.specs.Phases.Step.{state_of};
ghost use Rattle.bc_history.specs.declared.entry.Input.TheVariants.{Sampled, Timed};
ghost use Rattle.bc_history.specs.declared.entry.Outcome.{Outcome};
ghost use Rattle.bc_history.specs.declared.entry.Seen.{Seen};
ghost use Rattle.ptp_profile.specs.declared.port_event.Timer.TheVariants.{AnnounceReceipt};
ghost use Rattle.ptp_profile.specs.declared.timing.Action.{Action};
ghost use Rattle.bc_history.specs.Run.World.{Ended, Finished, status_after};
ghost use Rattle.bc_history.specs.Scenario.Defaults.{silent};
ghost use Rattle.bc_history.specs.Run.RunExamples.{two_masters, realistic, on_one_clock, handover, unsubscribed, two_rows, one_port, frame_at, announce_frame, hears_twice, two_masters_heard, worse_heard, summary_after, ending_after, moves_after, at, reports_after, move, order, sent_first, lengths_after, first_sync, first_follow_up, goes_down, fates_after, syncs_alone, responds_twice, entries_after, history_before, queried, query_effects, answers_to_query, port_answer, priority_hex};
ghost use Rattle.bc_history.specs.declared.entry.Outcome.TheVariants.{Unlocked, Changed, Superseded, Spent};
ghost use Rattle.ptp_base.specs.declared.port_state.PortState.TheVariants.{Listening, Faulty, PreMaster, Master, Passive, Uncalibrated, Slave};
ghost use Rattle.ptp_profile.specs.declared.port_event.Fate.TheVariants.{Kept, Paired, Matched, Unmatched};
ghost use Rattle.ptp_profile.specs.declared.seats.LogEntry.TheVariants.{Order, Change};

/// Two ports that hear nothing for six seconds become masters, the first port first.
pub fn silent_ports()
    ensures { status_after (silent 6 2) 3 ≡ Ended (Finished two_masters) }
{}

/// A port that hears a master follows it, steps its clock and locks; the other clock's follower
/// copies it.
pub fn follows_a_master()
    ensures { summary_after realistic 60
        ≡ Some
        (record {
          entries = 39;
          moves = move 6 3000000000 1 Listening Uncalibrated
              ∷ move 23 6000000000 2 Listening Master
              ∷ move 27 6500000000 1 Uncalibrated Slave ∷ [];
          orders = order 0 1 1 ∷ order 1 2 128 ∷ [];
          logs =
              (Order 1 1 ∷ Change 1 1 5500000000 (pos 50000) (pos 0)
              ∷ Change 1 1 6500000000 (pos 0) (pos 0) ∷ [])
              ∷ (Order 2 128 ∷ Change 2 128 8000000000 (pos 50000) (pos 0) ∷ []) ∷ [];
        }) }
{}

/// With both ports on one clock nobody copies it.
pub fn follows_on_one_clock()
    ensures { ending_after on_one_clock 60
        ≡ Some
        (record {
          entries = 21;
          logs =
              (Order 1 1 ∷ Change 1 1 5500000000 (pos 50000) (pos 0)
              ∷ Change 1 1 6500000000 (pos 0) (pos 0) ∷ [])
              ∷ [];
        }) }
{}

/// A clock whose log is full is not changed, and its port does not lock.
pub fn log_is_full()
    ensures one { reports_after (two_rows on_one_clock) 60
        ≡ Some (Unlocked ∷ Changed 2 ∷ Spent 2 ∷ []) }
    ensures two { option_map (λ s. s.entries) (summary_after (two_rows realistic) 60) ≡ Some 37 }
{}

/// A port that is superseded between its measure and its exchange changes nothing.
pub fn handed_over()
    ensures reports { reports_after handover 40 ≡ Some (Unlocked ∷ Superseded 2 2 ∷ []) }
    ensures logs { ending_after handover 40
        ≡ Some
        (record {
          entries = 23;
          logs = (Order 1 1 ∷ Order 2 0 ∷ []) ∷ (Order 2 2 ∷ []) ∷ [];
        }) }
{}

/// A follower whose subscription ended is told of no new generation.
pub fn told_too_late()
    ensures { ending_after unsubscribed 60
        ≡ Some
        (record {
          entries = 37;
          logs =
              (Order 1 1 ∷ Change 1 1 5500000000 (pos 50000) (pos 0)
              ∷ Change 1 1 6500000000 (pos 0) (pos 0) ∷ [])
              ∷ (Order 2 128 ∷ []) ∷ [];
        }) }
{}

/// A master counts from its second Announce within four announce intervals.
pub fn two_announces_qualify()
    ensures one { (moves_after (one_port 9000000000 (frame_at 1 1000000000 (announce_frame 0)
        ∷ [])) 40)
        ≡ Some (at 6000000000 1 Listening Master ∷ []) }
    ensures late { (moves_after
        (one_port 9000000000
        (frame_at 1 1000000000 (announce_frame 0)
        ∷ frame_at 1 9000000000 (announce_frame 1) ∷ []))
        40)
        ≡ Some (at 6000000000 1 Listening Master ∷ []) }
    ensures early { (moves_after
        (one_port 9000000000
        (frame_at 1 1000000000 (announce_frame 0)
        ∷ frame_at 1 8999999999 (announce_frame 1) ∷ []))
        40)
        ≡ Some (at 6000000000 1 Listening Master ∷ at 8999999999 1 Master Uncalibrated ∷ []) }
{}

/// A clock of class 1 to 127 never follows: it is passive beside a better one, until that is silent.
pub fn class_decides()
    ensures passive { moves_after (hears_twice 127 9000000000) 40
        ≡ Some (at 3000000000 1 Listening Passive ∷ at 9000000000 1 Passive Master ∷ []) }
    ensures follows { moves_after (hears_twice 128 4000000000) 40
        ≡ Some (at 3000000000 1 Listening Uncalibrated ∷ []) }
    ensures ordered { ending_after (hears_twice 128 4000000000) 40
        ≡ Some (record { entries = 3; logs = (Order 1 1 ∷ []) ∷ [] }) }
{}

/// A port that hears a worse clock than another port becomes master after a time for each step.
pub fn qualification_waits()
    ensures steps { moves_after two_masters_heard 80
        ≡ Some
        (at 3000000000 1 Listening Uncalibrated ∷ at 5200000000 2 Listening PreMaster
        ∷ at 11200000000 2 PreMaster Master ∷ []) }
    ensures none { moves_after worse_heard 40
        ≡ Some (at 3000000000 1 Listening PreMaster ∷ at 3000000000 1 PreMaster Master ∷ []) }
{}

/// A master sends a Sync and its Follow_Up each second and an Announce each two seconds; a port whose
/// link is down sends nothing.
pub fn master_sends()
    ensures octets { sent_first 2 (one_port 8000000000 []) 20
        ≡ Some
        (record { port = 1; octets = first_sync }
        ∷ record { port = 1; octets = first_follow_up } ∷ []) }
    ensures lengths { lengths_after (one_port 8000000000 []) 20
        ≡ Some (44 ∷ 44 ∷ 64 ∷ 44 ∷ 44 ∷ []) }
    ensures moves { moves_after goes_down 20
        ≡ Some (at 6000000000 1 Listening Master ∷ at 6500000000 1 Master Faulty ∷ []) }
    ensures silent { lengths_after goes_down 20 ≡ Some [] }
{}

/// Syncs of the parent pair by themselves; a request is answered once.
pub fn frames_pair()
    ensures syncs { fates_after syncs_alone 60
        ≡ Some (Kept ∷ Kept ∷ Paired ∷ Paired ∷ Kept ∷ Paired ∷ Paired ∷ Kept ∷ []) }
    ensures responses { fates_after responds_twice 60
        ≡ Some (Kept ∷ Kept ∷ Matched ∷ Unmatched ∷ []) }
{}

/// After the run of two silent ports nothing is due, nor after that of a port that follows a master
/// and a clock that copies it. Before its last entry that entry's input is due.
pub fn runs_are_finished()
    ensures silent { IsFinished (silent 6 2) (history_before 0 (silent 6 2) 3) }
    ensures second { IsDue (silent 6 2) (state_of (silent 6 2) (history_before 1 (silent 6 2) 3))
        (Timed 2 6000000000 AnnounceReceipt) }
    ensures copied { IsFinished realistic (history_before 0 realistic 60) }
    ensures sampled { (theirs own : Seen) (action : Action) (outcome : Outcome)
        → IsDue realistic (state_of realistic (history_before 1 realistic 60))
        (Sampled 1 8000000000 (record { gener = 2; source = 0 }) theirs own action outcome) }
{}

/// Two masters that are asked at once. A query that makes no request says why; each other request has
/// the number of those before it as its sequence, and as many answers as it asks ports that are
/// there. Nothing is set.
pub fn queries_are_answered()
    ensures entries { length (entries_after queried 9) ≡ 8 }
    ensures asked { map (λ (f : Effects). f.asked) query_effects
        ≡ None ∷ None ∷ None ∷ Some Unknown ∷ None ∷ Some Target ∷ [] }
    ensures value { map encode_lower (answers_to_query 0) ≡ priority_hex ∷ [] }
    ensures ports { map port_answer (answers_to_query 1)
        ≡ Some (record { port = 1; seq = 1; state = 6 })
        ∷ Some (record { port = 2; seq = 1; state = 6 }) ∷ [] }
    ensures absent { answers_to_query 2 ≡ [] }
    ensures unsupported { map (managed_read 0) (answers_to_query 4) ≡ Some (record {
      sender = record { clock = record { id = 0x020000fffe000001 }; port = 0 };
      target = record { clock = record { id = 0 }; port = 1 };
      seq = 3;
      action = Response;
      tlv = Error 6 0x2005;
    }) ∷ [] }
    ensures text { flat_map (entry_text 3) (take 1 (drop 2 (entries_after queried 9)))
        ≡ codes "event 3 6000000000 query 6000000000 GET PRIORITY1\n  answer " ++ priority_hex
        ++ codes "\n    020000.fffe.000001-0 seq 0 RESPONSE MANAGEMENT PRIORITY1\n"
        ++ codes "    priority1 128\n" }
{}
