ghost use Rattle.std.specs.Prelude.{◌≡◌, [], ◌∷◌, Some, None, true, map};
ghost use Rattle.ptp_base.specs.declared.code.Code.TheVariants.{Stay, M1, M2, M3, P1, P2, S1};
ghost use Rattle.ptp_base.specs.declared.port_state.PortState.TheVariants.{Faulty, Disabled, Initializing, Listening, PreMaster, Master, Passive, Uncalibrated, Slave};
ghost use Rattle.ptp_profile.specs.declared.foreign_master.Heard.TheVariants.{Own, Far, Alternate, Crowded, Kept};
ghost use Rattle.ptp_profile.specs.declared.port_event.Fate.TheVariants.{Own as Fate_own, Far as Fate_far, Alternate as Fate_alternate, Crowded as Fate_crowded, Kept as Fate_kept};
ghost use Rattle.ptp_profile.specs.declared.comparison.Order.TheVariants.{ABetter, ATopo, BBetter, BTopo, Same};
ghost use Rattle.ptp_profile.specs.Best.Comparison.{order_of};
ghost use Rattle.ptp_profile.specs.Best.ForeignMasters.{hearing_of, fate_of_hearing, qualified, erbest, ebest};
ghost use Rattle.ptp_profile.specs.Port.PortTimers.{window_of};
ghost use Rattle.ptp_profile.specs.Best.StateDecision.{codes_of};
ghost use Rattle.ptp_profile.specs.Best.BestLaws.{BestWins, BestIsMember, NoBestOfNone, QualifiedAreCoherent, BestsAreCoherent};
ghost use Rattle.ptp_profile.specs.Best.BestLaws.{SendersRise, SendersAreThose, QualifiedRise, QualifiedAreRecords, OneFollows, FollowerIsNamed, FollowerHearsBest};
ghost use Rattle.ptp_profile.specs.Best.BestExamples.{port_id, quality, own_clock, own_of_class, own_default, default_port, master_clock, from_master, window, kept_at, kept_twice, from_clock, kept_of, of_steps};
ghost use Rattle.ptp_profile.specs.Best.BestExamples.{claimed, by_ends, path, first_claim, second_claim, third_claim, silent, hearing, preferred, hears_relayed, heard_twice, from_second_master};

/// In a coherent set the best announcement wins against every other one. Of every set the best is
/// a member, and only an empty set has no best.
pub fn best_wins()
    ensures coherent { BestWins }
    ensures member { BestIsMember }
    ensures none { NoBestOfNone }
{}

/// The announcements of one port, and the best of all ports, are coherent sets as soon as they
/// agree on the quality of each grandmaster.
pub fn coherent_sets()
    ensures port { QualifiedAreCoherent }
    ensures ports { BestsAreCoherent }
{}

/// The qualified set holds the records of the senders of the kept Announces, each sender's once,
/// in rising identity.
pub fn qualified_set()
    ensures rise { SendersRise }
    ensures those { SendersAreThose }
    ensures order { QualifiedRise }
    ensures records { QualifiedAreRecords }
{}

/// At most one port has the code S1: the one on which the best announcement was received.
pub fn one_follows()
    ensures one { OneFollows }
    ensures named { FollowerIsNamed }
    ensures hears { FollowerHearsBest }
{}

/// Of two grandmasters the first attribute that differs decides, whatever the later ones are.
pub fn masters_compared()
    ensures priority1 { order_of (claimed 9 (quality 1 9 9 9 9)) (claimed 1 (quality 2 1 1 1 1))
        ≡ ABetter }
    ensures priority1_back { order_of (claimed 1 (quality 2 1 1 1 1))
        (claimed 9 (quality 1 9 9 9 9))
        ≡ BBetter }
    ensures class { order_of (claimed 9 (quality 5 1 9 9 9)) (claimed 1 (quality 5 2 1 1 1))
        ≡ ABetter }
    ensures class_back { order_of (claimed 1 (quality 5 2 1 1 1)) (claimed 9 (quality 5 1 9 9 9))
        ≡ BBetter }
    ensures accuracy { order_of (claimed 9 (quality 5 5 1 9 9)) (claimed 1 (quality 5 5 2 1 1))
        ≡ ABetter }
    ensures accuracy_back { order_of (claimed 1 (quality 5 5 2 1 1))
        (claimed 9 (quality 5 5 1 9 9))
        ≡ BBetter }
    ensures variance { order_of (claimed 9 (quality 5 5 5 1 9)) (claimed 1 (quality 5 5 5 2 1))
        ≡ ABetter }
    ensures variance_back { order_of (claimed 1 (quality 5 5 5 2 1))
        (claimed 9 (quality 5 5 5 1 9))
        ≡ BBetter }
    ensures priority2 { order_of (claimed 9 (quality 5 5 5 5 1)) (claimed 1 (quality 5 5 5 5 2))
        ≡ ABetter }
    ensures priority2_back { order_of (claimed 1 (quality 5 5 5 5 2))
        (claimed 9 (quality 5 5 5 5 1))
        ≡ BBetter }
    ensures identity { order_of (of_steps 9 (claimed 1 (quality 5 5 5 5 5)))
        (claimed 2 (quality 5 5 5 5 5))
        ≡ ABetter }
    ensures identity_back { order_of (claimed 2 (quality 5 5 5 5 5))
        (of_steps 9 (claimed 1 (quality 5 5 5 5 5)))
        ≡ BBetter }
{}

/// Of two paths to one grandmaster fewer steps are better, then the ends decide. Where the steps
/// differ by one, the receiver and the sender of the longer path say whether topology alone does.
pub fn paths_compared()
    ensures two_less { order_of (path 3 (port_id 9 1) (port_id 5 1))
        (path 5 (port_id 1 1) (port_id 5 1))
        ≡ ABetter }
    ensures two_more { order_of (path 5 (port_id 1 1) (port_id 5 1))
        (path 3 (port_id 9 1) (port_id 5 1))
        ≡ BBetter }
    ensures one_less_below { order_of (path 3 (port_id 1 1) (port_id 5 1))
        (path 4 (port_id 9 1) (port_id 5 1))
        ≡ ABetter }
    ensures one_more_below { order_of (path 4 (port_id 9 1) (port_id 5 1))
        (path 3 (port_id 1 1) (port_id 5 1))
        ≡ BBetter }
    ensures one_less_above { order_of (path 3 (port_id 9 1) (port_id 5 1))
        (path 4 (port_id 1 1) (port_id 5 1))
        ≡ ATopo }
    ensures one_more_above { order_of (path 4 (port_id 1 1) (port_id 5 1))
        (path 3 (port_id 9 1) (port_id 5 1))
        ≡ BTopo }
    ensures one_less_equal { order_of (path 3 (port_id 1 1) (port_id 5 1))
        (path 4 (port_id 5 1) (port_id 5 1))
        ≡ Same }
    ensures one_more_equal { order_of (path 4 (port_id 5 1) (port_id 5 1))
        (path 3 (port_id 1 1) (port_id 5 1))
        ≡ Same }
    ensures one_less_port { order_of (path 3 (port_id 9 1) (port_id 5 1))
        (path 4 (port_id 5 2) (port_id 5 1))
        ≡ ABetter }
    ensures sender { order_of (by_ends (port_id 1 9) (port_id 5 2) from_master)
        (by_ends (port_id 2 1) (port_id 5 1) from_master)
        ≡ ATopo }
    ensures sender_back { order_of (by_ends (port_id 2 1) (port_id 5 1) from_master)
        (by_ends (port_id 1 9) (port_id 5 2) from_master)
        ≡ BTopo }
    ensures sender_port { order_of (by_ends (port_id 1 1) (port_id 5 2) from_master)
        (by_ends (port_id 1 2) (port_id 5 1) from_master)
        ≡ ATopo }
    ensures receiver { order_of (by_ends (port_id 1 1) (port_id 5 1) from_master)
        (by_ends (port_id 1 1) (port_id 5 2) from_master)
        ≡ ATopo }
    ensures receiver_back { order_of (by_ends (port_id 1 1) (port_id 5 2) from_master)
        (by_ends (port_id 1 1) (port_id 5 1) from_master)
        ≡ BTopo }
    ensures receiver_number { order_of (by_ends (port_id 1 1) (port_id 4 2) from_master)
        (by_ends (port_id 1 1) (port_id 5 1) from_master)
        ≡ BTopo }
    ensures same { order_of from_master from_master ≡ Same }
{}

/// Three announcements each of which wins against one of the others: the winner of a pass goes by
/// the order of their senders. A later one that is the same in the comparison replaces nothing.
pub fn pass_in_order()
    ensures first_second { order_of (first_claim 1) (second_claim 2) ≡ ABetter }
    ensures second_third { order_of (second_claim 2) (third_claim 3) ≡ ABetter }
    ensures first_third { order_of (first_claim 1) (third_claim 3) ≡ BBetter }
    ensures third_wins { erbest window 3000000000
        (kept_twice (third_claim 3 ∷ first_claim 1 ∷ second_claim 2 ∷ []))
        ≡ Some (third_claim 3) }
    ensures first_wins { erbest window 3000000000
        (kept_twice (first_claim 3 ∷ third_claim 2 ∷ second_claim 1 ∷ []))
        ≡ Some (first_claim 3) }
    ensures second_wins { erbest window 3000000000
        (kept_twice (first_claim 2 ∷ second_claim 3 ∷ third_claim 1 ∷ []))
        ≡ Some (second_claim 3) }
    ensures first_stays { ebest
        (Some (path 4 (port_id 5 1) (port_id 5 1)) ∷ Some (path 3 (port_id 1 1) (port_id 5 1)) ∷ [])
        ≡ Some (path 4 (port_id 5 1) (port_id 5 1)) }
    ensures by_port { ebest
        (Some (second_claim 1) ∷ None ∷ Some (third_claim 2) ∷ Some (first_claim 3) ∷ [])
        ≡ Some (first_claim 3) }
{}

/// A sender's first Announce doesn't qualify it, its second does while both are in the window. The
/// record is the latest one.
pub fn two_qualify()
    ensures window { window_of default_port ≡ window }
    ensures one { qualified window 1000000000 (kept_at 1000000000 from_master ∷ []) ≡ [] }
    ensures two { qualified window 3000000000
        (kept_at 3000000000 from_master ∷ kept_at 1000000000 from_master ∷ [])
        ≡ from_master ∷ [] }
    ensures at_once { qualified window 1000000000
        (kept_at 1000000000 from_master ∷ kept_at 1000000000 from_master ∷ [])
        ≡ from_master ∷ [] }
    ensures window_is_over { qualified window 9000000000
        (kept_at 9000000000 from_master ∷ kept_at 1000000000 from_master ∷ [])
        ≡ [] }
    ensures window_ends { qualified window 8999999999
        (kept_at 8999999999 from_master ∷ kept_at 1000000000 from_master ∷ [])
        ≡ from_master ∷ [] }
    ensures not_yet { qualified window 2999999999
        (kept_at 3000000000 from_master ∷ kept_at 1000000000 from_master ∷ [])
        ≡ [] }
    ensures latest { qualified window 3000000000
        (kept_at 3000000000 (of_steps 7 from_master) ∷ kept_at 1000000000 from_master ∷ [])
        ≡ of_steps 7 from_master ∷ [] }
    ensures two_senders { qualified window 3000000000
        (kept_at 3000000000 from_master ∷ kept_at 1000000000 (from_clock 1 from_master) ∷ [])
        ≡ [] }
    ensures other_port { qualified window 3000000000
        (kept_at 3000000000 from_master
        ∷ kept_at 1000000000
        (by_ends (port_id master_clock 2) (port_id own_clock 1) from_master)
        ∷ [])
        ≡ [] }
    ensures no_best { erbest window 1000000000 (kept_at 1000000000 from_master ∷ []) ≡ None }
{}

/// What becomes of an Announce, by its fields and by the senders in the window.
pub fn announces_heard()
    ensures own { hearing_of window 1000000000 []
        (by_ends (port_id own_clock 2) (port_id own_clock 1) from_master)
        ≡ Own }
    ensures own_first { hearing_of window 1000000000 []
        (by_ends (port_id own_clock 2) (port_id own_clock 1) (of_steps 255 from_master))
        ≡ Own }
    ensures far { hearing_of window 1000000000 [] (of_steps 255 from_master) ≡ Far }
    ensures far_first { hearing_of window 1000000000 []
        (record (of_steps 256 from_master) { alternate = true })
        ≡ Far }
    ensures near { hearing_of window 1000000000 [] (of_steps 254 from_master) ≡ Kept }
    ensures alternate { hearing_of window 1000000000 []
        (record from_master { alternate = true })
        ≡ Alternate }
    ensures alternate_first { hearing_of window 1000000000
        (kept_of 16) (record from_master { alternate = true })
        ≡ Alternate }
    ensures crowded { hearing_of window 1000000000 (kept_of 16) from_master ≡ Crowded }
    ensures fifteen { hearing_of window 1000000000 (kept_of 15) from_master ≡ Kept }
    ensures known { hearing_of window 1000000000 (kept_of 16) (from_clock 16 from_master) ≡ Kept }
    ensures crowded_still { hearing_of window 8999999999 (kept_of 16) from_master ≡ Crowded }
    ensures window_is_over { hearing_of window 9000000000 (kept_of 16) from_master ≡ Kept }
    ensures fates { map fate_of_hearing (Own ∷ Far ∷ Alternate ∷ Crowded ∷ Kept ∷ [])
        ≡ Fate_own ∷ Fate_far ∷ Fate_alternate ∷ Fate_crowded ∷ Fate_kept ∷ [] }
{}

/// The codes of two ports that hear one grandmaster, and of ports that decide nothing.
pub fn ports_decided()
    ensures by_sender { codes_of own_default
        (hears_relayed 1 (port_id master_clock 1) 1 ∷ hears_relayed 1 (port_id master_clock 2) 2
        ∷ [])
        ≡ S1 ∷ P2 ∷ [] }
    ensures by_topology { codes_of own_default
        (hears_relayed 1 (port_id master_clock 1) 1
        ∷ hears_relayed 2 (port_id 0x000a00fffe000009 1) 2 ∷ [])
        ≡ S1 ∷ P2 ∷ [] }
    ensures by_steps { codes_of own_default
        (hears_relayed 1 (port_id master_clock 1) 1
        ∷ hears_relayed 2 (port_id 0xff0000fffe000009 1) 2 ∷ [])
        ≡ S1 ∷ M3 ∷ [] }
    ensures hears_nothing { codes_of own_default
        (silent Master ∷ hears_relayed 1 (port_id master_clock 1) 2 ∷ silent Listening ∷ [])
        ≡ M3 ∷ S1 ∷ Stay ∷ [] }
    ensures stays { codes_of own_default
        (hearing Faulty from_master ∷ hearing Disabled from_master
        ∷ hearing Initializing from_master ∷ silent Listening ∷ [])
        ≡ Stay ∷ Stay ∷ Stay ∷ Stay ∷ [] }
    ensures alone { codes_of own_default
        (silent PreMaster ∷ silent Master ∷ silent Passive ∷ silent Uncalibrated ∷ silent Slave
        ∷ silent Listening ∷ [])
        ≡ M2 ∷ M2 ∷ M2 ∷ M2 ∷ M2 ∷ Stay ∷ [] }
    ensures worse_master { codes_of own_default
        (hears_relayed 1 (port_id master_clock 1) 1 ∷ hearing Listening from_second_master ∷ [])
        ≡ S1 ∷ M3 ∷ [] }
    ensures is_best { codes_of own_default
        (silent Listening ∷ hearing Listening from_second_master ∷ [])
        ≡ Stay ∷ M2 ∷ [] }
{}

/// A clock of class 1 to 127 never has S1: its port is passive where it hears a better clock.
pub fn class_decides()
    ensures above { codes_of (own_of_class 128) (hearing Listening preferred ∷ []) ≡ S1 ∷ [] }
    ensures most { codes_of (own_of_class 127) (hearing Listening preferred ∷ []) ≡ P1 ∷ [] }
    ensures least { codes_of (own_of_class 1) (hearing Listening preferred ∷ []) ≡ P1 ∷ [] }
    ensures below { codes_of (own_of_class 0) (hearing Listening preferred ∷ []) ≡ S1 ∷ [] }
    ensures heard { codes_of (own_of_class 127) (heard_twice preferred ∷ []) ≡ P1 ∷ [] }
    ensures heard_above { codes_of (own_of_class 128) (heard_twice preferred ∷ []) ≡ S1 ∷ [] }
    ensures better { codes_of (own_of_class 5)
        (hearing Listening from_master ∷ silent Master ∷ silent Listening ∷ [])
        ≡ M1 ∷ M1 ∷ Stay ∷ [] }
    ensures by_port { codes_of (own_of_class 127)
        (hearing Listening preferred ∷ silent Master ∷ [])
        ≡ P1 ∷ M1 ∷ [] }
{}
