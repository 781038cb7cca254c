//! Numbers of scenario 1, which a script with whole numbers of any size gave.

ghost use Rattle.std.specs.Prelude.{◌≡◌, [], ◌∷◌, drop, length, map, negsuc, pos, take};
ghost use Rattle.bc_history.specs.Scenario.Defaults.{default_options};
ghost use Rattle.bc_gen.specs.declared.records.TheConstants.{OWN_CLOCK};
ghost use Rattle.bc_gen.specs.MadeScenario.{made_scenario};
ghost use Rattle.bc_gen.specs.MadeNumbers.{drawn, made_delay, made_drift, number};

/// The first numbers, what they give, and the drifts and delays that come of them.
pub fn the_first_scenario_is_drawn()
    ensures first { number 1 1 ≡ 7806831264735756412 }
    ensures later { number 1 17 ≡ 7831313575529992652 }
    ensures upper { map (drawn 1) (1 ∷ 2 ∷ 16 ∷ 17 ∷ []) ≡ 27735 ∷ 33384 ∷ 49146 ∷ 27822 ∷ [] }
    ensures drifts { map (made_drift 1) (0 ∷ 1 ∷ 15 ∷ [])
        ≡ negsuc 2265 ∷ pos 3383 ∷ negsuc 855 ∷ [] }
    ensures delays { made_delay 1 0 ≡ 1322 }
{}

/// The clock that the Delay_Resps answer is this one: a made text does not name its identity.
pub fn the_own_clock_is_the_default()
    ensures { default_options.clock_identity ≡ record { id = OWN_CLOCK } }
{}

/// What the first scenario has: its clocks' drifts, its ports' clocks and its first record's tick.
pub fn the_first_scenario_is_told()
    ensures counts { length (made_scenario 1).records ≡ 1408 }
    ensures drifts { map (λ c. c.drift) (take 2 (made_scenario 1).clocks)
        ≡ negsuc 148504575 ∷ pos 221708288 ∷ [] }
    ensures ports { map (λ p. p.clock) (drop 14 (made_scenario 1).ports)
        ≡ 14 ∷ 15 ∷ 0 ∷ 1 ∷ 2 ∷ 3 ∷ 4 ∷ 5 ∷ 6 ∷ 7 ∷ 8 ∷ 9 ∷ 10 ∷ 11 ∷ 12 ∷ 13 ∷ 14 ∷ 15 ∷ [] }
    ensures ticks { map (λ r. r.tick) (take 3 (made_scenario 1).records)
        ≡ 100000000 ∷ 2100000000 ∷ 2300000000 ∷ [] }
    ensures duration { (made_scenario 1).options.duration ≡ 640000000000 }
{}
