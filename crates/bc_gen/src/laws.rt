//! What is so of the records of each master, and of the texts.

ghost use Rattle.std.specs.Prelude.{◌≡◌, ℕ, ◌+◌, ◌<◌, ◌≤◌, ◌^◌, All, map, length};
ghost use Rattle.std.specs.List.{filter, range_with_len};
ghost use Rattle.std.specs.List.Sorted.{IsStrictlyIncreasing};
ghost use Rattle.ptp_base.specs.declared.limits.TheConstants.{TEXT_MAX};
ghost use Rattle.bc_history.specs.Scenario.LineFaults.{Stands};
ghost use Rattle.bc_gen.specs.MadeScenario.{made_scenario};
ghost use Rattle.bc_gen.specs.MadeText.{made_text};
ghost use Rattle.bc_gen.specs.declared.records.MadeRecord.{MadeRecord};
ghost use Rattle.bc_gen.specs.MadeRecords.{announce, beginning, delay_resp, is_of_type, records_of, sync, ticks};

/// The records of a master are its ten Announces, its eighteen Syncs and its sixteen Delay_Resps,
/// each kind in its order, and no others.
pub fn records_are_of_three_types()
    ensures announces { (e delay : ℕ) → filter (is_of_type 11) (records_of e delay)
        ≡ map (announce e) (range_with_len 0 10) }
    ensures syncs { (e delay : ℕ) → filter (is_of_type 0) (records_of e delay)
        ≡ map (sync e delay) (range_with_len 0 18) }
    ensures delay_resps { (e delay : ℕ) → filter (is_of_type 9) (records_of e delay)
        ≡ map (delay_resp e delay) (range_with_len 0 16) }
    ensures others { (e delay : ℕ) → length (records_of e delay) ≡ 10 + 18 + 16 }
{}

/// The ticks of a master's records rise, from its beginning on, and end before the next master
/// begins.
pub fn records_rise()
    ensures rising { (e delay : ℕ) → IsStrictlyIncreasing (ticks (records_of e delay)) }
    ensures within { (e delay : ℕ) → All (λ (t : ℕ). (beginning e ≤ t) × (t < beginning (e + 1)))
        (ticks (records_of e delay)) }
{}

/// Each made text stands for its scenario, and is short enough to be read: no line of it is faulty.
pub fn texts_stand_for_scenarios()
    ensures stands { (n : ℕ) → n < 2 ^ 32 → Stands (made_text n) (made_scenario n) }
    ensures short { (n : ℕ) → n < 2 ^ 32 → length (made_text n) ≤ TEXT_MAX }
{}
