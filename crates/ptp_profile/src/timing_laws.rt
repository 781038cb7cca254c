ghost use Rattle.std.specs.Prelude.{◌≡◌, ◌≢◌, ℤ, pos, negsuc, neg_ℤ, ◌+ℤ◌, List, [], ◌∷◌, length, All, IsTrue, IsPermutation, IsSorted, Some, None};
ghost use Rattle.std.specs.Ordering.{int_cmp};
ghost use Rattle.ptp_base.specs.Floor.{ns_of};
ghost use Rattle.model_clock.specs.Clock.{reading, after_change};
ghost use Rattle.ptp_profile.specs.declared.timing.Action.TheVariants.{Unlocked, Jump, Locked};
ghost use Rattle.ptp_profile.specs.declared.timing.ServoConf.{ServoConf};
ghost use Rattle.ptp_profile.specs.Timing.OffsetAndDelay.{Piece, One_step, triple_after, request_answered, delay_sum, delay_of, offset_of, measure_of, mean_of, in_rising_order, median, triple_from, last_triple, with_delay};
ghost use Rattle.ptp_profile.specs.Timing.Servo.{Sample, steer, newest_action, IsGentle, is_held, phase_after, drift_after, last_estimate, gains_since};
ghost use Rattle.ptp_profile.specs.Timing.TimingExamples.{sync, follow_up, example_triple, own_port, other_port, example_request, example_servo, stepping_servo, sample, sample_in, fast_clock, tuned_clock};

/// At each sample there is one action, and none asks for a frequency beyond the limit. With a new
/// generation a servo begins anew.
pub fn steering_is_gentle()
    ensures each { (conf : ServoConf) (samples : List Sample) →
        length (steer conf samples) ≡ length samples }
    ensures gentle { (conf : ServoConf) (samples : List Sample) →
        All (IsGentle conf) (steer conf samples) }
    ensures anew { (conf : ServoConf) (x y : Sample) (before : List Sample) → y.gener ≢ x.gener →
        newest_action conf (x ∷ y ∷ before) ≡ Unlocked }
{}

/// The drift of a run is its last estimate, and the integral parts since then that weren't held;
/// before the first estimate it is the drift that the run began with. A held sample leaves it.
pub fn drift_is_estimated()
    ensures sum { (conf : ServoConf) (freq : ℤ) (samples : List Sample) →
        drift_after conf freq samples
        ≡ last_estimate conf freq samples +ℤ gains_since conf freq samples }
    ensures held { (conf : ServoConf) (freq : ℤ) (x : Sample) (before : List Sample)
        → IsTrue (is_held conf x (phase_after conf before) (drift_after conf freq before))
        → drift_after conf freq (x ∷ before) ≡ drift_after conf freq before }
{}

/// The numbers of which a median is the middle are the given ones, in rising order.
pub fn median_is_of_all()
    ensures same { (xs : List ℤ) → IsPermutation xs (in_rising_order xs) }
    ensures sorted { (xs : List ℤ) → IsSorted int_cmp (in_rising_order xs) }
{}

/// A Follow_Up before its Sync; one that comes after another Sync; one that comes twice; and a
/// one-step Sync.
pub fn examples_are_paired()
    ensures first_alone { triple_after (follow_up 7) [] ≡ None }
    ensures first_paired { triple_after (sync 7) (follow_up 7 ∷ []) ≡ Some example_triple }
    ensures seventh_used { triple_after (follow_up 7) (sync 7 ∷ follow_up 7 ∷ []) ≡ None }
    ensures eighth_alone { triple_after (sync 8) (sync 7 ∷ follow_up 7 ∷ []) ≡ None }
    ensures ninth_alone { triple_after (sync 9) (sync 8 ∷ sync 7 ∷ follow_up 7 ∷ []) ≡ None }
    ensures eighth_lost { triple_after (follow_up 8) (sync 9 ∷ sync 8 ∷ sync 7 ∷ follow_up 7 ∷ [])
        ≡ None }
    ensures seventh_last { last_triple
        (follow_up 8 ∷ sync 8 ∷ sync 7 ∷ follow_up 7 ∷ One_step (pos 1) (pos 2) (pos 0) ∷ [])
        ≡ Some example_triple }
    ensures tenth_alone { triple_after (sync 10) [] ≡ None }
    ensures tenth_paired { triple_after (follow_up 10) (sync 10 ∷ []) ≡ Some example_triple }
    ensures tenth_once { triple_after (follow_up 10) (follow_up 10 ∷ sync 10 ∷ []) ≡ None }
    ensures one_step { (before : List Piece)
        → triple_after (One_step (pos 100) (pos 110) (negsuc 0)) before ≡ Some example_triple }
{}

/// A Delay_Resp answers the request of its own sequence and port, once.
pub fn examples_are_answered()
    ensures other_sequence { request_answered own_port 4 own_port (Some example_request) ≡ None }
    ensures other_port { request_answered own_port 5 other_port (Some example_request) ≡ None }
    ensures own { request_answered own_port 5 own_port (Some example_request)
        ≡ Some example_request }
    ensures again { request_answered own_port 5 own_port None ≡ None }
    ensures delays { let request = request_answered own_port 5 own_port (Some example_request) in
        with_delay (Some example_triple) request (pos 193) (pos 0) [] ≡ pos 98304 ∷ [] }
    ensures without { with_delay None (Some example_request) (pos 193) (pos 0) [] ≡ [] }
{}

/// A delay, an offset, and medians of two and of three.
pub fn examples_are_measured()
    ensures sum { delay_sum example_triple (pos 200) (pos 193) (pos 0) ≡ pos 196609 }
    ensures delay { delay_of example_triple (pos 200) (pos 193) (pos 0) ≡ pos 98304 }
    ensures corrected { delay_of example_triple (pos 200) (pos 193) (pos 3) ≡ pos 98303 }
    ensures offset { offset_of example_triple (pos 98304) ≡ pos 557057 }
    ensures in_ns { ns_of (offset_of example_triple (pos 98304)) ≡ pos 8 }
    ensures below { delay_of (triple_from (pos 0) (pos 0) (pos 1)) (pos 0) (pos 0) (pos 0)
        ≡ negsuc 0 }
    ensures measure { measure_of example_triple (Some (pos 98304))
        ≡ Some (record { offset = pos 557057; delay = pos 98304; local = pos 110 }) }
    ensures no_mean { measure_of example_triple (mean_of 32 []) ≡ None }
    ensures both_above { median (pos 1 ∷ pos 4 ∷ []) ≡ Some (pos 2) }
    ensures both_below { median (negsuc 0 ∷ negsuc 3 ∷ []) ≡ Some (negsuc 2) }
    ensures odd { median (pos 4 ∷ negsuc 0 ∷ pos 9 ∷ []) ≡ Some (pos 4) }
    ensures newest { mean_of 2 (pos 4 ∷ pos 1 ∷ pos 9 ∷ []) ≡ Some (pos 2) }
{}

/// A servo that locks, meets its limit, holds the integral and comes back; and one that is just
/// not, and one that is just far enough to step. The newest samples and actions come first.
pub fn examples_are_steered()
    ensures limited { steer example_servo
        (sample (pos 0) 5 ∷ sample (pos 1000) 4 ∷ sample (pos 1000) 3 ∷ sample (pos 100) 2
        ∷ sample (pos 100) 1 ∷ [])
        ≡ Locked (neg_ℤ (pos 19660800)) ∷ Locked (neg_ℤ (pos 65536000))
        ∷ Locked (neg_ℤ (pos 65536000)) ∷ Locked (pos 0) ∷ Unlocked ∷ [] }
    ensures rounded { steer example_servo
        (sample (pos 0) 4 ∷ sample (negsuc 0) 3 ∷ sample (pos 0) 2 ∷ sample (pos 0) 1 ∷ [])
        ≡ Locked (pos 19661) ∷ Locked (pos 65537) ∷ Locked (pos 0) ∷ Unlocked ∷ [] }
    ensures near { steer example_servo (sample (pos 20000) 2 ∷ sample (pos 20000) 1 ∷ [])
        ≡ Locked (pos 0) ∷ Unlocked ∷ [] }
    ensures far { steer example_servo (sample (pos 20001) 2 ∷ sample (pos 20001) 1 ∷ [])
        ≡ Jump (neg_ℤ (pos 20001)) (pos 0) ∷ Unlocked ∷ [] }
{}

/// A servo that runs, is stepped off, waits for a later local time, and steps as it locks again; and
/// one that begins anew with a generation, at the frequency of the generation's first sample.
pub fn examples_are_steered_anew()
    ensures stepped { steer (stepping_servo 5000)
        (sample (pos 6000) 6 ∷ sample (pos 6000) 5 ∷ sample (pos 6000) 4 ∷ sample (pos 6000) 4
        ∷ sample (pos 6000) 3 ∷ sample (pos 0) 2 ∷ sample (pos 0) 1 ∷ [])
        ≡ Jump (neg_ℤ (pos 6000)) (pos 0) ∷ Unlocked ∷ Unlocked ∷ Unlocked ∷ Unlocked
        ∷ Locked (pos 0) ∷ Unlocked ∷ [] }
    ensures first_step_once { steer (stepping_servo 30000)
        (sample (pos 20001) 5 ∷ sample (pos 20001) 4 ∷ sample (pos 30001) 3 ∷ sample (pos 0) 2
        ∷ sample (pos 0) 1 ∷ [])
        ≡ Locked (pos 0) ∷ Unlocked ∷ Unlocked ∷ Locked (pos 0) ∷ Unlocked ∷ [] }
    ensures generations { let opened = neg_ℤ (pos 6553600) in steer example_servo
        (sample_in 2 (pos 5) (pos 100) 4 ∷ sample_in 2 opened (pos 0) 3 ∷ sample (pos 100) 2
        ∷ sample (pos 0) 1 ∷ [])
        ≡ Locked (neg_ℤ (pos 13107199)) ∷ Unlocked ∷ Locked (neg_ℤ (pos 6553600)) ∷ Unlocked
        ∷ [] }
{}

/// A clock that is 1,000 ppb fast, and is stepped back and slowed down at 1 s.
pub fn examples_are_clocked()
    ensures fast { reading fast_clock 1000000000 ≡ pos 1000001000 }
    ensures changed_then { reading tuned_clock 1000000000 ≡ pos 1000000000 }
    ensures earlier { reading tuned_clock 500000000 ≡ pos 1000000000 }
    ensures later { reading tuned_clock 2000000000 ≡ pos 2000000000 }
    ensures emptied { (after_change fast_clock 1000000000 (neg_ℤ (pos 8589934591999999999)) (pos 0)).time
        ≡ pos 0 }
{}
