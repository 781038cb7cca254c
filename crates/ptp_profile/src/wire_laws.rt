ghost use Rattle.std.specs.Prelude.{◌≡◌, ◌↔◌, ℕ, List, [], ◌∷◌, ◌++◌, take, replicate, slice_set, Ok, Err, is_ok, IsTrue};
ghost use Rattle.ptp_profile.specs.declared.message.Reject.TheVariants.{Short, Version, Domain, Type_, Length, Nanos, TimeRange};
ghost use Rattle.ptp_profile.specs.declared.message.Message.{Message};
ghost use Rattle.ptp_profile.specs.Wire.MessageFormat.{Reads, message_octets, IsSpelled, SameRead, decode_result};
ghost use Rattle.ptp_profile.specs.Wire.MessageRanges.{IsMessage, FitsPort, FitsSaid, FitsBody};
ghost use Rattle.ptp_profile.specs.Wire.WireExamples.{with_octets, announce, announce_octets, sync, sync_octets, delay_resp, delay_resp_octets, follow_up, follow_up_octets};

use crate::message::{Body, Message, Said};
use ptp_base::PortId;

/// What was written is read again, whatever stands behind it, and no two messages have one spelling.
pub fn one_spelling()
    ensures again { (m : Message) (rest : List ℕ) → IsMessage m →
        Reads (message_octets m ++ rest) m.domain m }
    ensures apart { (m n : Message) → IsMessage m → IsMessage n →
        message_octets m ≡ message_octets n → m ≡ n }
{}

/// A port identity in memory holds numbers that fit into its ten octets.
pub fn port_numbers_fit(p: &PortId)
    ensures { FitsPort p.now }
{
    let _id = p.clock.id;
    let _port = p.port;
}

fn said_fits(s: &Said)
    ensures { FitsSaid s.now }
{
    let _id = s.grandmaster.id;
    let _variance = s.quality.variance;
    let _steps = s.steps;
    let _utc_offset = s.utc_offset;
}

fn body_fits(body: &Body)
    ensures { FitsBody body.now }
{
    match body {
        Body::Sync { .. } | Body::DelayReq { .. } | Body::FollowUp { .. } => {}
        Body::DelayResp { requesting, .. } => port_numbers_fit(requesting),
        Body::Announce { said, .. } => said_fits(said),
    }
}

/// A message in memory holds numbers that fit, so what was written of it is read again.
pub fn holds_numbers(m: &Message)
    requires { IsSpelled m.now }
    ensures fits { IsMessage m.now }
    ensures again { (rest : List ℕ) → Reads (message_octets m.now ++ rest) m.now.domain m.now }
{
    let _flags = m.flags;
    let _correction = m.correction;
    let _seq = m.seq;
    let _log_interval = m.log_interval;
    port_numbers_fit(&m.sender);
    body_fits(&m.body);
}

/// What is decoded of octets is the message that they read as, and nothing else.
pub fn decoded_is_what_is_read()
    ensures { (domain : ℕ) (b : List ℕ) (m : Message) →
        (decode_result domain b ≡ Ok m) ↔ Reads b domain m }
{}

/// What reading passes over is free.
pub fn free_octets()
    ensures { (domain : ℕ) (b c : List ℕ) → SameRead b c →
        decode_result domain b ≡ decode_result domain c }
{}

/// An Announce, a Sync, a Delay_Resp and a Follow_Up read as what they are.
#[tactic(auto, unfolding(crate::specs::Wire::MessageFormat::number_at))]
pub fn examples_are_read()
    ensures announce { decode_result 0 announce_octets ≡ Ok announce }
    ensures sync { decode_result 0 sync_octets ≡ Ok sync }
    ensures delay_resp { decode_result 0 delay_resp_octets ≡ Ok delay_resp }
    ensures follow_up { decode_result 5 follow_up_octets ≡ Ok follow_up }
{}

/// The Announce is dropped by what is wrong with it first, and octets behind it are free.
#[tactic(auto, unfolding(crate::specs::Wire::MessageFormat::number_at))]
pub fn examples_are_dropped()
    ensures cut_off { decode_result 0 (take 63 announce_octets) ≡ Err Length }
    ensures shortened { decode_result 0 (slice_set (take 63 announce_octets) 3 63) ≡ Err Length }
    ensures longer { decode_result 0 (announce_octets ++ replicate 8 0) ≡ Ok announce }
    ensures longer_by_its_length { decode_result 0
        (slice_set (announce_octets ++ replicate 8 0) 3 72)
        ≡ Ok announce }
    ensures nanos { decode_result 0
        (with_octets 40 (0x3b ∷ 0x9a ∷ 0xca ∷ 0x00 ∷ []) announce_octets)
        ≡ Err Nanos }
    ensures last_nanos { IsTrue
        (is_ok
        (decode_result 0 (with_octets 40 (0x3b ∷ 0x9a ∷ 0xc9 ∷ 0xff ∷ []) announce_octets))) }
    ensures seconds { decode_result 0
        (with_octets 34 (0x00 ∷ 0x02 ∷ 0x00 ∷ 0x00 ∷ 0x00 ∷ 0x00 ∷ []) announce_octets)
        ≡ Err TimeRange }
    ensures last_seconds { IsTrue
        (is_ok
        (decode_result 0
        (with_octets 34 (0x00 ∷ 0x01 ∷ 0xff ∷ 0xff ∷ 0xff ∷ 0xff ∷ []) announce_octets))) }
    ensures version { decode_result 0 (slice_set announce_octets 1 0x11) ≡ Err Version }
    ensures domain { decode_result 0 (slice_set announce_octets 4 5) ≡ Err Domain }
    ensures standard { decode_result 0 (slice_set announce_octets 0 0x1b) ≡ Err Domain }
    ensures short { decode_result 0 (take 33 announce_octets) ≡ Err Short }
    ensures signaling { decode_result 0 (slice_set announce_octets 0 0x0c) ≡ Err Type_ }
{}

/// The examples are written as they are read, octet by octet.
#[tactic(auto, unfolding(crate::specs::Wire::MessageFormat::message_octets))]
pub fn examples_are_written()
    ensures announce { message_octets announce ≡ announce_octets }
    ensures sync { message_octets sync ≡ sync_octets }
    ensures delay_resp { message_octets delay_resp ≡ delay_resp_octets }
    ensures follow_up { message_octets follow_up ≡ follow_up_octets }
{}
