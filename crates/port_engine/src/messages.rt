ghost use Rattle.std.specs.Prelude.{◌≡◌, ◌≤ℤ◌, ℕ, pos};
ghost use Rattle.ptp_base.specs.declared.time.TheConstants.{TIME_MAX};
ghost use Rattle.ptp_profile.specs.Port.Port.{Port};
ghost use Rattle.ptp_profile.specs.Wire.MessageFormat.{IsSpelled};
ghost use Rattle.ptp_profile.specs.Port.PortMessages.{announce_by, sync_by, follow_up_by, delay_request_by, delay_response_by};
ghost use Rattle.data_sets.specs.DataSetsView.{master_in};
ghost use Rattle.port_engine.specs.EngineView.{EngineRepresents};

use crate::engine::PortEngine;
use data_sets::DataSets;
use ptp_wire::{Body, Message, Said};

/// The flag twoStep: the time of a Sync comes in its Follow_Up (IEEE 1588-2019, 13.3.2.8).
pub(crate) const TWO_STEP: u16 = 0x0200;

impl PortEngine {
    /// An Announce, which says what the data sets say (IEEE 1588-2019, 9.5.8); of the flags the low six
    /// are those of the time properties (13.3.2.8).
    pub(crate) fn announce(&self, d: &DataSets) -> Message
        ensures exact { (length : ℕ) (p : Port) → EngineRepresents length self.now p →
            result ≡ announce_by d.now.domain (master_in d.now) p }
        ensures fits { IsSpelled result }
    {
        Message {
            domain: d.domain,
            flags: u16::from(d.time.flags % 64),
            correction: 0,
            sender: self.id,
            seq: self.announces,
            log_interval: self.conf.log_announce,
            body: Body::Announce {
                origin: 0,
                said: Said {
                    grandmaster: d.grandmaster,
                    quality: d.gm_quality,
                    steps: d.steps,
                    utc_offset: d.time.utc_offset,
                    source: d.time.source,
                },
            },
        }
    }

    /// A Sync, which says that its Follow_Up has the time (IEEE 1588-2019, 9.5.9).
    pub(crate) fn sync(&self, domain: u8) -> Message
        ensures exact { (length : ℕ) (p : Port) → EngineRepresents length self.now p →
            result ≡ sync_by domain p }
        ensures fits { IsSpelled result }
    {
        Message {
            domain,
            flags: TWO_STEP,
            correction: 0,
            sender: self.id,
            seq: self.syncs,
            log_interval: self.conf.log_sync,
            body: Body::Sync { origin: 0 },
        }
    }

    /// The Follow_Up of that Sync, which left at the reading `seen` (IEEE 1588-2019, 9.5.10).
    pub(crate) fn follow_up(&self, domain: u8, seen: i64) -> Message
        requires early { pos 0 ≤ℤ seen }
        requires late { seen ≤ℤ TIME_MAX }
        ensures exact { (length : ℕ) (p : Port) → EngineRepresents length self.now p →
            result ≡ follow_up_by domain seen p }
        ensures fits { IsSpelled result }
    {
        Message {
            domain,
            flags: 0,
            correction: 0,
            sender: self.id,
            seq: self.syncs,
            log_interval: self.conf.log_sync,
            body: Body::FollowUp { precise: seen },
        }
    }

    /// A Delay_Req (IEEE 1588-2019, 9.5.11), with the interval 0x7F (13.3.2.14).
    pub(crate) fn delay_request(&self, domain: u8) -> Message
        ensures exact { (length : ℕ) (p : Port) → EngineRepresents length self.now p →
            result ≡ delay_request_by domain p }
        ensures fits { IsSpelled result }
    {
        Message {
            domain,
            flags: 0,
            correction: 0,
            sender: self.id,
            seq: self.requests,
            log_interval: 0x7F,
            body: Body::DelayReq { origin: 0 },
        }
    }

    /// The Delay_Resp to a Delay_Req that came at the reading `seen`: with its sequence, its
    /// correction and its sender (IEEE 1588-2019, 9.5.12 and 11.3.2).
    pub(crate) fn delay_response(&self, request: &Message, seen: i64) -> Message
        requires early { pos 0 ≤ℤ seen }
        requires late { seen ≤ℤ TIME_MAX }
        ensures exact { (length : ℕ) (p : Port) → EngineRepresents length self.now p
            → result ≡ delay_response_by request.now.domain seen request.now p }
        ensures fits { IsSpelled result }
    {
        Message {
            domain: request.domain,
            flags: 0,
            correction: request.correction,
            sender: self.id,
            seq: request.seq,
            log_interval: self.conf.log_delay,
            body: Body::DelayResp {
                receive: seen,
                requesting: request.sender,
            },
        }
    }
}
