ghost use Rattle.std.specs.Prelude.{◌≡◌, ◌≤◌, ℤ, List, [], IfOk, IfSome, option_map};
ghost use Rattle.ptp_base.specs.declared.limits.TheConstants.{DELAYS_MAX};
ghost use Rattle.ptp_profile.specs.Timing.OffsetAndDelay.{with_delay, median, mean_of};
ghost use Rattle.delay_mech.specs.DelaysView.{DelaysRepresent, IsCorrection, IsDelay, empty, request_of, answered_by, after_response, response_to};

use crate::arithmetic::delay;
use crate::median::median;
use crate::request::Request;
use circular_buffer::HeapCircularBuffer;
use ptp_base::{DELAYS_MAX, NoMemory, PortId, Scaled, Triple};
use std::alloc::Global;
use std::marker::Model;

/// Whether a Delay_Resp answers the request that waits.
#[derive(Clone, Copy, Debug, PartialEq, Eq)]
pub enum Response {
    /// It does.
    Matched,
    /// It has another sequenceId, is for another port, or no request waits.
    Unmatched,
}

/// The last delays of one port, and what it needs for the next one: the last Sync with its origin,
/// and the request that waits (IEEE 1588-2019, 11.3.2). Only `new` allocates.
#[derive(Drop)]
pub struct Delays {
    own: PortId,
    length: u8,
    triple: Option<Triple>,
    request: Option<Request>,
    /// The newest first.
    delays: HeapCircularBuffer<Scaled>,
}

impl Model for Delays {
    ghost use Rattle.std.specs.Prelude.{option_map};
    ghost use Rattle.delay_mech.specs.DelaysView.{DelaysView, IsSound, request_of};

    ghost Value = { DelaysView };

    ghost view = { λ d. record { own = d.own; length = d.length; triple = d.triple; request = option_map request_of d.request; delays = d.delays.items } };

    ghost invariant = { λ d. IsSound d.length d.triple d.delays.items d.delays.capacity };
}

impl Delays {
    /// No delays of the port `own`, with places for `length` of them: from 1 to `DELAYS_MAX`.
    pub fn new(alloc: Global, own: PortId, length: u8) -> Result<Delays, NoMemory>
        requires some { 1 ≤ length }
        requires few { length ≤ DELAYS_MAX }
        ensures exact { IfOk result (λ d. d ≡ empty own length) }
        ensures all { IfOk result (λ d. DelaysRepresent d []) }
    {
        Ok(Delays {
            own,
            length,
            triple: None,
            request: None,
            delays: HeapCircularBuffer::with_capacity(alloc, usize::from(length))?,
        })
    }

    /// Keeps a Sync with its origin, in place of the last one. The correction is from -2^64 to 2^64,
    /// in ns times 65,536.
    pub fn triple(&mut self, t: Triple)
        requires { IsCorrection t.correction }
        ensures { self.new ≡ record self.old { triple = Some t } }
    {
        self.triple = Some(t);
    }

    /// Keeps a Delay_Req that was sent at `sent`, in ns of the port's clock, in place of the last one
    /// (IEEE 1588-2019, 9.5.11).
    pub fn request(&mut self, seq: u16, sent: i64)
        ensures { self.new
            ≡ record self.old { request = Some (record { seq = seq; sent = sent }) } }
    {
        self.request = Some(Request { seq, sent });
    }

    /// The request that a Delay_Resp for the port `requesting` answers (IEEE 1588-2019, 9.5.7).
    fn request_answered(&self, seq: u16, requesting: PortId) -> Option<Request>
        ensures { option_map request_of result ≡ answered_by self.now seq requesting }
    {
        match self.request {
            Some(request) if request.seq == seq && requesting == self.own => Some(request),
            _ => None,
        }
    }

    /// Gives the request up, and counts the delay that it shows with the last Sync.
    fn finish(&mut self, request: &Request, received: i64, correction: i64)
        ensures { let answered = Some (request_of request.now) in
            self.new ≡ after_response self.old answered received correction }
    {
        self.request = None;
        if let Some(t) = &self.triple {
            self.delays
                .push_front(delay(t, request.sent, received, correction));
        }
    }

    /// Takes a Delay_Resp with the sequenceId `seq` for the port `requesting` (IEEE 1588-2019, 9.5.7 and
    /// 11.3.2). The Delay_Req was received at `received`, in ns of the master's time; `correction` is in
    /// ns times 65,536.
    ///
    /// It is matched if a request with `seq` waits and `requesting` is the own port. The request is then
    /// given up, and if there is a Sync with its origin, one more delay counts. Else nothing changes.
    pub fn response(
        &mut self,
        seq: u16,
        requesting: PortId,
        received: i64,
        correction: i64,
    ) -> Response
        ensures answer { result ≡ response_to (answered_by self.old seq requesting) }
        ensures exact { let request = answered_by self.old seq requesting in
            self.new ≡ after_response self.old request received correction }
        ensures all { let request = answered_by self.old seq requesting in (all : List ℤ) →
            DelaysRepresent self.old all →
            DelaysRepresent self.new (with_delay self.old.triple request received correction all) }
    {
        match self.request_answered(seq, requesting) {
            None => Response::Unmatched,
            Some(request) => {
                self.finish(&request, received, correction);
                Response::Matched
            }
        }
    }

    /// The mean delay in ns times 65,536: the median of the last `length` delays, or None where there
    /// is none (the median is the project's; IEEE 1588-2019, 11.3.2, leaves the filter to the clock).
    pub fn mean(&self) -> Option<Scaled>
        ensures exact { result ≡ median self.now.delays }
        ensures all { (all : List ℤ) → DelaysRepresent self.now all →
            result ≡ mean_of self.now.length all }

        // It is from -2^82 to 2^82.
        ensures within { IfSome result IsDelay }
    {
        let mut numbers = [0; DELAYS_MAX as usize];
        let count = self.delays.len();
        for i in 0..count {
            if let Some(delay) = self.delays.get(i) {
                numbers[i] = *delay;
            }
        }
        median(&mut numbers[..count])
    }

    /// Drops the request and the Sync. The delays stay.
    pub fn flush(&mut self)
        ensures { self.new ≡ record self.old { triple = None; request = None } }
    {
        self.triple = None;
        self.request = None;
    }

    /// Drops the request, the Sync and all delays.
    pub fn clear(&mut self)
        ensures exact { self.new ≡ empty self.old.own self.old.length }
        ensures all { DelaysRepresent self.new [] }
    {
        self.flush();
        self.delays.clear();
    }
}
