/// A Delay_Req of the port that waits for its Delay_Resp (IEEE 1588-2019, 9.5.11).
#[derive(Clone, Copy, Debug)]
pub(crate) struct Request {
    /// Its sequenceId.
    pub seq: u16,
    /// When it was sent, in ns of the port's clock.
    pub sent: i64,
}
