//! Queries in a run: what is asked, answered and refused, to the byte.
use crate::call::transcript;
use std::test::Fail;

/// Two ports that hear nothing, and six queries at the end of the run.
const SIX_QUERIES: &str =
    "[global]\nduration 6\n[port 1]\n[port 2]\n[records]\n[queries]\n6000000000 GET PRIORITY1\n6000000000 GET PORT_DATA_SET\n6000000000 GET PORT_DATA_SET 9\n6000000000 GET NOTHING\n6000000000 SET PRIORITY1 1\n6000000000 GET PORT_DATA_SET x\n";

/// Both ports are MASTER by then. The first query is the request of sequence 0; the second is
/// answered by both ports, the third by none, the fourth and the sixth are no requests, and the fifth
/// is the request of sequence 3, with error 6.
pub const ANSWERED: &str = "bc-transcript 1
event 1 6000000000 port 1 timer 6000000000 announce_receipt seen 0 6000000000 0
  state 1 LISTENING MASTER
event 2 6000000000 port 2 timer 6000000000 announce_receipt seen 0 6000000000 0
  state 2 LISTENING MASTER
event 3 6000000000 query 6000000000 GET PRIORITY1
  answer 0d12003800000000000000000000000000000000020000fffe00000100000000047f00000000000000000001000002000001000420058000
    020000.fffe.000001-0 seq 0 RESPONSE MANAGEMENT PRIORITY1
    priority1 128
event 4 6000000000 query 6000000000 GET PORT_DATA_SET
  answer 0d12005000000000000000000000000000000000020000fffe00000100010001047f00000000000000000001000002000001001c2004020000fffe000001000106000000000000000000010300010002
    020000.fffe.000001-1 seq 1 RESPONSE MANAGEMENT PORT_DATA_SET
    portIdentity 020000.fffe.000001-1
    portState MASTER
    logMinDelayReqInterval 0
    logAnnounceInterval 1
    announceReceiptTimeout 3
    logSyncInterval 0
  answer 0d12005000000000000000000000000000000000020000fffe00000100020001047f00000000000000000001000002000001001c2004020000fffe000001000206000000000000000000010300010002
    020000.fffe.000001-2 seq 1 RESPONSE MANAGEMENT PORT_DATA_SET
    portIdentity 020000.fffe.000001-2
    portState MASTER
    logMinDelayReqInterval 0
    logAnnounceInterval 1
    announceReceiptTimeout 3
    logSyncInterval 0
event 5 6000000000 query 6000000000 GET PORT_DATA_SET 9
event 6 6000000000 query 6000000000 GET NOTHING
  asked unknown
event 7 6000000000 query 6000000000 SET PRIORITY1 1
  answer 0d12003c00000000000000000000000000000000020000fffe00000100000003047f0000000000000000000100000200000200080006200500000000
    020000.fffe.000001-0 seq 3 RESPONSE ERROR 6 PRIORITY1
event 8 6000000000 query 6000000000 GET PORT_DATA_SET x
  asked target
clock 0 0 0
end 8
";

#[test]
fn queries_are_answered(rt: HostRuntime) -> Result<(), Fail> {
    let out = transcript(rt.alloc(), SIX_QUERIES)?;
    assert_eq!(rt; out.as_slice(), ANSWERED.as_bytes());
    Ok(())
}
