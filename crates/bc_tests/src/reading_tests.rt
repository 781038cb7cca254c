//! Transcripts that are cut off: reading refuses each behind its last newline.
use crate::call::transcript;
use crate::follower_tests::two_clocks;
use crate::query_tests::ANSWERED;
use std::alloc::Global;
use std::test::Fail;
use transcript::{TextError, read};

/// The line at which a text is refused, 0 where it is not.
fn refused(alloc: Global, text: &[u8]) -> u32 {
    if text.len() >= 4_294_967_295 {
        return 0;
    }
    match read(alloc, text) {
        Err(TextError::Line { line }) => line,
        _ => 0,
    }
}

/// At how many of its lines a text may be cut off, so that it is refused at the line behind.
fn refused_cuts(alloc: Global, text: &[u8]) -> u32 {
    let mut lines: u32 = 0;
    let mut cuts: u32 = 0;
    for (i, octet) in text.iter().enumerate() {
        if *octet == b'\n' {
            lines = lines.saturating_add(1);
            if refused(alloc, &text[..i + 1]) == lines.saturating_add(1) {
                cuts = cuts.saturating_add(1);
            }
        }
    }
    cuts
}

/// How many lines a text has.
fn line_count(text: &[u8]) -> u32 {
    let mut lines: u32 = 0;
    for octet in text {
        if *octet == b'\n' {
            lines = lines.saturating_add(1);
        }
    }
    lines
}

/// The last line alone ends a transcript.
#[test]
fn answers_are_cut_off(rt: HostRuntime) -> Result<(), Fail> {
    let text = ANSWERED.as_bytes();
    assert_eq!(rt; line_count(text), 36);
    assert_eq!(rt; refused_cuts(rt.alloc(), text), 35);
    Ok(())
}

#[test]
fn a_followers_transcript_is_cut_off(rt: HostRuntime) -> Result<(), Fail> {
    let out = transcript(
        rt.alloc(),
        two_clocks(rt.alloc(), "duration 8\n", "")?.as_str(),
    )?;
    let lines = line_count(&out);
    assert!(rt; lines > 50);
    assert_eq!(rt; refused_cuts(rt.alloc(), &out).saturating_add(1), lines);
    Ok(())
}
