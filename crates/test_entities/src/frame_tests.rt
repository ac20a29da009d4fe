//! Frames with their tags, and the heads of frames. The dialogues (`tests/dialogues/tags.dialogues` and others) ask the program for more.
use rule_index::Head;
use std::process::Abort;
use std::test::Fail;
use tag_view::{DscpMap, FrameFault, Tag, is_tag_type, law_of_readings, view};
use test_fixtures::{frame, holds, same};

/// A service tag of VLAN 100 round a customer's tag of VLAN 200, and the start of an IPv4 packet of DSCP 46.
const DOUBLE: [u8; 24] = [
    2, 0, 0, 0, 0, 1, 2, 0, 0, 0, 0, 2, 0x88, 0xa8, 0x00, 0x64, 0x81, 0x00, 0x00, 0xc8, 0x08, 0x00,
    0x45, 0xb8,
];

/// DSCP 46 has priority 5.
const VOICE: DscpMap = DscpMap([
    0, 0, 0, 0, 0, 0, 0, 0, 0, 0, 0, 0, 0, 0, 0, 0, 0, 0x28, 0, 0, 0, 0, 0, 0,
]);

/// The addresses and the rest of a frame, after the view of it is gone.
fn ends_of(bytes: &[u8]) -> Result<(&[u8], &[u8]), FrameFault> {
    let frame = view(bytes, 0x8100)?;
    Ok((frame.addresses(), frame.rest()))
}

#[test]
fn a_frame_is_its_parts(rt: HostRuntime) -> Result<(), Fail> {
    let frame = view(&DOUBLE, 0x8100)?;
    same!(rt; frame.bytes(), &DOUBLE[..]);
    same!(rt; frame.tags(), &[Tag::new(0x88a8, 0, false, 100), Tag::new(0x8100, 0, false, 200)][..]);
    same!(rt; (frame.ethertype(), frame.dscp()), (0x0800, Some(46)));
    same!(rt; ends_of(&DOUBLE), Ok((&DOUBLE[..12], &DOUBLE[20..])));
    same!(rt; ends_of(&DOUBLE[..21]), Err(FrameFault::CutTag));
    same!(rt; ends_of(&DOUBLE[..13]), Err(FrameFault::Runt));
    same!(rt; (is_tag_type(0x9100, 0x8100), is_tag_type(0x9100, 0x9100)), (false, true));
    same!(rt; (VOICE.get(45), VOICE.get(46)), (0, 5));
    law_of_readings();
    Ok(())
}

/// A tag's word, and its type, priority, DEI and VID as IEEE 802.1Q, 9.6, puts them side by side.
const WORDS: [(u32, u16, u8, bool, u16); 6] = [
    (0x8100a064, 0x8100, 5, false, 100),
    (0x88a87064, 0x88a8, 3, true, 100),
    (0x8100e000, 0x8100, 7, false, 0),
    (0x81001000, 0x8100, 0, true, 0),
    (0x00000fff, 0x0000, 0, false, 4095),
    (0xffffffff, 0xffff, 7, true, 4095),
];

#[test]
fn a_tag_is_its_word(rt: HostRuntime) -> Result<(), Fail> {
    for (word, tpid, pcp, dei, vid) in &WORDS {
        let tag = Tag::of_word(*word);
        same!(rt; (tag.tpid(), tag.pcp(), tag.dei(), tag.vid()), (*tpid, *pcp, *dei, *vid), "{word:08x}");
        same!(rt; (tag.word(), tag.bytes()), (*word, word.to_be_bytes()));
    }
    same!(rt; Tag::of_word(0x88a87064), Tag::new(0x88a8, 3, true, 100));
    same!(rt; Tag::default().bytes(), [0, 0, 0, 0]);
    Ok(())
}

/// The tags of a frame, how many there are, and the words of the first and the last.
const HEADS: [(&[u32], usize, u32, u32); 3] = [
    (&[], 0, 0x81000000, 0x81000000),
    (&[0x8100a064], 1, 0x8100a064, 0x8100a064),
    (&[0x88a8f064, 0x810000c8], 2, 0x88a8f064, 0x810000c8),
];

/// Looks at a head.
fn look_at_head(rt: &impl Abort, head: &Head, tags: usize, outer: u32, inner: u32) {
    same!(rt; (head.tags(), head.outer(), head.inner()), (tags, outer, inner));
    same!(rt; head.ethertype(), 0x0800, "type behind {tags}");
}

/// Looks at the head of a frame by how many tags are found ahead.
fn look_ahead(rt: &impl Abort, bytes: &[u8], outer: u32, inner: u32) {
    let tags = Head::tags_ahead(bytes, 0x8100);
    if tags > 2 || bytes.len() < 22 {
        holds!(rt; false, "{} bytes have {tags}", bytes.len());
    } else {
        let head = Head::of_tags(bytes, tags);
        look_at_head(rt, &head, usize::from(tags), outer, inner);
    }
}

/// Looks at the head of a frame, read from its view, from its bytes and ahead.
fn look_at_heads(
    rt: &impl Abort,
    bytes: &[u8],
    tags: usize,
    outer: u32,
    inner: u32,
) -> Result<(), FrameFault> {
    let viewed = view(bytes, 0x8100)?;
    look_at_head(rt, &Head::of(&viewed), tags, outer, inner);
    let read = Head::read(bytes, 0x8100)?;
    look_at_head(rt, &read, tags, outer, inner);
    same!(rt; usize::from(Head::tags_ahead(bytes, 0x8100)), tags);
    look_ahead(rt, bytes, outer, inner);
    Ok(())
}

#[test]
fn a_head_is_that_of_the_view(rt: HostRuntime) -> Result<(), Fail> {
    for (words, tags, outer, inner) in &HEADS {
        let mut bytes = frame(rt.alloc(), words, 0x0800)?;
        bytes.resize(22, 0)?;
        same!(rt; Head::tags_ahead(&bytes[..21], 0x8100), 128, "{tags} tags");
        look_at_heads(&rt, &bytes, *tags, *outer, *inner)?;
    }
    Ok(())
}
