//! The line that says what becomes of a frame.
ghost use Rattle.std.specs.Prelude.{◌≡◌, ◌≤◌, ◌+◌, ◌*◌, ◌∷◌, ◌++◌, [], length};
ghost use Rattle.std.specs.Fmt.{decimal};
ghost use Rattle.std.specs.List.{flat_map};
ghost use Rattle.arrayvec.specs.ArrayVec.{array_vec_len};
ghost use Rattle.bench_forward.specs.Lines.{entry_words, tag_words, tags_words, leaving_words, verdict_line, verdict_words};

use crate::block::{put, put_decimal};
use arrayvec::ArrayVec;
use frame_meaning::Verdict;
use hex::encode_to_slice;
use itoa::Buffer;
use tag_view::Tag;

/// Room for a line, with two numbers of 20 digits and four tags.
pub(crate) type Line = ArrayVec<u8, 160>;

/// Puts the GEM port by which a frame leaves, or the reason to drop it.
fn put_verdict(line: &mut Line, verdict: &Verdict<'_>)
    requires { array_vec_len line.old + 7 ≤ 160 }
    ensures items { line.new.items ≡ line.old.items ++ verdict_words verdict.now }
    ensures len { array_vec_len line.new ≤ array_vec_len line.old + 7 }
{
    let mut digits = Buffer::new();
    match verdict {
        Verdict::Forward { gem, .. } => {
            put(line, b"g ");
            put(line, digits.format(*gem).as_bytes());
        }
        Verdict::Drop(reason) => {
            put(line, b"d ");
            put(line, digits.format(reason.code()).as_bytes());
        }
    }
}

/// Puts the number of the entry that was used, if one was.
fn put_entry(line: &mut Line, entry: Option<usize>)
    requires { array_vec_len line.old + 27 ≤ 160 }
    ensures items { line.new.items ≡ line.old.items ++ entry_words entry }
    ensures len { array_vec_len line.new ≤ array_vec_len line.old + 27 }
{
    if let Some(number) = entry {
        put(line, b" entry ");
        put_decimal(line, number as u64);
    }
}

/// Puts a tag.
#[tactic(auto, unfolding(crate::specs::Lines::tag_words))]
fn put_tag(line: &mut Line, tag: Tag)
    requires { array_vec_len line.old + 21 ≤ 160 }
    ensures items { line.new.items ≡ line.old.items ++ tag_words tag }
    ensures len { array_vec_len line.new ≤ array_vec_len line.old + 21 }
{
    let mut digits = Buffer::new();
    let mut tpid = [0; 4];
    let _ = encode_to_slice(tag.tpid().to_be_bytes(), &mut tpid);
    put(line, b" tag=");
    put(line, &tpid);
    put(line, b":");
    put(line, digits.format(tag.pcp()).as_bytes());
    put(line, if tag.dei() { b":1:" } else { b":0:" });
    put(line, digits.format(tag.vid()).as_bytes());
}

/// Puts tags, of which there are four at most.
fn put_tags(line: &mut Line, tags: &[Tag])
    requires { array_vec_len line.old + 21 * length tags.now ≤ 160 }
    ensures items { line.new.items ≡ line.old.items ++ flat_map tag_words tags.now }
    ensures len { array_vec_len line.new ≤ array_vec_len line.old + 21 * length tags.now }
{
    for tag in tags {
        put_tag(line, *tag);
    }
}

/// Puts the tags with which a frame leaves, if it does.
fn put_leaving(line: &mut Line, verdict: &Verdict<'_>)
    requires { array_vec_len line.old + 84 ≤ 160 }
    ensures items { line.new.items ≡ line.old.items ++ leaving_words verdict.now }
    ensures len { array_vec_len line.new ≤ array_vec_len line.old + 84 }
{
    let Verdict::Forward { frame, .. } = verdict else {
        return;
    };
    let tags = frame.tags();
    if tags.is_empty() {
        put(line, b" untagged");
    } else {
        put_tags(line, tags);
    }
}

/// The line of the frame of this number: what becomes of it, the number of the entry that was used, if one was, and the tags with which it
/// leaves, if it does.
#[tactic(auto, unfolding(crate::specs::Lines::verdict_line))]
pub(crate) fn verdict_line(number: u64, verdict: &Verdict<'_>, entry: Option<usize>) -> Line
    ensures { result.items ≡ verdict_line number verdict.now entry }
{
    let mut line = ArrayVec::new();
    put_decimal(&mut line, number);
    put(&mut line, b" ");
    put_verdict(&mut line, verdict);
    put_entry(&mut line, entry);
    put_leaving(&mut line, verdict);
    put(&mut line, b"\n");
    line
}
