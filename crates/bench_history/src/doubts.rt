//! Frames of which it can't be seen which one left.
ghost use Rattle.std.specs.Prelude.{◌≡◌, ◌<◌, ◌≤◌, ◌==◌, ◌&&◌, ◌||◌, ◌++◌, ◌^◌, ◌∷◌, [], ℕ, IfOk, List, drop, false, is_some, length, map, max, nat_lt, position, slice_index_or, take, true};
ghost use Rattle.std.specs.List.{count_by, list_all, list_any};
ghost use Rattle.bench_history.specs.Among.{are_in_order};
ghost use Rattle.bench_history.specs.History.{are_among, doubts_in, have_left, is_among};
ghost use Rattle.bench_history.specs.Doubts.{IsDoubted, last_or, raised, reach_of, reach_on, settles};
ghost use Rattle.bench_history.specs.declared.doubts.Doubt.{Doubt};
ghost use Rattle.bench_history.specs.declared.event.Event.{Event};

use crate::event::Event;
use std::alloc::{AllocError, Global};

/// Frames of which an event says that one left.
#[derive(Drop)]
pub(crate) struct Doubt {
    /// Their numbers, in ascending order.
    pub(crate) frames: Vec<u32>,
    /// The greatest number among these and the frames of all doubts before this one.
    pub(crate) reach: u32,
    /// How many events that name only frames among these are missing until there are as many as these.
    pub(crate) missing: usize,
}

/// What is known of frames of which it can't be seen which one left: which are doubtful, and which are used up, since as many left.
#[derive(Drop)]
pub struct Doubts {
    alloc: Global,
    /// The frames of each, in order.
    pub(crate) doubts: Vec<Doubt>,
    /// Whether a frame is named by any, by its number; of one behind the last it is false.
    pub(crate) doubtful: Vec<bool>,
    /// Whether a frame is used up, likewise.
    pub(crate) used_up: Vec<bool>,
}

/// The first place of a frame among some.
fn place_of(frames: &[u32], number: u32) -> Option<usize>
    ensures { result ≡ position (λ n. n == number) frames.now }
{
    frames.iter().position(|frame| *frame == number)
}

/// The place behind a frame among some. It is looked for from a place on first.
fn place_behind(frames: &[u32], from: usize, number: u32) -> Option<usize>
    ensures { is_some result ≡ is_among frames.now number }
{
    let (front, behind) = frames.split_at(from.min(frames.len()));
    if let Some(place) = place_of(behind, number) {
        return Some(front.len().saturating_add(place).saturating_add(1));
    }
    match place_of(front, number) {
        Some(place) => Some(place.saturating_add(1)),
        None => None,
    }
}

/// Whether some frames are all among others. Where both ascend, it takes time in proportion to the others.
fn are_among(frames: &[u32], some: &[u32]) -> bool
    ensures { result ≡ are_among frames.now some.now }
{
    let mut from = 0;
    let mut rest = some;
    while let [number, more @ ..] = rest {
        match place_behind(frames, from, *number) {
            Some(place) => from = place,
            None => return false,
        }
        rest = more;
    }
    true
}

/// Makes room for the flag of a place.
fn cover(flags: &mut Vec<bool>, place: usize) -> Result<(), AllocError>
    requires { place < 2 ^ 32 }
    ensures room { IfOk result (λ _. place < length flags.new.items) }
    ensures same { IfOk result (λ _. (n : ℕ)
        → slice_index_or flags.new.items n false ≡ slice_index_or flags.old.items n false) }
{
    if flags.len() <= place {
        flags.resize(place + 1, false)?;
    }
    Ok(())
}

/// Sets the flag of a frame.
fn set_flag(flags: &mut Vec<bool>, number: u32) -> Result<(), AllocError>
    ensures { IfOk result (λ _. (n : ℕ) → slice_index_or flags.new.items n false
        ≡ (number == n || slice_index_or flags.old.items n false)) }
{
    let place = number as usize;
    cover(flags, place)?;
    flags[place] = true;
    Ok(())
}

/// Sets the flags of frames.
fn mark(flags: &mut Vec<bool>, frames: &[u32]) -> Result<(), AllocError>
    ensures { IfOk result (λ _. (n : ℕ) → slice_index_or flags.new.items n false
        ≡ (is_among frames.now n || slice_index_or flags.old.items n false)) }
{
    for number in frames {
        set_flag(flags, *number)?;
    }
    Ok(())
}

/// Sets the flags of the frames of a doubt that misses no event.
fn settle_one(flags: &mut Vec<bool>, doubt: &Doubt) -> Result<(), AllocError>
    ensures { IfOk result (λ _. (n : ℕ) → slice_index_or flags.new.items n false
        ≡ (settles n doubt.now || slice_index_or flags.old.items n false)) }
{
    if doubt.missing == 0 {
        return mark(flags, &doubt.frames);
    }
    Ok(())
}

/// The same of doubts.
fn settle(flags: &mut Vec<bool>, doubts: &[Doubt]) -> Result<(), AllocError>
    ensures { IfOk result (λ _. (n : ℕ) → slice_index_or flags.new.items n false
        ≡ (list_any (settles n) doubts.now
        || slice_index_or flags.old.items n false)) }
{
    for doubt in doubts {
        settle_one(flags, doubt)?;
    }
    Ok(())
}

/// A doubt, behind one more event that says so of some frames.
fn raise(doubt: &mut Doubt, frames: &[u32])
    ensures { doubt.new ≡ raised frames.now doubt.old }
{
    if are_among(&doubt.frames, frames) {
        doubt.missing = doubt.missing.saturating_sub(1);
    }
}

/// The same of doubts.
fn raise_each(doubts: &mut [Doubt], frames: &[u32])
    ensures { doubts.new ≡ map (raised frames.now) doubts.old }
{
    for i in 0..doubts.len() {
        raise(&mut doubts[i], frames);
    }
}

/// The same of doubts from one on.
fn raise_from(doubts: &mut Vec<Doubt>, near: usize, frames: &[u32])
    requires { near ≤ length doubts.old.items }
    ensures { doubts.new.items
        ≡ take near doubts.old.items ++ map (raised frames.now) (drop near doubts.old.items) }
{
    raise_each(&mut doubts[near..], frames);
}

/// How many doubts are about frames that are all among some.
fn count_among(doubts: &[Doubt], frames: &[u32]) -> usize
    ensures { result ≡ count_by (λ (doubt : Doubt). are_among frames.now doubt.frames.items) doubts.now }
{
    let mut count = 0;
    for doubt in doubts {
        if are_among(frames, &doubt.frames) {
            count += 1;
        }
    }
    count
}

/// Where the doubts begin that may share a frame with some from a number on: those before it have none from there on.
fn first_near(doubts: &[Doubt], least: u32) -> usize
    ensures within { result ≤ length doubts.now }
    ensures before { reach_on 0 doubts.now ≡ true
        → list_all (λ (doubt : Doubt). nat_lt doubt.reach least) (take result doubts.now) ≡ true }
{
    doubts.partition_point(|doubt| doubt.reach < least)
}

/// How far doubts reach together with frames, in ascending order.
fn reach_with(doubts: &[Doubt], frames: &[u32]) -> u32
    ensures { result ≡ max (reach_of doubts.now) (last_or 0 frames.now) }
{
    let far = match doubts.last() {
        Some(doubt) => doubt.reach,
        None => 0,
    };
    match frames.last() {
        Some(last) => far.max(*last),
        None => far,
    }
}

impl Doubts {
    /// None is doubtful.
    pub fn new(alloc: Global) -> Self
        ensures { IsDoubted [] result }
    {
        Doubts {
            alloc,
            doubts: Vec::new(alloc),
            doubtful: Vec::new(alloc),
            used_up: Vec::new(alloc),
        }
    }

    /// Whether the frame of a number is doubtful.
    pub fn is_doubtful(&self, number: u32) -> bool
        ensures { (named : List (List ℕ)) → IsDoubted named self.now
            → result ≡ list_any (λ frames. is_among frames number) named }
    {
        matches!(self.doubtful.get(number as usize), Some(true))
    }

    /// Whether it is used up.
    pub fn is_used_up(&self, number: u32) -> bool
        ensures { (named : List (List ℕ)) → IsDoubted named self.now
            → result ≡ list_any (λ frames. is_among frames number && have_left frames named) named }
    {
        matches!(self.used_up.get(number as usize), Some(true))
    }

    /// Adds that one of some frames left, which are named by their numbers, in ascending order.
    ///
    /// It takes time in proportion to the frames that are named and those of the doubts that share some with them.
    pub fn name(&mut self, frames: Vec<u32>) -> Result<(), AllocError>
        requires { are_in_order frames.items ≡ true }
        ensures { (named : List (List ℕ)) → IsDoubted named self.old
            → IfOk result (λ _. IsDoubted (named ++ frames.items ∷ []) self.new) }
    {
        let least = frames[0];
        let near = first_near(&self.doubts, least);
        let count = count_among(self.doubts.split_at(near).1, &frames);
        raise_from(&mut self.doubts, near, &frames);
        settle(&mut self.used_up, self.doubts.split_at(near).1)?;
        mark(&mut self.doubtful, &frames)?;
        let missing = frames.len().saturating_sub(count + 1);
        let reach = reach_with(&self.doubts, &frames);
        let doubt = Doubt {
            frames,
            reach,
            missing,
        };
        settle_one(&mut self.used_up, &doubt)?;
        self.doubts.push(doubt)?;
        Ok(())
    }

    /// Adds an event.
    pub(crate) fn follow(&mut self, event: &Event<'_>) -> Result<(), AllocError>
        ensures { (events : List Event) → IsDoubted (doubts_in events) self.old
            → IfOk result (λ _. IsDoubted (doubts_in (events ++ event.now ∷ [])) self.new) }
    {
        match event {
            Event::LeftOneOf { among, .. } => self.name(among.to_vec(self.alloc)?),
            _ => Ok(()),
        }
    }
}
