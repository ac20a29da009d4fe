//! The law of the judge: no right unit is accused.
//!
//! `bench_judge` promises exactly what its definition of an explained history says. This crate says that the definition is fair. It relates it
//! to the machine of `plan_publish`: one control that answers messages and publishes, and lanes that are told tokens, enter, forward and
//! leave, in whatever order these events come. Whatever an observer with one clock can see at that machine is explained.
//!
//! **An observation** is one list of steps: events of the machine, and lines that the observer writes between them (`specs/Steps.antt`).
//! `specs/Observation.antt` says where each line may stand. A reader who doubts a deviation checks the machine, and these sentences:
//!
//! - A message is carried out behind its `o` line, perhaps long behind it. Messages are carried out in the order of these lines, and one with
//!   a fault never is.
//! - An `r` line stands behind the message that it answers: the first that wants an answer and that no `r` line above answers. Its bytes are
//!   spelled as the machine's answer, whatever the trailer. Contents that `--modelled` leaves out may be any.
//! - A frame is forwarded behind its `f` line and before the line of its end. That line says what the machine decided: the GEM port and the
//!   bytes with which the frame leaves, or that it is dropped or lost, which both stand for a drop.
//! - A line that names several frames names the one that left: it was forwarded behind its `f` line and before this line, which says what
//!   the machine decided. Which of them it is may stay unknown. Nothing else is asked of the frames that are named, nor any order.
//! - A line that waits stands where each lane has learnt what the `r` lines above it, or the first so many, answer. Behind the last message
//!   that they answer there was a publish, and the lane was told its token, or has entered since.
//! - One lane serves a port, and forwards its frames in the order of their `f` lines. With `--unordered` any lane forwards any frame at
//!   any time.
//!
//! **Repeats** (`--repeats`). An `o` line with the bytes of the `o` line before it isn't carried out. An `r` line may then also be the last
//! answer once more, from memory, under two conditions:
//!
//! - its message stands above as a repeat more often than it was answered from memory;
//! - no message that waits for its answer has its identifier.
//!
//! Where no `o` line has the bytes of the one before it, the history is explained with the setting and without it.
//!
//! **A script** (`--start`). The machine carries out its requests before all messages. If one of them is accepted, each lane has learnt of
//! the whole script where the first `f` line stands. Above all `o` lines an `r` line may answer a request of the script, each a later one than
//! the `r` line before it. Such an answer is no message's, so no line waits for it.
//!
//! **Less may be seen.** Of a frame that is sent, or leaves, a front alone may be known. A GEM port may not be seen. With `--padded` a frame
//! that leaves may have zeros behind it, up to 68 bytes, and with `--allow-strays` there may be strays. Of a frame of which less than 24
//! bytes are known the law asks nothing, nor of a line that names several frames, where it is the one that left. Frames may stay open.
//!
//! **What isn't asked.** Nothing is said of when the unit publishes or a lane enters, of how many lanes there are, or of frames that no line
//! names. The lines needn't be those of a history that can be read. No line is an excused reply, which no history has: `judge_all` puts it in
//! place of a wrong one.
//!
//! **What isn't covered.** A machine may carry out two messages of the same bytes, one behind the other. With `--repeats` the second counts as
//! a repeat, and the unit may be accused. Answers to the script that are seen below an `o` line aren't covered either. The law speaks of
//! definitions: that a unit keeps to the machine is the unit's claim.
//!
//! **The converse isn't claimed.** The judge looks at each port by itself, and so explains histories that no course of the machine shows. A
//! frame of one port has left by version 6. Two frames that enter another port later may be explained by versions 3 and 5, though its one lane
//! holds 3 and can't enter with 5 any more.
//!
//! **The way.** The version of a frame is the number of accepted requests that its lane entered with. The law of interleavings says that the
//! frame gets what the entities after so many mean for it, that this number never falls for a lane, and that it reaches each token that the
//! lane was told. Requests that were carried out are a front of the script and the messages, so the number lies in the frame's window. A front
//! of 24 bytes has all that the meaning of a frame reads, so it is decided as the whole frame is.
//!
//! The observation says what each `r` line stands for, and the judge finds the same:
//!
//! - The next answer has the identifier of a message that waits, so it isn't taken for one from memory.
//! - An answer from memory meets both conditions, and these are the judge's.
//! - Above all `o` lines no message waits, so an answer to the script is taken for one. If it fits several requests, the judge takes the first
//!   behind the one before, which is never later than the right one.
#![tactic(auto)]

mod law;

pub use law::law_of_right_units;
