//! Rules of a VLAN table in words, as somebody writes them by hand: `tags=1 vid=100 -> remove=1 inner(pcp=inner vid=200 tpid=8100)`.
//!
//! [`RuleAsked`] takes the words one by one, and [`put_filter`] and [`put_treatment`] write those of a rule.
//!
//! What is expected of frames is said in the same words ([`Subject`]): [`TagsAsked`] and [`AddedAsked`] read what they ask of tags, and
//! [`take_word`] tells the words in parentheses from the others.
#![tactic(auto)]

mod added;
mod asked;
mod ethertype;
mod filter;
mod instead;
mod rule;
mod rule_words;
mod subject;
mod tag;
mod tags;
mod treatment;

pub use added::{Added, AddedAsked, Side};
pub use asked::{Asked, check_alone, rule_at, take_word};
pub use ethertype::{TypeSaid, read_type};
pub use filter::read_count;
pub use instead::{ADDED, DROPPED};
pub use rule::RuleAsked;
pub use rule_words::{put_filter, put_treatment};
pub use subject::Subject;
pub use tag::{GROUPS, TAG_WORDS, TagAsked};
pub use tags::TagsAsked;
