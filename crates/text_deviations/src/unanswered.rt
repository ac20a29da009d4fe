//! A reply to a later request than the next one.
use crate::carried::request_of;
use crate::observed::Lines;
use managed_entity::Class;
use omci_msg::{Reply, Request};
use std::fmt::{self, Display};
use text_messages::action_name;

/// A request by its action, its class and its instance: `create mapper 0x0601`.
#[derive(Clone, Copy)]
struct RequestWords<'j>(&'j Request);

impl fmt::Display for RequestWords<'_> {
    fn fmt<W: fmt::Write>(&self, f: &mut fmt::Formatter<W>) -> fmt::Result {
        let Request {
            action,
            class,
            instance,
            ..
        } = *self.0;
        match action_name(action) {
            Some(name) => {
                for character in name.bytes() {
                    f.write_char(char::from(character.to_ascii_lowercase()))?;
                }
            }
            None => write!(f, "action {}", action.code())?,
        }
        match Class::of(class) {
            Some(class) => write!(f, " {} 0x{instance:04x}", class.word()),
            None => write!(f, " class {class} 0x{instance:04x}"),
        }
    }
}

/// Requests that get no reply, since one that was seen answers a later request.
#[derive(Clone, Copy)]
pub(crate) struct Unanswered {
    request: Request,
    /// The line of that request, and how many get no reply from there on.
    line: usize,
    count: usize,
    /// The line of the request that is answered.
    answered: usize,
}

impl fmt::Display for Unanswered {
    fn fmt<W: fmt::Write>(&self, f: &mut fmt::Formatter<W>) -> fmt::Result {
        let (line, count, answered) = (self.line, self.count, self.answered);
        if count == 1 {
            let request = RequestWords(&self.request);
            write!(f, "no reply to the request at line {line} ({request})")?;
        } else {
            write!(f, "no reply to {count} requests from line {line} on")?;
        }
        write!(f, "; this one answers line {answered}")
    }
}

/// Whether a reply has the identifier, the action, the class and the instance of a request.
fn answers(reply: &Reply, request: &Request) -> bool {
    reply.tci == request.tci
        && reply.action == request.action
        && reply.class == request.class
        && reply.instance == request.instance
}

/// Whether the message of a line repeats that of the message before it, and so isn't carried out.
fn is_repeat(history: &Lines<'_>, line: usize) -> bool {
    if !history.repeats {
        return false;
    }
    for number in (1..line).rev() {
        if let Some(before) = history.lines.message(number) {
            return match history.lines.message(line) {
                Some(digits) => digits.eq_ignore_ascii_case(before),
                None => false,
            };
        }
    }
    false
}

/// Which requests get no reply, where a reply at a line, which isn't that to the request of another line, has the head of one that was sent
/// between them.
pub(crate) fn find_unanswered(
    history: &Lines<'_>,
    reply: &Reply,
    next: usize,
    line: usize,
) -> Option<Unanswered> {
    let request = request_of(&history.lines, next)?;
    if answers(reply, &request) {
        return None;
    }
    let mut count: usize = 1;
    for answered in next.saturating_add(1)..line {
        let Some(later) = request_of(&history.lines, answered) else {
            continue;
        };
        if !later.wants_answer || is_repeat(history, answered) {
            continue;
        }
        if answers(reply, &later) {
            return Some(Unanswered {
                request,
                line: next,
                count,
                answered,
            });
        }
        count = count.saturating_add(1);
    }
    None
}
