//! What tells a reply that was seen from the model's, found.
use crate::bytes_difference::BytesDifference;
use crate::reply_difference::ReplyDifference;
use bench_reply::returned_width;
use managed_entity::{descriptions_of, layout_of, names};
use omci_msg::{Action, Reply};

/// What tells a reply that was seen from the model's: its head, its result, a mask, an attribute, or other contents.
pub(crate) fn reply_difference<'j>(
    seen: &'j Reply,
    model: &'j Reply,
) -> Option<ReplyDifference<'j>> {
    if let Some(difference) = head_difference(seen, model) {
        return Some(difference);
    }
    if let Some(difference) = result_difference(seen, model) {
        return Some(difference);
    }
    if let Some(difference) = mask_difference(seen, model) {
        return Some(difference);
    }
    if let Some(difference) = attribute_difference(seen, model) {
        return Some(difference);
    }
    let bytes = contents_difference(&seen.contents, &model.contents)?;
    Some(ReplyDifference::Contents(bytes))
}

/// Whether a reply has another identifier, action, class or instance.
fn head_difference<'j>(seen: &Reply, model: &Reply) -> Option<ReplyDifference<'j>> {
    if seen.tci != model.tci {
        return Some(ReplyDifference::Identifier {
            seen: seen.tci,
            model: model.tci,
        });
    }
    if seen.action != model.action {
        return Some(ReplyDifference::Action {
            seen: seen.action,
            model: model.action,
        });
    }
    if seen.class != model.class {
        return Some(ReplyDifference::Class {
            seen: seen.class,
            model: model.class,
        });
    }
    if seen.instance != model.instance {
        return Some(ReplyDifference::Instance {
            seen: seen.instance,
            model: model.instance,
        });
    }
    None
}

/// Whether a reply has another result, where its action has one.
fn result_difference<'j>(seen: &Reply, model: &Reply) -> Option<ReplyDifference<'j>> {
    let (code, wanted) = (seen.contents[0], model.contents[0]);
    match model.action {
        Action::MibUpload | Action::MibUploadNext => None,
        _ if code == wanted => None,
        _ => Some(ReplyDifference::Result {
            seen: code,
            model: wanted,
        }),
    }
}

/// A mask in a reply, by the name of what it names and its place in the contents.
#[derive(Clone, Copy)]
struct Mask {
    name: &'static str,
    place: usize,
}

/// The masks of a reply to a Get (ITU-T G.988, annex A).
static OF_GET: [Mask; 3] = [
    Mask {
        name: "attribute",
        place: 1,
    },
    Mask {
        name: "optional-attribute",
        place: 28,
    },
    Mask {
        name: "attribute execution",
        place: 30,
    },
];

/// The mask of a reply to a Get next.
static OF_GET_NEXT: [Mask; 1] = [Mask {
    name: "attribute",
    place: 1,
}];

/// The masks of a reply to a Set.
static OF_SET: [Mask; 2] = [
    Mask {
        name: "optional-attribute",
        place: 1,
    },
    Mask {
        name: "attribute execution",
        place: 3,
    },
];

/// The masks of a reply to an action.
fn masks_of(action: Action) -> &'static [Mask] {
    match action {
        Action::Get => &OF_GET,
        Action::GetNext => &OF_GET_NEXT,
        Action::Set => &OF_SET,
        _ => &[],
    }
}

/// The number of two bytes at a place of the contents.
fn word_at(contents: &[u8; 32], place: usize) -> u16 {
    match contents.get(place..) {
        Some([high, low, ..]) => u16::from_be_bytes([*high, *low]),
        _ => 0,
    }
}

/// The first mask that differs.
fn mask_difference<'j>(seen: &Reply, model: &Reply) -> Option<ReplyDifference<'j>> {
    for mask in masks_of(model.action) {
        let number = word_at(&seen.contents, mask.place);
        let wanted = word_at(&model.contents, mask.place);
        if number != wanted {
            return Some(ReplyDifference::Mask {
                name: mask.name,
                seen: number,
                model: wanted,
            });
        }
    }
    None
}

/// The first attribute whose value differs in what a Get returns. The masks are the same.
fn attribute_difference<'j>(seen: &'j Reply, model: &'j Reply) -> Option<ReplyDifference<'j>> {
    if model.action != Action::Get || !matches!(model.contents[0], 0 | 9) {
        return None;
    }
    let mask = word_at(&model.contents, 1);
    let (mut values, mut wanted) = (&seen.contents[3..28], &model.contents[3..28]);
    for place in 0..16 {
        if names(mask, place) {
            let attribute = descriptions_of(model.class).get(place)?;
            let width = returned_width(layout_of(model.class).get(place)?);
            if values.get(..width)? != wanted.get(..width)? {
                return Some(ReplyDifference::Attribute {
                    attribute,
                    seen: values.get(..width)?,
                    model: wanted.get(..width)?,
                });
            }
            (values, wanted) = (values.get(width..)?, wanted.get(width..)?);
        }
    }
    None
}

/// Where the contents differ, by their places from 0.
fn contents_difference(seen: &[u8; 32], model: &[u8; 32]) -> Option<BytesDifference> {
    let mut found = None;
    for place in 0..32 {
        let (byte, wanted) = (seen[place], model[place]);
        if byte != wanted {
            found = Some(BytesDifference::with(found, place, byte, wanted));
        }
    }
    found
}
