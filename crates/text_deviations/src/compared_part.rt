//! The part of a reply that is compared with the model's.
use bench_reply::{Compared, is_own, returned_width};
use managed_entity::{layout_of, names};
use omci_msg::Reply;

/// Where the values stand among the contents of the reply to a Get, and where they end (ITU-T G.988, annex A).
const VALUES: usize = 3;

const VALUES_END: usize = 28;

/// Puts the model's bytes into contents, from one place to before another.
fn put_model(contents: &mut [u8; 32], model: &[u8; 32], from: usize, to: usize) {
    for place in from..to {
        if let (Some(byte), Some(wanted)) = (contents.get_mut(place), model.get(place)) {
            *byte = *wanted;
        }
    }
}

/// Puts the model's values into the contents of the reply to a Get, of those attributes of a mask of which a unit may have its own.
fn put_own_values(contents: &mut [u8; 32], model: &[u8; 32], class: u16, mask: u16) {
    let mut from = VALUES;
    for place in 0..16 {
        if names(mask, place)
            && let Some(attribute) = layout_of(class).get(place)
        {
            let to = from
                .saturating_add(returned_width(attribute))
                .min(VALUES_END);
            if is_own(attribute.access) {
                put_model(contents, model, from, to);
            }
            from = to;
        }
    }
}

/// A reply that was seen, with the model's bytes where its contents aren't compared.
pub(crate) fn compared_part(seen: &Reply, model: &Reply, compared: Compared) -> Reply {
    let mut part = *seen;
    match compared {
        Compared::Everything => {}
        Compared::Nothing => part.contents = model.contents,
        Compared::Values { class, mask } => {
            put_own_values(&mut part.contents, &model.contents, class, mask);
        }
    }
    part
}
