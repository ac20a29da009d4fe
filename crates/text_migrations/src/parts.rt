//! Sets that `encode` says in two lines: of a table's entry, and of other attributes.
use arrayvec::ArrayVec;
use managed_entity::{layout_of, mask_of, set_values};
use omci_msg::{Action, Request};

/// The bit of the attribute at a place in a mask.
fn bit(place: usize) -> u16 {
    match u32::try_from(place) {
        Ok(place) => 0x8000u16.checked_shr(place).unwrap_or(0),
        Err(_) => 0,
    }
}

/// The mask of the tables of a class.
fn tables_of(class: u16) -> u16 {
    let mut mask = 0;
    for (place, attribute) in layout_of(class).iter().enumerate() {
        if attribute.access.is_table() {
            mask |= bit(place);
        }
    }
    mask
}

/// The contents of a Set of these attributes, of those that another Set writes.
fn contents_of(request: &Request, wanted: u16) -> ArrayVec<u8, 32> {
    let mut contents: ArrayVec<u8, 32> = ArrayVec::new();
    for byte in &wanted.to_be_bytes() {
        let _ = contents.try_push(*byte);
    }
    let mask = mask_of(&request.contents);
    let mut rest = set_values(&request.contents);
    for (place, attribute) in layout_of(request.class).iter().enumerate() {
        if mask & bit(place) == 0 {
            continue;
        }
        let (bytes, behind) = rest.split_at(usize::from(attribute.width).min(rest.len()));
        rest = behind;
        if wanted & bit(place) != 0 {
            let _ = contents.try_extend_from_slice(bytes);
        }
    }
    contents
}

/// A Set of these attributes, of those that another Set writes.
fn part_of(request: &Request, wanted: u16) -> Request {
    let mut part = *request;
    part.contents = [0; 32];
    for (place, byte) in part.contents.iter_mut().zip(&contents_of(request, wanted)) {
        *place = *byte;
    }
    part
}

/// A Set of an entry and of other attributes, as two: of the others, and of the entry. None where it isn't such a Set.
pub(crate) fn parts_of(request: &Request) -> Option<(Request, Request)> {
    let mask = mask_of(&request.contents);
    let tables = tables_of(request.class);
    let (others, entry) = (mask & !tables, mask & tables);
    if request.action != Action::Set || others == 0 || entry == 0 {
        return None;
    }
    Some((part_of(request, others), part_of(request, entry)))
}
