//! What ONU data, class 2, says of itself.
use crate::attribute::Attribute;
use crate::description::{AttributeKind, Description};

pub(crate) static LAYOUT: [Attribute; 1] = [
    Attribute::WRITABLE_1, // MIB data sync
];

/// What its attributes are called, in the order of the layout.
pub(crate) static DESCRIPTIONS: [Description; 1] = [Description {
    name: "MIB data sync",
    word: "sync",
    kind: AttributeKind::Number,
    values: &[],
}];
