//! What is known of the class of a number.
ghost use Rattle.std.specs.Prelude.{◌≡◌, is_some, length};
ghost use Rattle.managed_entity.specs.Class.{attributes_of, is_known};

use crate::attribute::Attribute;
use crate::class::Class;
use crate::description::Description;

/// What a class is called (ITU-T G.988, clauses 9.1.3, 9.3.10, 9.3.13, 9.2.4 and 9.2.3), or None where it isn't known.
pub fn class_name(class: u16) -> Option<&'static str>
    ensures { is_some result ≡ is_known class }
{
    Some(Class::of(class)?.name())
}

/// The attributes of a class, by ascending number; none where the class isn't known.
#[tactic(auto, using(crate::proofs::Unknown::no_attributes))]
pub fn layout_of(class: u16) -> &'static [Attribute]
    ensures { result.now ≡ attributes_of class }
{
    match Class::of(class) {
        Some(class) => class.layout(),
        None => &[],
    }
}

/// What the attributes of a class are called, by ascending number: one description for each.
#[tactic(auto, using(crate::proofs::Unknown::no_attributes))]
pub fn descriptions_of(class: u16) -> &'static [Description]
    ensures { length result.now ≡ length (attributes_of class) }
{
    match Class::of(class) {
        Some(class) => class.descriptions(),
        None => &[],
    }
}
