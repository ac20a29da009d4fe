//! Which values of a field stand for all others.
ghost use Rattle.std.specs.Prelude.{◌≡◌, ◌<◌, ◌≤◌, ◌+◌, ◌*◌, ◌^◌, ◌⊎◌, ℕ, [], ◌∷◌, All, Contains, length, map, slice_get};
ghost use Rattle.std.specs.List.{list_any, range_with_len};
ghost use Rattle.std.specs.Option.{option_and_then, option_copied};
ghost use Rattle.arrayvec.specs.ArrayVec.{array_vec_len};
ghost use Rattle.frame_rows.specs.declared.row.Row.{Row};
ghost use Rattle.frame_rows.specs.Row.{ask_at, named_by};
ghost use Rattle.frame_classes.specs.Choices.{is_known_type};

use crate::left::Left;
use crate::settled::are_rows_settled;
use crate::sides::Sides;
use arrayvec::ArrayVec;
use frame_rows::{Field, LONG, Packet, Row, Values};
use tag_view::is_tag_type;

/// The most values of a field that are looked at for one case: those that rows name, and three beside them for each DSCP.
pub(crate) const MAX_CHOICES: usize = 600;

/// Values of a field.
pub(crate) type Choices = ArrayVec<u16, MAX_CHOICES>;

/// Types, as one sends them first: of tags and of packets, each that a filter may ask for (IEEE 802).
const TYPES: [u16; 8] = [
    0x8100, 0x0800, 0x88a8, 0x86dd, 0x0806, 0x8863, 0x8864, 0x888e,
];

/// The first type that is tried as one that nothing asks for: a local experimental Ethertype (IEEE 802).
const SPARE: u32 = 0x88b5;

/// Lengths, each the greatest of those that nothing tells apart. The first stands for all that are greater, too.
const LENGTHS: [u16; 7] = [LONG, 23, 21, 19, 17, 15, 13];

/// Whether a filter may ask for a type as that of a packet.
fn is_known_type(ethertype: u16) -> bool
    ensures { result ≡ is_known_type ethertype }
{
    ethertype == 0x0800
        || (ethertype == 0x86dd
            || (ethertype == 0x0806
                || (ethertype == 0x8863 || (ethertype == 0x8864 || ethertype == 0x888e))))
}

/// Puts one value alone.
fn put_only(choices: &mut Choices, value: u16)
    requires { choices.old.items ≡ [] }
    ensures { choices.new.items ≡ value ∷ [] }
{
    choices.push(value);
}

/// The rows that ask nothing of the fields before one that the values there aren't, and these values.
#[derive(Drop)]
pub(crate) struct Case<'r> {
    pub(crate) rows: &'r [Row],
    pub(crate) left: &'r Left,
    pub(crate) values: &'r Values,
    /// The sides whose rows they are.
    pub(crate) sides: &'r Sides<'r>,
}

impl<'r> Case<'r> {
    ghost use Rattle.std.specs.Prelude.{◌&&◌, ◌++◌, Any, Some, true, false, if◌then◌else◌, take};
    ghost use Rattle.frame_rows.specs.declared.field.Field.TheVariants.{Length};
    ghost use Rattle.frame_rows.specs.Field.{end_of, fields, place_of, value_at};
    ghost use Rattle.frame_rows.specs.Words.{limit_of};
    ghost use Rattle.frame_rows.specs.Source.{dscp_in, has_dscp};
    ghost use Rattle.frame_rows.specs.Alike.{is_alike, row_reads_all};
    ghost use Rattle.frame_classes.specs.Choices.{HasSpare, IsTried, IsUnnamed, are_alike, is_asked, is_named, is_read, is_spare, is_value, test_at};
    ghost use Rattle.frame_classes.specs.Beside.{AreBeside};
    ghost use Rattle.frame_classes.specs.Left.{AreLeftOf};
    ghost use Rattle.frame_classes.specs.Settled.{are_settled, is_settled};
    ghost use Rattle.frame_classes.specs.Told.{side_by};
    ghost use Rattle.frame_classes.specs.Splitting.{AreCovering, HasSeveral, begins_tag};

    fn row(&self, place: usize) -> Option<&'r Row>
        ensures { option_copied result ≡ slice_get self.now.rows.now place }
    {
        self.rows.get(place)
    }

    /// Whether no row that is left tells two values of a field apart.
    fn are_alike(&self, field: Field, one: u16, other: u16) -> bool
        ensures { result
            ≡ are_alike self.now.rows.now self.now.left.now self.now.values.now field one other }
    {
        self.left
            .iter()
            .all(|place| self.is_alike_at(place, field, one, other))
    }

    fn is_alike_at(&self, place: usize, field: Field, one: u16, other: u16) -> bool
        ensures { result
            ≡ test_at (is_alike self.now.values.now field one other) true self.now.rows.now place }
    {
        match self.row(place) {
            Some(row) => row.is_alike(self.values, field, one, other),
            None => true,
        }
    }

    /// Whether a row that is left names a value of a field.
    fn is_named(&self, field: Field, value: u16) -> bool
        ensures { result ≡ is_named self.now.rows.now self.now.left.now field value }
    {
        self.left
            .iter()
            .any(|place| self.named_at(place, field) == Some(value))
    }

    /// Whether a row that is left names any value of a field.
    fn is_asked(&self, field: Field) -> bool
        ensures { result ≡ is_asked self.now.rows.now self.now.left.now field }
    {
        self.left
            .iter()
            .any(|place| self.named_at(place, field).is_some())
    }

    /// The value of a field that the row at a place names.
    fn named_at(&self, place: usize, field: Field) -> Option<u16>
        ensures { result ≡ option_and_then (λ (row : Row). named_by (ask_at row field))
            (slice_get self.now.rows.now place) }
    {
        let row = self.row(place)?;
        row.named(field)
    }

    /// Whether the ending of the frames of a row that is left, or the priority of an added tag, depends on each value of a field.
    fn is_read(&self, field: Field) -> bool
        ensures { result ≡ is_read self.now.rows.now self.now.left.now field }
    {
        self.left.iter().any(|place| self.is_read_at(place, field))
    }

    fn is_read_at(&self, place: usize, field: Field) -> bool
        ensures { result ≡ test_at (λ row. row_reads_all field row) false self.now.rows.now place }
    {
        match self.row(place) {
            Some(row) => row.reads_all(field),
            None => false,
        }
    }

    /// Puts values of a field, in frames of at least so many bytes, with which the sides see frames as they do with each other value.
    pub(crate) fn put_choices(&self, choices: &mut Choices, field: Field, least: usize)
        requires none { choices.old.items ≡ [] }
        requires beside { AreBeside self.now.sides.now.sides.now self.now.rows.now
            self.now.sides.now.ends }
        requires same { self.now.rows.now ≡ self.now.sides.now.rows.now }
        requires left { AreLeftOf (map side_by self.now.sides.now.sides.now) (take (place_of field) fields) self.now.values.now
            self.now.left.now }
        requires few { length self.now.left.now ≤ 402 }
        ensures { AreCovering (map side_by self.now.sides.now.sides.now) self.now.left.now
            least field self.now.values.now choices.new.items }
    {
        if self.values.get(Field::Length) < field.end() {
            return put_only(choices, 0);
        }
        match field {
            Field::FirstType | Field::SecondType | Field::ThirdType => {
                self.put_types(choices, field)
            }
            Field::Length => self.put_lengths(choices, least),
            Field::FirstVid | Field::SecondVid | Field::ThirdVid => self.put_vids(choices, field),
            Field::FirstPriority | Field::SecondPriority => self.put_numbers(choices, field, 8),
            Field::FirstEligible | Field::SecondEligible => self.put_numbers(choices, field, 2),
        }
    }

    /// Puts a value behind the others, if it is like none of them.
    fn put(&self, choices: &mut Choices, field: Field, value: u16)
        requires { array_vec_len choices.old < 600 }
        ensures kept { (c : ℕ) → Contains choices.old.items c → Contains choices.new.items c }
        ensures only { (c : ℕ) → Contains choices.new.items c
            → Contains choices.old.items c ⊎ (c ≡ value) }
        ensures stands { Any (λ c. (c ≡ value) ⊎ (are_alike self.now.rows.now
            self.now.left.now self.now.values.now field c value ≡ true)) choices.new.items }
        ensures len { array_vec_len choices.new ≤ array_vec_len choices.old + 1 }
    {
        if !self.has_alike(choices, field, value) {
            choices.push(value);
        }
    }

    /// Whether one of some values is like another.
    fn has_alike(&self, choices: &Choices, field: Field, value: u16) -> bool
        ensures { result ≡ list_any (λ c. are_alike self.now.rows.now self.now.left.now
            self.now.values.now field c value) choices.now.items }
    {
        choices
            .iter()
            .any(|other| self.are_alike(field, *other, value))
    }

    /// Whether a type begins a tag for some side.
    fn begins_tag(&self, ethertype: u16) -> bool
        ensures { result ≡ begins_tag (map side_by self.now.sides.now.sides.now) ethertype }
    {
        self.sides
            .sides
            .iter()
            .any(|side| is_tag_type(ethertype, side.settings.input_tpid))
    }

    /// The type that one sends first: of a tag, but behind two tags that of a packet. Where no tag is before it, it is no type, and has the
    /// length of a packet of IPv4 in a frame of 60 bytes (RFC 791, 3.1).
    fn first_type(&self, field: Field) -> u16
        ensures { result < 2 ^ 16 }
    {
        match field {
            Field::SecondType if !self.begins_tag(self.values.get(Field::FirstType)) => 46,
            Field::ThirdType if !self.begins_tag(self.values.get(Field::SecondType)) => 42,
            Field::ThirdType => 0x0800,
            _ => 0x8100,
        }
    }

    /// Puts types, behind the length.
    fn put_types(&self, choices: &mut Choices, field: Field)
        requires none { choices.old.items ≡ [] }
        requires beside { AreBeside self.now.sides.now.sides.now self.now.rows.now
            self.now.sides.now.ends }
        requires left { AreLeftOf (map side_by self.now.sides.now.sides.now) (take (place_of field) fields) self.now.values.now
            self.now.left.now }
        requires eleven { length self.now.values.now.values ≡ 11 }
        requires behind { 0 < place_of field }
        requires early { place_of field < 4 }
        requires long { end_of field ≤ value_at Length self.now.values.now }
        requires few { length self.now.left.now ≤ 402 }
        ensures { (least : ℕ) → AreCovering (map side_by self.now.sides.now.sides.now) self.now.left.now
            least field self.now.values.now choices.new.items }
    {
        put_only(choices, self.first_type(field));
        for ethertype in &TYPES {
            self.put_type(choices, field, *ethertype);
        }
        self.put_spare_type(choices, field);
        self.put_inputs(choices, field);
        self.put_named_types(choices, field);
    }

    /// Whether nothing asks for a type: no row that is left names it, it begins no tag, and no filter asks for it.
    fn is_spare(&self, field: Field, ethertype: u16) -> bool
        ensures { result ≡ is_spare (map side_by self.now.sides.now.sides.now) self.now.rows.now self.now.left.now field
            ethertype }
    {
        !self.is_named(field, ethertype)
            && (!self.begins_tag(ethertype) && !is_known_type(ethertype))
    }

    /// Puts the first type that nothing asks for behind the others, if it is like none of them.
    fn put_spare_type(&self, choices: &mut Choices, field: Field)
        requires room { array_vec_len choices.old < 600 }
        ensures kept { (c : ℕ) → Contains choices.old.items c → Contains choices.new.items c }
        ensures fit { All (λ c. c < 2 ^ 16) choices.old.items → All (λ c. c < 2 ^ 16) choices.new.items }
        ensures spare { (v : ℕ) → v < 2 ^ 16
            → is_spare (map side_by self.now.sides.now.sides.now) self.now.rows.now self.now.left.now field v ≡ true
            → HasSpare (map side_by self.now.sides.now.sides.now) self.now.rows.now self.now.left.now field
            self.now.values.now choices.new.items }
        ensures len { array_vec_len choices.new ≤ array_vec_len choices.old + 1 }
    {
        for number in 0..0x1_0000u32 {
            let ethertype = ((SPARE + number) % 0x1_0000) as u16;
            if self.is_spare(field, ethertype) {
                self.put(choices, field, ethertype);
                return;
            }
        }
    }

    /// Puts each type that is named.
    fn put_named_types(&self, choices: &mut Choices, field: Field)
        requires { length choices.old.items + length self.now.left.now ≤ 600 }
        ensures kept { (c : ℕ) → Contains choices.old.items c → Contains choices.new.items c }
        ensures fit { All (λ c. c < 2 ^ 16) choices.old.items → All (λ c. c < 2 ^ 16) choices.new.items }
        ensures named { (c : ℕ) → is_named self.now.rows.now self.now.left.now field c ≡ true
            → Contains choices.new.items c }
    {
        for place in self.left.iter() {
            self.put_named_type_at(choices, place, field);
        }
    }

    /// Puts the type that the row at a place names, if there is one.
    fn put_named_type_at(&self, choices: &mut Choices, place: usize, field: Field)
        requires { array_vec_len choices.old < 600 }
        ensures kept { (c : ℕ) → Contains choices.old.items c → Contains choices.new.items c }
        ensures fit { All (λ c. c < 2 ^ 16) choices.old.items → All (λ c. c < 2 ^ 16) choices.new.items }
        ensures named { (c : ℕ) → test_at (λ row. is_value c (named_by (ask_at row field))) false self.now.rows.now place
            ≡ true → Contains choices.new.items c }
        ensures len { length choices.new.items ≤ length choices.old.items + 1 }
    {
        if let Some(ethertype) = self.named_at(place, field) {
            put_once(choices, ethertype);
        }
    }

    /// Puts the input TPID of each side.
    fn put_inputs(&self, choices: &mut Choices, field: Field)
        requires beside { AreBeside self.now.sides.now.sides.now self.now.rows.now
            self.now.sides.now.ends }
        requires room { length choices.old.items ≤ 500 }
        ensures len { length choices.new.items ≤ length choices.old.items + 3 }
        ensures kept { (c : ℕ) → Contains choices.old.items c → Contains choices.new.items c }
        ensures fit { All (λ c. c < 2 ^ 16) choices.old.items → All (λ c. c < 2 ^ 16) choices.new.items }
        ensures stands { All (λ side. Any (λ c. (c ≡ side.settings.input_tpid)
            ⊎ (((begins_tag (map side_by self.now.sides.now.sides.now) side.settings.input_tpid ≡ false ⊎ (length self.now.sides.now.sides.now ≤ 1))
            ⊎ (place_of field ≡ 3)) × (are_alike self.now.rows.now self.now.left.now self.now.values.now field c side.settings.input_tpid ≡ true)))
            choices.new.items) (map side_by self.now.sides.now.sides.now) }
    {
        for side in self.sides.sides {
            self.put_type(choices, field, side.settings.input_tpid);
        }
    }

    /// Whether a tag that begins with a field's type may leave several sides with other bytes: behind two tags none does.
    fn tells_tags(&self, field: Field) -> bool
        ensures { result ≡ false → (length self.now.sides.now.sides.now ≤ 1) ⊎ (place_of field ≡ 3) }
    {
        self.sides.count() > 1 && field.place() != Field::ThirdType.place()
    }

    /// Puts a type behind the others: of several sides each that begins a tag, and any other if it is like none of them.
    fn put_type(&self, choices: &mut Choices, field: Field, ethertype: u16)
        requires room { array_vec_len choices.old < 600 }
        ensures kept { (c : ℕ) → Contains choices.old.items c → Contains choices.new.items c }
        ensures only { (c : ℕ) → Contains choices.new.items c
            → Contains choices.old.items c ⊎ (c ≡ ethertype) }
        ensures stands { Any (λ c. (c ≡ ethertype)
            ⊎ (((begins_tag (map side_by self.now.sides.now.sides.now) ethertype ≡ false ⊎ (length self.now.sides.now.sides.now ≤ 1))
            ⊎ (place_of field ≡ 3)) × (are_alike self.now.rows.now self.now.left.now self.now.values.now field c ethertype ≡ true)))
            choices.new.items }
        ensures len { array_vec_len choices.new ≤ array_vec_len choices.old + 1 }
    {
        if self.tells_tags(field) && self.begins_tag(ethertype) {
            return put_once(choices, ethertype);
        }
        self.put(choices, field, ethertype);
    }

    /// Puts lengths, each the greatest of those that rows don't tell apart, in frames of at least so many bytes.
    fn put_lengths(&self, choices: &mut Choices, least: usize)
        requires none { choices.old.items ≡ [] }
        requires beside { AreBeside self.now.sides.now.sides.now self.now.rows.now
            self.now.sides.now.ends }
        requires left { AreLeftOf (map side_by self.now.sides.now.sides.now) [] self.now.values.now
            self.now.left.now }
        ensures { AreCovering (map side_by self.now.sides.now.sides.now) self.now.left.now
            least Length self.now.values.now choices.new.items }
    {
        for length in &LENGTHS {
            self.put_length(choices, *length, least);
        }
    }

    /// Puts a length that a frame of at least so many bytes can have behind the others, if it is like none of them.
    fn put_length(&self, choices: &mut Choices, length: u16, least: usize)
        requires { array_vec_len choices.old < 600 }
        ensures kept { (c : ℕ) → Contains choices.old.items c → Contains choices.new.items c }
        ensures only { (c : ℕ) → Contains choices.new.items c
            → Contains choices.old.items c ⊎ ((c ≡ length) × IsTried least length) }
        ensures stands { IsTried least length → Any (λ c. (c ≡ length) ⊎ (are_alike self.now.rows.now
            self.now.left.now self.now.values.now Length c length ≡ true)) choices.new.items }
        ensures len { array_vec_len choices.new ≤ array_vec_len choices.old + 1 }
    {
        if length == LONG {
            return self.put(choices, Field::Length, length);
        }
        if least <= usize::from(length) {
            self.put(choices, Field::Length, length);
        }
    }

    /// Puts numbers under `end`: all where a row asks for one or depends on them; else as many as there are sides, or one where
    /// that stands for all.
    fn put_numbers(&self, choices: &mut Choices, field: Field, end: u16)
        requires none { choices.old.items ≡ [] }
        requires beside { AreBeside self.now.sides.now.sides.now self.now.rows.now
            self.now.sides.now.ends }
        requires same { self.now.rows.now ≡ self.now.sides.now.rows.now }
        requires left { AreLeftOf (map side_by self.now.sides.now.sides.now) (take (place_of field) fields) self.now.values.now
            self.now.left.now }
        requires eleven { length self.now.values.now.values ≡ 11 }
        requires late { 6 < place_of field }
        requires end { end ≡ limit_of field }
        requires few { end ≤ 8 }
        requires long { end_of field ≤ value_at Length self.now.values.now }
        ensures { (least : ℕ) → AreCovering (map side_by self.now.sides.now.sides.now) self.now.left.now
            least field self.now.values.now choices.new.items }
    {
        if self.is_read(field) || self.is_asked(field) {
            return put_up_to(choices, end);
        }
        if self.is_settled(field) {
            return put_only(choices, self.values.plain(field));
        }
        self.put_several(choices, field, end);
    }

    /// Whether one value of a priority, or of a drop eligible indicator, that no row asks or ends by stands for all.
    fn is_settled(&self, field: Field) -> bool
        requires beside { AreBeside self.now.sides.now.sides.now self.now.rows.now
            self.now.sides.now.ends }
        requires same { self.now.rows.now ≡ self.now.sides.now.rows.now }
        ensures { result ≡ is_settled (map side_by self.now.sides.now.sides.now) self.now.left.now field }
    {
        match self.sides.count() {
            0 | 1 => true,
            2 => self.are_settled(0, 1, field),
            _ => self.are_settled(1, 0, field) && self.are_settled(1, 2, field),
        }
    }

    /// And for two sides.
    fn are_settled(&self, one: usize, other: usize, field: Field) -> bool
        requires beside { AreBeside self.now.sides.now.sides.now self.now.rows.now
            self.now.sides.now.ends }
        requires same { self.now.rows.now ≡ self.now.sides.now.rows.now }
        requires one { one < 3 }
        requires other { other < 3 }
        ensures { result ≡ are_settled (map side_by self.now.sides.now.sides.now) self.now.left.now field one other }
    {
        match (
            self.sides.first(self.left, one),
            self.sides.first(self.left, other),
        ) {
            (Some(row), Some(beside)) => are_rows_settled(field, row, beside),
            _ => false,
        }
    }

    /// Puts as many values under `end` as there are sides, or all if they are fewer, first the one that one sends.
    fn put_several(&self, choices: &mut Choices, field: Field, end: u16)
        requires none { choices.old.items ≡ [] }
        requires beside { AreBeside self.now.sides.now.sides.now self.now.rows.now
            self.now.sides.now.ends }
        requires end { end ≡ limit_of field }
        requires some { 2 ≤ end }
        ensures fit { All (λ c. c < end) choices.new.items }
        ensures several { HasSeveral (length self.now.sides.now.sides.now) (λ c. Contains choices.new.items c)
            ⊎ ((v : ℕ) → v < end → Contains choices.new.items v) }
    {
        let plain = self.values.plain(field);
        for number in 0..(self.sides.count() as u16).min(end) {
            choices.push((plain + number) % end);
        }
    }

    /// Puts as many VIDs as there are sides, or as many for each DSCP where a row depends on it, beside those that are named; and
    /// those.
    fn put_vids(&self, choices: &mut Choices, field: Field)
        requires none { choices.old.items ≡ [] }
        requires beside { AreBeside self.now.sides.now.sides.now self.now.rows.now
            self.now.sides.now.ends }
        requires left { AreLeftOf (map side_by self.now.sides.now.sides.now) (take (place_of field) fields) self.now.values.now
            self.now.left.now }
        requires eleven { length self.now.values.now.values ≡ 11 }
        requires behind { 3 < place_of field }
        requires early { place_of field < 7 }
        requires long { end_of field ≤ value_at Length self.now.values.now }
        requires few { length self.now.left.now ≤ 402 }
        ensures { (least : ℕ) → AreCovering (map side_by self.now.sides.now.sides.now) self.now.left.now
            least field self.now.values.now choices.new.items }
    {
        let packet = self.values.packet(field);
        if self.is_told_by_dscp(field, packet) {
            return self.put_vids_by_dscp(choices, field, packet);
        }
        if self.is_asked(field) {
            return self.put_vids_by_name(choices, field);
        }
        self.put_several(choices, field, 4096);
    }

    /// Whether a row that is left depends on the DSCP of a packet, which is in a field.
    fn is_told_by_dscp(&self, field: Field, packet: Packet) -> bool
        ensures { result ≡ (has_dscp packet
            && is_read self.now.rows.now self.now.left.now field) }
    {
        packet.has_dscp() && self.is_read(field)
    }

    /// Puts each VID that is named, and before them as many that aren't as there are sides.
    fn put_vids_by_name(&self, choices: &mut Choices, field: Field)
        requires none { choices.old.items ≡ [] }
        requires beside { AreBeside self.now.sides.now.sides.now self.now.rows.now
            self.now.sides.now.ends }
        requires few { length self.now.left.now ≤ 402 }
        ensures fit { All (λ c. c < 2 ^ 12) choices.new.items }
        ensures named { (c : ℕ) → c < 2 ^ 12
            → is_named self.now.rows.now self.now.left.now field c ≡ true → Contains choices.new.items c }
        ensures others { (v : ℕ) → v < 2 ^ 12 → is_named self.now.rows.now self.now.left.now field v ≡ false
            → Contains choices.new.items v ⊎ HasSeveral (length self.now.sides.now.sides.now)
            (λ c. Contains choices.new.items c × (is_named self.now.rows.now self.now.left.now field c ≡ false)) }
    {
        self.put_unnamed(choices, field);
        self.put_named(choices, field);
    }

    /// Puts each VID that is named, and before them for each DSCP as many that aren't as there are sides.
    fn put_vids_by_dscp(&self, choices: &mut Choices, field: Field, packet: Packet)
        requires none { choices.old.items ≡ [] }
        requires beside { AreBeside self.now.sides.now.sides.now self.now.rows.now
            self.now.sides.now.ends }
        requires few { length self.now.left.now ≤ 402 }
        requires has { has_dscp packet ≡ true }
        ensures fit { All (λ c. c < 2 ^ 12) choices.new.items }
        ensures named { (c : ℕ) → c < 2 ^ 12
            → is_named self.now.rows.now self.now.left.now field c ≡ true → Contains choices.new.items c }
        ensures others { (v : ℕ) → v < 2 ^ 12 → is_named self.now.rows.now self.now.left.now field v ≡ false
            → Contains choices.new.items v ⊎ HasSeveral (length self.now.sides.now.sides.now)
            (λ c. Contains choices.new.items c × IsUnnamed self.now.rows.now self.now.left.now field packet (dscp_in packet v) c) }
    {
        self.put_each_dscp(choices, field, packet);
        self.put_named(choices, field);
    }

    /// Puts each VID that is named.
    fn put_named(&self, choices: &mut Choices, field: Field)
        requires { length choices.old.items + length self.now.left.now ≤ 600 }
        ensures kept { (c : ℕ) → Contains choices.old.items c → Contains choices.new.items c }
        ensures fit { All (λ c. c < 2 ^ 12) choices.old.items → All (λ c. c < 2 ^ 12) choices.new.items }
        ensures named { (c : ℕ) → c < 2 ^ 12
            → is_named self.now.rows.now self.now.left.now field c ≡ true
            → Contains choices.new.items c }
    {
        for place in self.left.iter() {
            self.put_named_at(choices, place, field);
        }
    }

    /// Puts the VID that the row at a place names, if there is one.
    fn put_named_at(&self, choices: &mut Choices, place: usize, field: Field)
        requires { array_vec_len choices.old < 600 }
        ensures kept { (c : ℕ) → Contains choices.old.items c → Contains choices.new.items c }
        ensures fit { All (λ c. c < 2 ^ 12) choices.old.items → All (λ c. c < 2 ^ 12) choices.new.items }
        ensures named { (c : ℕ) → c < 2 ^ 12
            → test_at (λ row. is_value c (named_by (ask_at row field))) false self.now.rows.now place ≡ true
            → Contains choices.new.items c }
        ensures len { length choices.new.items ≤ length choices.old.items + 1 }
    {
        if let Some(vid) = self.named_at(place, field) {
            put_vid(choices, vid);
        }
    }

    /// Puts the first VIDs that aren't named, of those that one sends first, as many as there are sides.
    fn put_unnamed(&self, choices: &mut Choices, field: Field)
        requires beside { AreBeside self.now.sides.now.sides.now self.now.rows.now
            self.now.sides.now.ends }
        requires none { choices.old.items ≡ [] }
        ensures fit { All (λ c. c < 2 ^ 12) choices.new.items }
        ensures others { (v : ℕ) → v < 2 ^ 12 → is_named self.now.rows.now self.now.left.now field v ≡ false
            → Contains choices.new.items v ⊎ HasSeveral (length self.now.sides.now.sides.now)
            (λ c. Contains choices.new.items c × (is_named self.now.rows.now self.now.left.now field c ≡ false)) }
        ensures len { length choices.new.items ≤ 3 }
    {
        for number in 0..4096u16 {
            if choices.len() >= self.sides.count() {
                return;
            }
            self.put_if_unnamed(choices, field, (number + 1) % 4096);
        }
    }

    /// Puts a VID, if no row that is left names it.
    fn put_if_unnamed(&self, choices: &mut Choices, field: Field, vid: u16)
        requires { array_vec_len choices.old < 600 }
        ensures { choices.new.items ≡ (if is_named self.now.rows.now self.now.left.now field vid then choices.old.items else choices.old.items ++ vid ∷ []) }
    {
        if !self.is_named(field, vid) {
            choices.push(vid);
        }
    }

    /// Puts for each DSCP that a packet may have the first VIDs that aren't named and have it, as many as there are sides.
    fn put_each_dscp(&self, choices: &mut Choices, field: Field, packet: Packet)
        requires beside { AreBeside self.now.sides.now.sides.now self.now.rows.now
            self.now.sides.now.ends }
        requires none { choices.old.items ≡ [] }
        requires has { has_dscp packet ≡ true }
        ensures fit { All (λ c. c < 2 ^ 12) choices.new.items }
        ensures others { (v : ℕ) → v < 2 ^ 12 → is_named self.now.rows.now self.now.left.now field v ≡ false
            → Contains choices.new.items v ⊎ HasSeveral (length self.now.sides.now.sides.now)
            (λ c. Contains choices.new.items c × IsUnnamed self.now.rows.now self.now.left.now field packet (dscp_in packet v) c) }
        ensures len { length choices.new.items ≤ 192 }
    {
        for dscp in 0..64u16 {
            self.put_dscp(choices, field, packet, dscp);
        }
    }

    /// Puts the first VIDs that aren't named and have a DSCP, under 64, as many as there are sides.
    fn put_dscp(&self, choices: &mut Choices, field: Field, packet: Packet, dscp: u16)
        requires beside { AreBeside self.now.sides.now.sides.now self.now.rows.now
            self.now.sides.now.ends }
        requires room { length choices.old.items ≤ 500 }
        requires dscp { dscp < 64 }
        requires has { has_dscp packet ≡ true }
        ensures kept { (c : ℕ) → Contains choices.old.items c → Contains choices.new.items c }
        ensures fit { All (λ c. c < 2 ^ 12) choices.old.items → All (λ c. c < 2 ^ 12) choices.new.items }
        ensures others { (v : ℕ) → v < 2 ^ 12 → dscp_in packet v ≡ Some dscp → is_named self.now.rows.now self.now.left.now field v ≡ false
            → Contains choices.new.items v ⊎ HasSeveral (length self.now.sides.now.sides.now)
            (λ c. Contains choices.new.items c × IsUnnamed self.now.rows.now self.now.left.now field packet (Some dscp) c) }
        ensures len { length choices.new.items ≤ length choices.old.items + 3 }
    {
        let enough = choices.len() + self.sides.count();
        for other in 0..64u16 {
            if choices.len() >= enough {
                return;
            }
            self.put_if_unnamed(choices, field, packet.bits(dscp, other));
        }
    }
}

/// Puts the numbers under `end`.
fn put_up_to(choices: &mut Choices, end: u16)
    requires none { choices.old.items ≡ [] }
    requires few { end ≤ 8 }
    ensures { choices.new.items ≡ range_with_len 0 end }
{
    for number in 0..end {
        choices.push(number);
    }
}

/// Puts a value, if it isn't there.
fn put_once(choices: &mut Choices, value: u16)
    requires { array_vec_len choices.old < 600 }
    ensures kept { (c : ℕ) → Contains choices.old.items c → Contains choices.new.items c }
    ensures only { (c : ℕ) → Contains choices.new.items c → Contains choices.old.items c ⊎ (c ≡ value) }
    ensures there { Contains choices.new.items value }
    ensures len { length choices.new.items ≤ length choices.old.items + 1 }
{
    if !choices.contains(&value) {
        choices.push(value);
    }
}

/// Puts a VID, if it is one and isn't there.
fn put_vid(choices: &mut Choices, vid: u16)
    requires { array_vec_len choices.old < 600 }
    ensures kept { (c : ℕ) → Contains choices.old.items c → Contains choices.new.items c }
    ensures fit { All (λ c. c < 2 ^ 12) choices.old.items → All (λ c. c < 2 ^ 12) choices.new.items }
    ensures there { vid < 2 ^ 12 → Contains choices.new.items vid }
    ensures len { length choices.new.items ≤ length choices.old.items + 1 }
{
    if vid < 4096 && !choices.contains(&vid) {
        choices.push(vid);
    }
}
