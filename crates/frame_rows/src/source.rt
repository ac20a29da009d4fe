//! Where the priority of a frame comes from.
ghost use Rattle.std.specs.Prelude.{◌≡◌, ◌==◌, if◌then◌else◌};
ghost use Rattle.frame_rows.specs.Field.{place_of};

use crate::field::{Field, Values};
use pmapper::Mapper;
use tag_view::DscpMap;
use vlan_rule::{PrioritySource, Retag, TableSettings};

/// Where the priority comes from by which a frame finds its GEM port.
#[derive(Clone, Copy, Debug, PartialEq, Eq)]
pub enum Source {
    /// It is this one, under 8.
    Fixed(u8),
    /// That of the first tag.
    FirstTag,
    /// That of the second tag.
    SecondTag,
    /// That of the DSCP behind so many tags, by a mapping.
    Dscp(DscpSource),
}

/// A priority by the DSCP.
#[derive(Clone, Copy, Debug, PartialEq, Eq)]
pub struct DscpSource {
    /// How many tags stand before the packet that has the DSCP.
    pub tags: u8,
    /// Which priority each DSCP has.
    pub map: DscpMap,
    /// The priority of a frame without a DSCP, under 8.
    pub without: u8,
}

/// Which packets have a DSCP, by their type.
#[derive(Clone, Copy, Debug, PartialEq, Eq)]
pub enum Packet {
    Ipv4,
    Ipv6,
    Other,
}

impl Packet {
    ghost use Rattle.std.specs.Prelude.{◌≡◌, ◌<◌, ◌^◌, IfSome};
    ghost use Rattle.frame_rows.specs.Source.{bits_by, dscp_in, has_dscp, packet_of};
    ghost use Rattle.frame_rows.specs.Words.{first_bits};
    ghost use Rattle.frame_rows.specs.Row.{packet_number};

    /// The packet of a type.
    pub(crate) fn of(ethertype: u16) -> Packet
        ensures { result ≡ packet_of ethertype }
    {
        match ethertype {
            0x0800 => Packet::Ipv4,
            0x86dd => Packet::Ipv6,
            _ => Packet::Other,
        }
    }

    /// The DSCP of a packet whose first two bytes have these low twelve bits.
    pub(crate) fn dscp(self, bits: u16) -> Option<u8>
        ensures value { result ≡ dscp_in self bits }
        ensures bound { IfSome result (λ dscp. dscp < 64) }
    {
        match self {
            Packet::Ipv4 => Some((bits / 4 % 64) as u8),
            Packet::Ipv6 => Some((bits / 64 % 64) as u8),
            Packet::Other => None,
        }
    }

    /// Whether it has a DSCP.
    pub fn has_dscp(self) -> bool
        ensures { result ≡ has_dscp self }
    {
        match self {
            Packet::Ipv4 | Packet::Ipv6 => true,
            Packet::Other => false,
        }
    }

    /// Twelve bits of a DSCP, under 64, and the other bits, in the order in which one sends them first.
    pub fn bits(self, dscp: u16, other: u16) -> u16
        requires dscp { dscp < 64 }
        requires other { other < 64 }
        ensures value { result ≡ bits_by self dscp other }
        ensures bound { result < 2 ^ 12 }
    {
        match self {
            Packet::Ipv4 => (5 + other / 4) % 16 * 0x100 + dscp * 4 + other % 4,
            _ => dscp * 0x40 + other,
        }
    }

    /// A number of its own.
    fn number(self) -> u16
        ensures { result ≡ packet_number self }
    {
        match self {
            Packet::Ipv4 => 0,
            Packet::Ipv6 => 1,
            Packet::Other => 2,
        }
    }

    /// The four bits with which a packet begins, in a word of sixteen.
    pub(crate) fn first_bits(self) -> u16
        ensures { result ≡ first_bits self }
    {
        match self {
            Packet::Ipv4 => 0x4000,
            Packet::Ipv6 => 0x6000,
            Packet::Other => 0,
        }
    }
}

/// The value where the field is that one, and 0 elsewhere.
fn value_at_field(field: Field, only: Field, value: u16) -> u16
    ensures { result ≡ (if place_of field == place_of only then value else 0) }
{
    match field.place() == only.place() {
        true => value,
        false => 0,
    }
}

impl DscpSource {
    ghost use Rattle.std.specs.Prelude.{◌≡◌, ◌==◌, ◌+◌, ◌*◌, ◌<◌, IfSome};
    ghost use Rattle.frame_rows.specs.Field.{place_of, vid_behind};
    ghost use Rattle.frame_rows.specs.Source.{dscp_behind, mapped};
    ghost use Rattle.frame_rows.specs.Row.{dscp_reads};

    /// The least length of a frame that has the two bytes of the DSCP.
    pub(crate) fn length(&self) -> u16
        ensures { result ≡ 16 + 4 * self.now.tags }
    {
        16 + 4 * u16::from(self.tags)
    }

    /// The priority of frames with these values.
    pub(crate) fn priority(&self, values: &Values) -> u8
        ensures { result ≡ mapped self.now (dscp_behind self.now.tags values.now) }
    {
        match self.dscp(values) {
            Some(dscp) => self.map.get(dscp),
            None => self.without,
        }
    }

    /// The DSCP of frames with these values.
    fn dscp(&self, values: &Values) -> Option<u8>
        ensures value { result ≡ dscp_behind self.now.tags values.now }
        ensures bound { IfSome result (λ dscp. dscp < 64) }
    {
        if values.get(Field::Length) < self.length() {
            return None;
        }
        let packet = Packet::of(values.get(Field::type_behind(self.tags)));
        packet.dscp(values.get(Field::vid_behind(self.tags)))
    }

    /// Whether the priority of frames depends on each value of a field that isn't a type or the length.
    pub(crate) fn reads_all(&self, field: Field) -> bool
        ensures { result ≡ (place_of field == place_of (vid_behind self.now.tags)) }
    {
        field.place() == Field::vid_behind(self.tags).place()
    }

    /// What the priority of frames depends on in a field, where it has this value and the fields before it those.
    pub(crate) fn reads(&self, values: &Values, field: Field, value: u16) -> u16
        ensures { result ≡ dscp_reads self.now values.now field value }
    {
        let place = field.place();
        if place == Field::Length.place() {
            return u16::from(self.length() <= value);
        }
        if place == Field::type_behind(self.tags).place() {
            return Packet::of(value).number();
        }
        if place == Field::vid_behind(self.tags).place() {
            return u16::from(self.priority(&values.with(field, value)));
        }
        0
    }
}

impl Source {
    ghost use Rattle.std.specs.Prelude.{◌≡◌};
    ghost use Rattle.pmapper.specs.Mapper.{unmarked_of};
    ghost use Rattle.frame_rows.specs.Source.{added_source, innermost_source, kept_source, left_source, outermost_source, priority_by, treated_source, unmarked_source};
    ghost use Rattle.frame_rows.specs.Row.{source_reads};
    ghost use Rattle.frame_rows.specs.Alike.{source_reads_all};

    /// The priority of frames with these values.
    pub(crate) fn priority(&self, values: &Values) -> u8
        ensures { result ≡ priority_by self.now values.now }
    {
        match self {
            Source::Fixed(priority) => *priority,
            Source::FirstTag => (values.get(Field::FirstPriority) % 8) as u8,
            Source::SecondTag => (values.get(Field::SecondPriority) % 8) as u8,
            Source::Dscp(source) => source.priority(values),
        }
    }

    /// What the priority of frames depends on in a field, where it has this value and the fields before it those: frames that
    /// agree in this for each field have one priority.
    pub(crate) fn reads(&self, values: &Values, field: Field, value: u16) -> u16
        ensures { result ≡ source_reads self.now values.now field value }
    {
        match self {
            Source::Fixed(_) => 0,
            Source::FirstTag => value_at_field(field, Field::FirstPriority, value),
            Source::SecondTag => value_at_field(field, Field::SecondPriority, value),
            Source::Dscp(source) => source.reads(values, field, value),
        }
    }

    /// Whether the priority of frames depends on each value of a field that isn't a type or the length.
    pub(crate) fn reads_all(&self, field: Field) -> bool
        ensures { result ≡ source_reads_all self.now field }
    {
        let place = field.place();
        match self {
            Source::Fixed(_) => false,
            Source::FirstTag => place == Field::FirstPriority.place(),
            Source::SecondTag => place == Field::SecondPriority.place(),
            Source::Dscp(source) => source.reads_all(field),
        }
    }

    /// That of frames with so many tags, which leave without one.
    fn unmarked(mapper: &Mapper, tags: u8) -> Source
        ensures { result ≡ unmarked_source (unmarked_of mapper.now) tags }
    {
        let without = mapper.default_p_bit_assumption % 8;
        match mapper.unmarked_frame_option {
            0 => Source::Dscp(DscpSource {
                tags,
                map: mapper.dscp_map,
                without,
            }),
            _ => Source::Fixed(without),
        }
    }

    /// That of frames with so many tags, of which the first leaves.
    fn outermost(tags: u8) -> Source
        ensures { result ≡ outermost_source tags }
    {
        match tags {
            0 => Source::Fixed(0),
            _ => Source::FirstTag,
        }
    }

    /// That of frames with so many tags, of which the last leaves.
    fn innermost(tags: u8) -> Source
        ensures { result ≡ innermost_source tags }
    {
        match tags {
            0 => Source::Fixed(0),
            1 => Source::FirstTag,
            _ => Source::SecondTag,
        }
    }

    /// That of frames with so many tags, which leave with an added one outside.
    fn added(priority: PrioritySource, settings: &TableSettings, tags: u8) -> Source
        ensures { result ≡ added_source priority settings.now tags }
    {
        match priority {
            PrioritySource::Fixed(priority) => Source::Fixed(priority),
            PrioritySource::Inner => Source::innermost(tags),
            PrioritySource::Outer => Source::outermost(tags),
            PrioritySource::Dscp => Source::Dscp(DscpSource {
                tags,
                map: settings.dscp_map,
                without: 0,
            }),
        }
    }

    /// That of frames with so many tags, which leave as they came.
    pub(crate) fn kept(mapper: &Mapper, tags: u8) -> Source
        ensures { result ≡ kept_source (unmarked_of mapper.now) tags }
    {
        match tags {
            0 => Source::unmarked(mapper, tags),
            _ => Source::FirstTag,
        }
    }

    /// That of frames with so many tags, which leave by a treatment.
    pub(crate) fn treated(
        retag: &Retag,
        settings: &TableSettings,
        mapper: &Mapper,
        tags: u8,
    ) -> Source
        ensures { result ≡ treated_source retag.now settings.now (unmarked_of mapper.now) tags }
    {
        match (&retag.outer, &retag.inner) {
            (Some(added), _) => Source::added(added.priority, settings, tags),
            (None, Some(added)) => Source::added(added.priority, settings, tags),
            (None, None) => Source::left(retag.remove, mapper, tags),
        }
    }

    /// That of frames with so many tags, which leave without so many of the first.
    fn left(remove: u8, mapper: &Mapper, tags: u8) -> Source
        ensures { result ≡ left_source remove (unmarked_of mapper.now) tags }
    {
        if tags <= remove {
            return Source::unmarked(mapper, tags);
        }
        match remove {
            0 => Source::FirstTag,
            _ => Source::SecondTag,
        }
    }
}
