//! The tags that frames leave with, by their values.
ghost use Rattle.std.specs.Prelude.{◌≡◌, ◌+◌, ◌≤◌, IsTrue, length};
ghost use Rattle.tag_view.specs.Word.{word_of};
ghost use Rattle.treatment.specs.Treatment.{dscp_priority, inner_of, outer_of};
ghost use Rattle.frame_rows.specs.Fits.{row_fits};
ghost use Rattle.frame_rows.specs.Source.{dscp_behind};
ghost use Rattle.frame_rows.specs.Sight.{first_slot, leaving, second_slot, slots, written};

use crate::field::{Field, Values};
use crate::row::Row;
use crate::rows::Rows;
use crate::source::DscpSource;
use arrayvec::ArrayVec;
use tag_view::{DscpMap, MISSING_WORD, Tag};
use treatment::Treat;
use vlan_rule::Treatment;

impl Values {
    /// The four bytes behind the addresses, as a tag.
    fn first_slot(&self) -> Tag
        ensures { result ≡ first_slot self.now }
    {
        Tag::new(
            self.get(Field::FirstType),
            (self.get(Field::FirstPriority) % 8) as u8,
            self.get(Field::FirstEligible) == 1,
            self.get(Field::FirstVid) % 4096,
        )
    }

    /// The four bytes behind a first tag, as a tag.
    fn second_slot(&self) -> Tag
        ensures { result ≡ second_slot self.now }
    {
        Tag::new(
            self.get(Field::SecondType),
            (self.get(Field::SecondPriority) % 8) as u8,
            self.get(Field::SecondEligible) == 1,
            self.get(Field::SecondVid) % 4096,
        )
    }

    /// The word of the first of so many tags, or of the tag that stands for a missing one.
    fn first_word(&self, tags: u8) -> u32
        ensures { result ≡ word_of (outer_of (slots tags self.now)) }
    {
        match tags {
            0 => MISSING_WORD,
            _ => self.first_slot().word(),
        }
    }

    /// And of the last, where they are two at most.
    fn last_word(&self, tags: u8) -> u32
        ensures { result ≡ word_of (inner_of (slots tags self.now)) }
    {
        match tags {
            0 => MISSING_WORD,
            1 => self.first_slot().word(),
            _ => self.second_slot().word(),
        }
    }

    /// The priority that a mapping has for the DSCP behind so many tags. Without one it is 0.
    fn marking(&self, tags: u8, map: DscpMap) -> u8
        ensures { result ≡ dscp_priority map.0 (dscp_behind tags self.now) }
    {
        let source = DscpSource {
            tags,
            map,
            without: 0,
        };
        source.priority(self)
    }
}

impl Rows {
    /// The tags that the frames of a row leave with, which have these values.
    fn written(&self, row: &Row, values: &Values) -> ArrayVec<Tag, 4>
        requires { IsTrue (row_fits self.now.settings.input_tpid row.now) }
        ensures items { result.items ≡ written self.now.settings row.now values.now }
        ensures few { length result.items ≤ 2 + row.now.tags }
    {
        let mut tags = ArrayVec::new();
        let treatment = Treatment::Retag(row.retag);
        let Some(treat) = Treat::of(&treatment, &self.settings, usize::from(row.tags)) else {
            return tags;
        };
        let words = treat.words(
            values.first_word(row.tags),
            values.last_word(row.tags),
            values.marking(row.tags, self.settings.dscp_map),
        );
        for word in &words[..treat.count()] {
            tags.push(Tag::of_word(*word));
        }
        tags
    }

    /// The tags that the frames of a row leave with, which have these values, and the bytes behind them that stand for tags, where
    /// so many are looked at: at least those that the row reads, and at most two.
    pub fn leaving(&self, row: &Row, values: &Values, count: u8) -> ArrayVec<Tag, 4>
        requires fits { IsTrue (row_fits self.now.settings.input_tpid row.now) }
        requires enough { row.now.tags ≤ count }
        requires two { count ≤ 2 }
        ensures { result.items ≡ leaving self.now.settings count row.now values.now }
    {
        let mut tags = self.written(row, values);
        if row.tags == 0 && count > 0 {
            tags.push(values.first_slot());
        }
        if row.tags < 2 && count == 2 {
            tags.push(values.second_slot());
        }
        tags
    }
}
