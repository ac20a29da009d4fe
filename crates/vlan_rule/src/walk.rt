//! Which entry is used for a frame, found by looking at each.
ghost use Rattle.std.specs.Prelude.{◌≡◌, length, map};
ghost use Rattle.vlan_rule.specs.Best.{better, IsBest};
ghost use Rattle.vlan_rule.specs.Choice.{matches, rank_at};

use crate::table::{Row, RuleTable};
use tag_view::{FrameView, Tag};

impl RuleTable {
    ghost use Rattle.tag_view.specs.Frame.{type_at};
    ghost use Rattle.vlan_rule.specs.Choice.{choice, IsChoice};

    /// The place of the entry that is used for a frame, or None where none matches it: of those
    /// that match, the first of least rank. It looks at every entry. That None drops the frame is a
    /// choice of this project.
    #[tactic(auto, using(crate::proofs::Computed::is_computed))]
    pub fn walk(&self, frame: &FrameView<'_>, input_tpid: u16) -> Option<usize>
        ensures used { IsChoice
            (matches input_tpid frame.now.tags (type_at 0 frame.now.rest))
            self.now result }
        ensures computed { result
            ≡ choice (matches input_tpid frame.now.tags (type_at 0 frame.now.rest)) self.now }
    {
        self.chosen(frame.tags(), frame.ethertype(), input_tpid)
    }

    /// The place of the entry that is used for these tags and the type behind them.
    fn chosen(&self, tags: &[Tag], ethertype: u16, input_tpid: u16) -> Option<usize>
        ensures { IsChoice (matches input_tpid tags.now ethertype) self.now result }
    {
        let (_, place) = best(&self.rows, tags, ethertype, input_tpid)?;
        Some(place)
    }
}

/// The least rank and place of the rows that match.
fn best(rows: &[Row], tags: &[Tag], ethertype: u16, input_tpid: u16) -> Option<(u8, usize)>
    ensures { IsBest
        (matches input_tpid tags.now ethertype)
        (map (λ row. row.entry.0) rows.now)
        (length rows.now) result }
{
    let mut best = None;
    for (place, row) in rows.iter().enumerate() {
        let matches = row.rule.matches(tags, ethertype, input_tpid);
        best = better(best, matches, row.rank(), place);
    }
    best
}

/// The best so far, or what comes after it where that passes and its rank is less.
fn better(best: Option<(u8, usize)>, passes: bool, rank: u8, place: usize) -> Option<(u8, usize)>
    ensures { result ≡ better passes rank place best }
{
    match best {
        _ if !passes => best,
        Some((least, _)) if least <= rank => best,
        _ => Some((rank, place)),
    }
}
