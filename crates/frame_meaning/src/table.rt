//! What the table of a port does with its frames (ITU-T G.988, clause 9.3.13).
ghost use Rattle.std.specs.Prelude.{◌≡◌, ◌≤◌, Ok, Err, IfOk, IfErr, length};
ghost use Rattle.frame_meaning.specs.Meaning.{input_tpid_of, tags_at};

use crate::reason::Reason;
use arrayvec::ArrayVec;
use mib_state::{Mib, VlanConfig};
use std::marker::Model;
use tag_view::{CUSTOMER_TPID, DscpMap, FrameView, Tag};
use treatment::{Treated, treat};
use vlan_rule::{Rule, RuleTable, TableSettings};

/// The table of a port: its rules, and what they are applied with.
#[derive(Drop)]
pub struct PortTable<'m> {
    pub settings: TableSettings,
    pub rules: &'m RuleTable,
}

impl<'m> Model for PortTable<'m> {
    ghost use Rattle.frame_meaning.specs.Meaning.{Table};

    ghost Value = { Table };

    ghost view = { λ t. record { settings = t.settings; entries = t.rules.now } };
}

impl<'m> PortTable<'m> {
    ghost use Rattle.std.specs.Prelude.{◌≡◌, ◌≤◌, ℕ, List, Some, None, Ok, Err, IfOk, IfErr, MatchOption, length};
    ghost use Rattle.vlan_rule.specs.Rule.{IsRuleOf};
    ghost use Rattle.managed_entity.specs.Shown.{vlan_instance};
    ghost use Rattle.frame_meaning.specs.Meaning.{entry_for, table_at, table_of, tags_by};

    /// The table of an extended VLAN tagging operation configuration data.
    fn of(vlan: &'m VlanConfig) -> Self
        ensures { (n : ℕ) → result ≡ table_of (vlan_instance n vlan.now) }
    {
        let settings = &vlan.settings;
        PortTable {
            settings: settings_of(settings.input_tpid, settings.output_tpid, settings.dscp_map),
            rules: &vlan.table,
        }
    }

    /// The table of a port, if it has one.
    #[tactic(auto, using(crate::proofs::Tables::at_none, crate::proofs::Tables::at_absent))]
    pub fn at(mib: &'m Mib, port: u16) -> Option<Self>
        ensures { result ≡ table_at mib.now.entities port }
    {
        let instance = mib.table_of_port(port)?;
        let vlan = mib.vlan(instance)?;
        Some(Self::of(vlan))
    }

    /// The rule of the entry that is used for a frame, if one is.
    #[tactic(auto, unfolding(crate::specs::Meaning::entry_for))]
    pub fn rule_for(&self, frame: &FrameView) -> Option<&'m Rule>
        ensures { MatchOption result
            (entry_for self.now frame.now ≡ None)
            (λ rule. (entry : List ℕ)
            × (entry_for self.now frame.now ≡ Some entry)
            × IsRuleOf entry rule.now) }
    {
        let place = self.rules.walk(frame, self.settings.input_tpid)?;
        self.rules.rule(place)
    }

    /// The tags that a frame leaves with, outermost first.
    #[tactic(auto, using(crate::proofs::Tables::no_rule))]
    fn tags(&self, frame: &FrameView) -> Result<ArrayVec<Tag, 4>, Reason>
        ensures tags { IfOk result (λ tags. tags_by self.now frame.now ≡ Ok tags.items) }
        ensures few { IfOk result (λ tags. length tags.items ≤ 4) }
        ensures reason { IfErr result (λ reason. tags_by self.now frame.now ≡ Err reason) }
    {
        let rule = self.rule_for(frame).ok_or(Reason::NoRule)?;
        match treat(rule, &self.settings, frame) {
            Treated::Tags(tags) => Ok(tags),
            Treated::Discard => Err(Reason::RuleDiscard),
        }
    }
}

/// What a table's rules are applied with.
pub fn settings_of(input_tpid: u16, output_tpid: u16, dscp_map: DscpMap) -> TableSettings
    ensures { result ≡ record {
      input_tpid = input_tpid;
      output_tpid = output_tpid;
      dscp_map = dscp_map;
    } }
{
    TableSettings {
        input_tpid,
        output_tpid,
        dscp_map,
    }
}

/// The type that begins a tag, beside the two of IEEE 802.1Q, at a port with this table.
#[tactic(auto, unfolding(crate::specs::Meaning::input_tpid_of))]
pub fn input_tpid(table: &Option<PortTable>) -> u16
    ensures { result ≡ input_tpid_of table.now }
{
    match table {
        Some(table) => table.settings.input_tpid,
        None => CUSTOMER_TPID,
    }
}

/// The tags that a frame leaves with, outermost first, at a port with this table.
#[tactic(auto, unfolding(crate::specs::Meaning::tags_at))]
pub(crate) fn tags_at(
    table: &Option<PortTable>,
    frame: &FrameView,
) -> Result<ArrayVec<Tag, 4>, Reason>
    ensures tags { IfOk result (λ tags. tags_at table.now frame.now ≡ Ok tags.items) }
    ensures few { IfOk result (λ tags. length tags.items ≤ 4) }
    ensures reason { IfErr result (λ reason. tags_at table.now frame.now ≡ Err reason) }
{
    match table {
        Some(table) => table.tags(frame),
        None => Ok(ArrayVec::try_from(frame.tags()).unwrap()),
    }
}
