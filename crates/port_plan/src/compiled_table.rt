//! The table of a port (ITU-T G.988, clause 9.3.13), compiled.
ghost use Rattle.std.specs.Prelude.{◌≡◌, ◌↔◌, ℕ, IsTrue};
ghost use Rattle.vlan_rule.specs.declared.settings.TableSettings.{TableSettings};
ghost use Rattle.managed_entity.specs.Shown.{vlan_instance};
ghost use Rattle.frame_meaning.specs.Meaning.{Table, table_of};
ghost use Rattle.port_plan.specs.CompiledTable.{AreMarkings};

use crate::treats::{compile_treat, compile_treats, insert_treat, remove_treat};
use frame_meaning::{Reason, settings_of};
use mib_state::VlanConfig;
use rule_index::{Followed, Head, Index};
use std::alloc::{AllocError, Global};
use std::marker::Model;
use tag_view::{CUSTOMER_TPID, DscpMap};
use treatment::Treat;
use vlan_rule::{RuleTable, TABLE_MAX_SIZE, TableSettings};

/// The settings of a new table: the TPID of a customer's tag (IEEE 802.1Q, clause 9.6), and priority 0 for each DSCP.
const SETTINGS: TableSettings = TableSettings {
    input_tpid: CUSTOMER_TPID,
    output_tpid: CUSTOMER_TPID,
    dscp_map: DscpMap([0; 24]),
};

/// How many steps are taken towards other rules before all treatments are compiled anew. Between two frames there are mostly
/// fewer.
const STEPS: u8 = 5;

/// A table, with what a frame needs of it: which entry is used for the frame, and how the words of its tags are made.
///
/// An entry is for frames with one number of tags, so it has one compiled treatment.
#[derive(Drop)]
pub struct CompiledTable {
    settings: TableSettings,
    index: Index,
    // By entry number, in the order of rank and place: the treatment, or None where the entry discards.
    treats: Vec<Option<Treat>>,
    // The priority that the mapping has for each DSCP, and behind them that without a DSCP.
    markings: [u8; 65],
    uses_dscp: bool,
}

impl Model for CompiledTable {
    ghost use Rattle.std.specs.Prelude.{◌≡◌, ◌≤◌, true, false, vec_capacity};
    ghost use Rattle.vlan_rule.specs.Table.{table_max_size};
    ghost use Rattle.port_plan.specs.Plan.{TablePlan};
    ghost use Rattle.port_plan.specs.CompiledTable.{AreMarkings, AreTreats, NoneAsks, SomeAsks};

    ghost Value = { TablePlan };

    ghost view = { λ t.
        record {
          table = record { settings = t.settings; entries = t.index };
          uses_dscp =
              t.uses_dscp;
        } };

    ghost invariant = { λ t.
        (table_max_size ≤ vec_capacity t.treats)
        × AreTreats t.settings t.index t.treats.items
        × AreMarkings t.settings.dscp_map.0 t.markings
        × (t.uses_dscp ≡ false → NoneAsks t.treats.items)
        × (t.uses_dscp ≡ true → SomeAsks t.treats.items) };
}

impl CompiledTable {
    ghost use Rattle.std.specs.Prelude.{◌≡◌, ◌<◌, ℕ, IsTrue, List, All, Option, Some, Err, IfOk, IfErr, false, length};
    ghost use Rattle.tag_view.specs.Frame.{Reading};
    ghost use Rattle.tag_view.specs.Tag.{IsInRange};
    ghost use Rattle.vlan_rule.specs.Meaning.{treatment_of};
    ghost use Rattle.rule_index.specs.Head.{head_of};
    ghost use Rattle.treatment.specs.Compiled.{Treats, asks_dscp};
    ghost use Rattle.treatment.specs.Treatment.{dscp_priority};
    ghost use Rattle.managed_entity.specs.Shown.{vlan_instance};
    ghost use Rattle.frame_meaning.specs.Meaning.{entry_for, table_of, tags_by};
    ghost use Rattle.port_plan.specs.Plan.{IsDscp, dscp_place, transparent};

    /// A table by which every frame keeps its tags, with room for any table.
    pub fn new(alloc: Global) -> Result<Self, AllocError>
        ensures { IfOk result (λ t. t.table ≡ transparent) }
    {
        let rules = RuleTable::new(alloc)?;
        let mut table = CompiledTable {
            settings: SETTINGS,
            index: Index::new(alloc)?,
            treats: Vec::with_capacity(alloc, TABLE_MAX_SIZE as usize)?,
            markings: markings_of(&SETTINGS.dscp_map),
            uses_dscp: false,
        };
        table.compile_table(SETTINGS, &rules);
        Ok(table)
    }

    /// Becomes the table of an extended VLAN tagging operation configuration data, all of it compiled anew, whatever stood before.
    /// It takes no memory.
    pub fn compile(&mut self, vlan: &VlanConfig)
        ensures { (n : ℕ) → self.new.table ≡ table_of (vlan_instance n vlan.now) }
    {
        self.compile_table(settings_in(vlan), &vlan.table);
    }

    /// Becomes the table of an extended VLAN tagging operation configuration data, as [`compile`](CompiledTable::compile) does, and
    /// compiles what changed. It takes no memory. What was the same before is gone over and not compiled again. Where the settings
    /// stayed and at most five entries changed, a treatment that was set is compiled alone, and where a key was added or deleted the
    /// treatments behind it move.
    pub fn follow(&mut self, vlan: &VlanConfig)
        ensures { (n : ℕ) → self.new.table ≡ table_of (vlan_instance n vlan.now) }
    {
        self.follow_table(settings_in(vlan), &vlan.table);
    }

    /// Becomes the table of these rules and settings, compiled anew.
    fn compile_table(&mut self, settings: TableSettings, rules: &RuleTable)
        ensures { self.new.table ≡ record { settings = settings; entries = rules.now } }
    {
        self.settings = settings;
        self.index.rebuild(rules);
        self.markings = markings_of(&settings.dscp_map);
        self.uses_dscp = compile_treats(&mut self.treats, &self.index, &settings, rules);
    }

    /// Becomes the table of these rules and settings. What these have in common with those before isn't compiled again.
    fn follow_table(&mut self, settings: TableSettings, rules: &RuleTable)
        ensures { self.new.table ≡ record { settings = settings; entries = rules.now } }
    {
        if are_equal(&self.settings, &settings) && self.reach(rules) {
            return;
        }
        let _ = self.index.follow(rules);
        follow_map(
            &mut self.markings,
            &self.settings.dscp_map,
            &settings.dscp_map,
        );
        self.settings = settings;
        self.uses_dscp = compile_treats(&mut self.treats, &self.index, &settings, rules);
    }

    /// Takes a few steps towards these rules, and says whether they are reached. The look that finds so is no step.
    fn reach(&mut self, rules: &RuleTable) -> bool
        ensures settings { self.new.table.settings ≡ self.old.table.settings }
        ensures reached { IsTrue result → self.new.table.entries ≡ rules.now }
    {
        for _ in 0..=STEPS {
            if self.step(rules) {
                return true;
            }
        }
        false
    }

    /// Takes one step towards these rules, or finds that they are reached, and says so. Where all of the index was made anew, the
    /// treatments are too.
    fn step(&mut self, rules: &RuleTable) -> bool
        ensures settings { self.new.table.settings ≡ self.old.table.settings }
        ensures reached { IsTrue result → self.new.table.entries ≡ rules.now }
    {
        match self.index.approach(rules) {
            Followed::Unchanged => true,
            Followed::Treatment(number) => {
                self.uses_dscp = compile_treat(
                    &mut self.treats,
                    self.uses_dscp,
                    number,
                    &self.index,
                    &self.settings,
                    rules,
                );
                false
            }
            Followed::Added(number) => {
                self.uses_dscp = insert_treat(
                    &mut self.treats,
                    self.uses_dscp,
                    number,
                    &self.index,
                    &self.settings,
                    rules,
                );
                false
            }
            Followed::Deleted(number) => {
                self.uses_dscp = remove_treat(&mut self.treats, self.uses_dscp, number);
                false
            }
            Followed::Rebuilt => {
                self.uses_dscp = compile_treats(
                    &mut self.treats,
                    &self.index,
                    &self.settings,
                    rules,
                );
                true
            }
        }
    }

    /// The type that begins a tag, beside the two of IEEE 802.1Q.
    #[inline(always)]
    pub(crate) fn input_tpid(&self) -> u16
        ensures { result ≡ self.now.table.settings.input_tpid }
    {
        self.settings.input_tpid
    }

    /// Whether some treatment asks for the DSCP of a frame.
    #[inline(always)]
    pub(crate) fn uses_dscp(&self) -> bool
        ensures { result ≡ self.now.uses_dscp }
    {
        self.uses_dscp
    }

    /// The treatment of a frame with this head, or the reason to drop it.
    #[inline(always)]
    pub(crate) fn treat(&self, head: &Head) -> Result<&Treat, Reason>
        ensures treat { IfOk result (λ treat. (frame : Reading) → head_of frame ≡ head.now
            → (entry : List ℕ) × (entry_for self.now.table frame ≡ Some entry)
            × Treats (treatment_of entry) self.now.table.settings (length frame.tags)
            (Some treat.now)) }
        ensures dscp { IfOk result (λ treat. self.now.uses_dscp ≡ false
            → asks_dscp treat.now ≡ false) }
        ensures reason { IfErr result (λ reason. (frame : Reading) → head_of frame ≡ head.now
            → All IsInRange frame.tags
            → tags_by self.now.table frame ≡ Err reason) }
    {
        match self
            .treats
            .get(self.index.number(head, self.settings.input_tpid))
        {
            Some(Some(treat)) => Ok(treat),
            Some(None) => Err(Reason::RuleDiscard),
            None => Err(Reason::NoRule),
        }
    }

    /// The priority that the table's mapping has for the DSCP of a place: its number, or 64 for none.
    #[inline(always)]
    pub(crate) fn marking(&self, place: usize) -> u8
        requires { place < 65 }
        ensures value { (dscp : Option ℕ) → IsDscp dscp → place ≡ dscp_place dscp
            → result ≡ dscp_priority self.now.table.settings.dscp_map.0 dscp }
        ensures bound { result < 8 }
    {
        self.markings[place]
    }
}

/// What the entries of a configuration are applied with.
fn settings_in(vlan: &VlanConfig) -> TableSettings
    ensures { (n : ℕ) → record { settings = result; entries = vlan.now.table }
        ≡ table_of (vlan_instance n vlan.now) }
{
    let settings = &vlan.settings;
    settings_of(settings.input_tpid, settings.output_tpid, settings.dscp_map)
}

/// Whether settings are the same.
fn are_equal(one: &TableSettings, other: &TableSettings) -> bool
    ensures { IsTrue result ↔ (one.now ≡ other.now) }
{
    one == other
}

/// Makes the priorities of a mapping out of those of another.
fn follow_map(markings: &mut [u8; 65], old: &DscpMap, new: &DscpMap)
    requires { AreMarkings old.now.0 markings.old }
    ensures { AreMarkings new.now.0 markings.new }
{
    if old != new {
        *markings = markings_of(new);
    }
}

/// The priority that a mapping has for each DSCP, and behind them that without a DSCP.
fn markings_of(map: &DscpMap) -> [u8; 65]
    ensures { AreMarkings map.now.0 result }
{
    let mut markings = [0; 65];
    for dscp in 0..64u8 {
        markings[usize::from(dscp)] = map.get(dscp);
    }
    markings
}
