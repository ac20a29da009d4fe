//! The rows of a port.
ghost use Rattle.std.specs.Prelude.{◌≡◌, ◌<◌, ◌≤◌, ◌++◌, ℕ, List, OnOk, IfOk, IfSome, length, ok_or};
ghost use Rattle.std.specs.Option.{option_map};
ghost use Rattle.pmapper.specs.Mapper.{unmarked_of};
ghost use Rattle.vlan_rule.specs.Choice.{entry_at};
ghost use Rattle.vlan_rule.specs.Rule.{IsRuleOf};
ghost use Rattle.explain.specs.Order.{tried_order};
ghost use Rattle.frame_meaning.specs.Meaning.{found_then, gem_port_of, mapper_at, table_at, unmarked_at};
ghost use Rattle.frame_rows.specs.Treatments.{Fits, TreatmentsFit};
ghost use Rattle.frame_rows.specs.Rows.{ending_at, endings_at, entry_row, entry_rows, fault_rows, kept_ends, kept_row, kept_rows, marking_of, retag_of, rows_of, settings_by, table_rows, treated_ends, unmatched_row, unmatched_rows};
ghost use Rattle.treatment.specs.Compiled.{adds_dscp, is_from_dscp, takes_dscp};

use crate::class::{Ending, FrameClass, Use};
use crate::field::Values;
use crate::row::{Ends, KEEP, Row, asks_of, tag_count};
use crate::source::{DscpSource, Source};
use explain::tried_order;
use frame_meaning::{PortTable, Reason, gem_port_of, input_tpid, mapper_at};
use mib_state::Mib;
use pmapper::Mapper;
use std::alloc::{AllocError, Global};
use tag_view::{CUSTOMER_TPID, DscpMap};
use vlan_rule::{
    AddedTag, EthertypeFilter, Filter, PrioritySource, Retag, Rule, TableSettings, Treatment,
};

/// What the managed entities mean for the frames that come in at a port, as rows: a frame has the class of the first row that
/// asks nothing else of it.
#[derive(Drop)]
pub struct Rows {
    /// The rows: those of frames that can't be read, then those of the table's entries in the order in which they are tried, and those of frames
    /// that no entry matches.
    pub rows: Vec<Row>,
    /// The table's settings: the input TPID by which tags are read, and what they are added with.
    pub settings: TableSettings,
    /// How frames of each priority, from 0 to 7, end.
    pub endings: [Ending; 8],
}

/// The most rows that a port has: those of faults, of a table's entries, and of frames that no entry matches.
pub(crate) const MAX_ROWS: usize = 134;

impl Rows {
    ghost use Rattle.std.specs.Prelude.{◌≡◌, ◌≤◌, ◌<◌, ◌^◌, All, IfOk, IsTrue, length, slice_index_or};
    ghost use Rattle.frame_rows.specs.Fits.{row_fits};
    ghost use Rattle.frame_rows.specs.Rows.{IsMarked, Mean, endings_at, rows_of, settings_at};
    ghost use Rattle.frame_rows.specs.Sight.{AreSeen};
    ghost use Rattle.frame_rows.specs.Row.{class_of_row};

    /// The rows of a port, for the state of these managed entities. Err only where memory is refused.
    pub fn of(alloc: Global, mib: &Mib, port: u16) -> Result<Rows, AllocError>
        ensures rows { IfOk result (λ rows. rows.rows.items ≡ rows_of mib.now.entities port) }
        ensures endings { IfOk result (λ rows. rows.endings ≡ endings_at mib.now.entities port) }
        ensures settings { IfOk result (λ rows. rows.settings ≡ settings_at mib.now.entities port) }
        ensures mean { IfOk result (λ rows.
            Mean mib.now.entities port rows.endings rows.rows.items) }
        ensures seen { IfOk result (λ rows. AreSeen mib.now.entities port
            (record { settings = rows.settings; endings = rows.endings; rows = rows.rows.items })) }
        ensures fit { IfOk result (λ rows. All (λ row. IsTrue (row_fits rows.settings.input_tpid row))
            rows.rows.items) }
        ensures marked { IfOk result (λ rows. All (IsMarked rows.settings) rows.rows.items) }
        ensures output { IfOk result (λ rows. rows.settings.output_tpid < 2 ^ 16) }
        ensures few { IfOk result (λ rows. length rows.rows.items ≤ 134) }
    {
        let rows = rows_of(alloc, mib, port)?;
        Ok(Rows {
            rows,
            settings: settings_of(&PortTable::at(mib, port)),
            endings: endings_of(mib, port),
        })
    }

    /// The class of frames with these values that have this row.
    pub fn class(&self, row: &Row, values: &Values) -> FrameClass
        ensures { result ≡ class_of_row self.now.endings row.now values.now }
    {
        let ending = match &row.ends {
            Ends::Dropped(reason) => Ending::Dropped(*reason),
            Ends::ByPriority(source) => self.ending(source.priority(values)),
        };
        FrameClass {
            used: row.used,
            ending,
        }
    }

    /// How frames of a priority, under 8, end.
    fn ending(&self, priority: u8) -> Ending
        ensures { result ≡ slice_index_or self.now.endings priority (Ending.Dropped Reason.NoMapper) }
    {
        match self.endings.get(usize::from(priority)) {
            Some(ending) => *ending,
            None => Ending::Dropped(Reason::NoMapper),
        }
    }
}

/// The settings that tags are added with. Without a table none is.
fn settings_of(table: &Option<PortTable>) -> TableSettings
    ensures { result ≡ settings_by table.now }
{
    match table {
        Some(table) => table.settings,
        None => TableSettings {
            input_tpid: CUSTOMER_TPID,
            output_tpid: CUSTOMER_TPID,
            dscp_map: DscpMap([0; 24]),
        },
    }
}

/// The rows of a port, first those of faults.
fn rows_of(alloc: Global, mib: &Mib, port: u16) -> Result<Vec<Row>, AllocError>
    ensures rows { IfOk result (λ rows. rows.items ≡ rows_of mib.now.entities port) }
    ensures fits { OnOk result (IfSome (table_at mib.now.entities port)
        (λ table. TreatmentsFit table.entries)) }
    ensures few { OnOk result (IfSome (table_at mib.now.entities port)
        (λ table. length (tried_order table.entries) ≤ 128)) }
{
    let table = PortTable::at(mib, port);
    let mut rows = Vec::with_capacity(alloc, MAX_ROWS)?;
    push_faults(&mut rows, input_tpid(&table))?;
    push_table(&mut rows, &table, held_mapper(mib, port))?;
    Ok(rows)
}

/// Appends the rows of a port with this table and this mapper.
fn push_table(
    rows: &mut Vec<Row>,
    table: &Option<PortTable>,
    mapper: Option<&Mapper>,
) -> Result<(), AllocError>
    ensures fits { OnOk result (IfSome table.now (λ table. TreatmentsFit table.entries)) }
    ensures few { OnOk result (IfSome table.now
        (λ table. length (tried_order table.entries) ≤ 128)) }
    ensures rows { OnOk result (rows.new.items ≡ rows.old.items
        ++ table_rows table.now (option_map (λ (m : _). unmarked_of m.now) mapper.entry)) }
{
    match table {
        None => push_kept(rows, mapper),
        Some(table) => {
            push_entries(rows, table, mapper)?;
            push_unmatched(rows, table.settings.input_tpid)
        }
    }
}

/// The mapper of a port.
fn held_mapper(mib: &Mib, port: u16) -> Option<&Mapper>
    ensures { option_map (λ (m : _). unmarked_of m.now) result
        ≡ option_map unmarked_at (mapper_at mib.now.entities port) }
{
    let (_, mapper) = mapper_at(mib, port)?;
    Some(mapper)
}

/// How frames of each priority end that leave a port.
fn endings_of(mib: &Mib, port: u16) -> [Ending; 8]
    ensures { result ≡ endings_at mib.now.entities port }
{
    [
        ending_at(mib, port, 0),
        ending_at(mib, port, 1),
        ending_at(mib, port, 2),
        ending_at(mib, port, 3),
        ending_at(mib, port, 4),
        ending_at(mib, port, 5),
        ending_at(mib, port, 6),
        ending_at(mib, port, 7),
    ]
}

/// How frames of a priority, under 8, end that leave a port.
fn ending_at(mib: &Mib, port: u16, priority: u8) -> Ending
    requires { priority < 8 }
    ensures { result ≡ ending_at mib.now.entities port priority }
{
    match gem_port_at(mib, port, priority) {
        Ok(gem) => Ending::Gem(gem),
        Err(reason) => Ending::Dropped(reason),
    }
}

/// The GEM port of frames of a priority, under 8, that leave a port.
fn gem_port_at(mib: &Mib, port: u16, priority: u8) -> Result<u16, Reason>
    requires { priority < 8 }
    ensures { result ≡ found_then (ok_or (mapper_at mib.now.entities port) Reason.NoMapper)
        (λ mapper. gem_port_of mib.now.entities mapper priority) }
{
    let (_, mapper) = mapper_at(mib, port).ok_or(Reason::NoMapper)?;
    gem_port_of(mib, mapper, priority)
}

/// Appends the rows of frames that can't be read.
fn push_faults(rows: &mut Vec<Row>, input: u16) -> Result<(), AllocError>
    ensures { OnOk result (rows.new.items ≡ rows.old.items ++ fault_rows input) }
{
    rows.push(Row::runt())?;
    rows.push(Row::first_cut(input))?;
    rows.push(Row::second_cut(input))?;
    Ok(())
}

/// Appends the rows of a port without a table.
fn push_kept(rows: &mut Vec<Row>, mapper: Option<&Mapper>) -> Result<(), AllocError>
    ensures { OnOk result (rows.new.items ≡ rows.old.items
        ++ kept_rows (option_map (λ (m : _). unmarked_of m.now) mapper.entry)) }
{
    rows.push(kept_row(mapper, Filter::NoTag))?;
    rows.push(kept_row(mapper, Filter::OneTagDefault))?;
    rows.push(kept_row(mapper, Filter::TwoTagDefault))?;
    Ok(())
}

/// The row of the frames of a filter at a port without a table.
fn kept_row(mapper: Option<&Mapper>, filter: Filter) -> Row
    ensures { result ≡ kept_row (option_map (λ (m : _). unmarked_of m.now) mapper.entry) filter }
{
    Row {
        used: Use::NoTable,
        ends: kept_ends(mapper, tag_count(&filter)),
        asks: asks_of(&filter, EthertypeFilter::Any, CUSTOMER_TPID),
        tags: tag_count(&filter),
        retag: KEEP,
        marking: None,
    }
}

/// How frames with so many tags end that leave as they came.
fn kept_ends(mapper: Option<&Mapper>, tags: u8) -> Ends
    ensures { result ≡ kept_ends (option_map (λ (m : _). unmarked_of m.now) mapper.entry) tags }
{
    match mapper {
        None => Ends::Dropped(Reason::NoMapper),
        Some(mapper) => Ends::ByPriority(Source::kept(mapper, tags)),
    }
}

/// Appends a row for each entry of a table, in the order in which they are tried.
fn push_entries(
    rows: &mut Vec<Row>,
    table: &PortTable,
    mapper: Option<&Mapper>,
) -> Result<(), AllocError>
    ensures fits { OnOk result (TreatmentsFit table.now.entries) }
    ensures few { OnOk result (length (tried_order table.now.entries) ≤ 128) }
    ensures rows { OnOk result (rows.new.items ≡ rows.old.items
        ++ entry_rows table.now (option_map (λ (m : _). unmarked_of m.now) mapper.entry) 0
        (tried_order table.now.entries)) }
{
    let order = tried_order(table.rules);
    for number in 0..order.len() {
        rows.push(row_at(table, mapper, order[number], number as u8))?;
    }
    Ok(())
}

/// The row of the entry at a place of a table, with this number.
fn row_at(table: &PortTable, mapper: Option<&Mapper>, place: usize, number: u8) -> Row
    requires { place < length table.now.entries }
    ensures fits { Fits table.now.entries place }
    ensures row { result ≡ entry_row table.now (option_map (λ (m : _). unmarked_of m.now) mapper.entry)
        number (entry_at table.now.entries place) }
{
    match table.rules.rule(place) {
        Some(rule) => entry_row(rule, &table.settings, mapper, number),
        None => unreachable!(),
    }
}

/// The row of a rule whose entry has this number.
fn entry_row(rule: &Rule, settings: &TableSettings, mapper: Option<&Mapper>, number: u8) -> Row
    ensures { (entry : List ℕ) (entries : List (List ℕ)) → IsRuleOf entry rule.now
        → result ≡ entry_row (record { settings = settings.now; entries = entries })
        (option_map (λ (m : _). unmarked_of m.now) mapper.entry) number entry }
{
    Row {
        used: Use::Entry(number),
        ends: treated_ends(&rule.treatment, settings, mapper, tag_count(&rule.filter)),
        asks: asks_of(&rule.filter, rule.ethertype, settings.input_tpid),
        tags: tag_count(&rule.filter),
        retag: retag_of(&rule.treatment),
        marking: marking_of(&rule.treatment, settings, tag_count(&rule.filter)),
    }
}

/// How the tags change by a treatment.
fn retag_of(treatment: &Treatment) -> Retag
    ensures { result ≡ retag_of treatment.now }
{
    match treatment {
        Treatment::Discard => KEEP,
        Treatment::Retag(retag) => *retag,
    }
}

/// The DSCP that gives an added tag its priority, behind so many tags.
fn marking_of(treatment: &Treatment, settings: &TableSettings, tags: u8) -> Option<DscpSource>
    ensures { result ≡ marking_of treatment.now settings.now tags }
{
    match takes_dscp(treatment) {
        false => None,
        true => Some(DscpSource {
            tags,
            map: settings.dscp_map,
            without: 0,
        }),
    }
}

/// Whether an added tag has the priority of the DSCP.
fn takes_dscp(treatment: &Treatment) -> bool
    ensures { result ≡ takes_dscp treatment.now }
{
    match treatment {
        Treatment::Discard => false,
        Treatment::Retag(retag) => adds_dscp(&retag.outer) || adds_dscp(&retag.inner),
    }
}

fn adds_dscp(added: &Option<AddedTag>) -> bool
    ensures { result ≡ adds_dscp added.now }
{
    match added {
        None => false,
        Some(added) => is_from_dscp(added.priority),
    }
}

fn is_from_dscp(source: PrioritySource) -> bool
    ensures { result ≡ is_from_dscp source }
{
    match source {
        PrioritySource::Dscp => true,
        _ => false,
    }
}

/// How frames with so many tags end that leave by a treatment.
fn treated_ends(
    treatment: &Treatment,
    settings: &TableSettings,
    mapper: Option<&Mapper>,
    tags: u8,
) -> Ends
    ensures { result ≡ treated_ends treatment.now settings.now
        (option_map (λ (m : _). unmarked_of m.now) mapper.entry) tags }
{
    match (treatment, mapper) {
        (Treatment::Discard, _) => Ends::Dropped(Reason::RuleDiscard),
        (Treatment::Retag(_), None) => Ends::Dropped(Reason::NoMapper),
        (Treatment::Retag(retag), Some(mapper)) => {
            Ends::ByPriority(Source::treated(retag, settings, mapper, tags))
        }
    }
}

/// Appends the rows of frames that no entry matches.
fn push_unmatched(rows: &mut Vec<Row>, input: u16) -> Result<(), AllocError>
    ensures { OnOk result (rows.new.items ≡ rows.old.items ++ unmatched_rows input) }
{
    rows.push(unmatched_row(input, Filter::NoTag))?;
    rows.push(unmatched_row(input, Filter::OneTagDefault))?;
    rows.push(unmatched_row(input, Filter::TwoTagDefault))?;
    Ok(())
}

/// The row of the frames of a filter that no entry matches.
fn unmatched_row(input: u16, filter: Filter) -> Row
    ensures { result ≡ unmatched_row input filter }
{
    Row {
        used: Use::NoEntry,
        ends: Ends::Dropped(Reason::NoRule),
        asks: asks_of(&filter, EthertypeFilter::Any, input),
        tags: tag_count(&filter),
        retag: KEEP,
        marking: None,
    }
}
