//! The treatments of a table, compiled, by the numbers of their entries.
ghost use Rattle.std.specs.Prelude.{◌≡◌, ◌≤◌, ◌<◌, ℕ, List, true, false, length, vec_capacity};
ghost use Rattle.std.specs.Option.{option_map_or};
ghost use Rattle.vlan_rule.specs.Table.{table_max_size};
ghost use Rattle.vlan_rule.specs.declared.settings.TableSettings.{TableSettings};
ghost use Rattle.rule_index.specs.Filters.{tags_in};
ghost use Rattle.rule_index.specs.Followed.{IsOneMore, IsTaken, IsTreated};
ghost use Rattle.treatment.specs.Compiled.{asks_dscp};
ghost use Rattle.port_plan.specs.CompiledTable.{AreTreats, KeepsNone, KeepsSome, NoneAsks, SomeAsks};

use rule_index::Index;
use treatment::Treat;
use vlan_rule::{Filter, RuleTable, TableSettings};

/// Compiles the treatment of each entry, in the order of rank and place, and says whether one of them asks for the DSCP of a frame.
pub(crate) fn compile_treats(
    treats: &mut Vec<Option<Treat>>,
    index: &Index,
    settings: &TableSettings,
    rules: &RuleTable,
) -> bool
    requires room { table_max_size ≤ vec_capacity treats.old }
    requires index { index.now ≡ rules.now }
    ensures room { vec_capacity treats.new ≡ vec_capacity treats.old }
    ensures treats { AreTreats settings.now rules.now treats.new.items }
    ensures none { result ≡ false → NoneAsks treats.new.items }
    ensures some { result ≡ true → SomeAsks treats.new.items }
{
    let mut asked = false;
    treats.clear();
    for number in 0..rules.len() as u8 {
        let Some(place) = index.order(number) else {
            return asked;
        };
        let Some(rule) = rules.rule(place) else {
            return asked;
        };
        let treat = Treat::of(&rule.treatment, settings, tags_in(&rule.filter));
        asked |= asks(&treat);
        treats.push_reserved(treat);
    }
    asked
}

/// Compiles the treatment of one entry again, where the others are as before, and says whether a treatment asks for the DSCP of a
/// frame, if it is told so of those before.
pub(crate) fn compile_treat(
    treats: &mut Vec<Option<Treat>>,
    asked: bool,
    number: u8,
    index: &Index,
    settings: &TableSettings,
    rules: &RuleTable,
) -> bool
    requires { IsTaken index.now rules.now number }
    ensures treats { (entries : List (List ℕ)) → IsTreated entries index.now number
        → AreTreats settings.now entries treats.old.items
        → AreTreats settings.now index.now treats.new.items }
    ensures room { vec_capacity treats.new ≡ vec_capacity treats.old }
    ensures none { KeepsNone asked result treats.old.items treats.new.items }
    ensures some { KeepsSome asked result treats.old.items treats.new.items }
{
    let Some(place) = index.order(number) else {
        return asked;
    };
    let Some(rule) = rules.rule(place) else {
        return asked;
    };
    let treat = Treat::of(&rule.treatment, settings, tags_in(&rule.filter));
    let asks = asks(&treat);
    let Some(kept) = treats.get_mut(usize::from(number)) else {
        return asked;
    };
    *kept = treat;
    still_asks(asks, asked, treats)
}

/// Compiles the treatment of an entry that was added, and moves those of the entries behind it by one place. It says whether a
/// treatment asks for the DSCP of a frame, if it is told so of those before.
pub(crate) fn insert_treat(
    treats: &mut Vec<Option<Treat>>,
    asked: bool,
    number: u8,
    index: &Index,
    settings: &TableSettings,
    rules: &RuleTable,
) -> bool
    requires taken { IsTaken index.now rules.now number }
    requires room { table_max_size ≤ vec_capacity treats.old }
    requires space { length treats.old.items < table_max_size }
    ensures treats { (entries : List (List ℕ)) (place : ℕ)
        → IsOneMore entries index.now place number → AreTreats settings.now entries treats.old.items
        → AreTreats settings.now index.now treats.new.items }
    ensures room { table_max_size ≤ vec_capacity treats.new }
    ensures none { KeepsNone asked result treats.old.items treats.new.items }
    ensures some { KeepsSome asked result treats.old.items treats.new.items }
{
    let at = usize::from(number);
    if treats.len() < at {
        return asked;
    }
    let Some(place) = index.order(number) else {
        return asked;
    };
    let Some(rule) = rules.rule(place) else {
        return asked;
    };
    let treat = Treat::of(&rule.treatment, settings, tags_in(&rule.filter));
    let asks = asks(&treat);
    let _ = treats.insert(at, treat);
    asked || asks
}

/// Lets the treatment of an entry go that was deleted, and moves those of the entries behind it by one place. It says whether a
/// treatment asks for the DSCP of a frame, if it is told so of those before.
pub(crate) fn remove_treat(treats: &mut Vec<Option<Treat>>, asked: bool, number: u8) -> bool
    ensures treats { (settings : TableSettings) (old new : List (List ℕ)) (place : ℕ)
        → IsOneMore new old place number → AreTreats settings old treats.old.items
        → AreTreats settings new treats.new.items }
    ensures room { vec_capacity treats.new ≡ vec_capacity treats.old }
    ensures none { KeepsNone asked result treats.old.items treats.new.items }
    ensures some { KeepsSome asked result treats.old.items treats.new.items }
{
    let at = usize::from(number);
    if treats.len() <= at {
        return asked;
    }
    let _ = treats.remove(at);
    still_asks(false, asked, treats)
}

/// Whether some treatment asks for the DSCP of a frame, where one that was compiled again does or doesn't, and some treatment did
/// before or none.
fn still_asks(asks: bool, asked: bool, treats: &[Option<Treat>]) -> bool
    ensures none { (asks ≡ false → asked ≡ false → NoneAsks treats.now) → result ≡ false
        → NoneAsks treats.now }
    ensures some { (asks ≡ true → SomeAsks treats.now) → result ≡ true → SomeAsks treats.now }
{
    asks || asked && any_asks(treats)
}

/// Whether some treatment asks for the DSCP of a frame.
fn any_asks(treats: &[Option<Treat>]) -> bool
    ensures none { result ≡ false → NoneAsks treats.now }
    ensures some { result ≡ true → SomeAsks treats.now }
{
    for treat in treats {
        if let Some(treat) = treat
            && treat.uses_dscp()
        {
            return true;
        }
    }
    false
}

/// Whether a treatment asks for the DSCP of a frame.
fn asks(treat: &Option<Treat>) -> bool
    ensures { result ≡ option_map_or asks_dscp treat.now false }
{
    match treat {
        Some(treat) => treat.uses_dscp(),
        None => false,
    }
}

/// The number of tags that a filter asks for.
fn tags_in(filter: &Filter) -> usize
    ensures value { result ≡ tags_in filter.now }
    ensures two { result ≤ 2 }
{
    match filter {
        Filter::NoTag => 0,
        Filter::OneTagDefault | Filter::OneTag(_) => 1,
        Filter::TwoTagDefault | Filter::TwoTag { .. } => 2,
    }
}
