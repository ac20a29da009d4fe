//! Which line of a script set an entry of a received frame VLAN tagging operation table (ITU-T G.988, clause 9.3.13).
ghost use Rattle.std.specs.Prelude.{◌≡◌};
ghost use Rattle.omci_msg.specs.declared.Action.TheVariants.{Set};
ghost use Rattle.script_trace.specs.Setting.{sets_by, sets_entry, setting_line};

use crate::applied::Accepted;
use managed_entity::{Class, entry_at, mask_of, set_values};
use omci_msg::{Action, Request};
use vlan_rule::Entry;

/// Whether the entry that a Set puts has the key.
#[tactic(auto, using(crate::proofs::Front::vlan_front))]
fn has_key(contents: &[u8; 32], key: u64) -> bool
    ensures { result ≡ sets_by Set key contents.now }
{
    let Some(at) = entry_at(Class::Vlan.layout(), mask_of(contents)) else {
        return false;
    };
    let mut entry = [0; 16];
    entry.copy_from_slice(&set_values(contents)[at..at + 16]);
    Entry(entry).key() == key
}

/// Whether a request that is accepted sets the entry of a key in the table of an instance.
#[tactic(auto, unfolding(crate::specs::Setting::sets_entry))]
fn sets_entry(request: &Request, instance: u16, key: u64) -> bool
    ensures { result ≡ sets_entry instance key request.now }
{
    if request.class != Class::Vlan.number() || request.instance != instance {
        return false;
    }
    match request.action {
        Action::Create => true,
        Action::Set => has_key(&request.contents, key),
        _ => false,
    }
}

/// The line, from 1, of the request that set the entry of a key in the table of an instance, as far as these requests tell, which were
/// accepted in this order: the last Set that put an entry of the key, or the Create of the instance, which makes the table with its
/// predefined entries, where no Set behind it did.
pub fn setting_line(accepted: &[Accepted], instance: u16, key: u64) -> Option<u64>
    ensures { result ≡ setting_line instance key accepted.now }
{
    let mut line = None;
    for each in accepted {
        if sets_entry(&each.request, instance, key) {
            line = Some(each.line);
        }
    }
    line
}
