//! Requests, carried out.
ghost use Rattle.std.specs.Prelude.{◌≡◌, IfOk};
ghost use Rattle.mib_state.specs.After.{after, after_from};
ghost use Rattle.migration_check.specs.Migration.{all_accepted};

use crate::telling::are_both;
use mib_state::Mib;
use omci_msg::Request;
use std::alloc::{AllocError, Global};

/// Carries requests out, one after the other, and gives whether each was accepted in its turn.
pub(crate) fn carry_out_all(mib: &mut Mib, requests: &[Request]) -> bool
    ensures accepted { result ≡ all_accepted mib.old.entities requests.now }
    ensures after { mib.new.entities ≡ after_from mib.old.entities requests.now }
{
    let mut accepted = true;
    for each in requests {
        let carried = mib.carry_out(each);
        accepted = are_both(accepted, carried.accepted);
    }
    accepted
}

/// The managed entities after requests, from no instance and sync 0. Err only where memory is refused.
pub fn entities_after(alloc: Global, requests: &[Request]) -> Result<Mib, AllocError>
    ensures { IfOk result (λ mib. mib.entities ≡ after requests.now) }
{
    let mut mib = Mib::new(alloc)?;
    let _ = carry_out_all(&mut mib, requests);
    Ok(mib)
}
