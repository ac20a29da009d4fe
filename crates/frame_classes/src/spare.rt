//! Lists of values, used again.
ghost use Rattle.std.specs.Prelude.{◌≡◌, [], IfOk};

use crate::choices::Choices;
use std::alloc::{AllocError, Global};

/// Lists of values that no case holds now. As many are made as cases stand within each other.
#[derive(Drop)]
pub(crate) struct Spare {
    lists: Vec<Box<Choices>>,
    alloc: Global,
}

impl Spare {
    /// None yet.
    pub(crate) fn new(alloc: Global) -> Spare {
        Spare {
            lists: Vec::new(alloc),
            alloc,
        }
    }

    /// An empty list. Err only where memory is refused.
    pub(crate) fn take(&mut self) -> Result<Box<Choices>, AllocError>
        ensures { IfOk result (λ list. list.value.items ≡ []) }
    {
        match self.lists.pop() {
            Some(mut list) => {
                list.clear();
                Ok(list)
            }
            None => made(self.alloc),
        }
    }

    /// Takes a list back. Err only where memory is refused.
    pub(crate) fn give(&mut self, list: Box<Choices>) -> Result<(), AllocError> {
        self.lists.push(list)?;
        Ok(())
    }
}

fn made(alloc: Global) -> Result<Box<Choices>, AllocError>
    ensures { IfOk result (λ list. list.value.items ≡ []) }
{
    let list = Box::new(alloc, Choices::new())?;
    Ok(list)
}
