//! The frames that may still leave, found by their cores.

use crate::core_key::CoreKey;
use std::alloc::{AllocError, Global};
use std::collections::HashMap;

/// The frames that may still leave: for each key their numbers, in the order in which they were sent. One that isn't open any more is let
/// go when one of its key leaves, and so is a queue without frames.
#[derive(Drop)]
pub(crate) struct OpenFrames<'a> {
    pub(crate) queues: HashMap<CoreKey<'a>, Vec<u32>>,
    alloc: Global,
}

impl<'a> OpenFrames<'a> {
    ghost use Rattle.std.specs.Prelude.{◌≡◌, ◌++◌, ◌∷◌, [], if◌then◌else◌, IfOk};
    ghost use Rattle.bench_record.specs.Index.{queue_of};
    ghost use Rattle.bench_record.specs.Keys.{is_same_key};
    ghost use Rattle.bench_record.specs.declared.core_key.CoreKey.{CoreKey as TheKey};

    /// None at all.
    pub(crate) fn new(alloc: Global) -> Self
        ensures { (key : TheKey) → queue_of result key ≡ [] }
    {
        OpenFrames {
            queues: HashMap::new(alloc),
            alloc,
        }
    }

    /// Adds a frame behind all others of its key.
    pub(crate) fn send(&mut self, key: CoreKey<'a>, number: u32) -> Result<(), AllocError>
        ensures { IfOk result (λ _. (other : TheKey) → queue_of self.new other
            ≡ (if is_same_key key.entry other then queue_of self.old key.entry
            ++ number ∷ []
            else queue_of self.old other)) }
    {
        if let Some(queue) = self.queues.get_mut(&key) {
            queue.push(number)?;
            return Ok(());
        }
        let mut queue = Vec::new(self.alloc);
        queue.push(number)?;
        self.queues.insert(key, queue)?;
        Ok(())
    }
}
