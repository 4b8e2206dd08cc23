ghost use Rattle.std.specs.Prelude.{◌≡◌, IfSome, IfErr};
ghost use Rattle.hub_depot.specs.DepotError.{refused_value};

use crate::kept_map::{DepotError, KeptMap, Key, Named};
use hub_locked::Locked;
use std::alloc::Global;
use std::sync::Wait;

/// Values under their names, which threads share.
///
/// Each call is the call of that name on the `KeptMap` behind the lock, under one taking of the
/// lock. Which values are kept at that moment no contract of these calls can say, since another
/// thread may act between any two of them.
///
/// ```rust
/// let depot = Depot::new(alloc);
/// depot.put(rt, ticket)?;
/// let back = depot.take(rt, name);
/// ```
#[derive(Drop)]
pub struct Depot<V: Named> {
    kept: Locked<KeptMap<V>>,
}

impl<V: Named> Depot<V> {
    /// Nothing is kept. It takes no memory.
    pub fn new(alloc: Global) -> Depot<V> {
        Depot {
            kept: Locked::new(KeptMap::empty(alloc)),
        }
    }

    /// The map that `into_map` gave, behind a lock again. It takes no memory.
    pub fn from_map(kept: KeptMap<V>) -> Depot<V> {
        Depot {
            kept: Locked::new(kept),
        }
    }

    /// Keeps a value under its name: `KeptMap::put` under the lock.
    ///
    /// `Taken` where a value of that name was kept, else `OutOfMemory` where there was no memory.
    /// After either what is kept is as it was.
    pub fn put(&self, rt: &impl Wait, value: V) -> Result<(), DepotError<V>>
        ensures { IfErr result (λ e. refused_value e ≡ value) }
    {
        self.kept.lock(rt).put(value)
    }

    /// Takes out the value of that name: `KeptMap::take` under the lock. `None` where none was
    /// kept. It takes no memory.
    pub fn take(&self, rt: &impl Wait, key: Key) -> Option<V>
        ensures { IfSome result (λ v. V.name v ≡ key) }
    {
        self.kept.lock(rt).take(key)
    }

    /// Takes out some value: `KeptMap::take_any` under the lock. `None` where nothing was kept.
    /// It takes no memory.
    pub fn take_any(&self, rt: &impl Wait) -> Option<V> {
        self.kept.lock(rt).take_any()
    }

    /// The map behind its lock, for code that is generic over who lends it.
    pub fn as_lock(&self) -> &Locked<KeptMap<V>> {
        &self.kept
    }

    /// What is kept, once no thread shares the depot.
    pub fn into_map(self) -> KeptMap<V> {
        let Depot { kept } = self;
        kept.into_inner()
    }
}
