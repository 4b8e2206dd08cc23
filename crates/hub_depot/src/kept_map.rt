ghost use Rattle.std.specs.Prelude.{◌≡◌, ◌+◌, ◌↔◌, OnSome, IsSome, IsNone, IfSome, IfNone, OnOk};
ghost use Rattle.std.specs.Prelude.{OnErr, IfErr, IsErrOf};
ghost use Rattle.hub_depot.specs.declared.kept_map.Key.{Key as KeyValue};
ghost use Rattle.std.specs.FinMap as map;
ghost use Rattle.hub_depot.specs.DepotError.{refused_value};

use hub_envelope::{EndId, LineId};
use std::alloc::{AllocFailed, Global};
use std::collections::BTreeMap;
use std::fmt::Debug;
use std::marker::Model;
use thiserror::Error;

/// The name under which a depot keeps a value: an end, the queue of that end, and the line.
/// Keys are ordered by end, then by epoch, then by line.
#[derive(Clone, Copy, Debug, PartialEq, Eq, PartialOrd, Ord, Hash)]
pub struct Key {
    /// The end that the value belongs to.
    pub end: EndId,
    /// The queue of that end, counted from 0: the end's adoptions up to then.
    pub epoch: u32,
    /// The line of that end.
    pub line: LineId,
}

/// A value that bears a name.
pub trait Named {
    /// The name, as contracts see it.
    ghost name: { Self → KeyValue };

    /// The name of this value. It is the same for as long as the value isn't changed.
    fn name(&self) -> Key
        ensures { result ≡ name self.now };
}

/// Why a value was not kept. The value comes back in it.
#[derive(Debug, Drop, Error)]
#[error_bound(V: Debug + Drop)]
pub enum DepotError<V> {
    /// A value of that name is kept already.
    #[error("a value of that name is kept already")]
    Taken(V),
    /// There was no memory for one more value.
    #[error("out of memory")]
    OutOfMemory(V),
}

/// Values under their names, at most one under each: the map that a `Depot` holds behind its lock.
///
/// Contracts see it as the finite map from the names to the values. Each call takes time that is
/// logarithmic in the number of values kept.
///
/// ```rust
/// let mut kept = KeptMap::empty(alloc);
/// kept.put(ticket)?;
/// let back = kept.take(name);
/// ```
#[derive(Drop)]
pub struct KeptMap<V: Named> {
    values: BTreeMap<Key, V>,
}

impl<V: Named> Model for KeptMap<V> {
    ghost use Rattle.std.specs.FinMap as map;
    ghost use Rattle.hub_depot.specs.Key.{key_cmp, coded_key};
    ghost use Rattle.hub_depot.specs.Named.{EachUnderItsName};

    ghost Value = { map.FinMap key_cmp V };

    ghost coded = { map.code coded_key V.code };

    ghost view = { λ k. map.from_entries k.values.entries };

    ghost invariant = { λ k. EachUnderItsName V.name (map.from_entries k.values.entries) };
}

impl<V: Named> KeptMap<V> {
    /// Nothing is kept. It takes no memory.
    pub fn empty(alloc: Global) -> KeptMap<V>
        ensures { result ≡ map.empty }
    {
        KeptMap {
            values: BTreeMap::new(alloc),
        }
    }

    /// Keeps a value under its name.
    ///
    /// `Taken` comes before `OutOfMemory`, also where there is no memory. After either the map is
    /// as it was.
    pub fn put(&mut self, value: V) -> Result<(), DepotError<V>>
        ensures ok { OnOk result (self.new ≡ map.insert self.old (V.name value) value) }
        ensures free { OnOk result (IsNone (map.get self.old (V.name value))) }
        ensures taken { IsErrOf result (DepotError.Taken value)
            ↔ IsSome (map.get self.old (V.name value)) }
        ensures given_back { IfErr result (λ e. refused_value e ≡ value) }
        ensures err { OnErr result (self.new ≡ self.old) }
    {
        let key = value.name();
        if self.values.contains_key(&key) {
            return Err(DepotError::Taken(value));
        }
        match self.values.insert(key, value) {
            Ok(None) => Ok(()),
            Ok(Some(_replaced)) => unreachable!(),
            Err(AllocFailed { value: (_, value) }) => Err(DepotError::OutOfMemory(value)),
        }
    }

    /// Takes out the value of that name. It takes no memory.
    pub fn take(&mut self, key: Key) -> Option<V>
        ensures value { result ≡ map.get self.old key }
        ensures named { IfSome result (λ v. V.name v ≡ key) }
        ensures rest { self.new ≡ map.remove self.old key }
        ensures none { IfNone result (self.new ≡ self.old) }
    {
        self.values.remove(&key)
    }

    /// Takes out some value, which one is left open. It takes no memory.
    pub fn take_any(&mut self) -> Option<V>
        ensures kept { IfSome result (λ v. map.get self.old (V.name v) ≡ Some v) }
        ensures rest { IfSome result (λ v. self.new ≡ map.remove self.old (V.name v)) }
        ensures fewer { OnSome result (map.len self.new + 1 ≡ map.len self.old) }
        ensures empty { IsNone result ↔ (self.old ≡ map.empty) }
        ensures none { IfNone result (self.new ≡ self.old) }
    {
        let (_, value) = self.values.pop_first()?;
        Some(value)
    }

    /// Frees the map where nothing is kept, for values that may not be dropped.
    pub fn destroy_empty(self)
        requires { self ≡ map.empty }
    {
        let KeptMap { values } = self;
        values.destroy_empty();
    }
}
