//! The calls of a map that is lent. Those of a `Depot` are these over its lock.

ghost use Rattle.std.specs.Prelude.{◌≡◌, ◌+◌, ◌↔◌, OnSome, IsSome, IsNone, IfSome, IfNone};
ghost use Rattle.std.specs.Prelude.{OnOk, OnErr, IfErr, IsErrOf};
ghost use Rattle.std.specs.FinMap as map;
ghost use Rattle.std.specs.Option.{option_map};
ghost use Rattle.hub_depot.specs.DepotError.{refused_value};

use crate::kept_map::{DepotError, KeptMap, Key, Named};
use hub_locked::Lends;
use std::sync::Wait;

/// Keeps a value under its name: `KeptMap::put`. After an error what is kept is as it was.
pub fn put_into_lent_map<V: Named + Drop, L: Lends<KeptMap<V>>, R: Wait>(
    rt: &R,
    lender: &mut L,
    value: V,
) -> Result<(), DepotError<V>>
    ensures ok { OnOk result (L.shown lender.new
        ≡ option_map (λ kept. map.insert kept (V.name value) value) (L.shown lender.old)) }
    ensures free { OnOk result (IfSome (L.shown lender.old) (λ kept.
        IsNone (map.get kept (V.name value)))) }
    ensures taken { IfSome (L.shown lender.old) (λ kept.
        IsErrOf result (DepotError.Taken value) ↔ IsSome (map.get kept (V.name value))) }
    ensures given_back { IfErr result (λ e. refused_value e ≡ value) }
    ensures err { OnErr result (L.shown lender.new ≡ L.shown lender.old) }
{
    lender.lend(rt, |kept| kept.put(value))
}

/// Takes out the value of that name: `KeptMap::take`. It takes no memory.
pub fn take_from_lent_map<V: Named, L: Lends<KeptMap<V>>, R: Wait>(
    rt: &R,
    lender: &mut L,
    key: Key,
) -> Option<V>
    ensures value { IfSome (L.shown lender.old) (λ kept. result ≡ map.get kept key) }
    ensures named { IfSome result (λ v. V.name v ≡ key) }
    ensures rest { L.shown lender.new
        ≡ option_map (λ kept. map.remove kept key) (L.shown lender.old) }
    ensures none { IfNone result (L.shown lender.new ≡ L.shown lender.old) }
{
    lender.lend(rt, |kept| kept.take(key))
}
