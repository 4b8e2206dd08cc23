//! Many values in a map that is lent, or none.
ghost use Rattle.std.specs.Prelude.{◌≡◌, ◌≢◌, [], ◌∷◌, ◌++◌, All, AllPairs, Contains, IsSome};
ghost use Rattle.std.specs.Prelude.{IsNone, IfSome, OnOk, OnErr, IfErr, IsErrOf};
ghost use Rattle.std.specs.FinMap as map;
ghost use Rattle.std.specs.Option.{option_map};
ghost use Rattle.hub_depot.specs.DepotError.{refused_value};
ghost use Rattle.hub_depot.specs.Putting.{with_all, without_all, IsTakenAmong};

use crate::kept_map::{DepotError, KeptMap, Key, Named};
use crate::lent::{put_into_lent_map, take_from_lent_map};
use hub_locked::Lends;
use std::alloc::Global;
use std::sync::Wait;

/// Puts one more value, and its name behind those of the values before, or does neither.
fn put_and_push_key<V: Named + Drop, L: Lends<KeptMap<V>>, R: Wait>(
    rt: &R,
    lender: &mut L,
    names: &mut Vec<Key>,
    value: V,
) -> Result<(), DepotError<V>>
    ensures names { OnOk result (names.new.items ≡ names.old.items ++ V.name value ∷ []) }
    ensures ok { OnOk result (L.shown lender.new
        ≡ option_map (λ kept. map.insert kept (V.name value) value) (L.shown lender.old)) }
    ensures free { OnOk result (IfSome (L.shown lender.old) (λ kept.
        IsNone (map.get kept (V.name value)))) }
    ensures taken { IfSome (L.shown lender.old) (λ kept.
        IsErrOf result (DepotError.Taken value) → IsSome (map.get kept (V.name value))) }
    ensures given_back { IfErr result (λ e. refused_value e ≡ value) }
    ensures err { OnErr result (L.shown lender.new ≡ L.shown lender.old) }
    ensures no_name { OnErr result (names.new.items ≡ names.old.items) }
{
    if names.push(value.name()).is_err() {
        return Err(DepotError::OutOfMemory(value));
    }
    let put = put_into_lent_map(rt, lender, value);
    if put.is_err() {
        names.pop();
    }
    put
}

/// Takes back the values of these names, the last one first.
fn take_back_values<V: Named + Drop, L: Lends<KeptMap<V>>, R: Wait>(
    rt: &R,
    lender: &mut L,
    mut names: Vec<Key>,
)
    ensures { L.shown lender.new
        ≡ option_map (λ kept. without_all kept names.items) (L.shown lender.old) }
{
    while let Some(name) = names.pop() {
        take_from_lent_map(rt, lender, name);
    }
}

/// Puts all values into a map, or none.
///
/// After an error the refused value comes back. Those that were put before it were taken back, and
/// are dropped with those behind it. From a map that threads share another thread may have taken
/// one of them in the meantime, or put one of that name in its place.
///
/// It needs memory for the names, so `OutOfMemory` may come where a value of that name is kept.
pub fn put_all_or_none<V: Named + Drop, L: Lends<KeptMap<V>>, R: Wait>(
    rt: &R,
    lender: &mut L,
    alloc: Global,
    values: Vec<V>,
) -> Result<(), DepotError<V>>
    ensures ok { OnOk result (L.shown lender.new
        ≡ option_map (λ kept. with_all V.name kept values.items) (L.shown lender.old)) }
    ensures free { OnOk result (IfSome (L.shown lender.old) (λ kept.
        All (λ v. IsNone (map.get kept (V.name v))) values.items)) }
    ensures distinct { OnOk result (IsSome (L.shown lender.old)
        → AllPairs (λ first second. V.name first ≢ V.name second) values.items) }

    // An error says that a name was taken only where it was kept, or an earlier value has it.
    ensures taken { (v : V) → IsErrOf result (DepotError.Taken v)
        → IfSome (L.shown lender.old) (λ kept. IsTakenAmong V.name kept values.items v) }
    ensures given_back { IfErr result (λ e. Contains values.items (refused_value e)) }
    ensures err { OnErr result (L.shown lender.new ≡ L.shown lender.old) }
{
    let mut names = Vec::new(alloc);
    for value in values {
        if let Err(refused) = put_and_push_key(rt, lender, &mut names, value) {
            take_back_values(rt, lender, names);
            return Err(refused);
        }
    }
    Ok(())
}
