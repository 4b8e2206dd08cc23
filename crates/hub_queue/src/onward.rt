//! Posters that wait in the yard for their line.

ghost use Rattle.std.specs.Prelude.{◌≡◌, ◌≤◌, IfSome, IfNone};
ghost use Rattle.std.specs.FinMap as map;
ghost use Rattle.std.specs.Option.{option_map};
ghost use Rattle.hub_envelope.specs.declared.limits.TheConstants.{MAX_MOVES};
ghost use Rattle.hub_queue.specs.Posting.{name_after};
ghost use Rattle.hub_queue.specs.Standing.{FollowsStand};

use crate::stand::Stand;
use hub_depot::{KeptMap, Key, Named, take_from_lent_map};
use hub_locked::Lends;
use std::marker::Model;
use std::sync::Wait;

/// A poster for the next queue of an end, which waits in the yard until the line comes there. It
/// has put nothing, and can't post before.
#[derive(Drop)]
pub struct Onward {
    pub(crate) stand: Stand,
}

impl Model for Onward {
    ghost use Rattle.hub_queue.specs.Standing.{StandSeat, IsUnused};

    ghost Value = { StandSeat };

    ghost view = { λ o. o.stand };

    ghost invariant = { λ o. IsUnused o.stand };
}

impl Named for Onward {
    ghost use Rattle.std.specs.Prelude.{◌≡◌};

    ghost name = { λ o. o.name };

    /// The end, the queue and the line that it is for.
    fn name(&self) -> Key
        ensures { result ≡ self.now.name }
    {
        self.stand.name
    }
}

/// Takes from the yard the stand of the line at the next queue of its end.
pub(crate) fn take_next_stand_from_yard<L: Lends<KeptMap<Onward>>, R: Wait>(
    rt: &R,
    yard: &mut L,
    name: Key,
) -> Option<Stand>
    requires { name.epoch ≤ MAX_MOVES }
    ensures next { IfSome result (FollowsStand name) }
    ensures found { IfSome (L.shown yard.old) (λ kept. result ≡ map.get kept (name_after name 1)) }
    ensures rest { L.shown yard.new
        ≡ option_map (λ kept. map.remove kept (name_after name 1)) (L.shown yard.old) }
    ensures none { IfNone result (L.shown yard.new ≡ L.shown yard.old) }
{
    let next = Key {
        end: name.end,
        epoch: name.epoch + 1,
        line: name.line,
    };
    let Onward { stand } = take_from_lent_map(rt, yard, next)?;
    let _name = stand.name;
    Some(stand)
}
