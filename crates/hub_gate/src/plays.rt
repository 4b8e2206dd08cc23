//! What each step on a gate's word tells the seat that makes it.
use crate::gate::Right;
use crate::view::View;
use atomic_table::Play;
use std::marker::PhantomData;

/// The first seat takes all slots in hand.
pub struct Gather;

impl<T> Play<Option<T>, View<T>> for Gather {
    ghost use Rattle.hub_gate.specs.GatePlays.{Gathers};

    ghost then = { Gathers };
}

/// The first seat gives all slots back, each with its right, and is the keeper's.
pub struct Open;

impl<T> Play<Option<T>, View<T>> for Open {
    ghost use Rattle.hub_gate.specs.GatePlays.{Opens};

    ghost then = { Opens };
}

/// A line enters.
pub struct Enter<T>(PhantomData<T>);

impl<T: Right> Play<Option<T>, View<T>> for Enter<T> {
    ghost use Rattle.hub_gate.specs.GatePlays.{Enters};

    ghost then = { Enters T.tag };
}

/// A line leaves, with its right.
pub struct Leave<T>(PhantomData<T>);

impl<T: Right> Play<Option<T>, View<T>> for Leave<T> {
    ghost use Rattle.hub_gate.specs.GatePlays.{Leaves};

    ghost then = { Leaves T.tag };
}

/// A line turns back.
pub struct TurnBack<T>(PhantomData<T>);

impl<T: Right> Play<Option<T>, View<T>> for TurnBack<T> {
    ghost use Rattle.hub_gate.specs.GatePlays.{TurnsBack};

    ghost then = { TurnsBack T.tag };
}

/// The keeper sets the flag whose bit the step sets.
pub struct SetFlag<T>(PhantomData<T>);

impl<T: Right> Play<Option<T>, View<T>> for SetFlag<T> {
    ghost use Rattle.hub_gate.specs.GatePlays.{Sets};

    ghost then = { Sets T.tag };
}

/// The keeper looks.
pub struct Look<T>(PhantomData<T>);

impl<T: Right> Play<Option<T>, View<T>> for Look<T> {
    ghost use Rattle.hub_gate.specs.GatePlays.{Looks};

    ghost then = { Looks T.tag };
}
