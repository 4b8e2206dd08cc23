//! Takes and turns, each with a count of pops of its own.

ghost use Rattle.std.specs.Prelude.{◌≡◌};

use hub_broadcast::Member;
use hub_clients::{ClientQueue, WorkerQueue};
use hub_envelope::EndId;
use hub_loop::{Checkpoint, EventLoop, Handler, Held, LoopError, Turn};
use hub_ports::{Hub, Port};
use hub_queue::{Steps, Taker, Took};
use std::marker::Brand;
use std::sync::Wait;
use std::sync::ledger::{Blank, Ledger};

/// What envelopes are taken from.
pub trait Takes {
    /// Takes once, and counts the pops.
    fn take_counted<L: Ledger, R: Wait>(&mut self, rt: &R, steps: &mut Steps<L>) -> Took;
}

impl Takes for Taker {
    fn take_counted<L: Ledger, R: Wait>(&mut self, rt: &R, steps: &mut Steps<L>) -> Took {
        self.take(rt, steps)
    }
}

impl Takes for Port {
    fn take_counted<L: Ledger, R: Wait>(&mut self, rt: &R, steps: &mut Steps<L>) -> Took {
        self.take(rt, steps)
    }
}

impl Takes for ClientQueue {
    fn take_counted<L: Ledger, R: Wait>(&mut self, rt: &R, steps: &mut Steps<L>) -> Took {
        self.take(rt, steps)
    }
}

impl Takes for WorkerQueue {
    fn take_counted<L: Ledger, R: Wait>(&mut self, rt: &R, steps: &mut Steps<L>) -> Took {
        self.take(rt, steps)
    }
}

impl Takes for Member {
    fn take_counted<L: Ledger, R: Wait>(&mut self, rt: &R, steps: &mut Steps<L>) -> Took {
        self.take(rt, steps)
    }
}

fn begin_and_take<L: Ledger, T: Takes, R: Wait>(rt: &R, end: &mut T, blank: Blank) -> Took
    requires { (blank.name ≡ L.name) × (blank.parts ≡ L.parts) × (L.parts ≡ 2) }
{
    let mut steps = Steps::<L>::new_at_zero(blank);
    end.take_counted(rt, &mut steps)
}

/// Takes once.
pub fn take<T: Takes, R: Wait>(rt: &R, end: &mut T) -> Took {
    begin_and_take::<Brand, T, R>(rt, end, Blank::new(2))
}

fn begin_and_turn<L: Ledger, H: Handler + Drop, C: Checkpoint + Drop, R: Wait>(
    rt: &R,
    hub: &Hub,
    event_loop: &mut EventLoop<H, C>,
    blank: Blank,
) -> Result<Turn, LoopError>
    requires { (blank.name ≡ L.name) × (blank.parts ≡ L.parts) × (L.parts ≡ 2) }
{
    let mut steps = Steps::<L>::new_at_zero(blank);
    event_loop.turn(rt, hub, &mut steps)
}

/// Makes a turn.
pub fn turn<H: Handler + Drop, C: Checkpoint + Drop, R: Wait>(
    rt: &R,
    hub: &Hub,
    event_loop: &mut EventLoop<H, C>,
) -> Result<Turn, LoopError> {
    begin_and_turn::<Brand, H, C, R>(rt, hub, event_loop, Blank::new(2))
}

/// The port of this number, which the loop holds no more.
pub fn release_port<H: Handler + Drop, C: Checkpoint + Drop>(
    event_loop: &mut EventLoop<H, C>,
    end: EndId,
) -> Option<Port> {
    match event_loop.release_end(end)? {
        Held::Port(port) => Some(port),
        held => {
            drop(held);
            None
        }
    }
}
