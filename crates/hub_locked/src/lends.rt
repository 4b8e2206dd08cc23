//! Who lends a value for one call: whoever owns it, or the lock behind which threads share it.

ghost use Rattle.std.specs.Prelude.{Option};
ghost use Rattle.std.specs.Fn.{FnOnceReturnsAtMut};
ghost use Rattle.hub_locked.specs.Lending.{IsDoneIn};

use crate::locked::Locked;
use std::sync::Wait;

/// Whoever lends a value.
pub trait Lends<T> {
    /// The value, or `None` where other threads may change it at any moment.
    ghost shown: { Self → Option T };

    /// Calls the function once, on the value. An answer of the type `X` comes from nowhere else.
    fn lend<R: Wait, X, F: FnOnce(&mut T) -> X>(&mut self, rt: &R, act: F) -> X
        requires { F.IsAlwaysCallable act }
        ensures called { (was : T) × (now : T) × FnOnceReturnsAtMut F.FnOnce act was result now }
        ensures shown { IsDoneIn (shown self.old) (shown self.new)
            (λ was now. FnOnceReturnsAtMut F.FnOnce act was result now) };
}

/// It shows the value itself.
impl<T> Lends<T> for T {
    ghost use Rattle.std.specs.Prelude.{Some};

    ghost shown = { λ value. Some value };

    fn lend<R: Wait, X, F: FnOnce(&mut T) -> X>(&mut self, _rt: &R, act: F) -> X {
        act(self)
    }
}

/// It shows nothing, since other threads may change the value between any two calls.
impl<T> Lends<T> for &Locked<T> {
    ghost use Rattle.std.specs.Prelude.{None};

    ghost shown = { λ _. None };

    fn lend<R: Wait, X, F: FnOnce(&mut T) -> X>(&mut self, rt: &R, act: F) -> X {
        act(&mut self.lock(rt))
    }
}
