//! Who is told of each thing that was done.

ghost use Rattle.std.specs.Prelude.{◌≡◌, [], ◌∷◌, ◌++◌, List, Option};
ghost use Rattle.std.specs.Option.{option_map};

use std::sync::Wait;

/// Who is told of each thing that was done.
pub trait Hears<T> {
    /// What it was told, in order, or `None` where it doesn't show it.
    ghost told: { Self → Option (List T) };

    /// That was done. It may wait.
    fn tell_done<R: Wait>(&mut self, rt: &R, done: T)
        ensures { told self.new ≡ option_map (λ list. list ++ done ∷ []) (told self.old) };
}

/// It keeps nothing of what it is told, and drops it.
#[derive(Drop)]
pub struct NoHearer;

impl<T: Drop> Hears<T> for NoHearer {
    ghost use Rattle.std.specs.Prelude.{None};

    ghost told = { λ _. None };

    fn tell_done<R: Wait>(&mut self, _rt: &R, _done: T) {}
}

/// It keeps all that it is told, and waits where there is no memory until there is.
impl<T> Hears<T> for Vec<T> {
    ghost use Rattle.std.specs.Prelude.{Some};

    ghost told = { λ list. Some list.items };

    fn tell_done<R: Wait>(&mut self, rt: &R, done: T) {
        for _ in rt.forever() {
            if self.reserve(1).is_ok() {
                self.push_reserved(done);
                return;
            }
        }
        unreachable!()
    }
}
