use std::sync::{Mutex, MutexGuard, Wait};

/// A value that threads share, behind a lock. What it is at a moment no contract says, since
/// another thread may act between any two calls.
#[derive(Drop)]
pub struct Locked<T> {
    value: Mutex<T>,
}

impl<T> Locked<T> {
    /// A value of which no thread has the lock. It takes no memory.
    pub fn new(value: T) -> Locked<T> {
        Locked {
            value: Mutex::new(value),
        }
    }

    /// The value, once no thread shares it.
    pub fn into_inner(self) -> T {
        let Locked { value } = self;
        value.into_inner()
    }

    /// Takes the lock, and gives the value for as long as that is held.
    pub fn lock<R: Wait>(&self, rt: &R) -> MutexGuard<'_, T> {
        self.value.lock(rt)
    }
}
