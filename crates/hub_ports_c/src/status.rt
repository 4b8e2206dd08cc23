//! What the exported functions answer. embed/c/varukoni_ports.h has the same numbers.

ghost use Rattle.std.specs.Prelude.{◌≡◌};

/// The call did what it says.
pub const DONE: u8 = 0;
/// Nothing waits.
pub const EMPTY: u8 = 1;
/// Nothing waits, and nothing more will come.
pub const ENDED: u8 = 2;
/// Memory ran out before anything was changed.
pub const NO_MEMORY: u8 = 3;
/// The port isn't started.
pub const DISABLED: u8 = 4;
/// The handle holds something else than the call wants, or nothing, or something already.
pub const WRONG_STATE: u8 = 5;
/// The peer is closed: nothing was posted.
pub const CLOSED: u8 = 6;

/// No place is left: nothing was changed.
pub const FULL: u8 = 10;

/// The number of this interface. A change of a function, of a number or of what one means makes it
/// another.
pub const VERSION: u32 = 1;

/// The number of the interface that this library has.
#[unsafe(no_mangle)]
pub extern "C" fn varukoni_ports_version() -> u32
    ensures { result ≡ 1 }
{
    VERSION
}
