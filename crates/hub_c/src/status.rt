//! What the exported functions answer. embed/c/varukoni.h has the same numbers.

ghost use Rattle.std.specs.Prelude.{◌≡◌};

/// The call did what it says.
pub const DONE: u8 = 0;
/// The text line is no step line, or the input is bad.
pub const BAD: u8 = 2;
/// Memory ran out before anything was changed.
pub const NO_MEMORY: u8 = 3;
/// Memory ran out for what is said. Nothing else is missing.
pub const NO_ROOM: u8 = 4;
/// The hub is closed where it should be open, or open where it should be closed.
pub const WRONG_STATE: u8 = 5;
/// Memory ran out within the steps of a line, now or earlier.
pub const LOST: u8 = 6;

/// The number of this interface. A change of a function, of a number or of what one means makes it
/// another.
pub const VERSION: u32 = 1;

/// The number of the interface that this library has.
#[unsafe(no_mangle)]
pub extern "C" fn varukoni_version() -> u32
    ensures { result ≡ 1 }
{
    VERSION
}
