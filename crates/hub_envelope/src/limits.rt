//! The limits of the hub. Each stands here alone, and the crates above name it.

ghost use Rattle.hub_envelope.specs.Limits.{TheLimits};

/// How many agents a hub has at most.
pub const MAX_AGENTS: usize = 16;

/// How many ends a hub has at most.
pub const MAX_ENDS: usize = 65_536;

/// How many lines an end has at most.
pub const MAX_LINES: usize = 32;

/// How many ports an envelope may carry.
pub const MAX_PORTS: usize = 16;

/// How often an end may be adopted.
pub const MAX_MOVES: u32 = 65_535;

/// How many retired queues one post passes at most.
pub const MAX_HOPS: u32 = 4;

/// How many envelopes a line may put in one queue.
pub const MAX_PUT: u64 = 1 << 62;

/// How long the compact text of a body may be, in bytes.
pub const MAX_BODY_BYTES: usize = 262_144;

/// How deep the arrays and objects of a body may nest.
pub const MAX_NESTING: usize = 64;

/// How many lines a script may have, declarations and actions together.
pub const MAX_SCRIPT_LINES: usize = 4_096;

/// How often the program asks a device for more of its input.
pub const MAX_READS: u32 = 1_048_576;

/// How many extensions of an event may be open at once.
pub const MAX_EXTENSIONS: u8 = 64;

/// How long a text may be that lies in the body itself, in bytes. Most messages of programs are
/// short.
pub(crate) const INLINE_BYTES: usize = 24;

/// Each limit as a number. It does nothing.
pub fn prove_limit_values()
    ensures limits { TheLimits }
{}
