//! The word of a gate: three flags, and from bit 8 on how many lines are inside or turning back.
ghost use Rattle.std.specs.Prelude.{◌≡◌, ℕ, ◌*◌, ◌≤◌, ◌||◌, Bool};
ghost use Rattle.hub_core.specs.GateMachine as machine;
ghost use Rattle.hub_envelope.specs.declared.limits.TheConstants.{MAX_LINES};
ghost use Rattle.hub_gate.specs.Flags.{flag_bit};

/// A flag of the word.
#[derive(Clone, Copy)]
pub(crate) enum Flag {
    Enabled,
    Moved,
    Closed,
}

impl Flag {
    /// The flag's one bit.
    pub(crate) fn bit(self) -> u64
        ensures { result ≡ flag_bit self }
    {
        match self {
            Flag::Enabled => 1,
            Flag::Moved => 2,
            Flag::Closed => 4,
        }
    }
}

/// What each line that is inside or turning back adds to the word.
pub(crate) const ONE_LINE: u64 = 256;

/// What the flag adds to a word in which it is set, or not.
fn flag_bit_if_set(flag: Flag, is_set: bool) -> u64
    ensures { result ≡ flag_bit flag * machine.bit_of is_set }
{
    if is_set { flag.bit() } else { 0 }
}

/// The word with these flags and this count.
pub fn word_of(enabled: bool, moved: bool, closed: bool, count: u8) -> u64
    ensures exactly { result ≡ machine.word_of enabled moved closed count }
    ensures greatest { count ≤ MAX_LINES → result ≤ 8199 }
{
    let flags = flag_bit_if_set(Flag::Enabled, enabled)
        + flag_bit_if_set(Flag::Moved, moved)
        + flag_bit_if_set(Flag::Closed, closed);
    flags + count as u64 * ONE_LINE
}

/// Whether the word has the flag.
fn has_flag(word: u64, flag: Flag) -> bool
    ensures { result ≡ machine.has_bit word (flag_bit flag) }
{
    word & flag.bit() != 0
}

/// Whether the word has the flag ENABLED.
pub fn has_enabled_flag(word: u64) -> bool
    ensures exactly { result ≡ machine.enabled_in word }
    ensures part { (e m c : Bool) (k : ℕ) → word ≡ machine.word_of e m c k → result ≡ e }
{
    has_flag(word, Flag::Enabled)
}

/// Whether the word has the flag MOVED.
pub fn has_moved_flag(word: u64) -> bool
    ensures exactly { result ≡ machine.moved_in word }
    ensures part { (e m c : Bool) (k : ℕ) → word ≡ machine.word_of e m c k → result ≡ m }
{
    has_flag(word, Flag::Moved)
}

/// Whether the word has the flag CLOSED.
pub fn has_closed_flag(word: u64) -> bool
    ensures exactly { result ≡ machine.closed_in word }
    ensures part { (e m c : Bool) (k : ℕ) → word ≡ machine.word_of e m c k → result ≡ c }
{
    has_flag(word, Flag::Closed)
}

/// Whether the word has one of the flags MOVED and CLOSED.
pub(crate) fn has_moved_or_closed_flag(word: u64) -> bool
    ensures { result ≡ (machine.moved_in word || machine.closed_in word) }
{
    has_moved_flag(word) || has_closed_flag(word)
}

/// How many lines the word counts.
pub fn inside_line_count(word: u64) -> u64
    ensures exactly { result ≡ machine.count_in word }
    ensures part { (e m c : Bool) (k : ℕ) → word ≡ machine.word_of e m c k → result ≡ k }
{
    word / ONE_LINE
}
