//! A listener and its bells, and what they know of how they sleep and wake.

ghost use Rattle.std.specs.Prelude.{◌≡◌, ◌+◌, ◌<◌, ◌==◌, ℕ, [], ◌∷◌, ◌++◌, not, IfOk, List};
ghost use Rattle.std.specs.Arc.{arc_value};

use crate::OutOfMemory;
use crate::board::{
    ASLEEP, Board, BoardSeat, BoardWords, FIRST_BITS, Fresh, LoadWord, NAMES, SetBits, StoreWord,
    TakeWord, WORDS, end_mask_of, group_mask_of_end, has_bit_of_mask, word_index_of_end,
};
use crossbeam_utils::rule::{Outcome, Protocol};
use crossbeam_utils::sync::parker::{Pass, RuledParker, RuledUnparker};
use hub_envelope::EndId;
use std::alloc::Global;
use std::marker::Model;
use std::sync::{Arc, Wait};
use std::thread;

/// What wakes the loop that takes: whoever has posted at an enabled end rings it.
#[derive(Drop)]
pub struct Bell {
    board: Arc<Board>,
    seat: BoardSeat,
    pass: WakePass,
}

impl Model for Bell {
    ghost use Rattle.std.specs.Prelude.{◌≡◌, []};
    ghost use Rattle.std.specs.Arc.{arc_value};
    ghost use Rattle.hub_bell.specs.Seats.{BoardSeat, board_id, board_seat};

    ghost Value = { BoardSeat };

    ghost view = { λ b. board_seat (board_id b.seat.table_id b.pass.table_id)
        b.seat.me.0 b.pass.me.0 };

    ghost invariant = { λ b. (b.seat.table_id ≡ (arc_value b.board).words.shared.table_id)
        × (b.pass.table_id ≡ (arc_value (arc_value b.board).waker.state).shared.table_id) };
}

impl Bell {
    ghost use Rattle.hub_bell.specs.declared.board.BoardStep.TheVariants.{Looked};
    ghost use Rattle.hub_bell.specs.Ready.{asleep_word, is_set};
    ghost use Rattle.hub_bell.specs.Ringing.{IsRung, marking};
    ghost use Rattle.hub_bell.specs.Seats.{board_id, new_at};

    /// The first seat at a board, of which this is a bell.
    pub(crate) fn at_first_seat_of_board(board: Arc<Board>) -> Bell
        ensures { result ≡ new_at (board_id
            (arc_value board).words.shared.table_id
            (arc_value (arc_value board).waker.state).shared.table_id) }
    {
        let seat = board.words.shared.load_new_seat::<Fresh>(NAMES).1;
        let pass = board.waker.pass();
        Bell { board, seat, pass }
    }

    /// Leaves a bit set, and answers whether it was clear.
    fn set_bit_if_clear(&mut self, word: usize, mask: u64) -> bool
        requires { word < 1040 }
        ensures { (found : ℕ) × (result ≡ not (is_set found mask))
            × (self.new ≡ record self.old {
              at = record self.old.at {
                steps = self.old.at.steps ++ marking word mask found;
              };
            }) }
    {
        let words = &self.board.words.shared;
        if has_bit_of_mask(words.load::<LoadWord>(&mut self.seat, word), mask) {
            return false;
        }
        words.fetch_or::<SetBits>(&mut self.seat, word, mask);
        true
    }

    /// Whether the listener sleeps, or is about to.
    fn is_listener_asleep(&mut self) -> bool
        ensures { (found : ℕ) × (result ≡ (found == 1))
            × (self.new ≡ record self.old {
              at = record self.old.at {
                steps = self.old.at.steps ++ Looked asleep_word found ∷ [];
              };
            }) }
    {
        self.board
            .words
            .shared
            .load::<LoadWord>(&mut self.seat, ASLEEP)
            == 1
    }

    /// Tells the loop that something was posted at its end. Where the end's bit is set already this
    /// is one load; else the bit is set, and the loop is woken if it sleeps.
    pub fn ring(&mut self, end: EndId)
        ensures { (self.new.board ≡ self.old.board) × IsRung self.old.at self.new.at end }
    {
        if !self.set_bit_if_clear(word_index_of_end(end), end_mask_of(end)) {
            return;
        }
        if !self.set_bit_if_clear(NAMES, group_mask_of_end(end)) {
            return;
        }
        if self.is_listener_asleep() {
            self.wake();
        }
    }

    /// Wakes the loop where it sleeps, or lets it go on at once when it next would. It says nothing
    /// of any end.
    pub fn wake(&mut self)
        ensures { self.new ≡ record self.old {
          at = record self.old.at {
            wakes = self.old.at.wakes + 1;
          };
        } }
    {
        self.board.waker.unpark_as::<Wake>(&mut self.pass);
    }
}

impl Clone for Bell {
    ghost use Rattle.std.specs.Prelude.{◌≡◌};
    ghost use Rattle.hub_bell.specs.Seats.{new_at};

    ghost is_clone = { λ bell other. other ≡ new_at bell.board };

    /// One more bell of the same loop, which has done nothing yet.
    fn clone(&self) -> Result<Bell, OutOfMemory> {
        Ok(Bell::at_first_seat_of_board(Arc::try_clone(&self.board)?))
    }
}

/// What one of them has done. It stands in proofs alone: no value of it is made.
pub struct WakeView {
    /// How often it has slept.
    pub sleeps: u64,
    /// How often it has woken the listener.
    pub wakes: u64,
}

/// Whoever sleeps or wakes counts for itself alone.
pub struct OwnCounts;

impl Protocol<bool, WakeView> for OwnCounts {
    ghost use Rattle.hub_bell.specs.Seats.{rested};

    ghost holds = { λ _ _. Unit {0} };

    ghost first = { rested };
}

pub(crate) type WakePass = Pass<WakeView>;

pub(crate) type Sleeper = RuledParker<WakeView, OwnCounts>;

pub(crate) type Waker = RuledUnparker<WakeView, OwnCounts>;

/// The listener has slept.
pub(crate) struct Sleep;

impl Outcome<bool, WakeView> for Sleep {
    ghost use Rattle.std.specs.Prelude.{◌≡◌, ◌+◌};

    ghost then = { λ before _ _ after. after ≡ record before { sleeps = before.sleeps + 1 } };
}

/// The listener was woken.
pub(crate) struct Wake;

impl Outcome<bool, WakeView> for Wake {
    ghost use Rattle.std.specs.Prelude.{◌≡◌, ◌+◌};

    ghost then = { λ before _ _ after. after ≡ record before { wakes = before.wakes + 1 } };
}

/// How often a listener looks for a ring before it sleeps: for about as long as it takes to sleep
/// and to be woken, where no other thread wants the processor.
const LOOKS: usize = 32;

/// A loop's end of its bells: it finds the ends that were rung, and sleeps until the next ring.
///
/// ```rust
/// let (mut listener, mut bell) = Listener::new_with_first_bell(alloc)?;
/// bell.ring(EndId(7));
/// assert_eq!(rt; listener.take_rung_groups(), 1);
/// assert_eq!(rt; listener.take_bits_of_word(0), 1 << 7);
/// ```
#[derive(Drop)]
pub struct Listener {
    sleeper: Sleeper,
    board: Arc<Board>,
    seat: BoardSeat,
    pass: WakePass,
}

impl Model for Listener {
    ghost use Rattle.std.specs.Prelude.{◌≡◌, []};
    ghost use Rattle.std.specs.Arc.{arc_value};
    ghost use Rattle.hub_bell.specs.Seats.{BoardSeat, board_id, board_seat};

    ghost Value = { BoardSeat };

    ghost view = { λ l. board_seat (board_id l.seat.table_id l.pass.table_id)
        l.seat.me.0 l.pass.me.0 };

    ghost invariant = { λ l. (l.seat.table_id ≡ (arc_value l.board).words.shared.table_id)
        × (l.pass.table_id ≡ (arc_value l.sleeper.unparker.state).shared.table_id)
        × (l.pass.table_id ≡ (arc_value (arc_value l.board).waker.state).shared.table_id) };
}

impl Listener {
    ghost use Rattle.hub_bell.specs.declared.board.BoardStep.{BoardStep};
    ghost use Rattle.hub_bell.specs.declared.board.BoardStep.TheVariants.{Looked};
    ghost use Rattle.hub_bell.specs.Ready.{names_word};
    ghost use Rattle.hub_bell.specs.Seats.{new_at};
    ghost use Rattle.hub_bell.specs.Listening.{
      HasParked,
      HasSlept,
      IsSwappedOut,
      looked,
      some_found,
    };

    /// A listener, and the first of its bells. No bit is set.
    pub fn new_with_first_bell(alloc: Global) -> Result<(Listener, Bell), OutOfMemory>
        ensures { IfOk result (λ made.
            (made.0 ≡ new_at made.0.board) × (made.1 ≡ new_at made.0.board)) }
    {
        let (sleeper, pass) = Sleeper::ruled(alloc)?;
        let waker = sleeper.unparker().clone()?;
        let (words, seat) = BoardWords::of_words(alloc, &[0; WORDS], &())?;
        let board = Arc::new(alloc, Board { words, waker })?;
        let bell = Bell::at_first_seat_of_board(Arc::try_clone(&board)?);
        let listener = Listener {
            sleeper,
            board,
            seat,
            pass,
        };
        Ok((listener, bell))
    }

    /// One more bell of this listener, which has done nothing yet.
    pub fn new_bell(&self) -> Result<Bell, OutOfMemory>
        ensures { IfOk result (λ bell. bell ≡ new_at self.now.board) }
    {
        let board = Arc::try_clone(&self.board)?;
        Ok(Bell::at_first_seat_of_board(board))
    }

    /// Takes out the names of the groups in which bits were set: bit `n` is set where one was set
    /// in the words from `16 * n` to `16 * n + 15` since the names were last taken out.
    pub fn take_rung_groups(&mut self) -> u64
        ensures { (self.new.board ≡ self.old.board)
            × IsSwappedOut self.old.at self.new.at names_word result }
    {
        self.take_word(NAMES)
    }

    /// Takes out the bits of a word: bit `k` of word `n` is that of the end whose number is
    /// `64 * n + k`.
    pub fn take_bits_of_word(&mut self, word: usize) -> u64
        requires { word < 1024 }
        ensures { (self.new.board ≡ self.old.board)
            × IsSwappedOut self.old.at self.new.at (16 + word) result }
    {
        self.take_word(FIRST_BITS + word)
    }

    /// A load comes first, since mostly there is nothing to take out.
    fn take_word(&mut self, word: usize) -> u64
        requires { word < 1040 }
        ensures { (self.new.board ≡ self.old.board)
            × IsSwappedOut self.old.at self.new.at word result }
    {
        let words = &self.board.words.shared;
        if words.load::<LoadWord>(&mut self.seat, word) == 0 {
            return 0;
        }
        words.swap::<TakeWord>(&mut self.seat, word, 0)
    }

    /// Whether a word with set bits is named.
    fn has_set_bits(&mut self) -> bool
        ensures { (found : ℕ) × (result ≡ not (found == 0))
            × (self.new ≡ record self.old {
              at = record self.old.at {
                steps = self.old.at.steps ++ Looked names_word found ∷ [];
              };
            }) }
    {
        self.board
            .words
            .shared
            .load::<LoadWord>(&mut self.seat, NAMES)
            != 0
    }

    /// Whether an end is rung soon: looks some times, and lets other threads run after each.
    fn finds_a_ring_soon(&mut self) -> bool
        ensures { (looks : List ℕ) × (result ≡ some_found looks)
            × (self.new ≡ record self.old { at = looked self.old.at looks }) }
    {
        for _look in 0..LOOKS {
            if self.has_set_bits() {
                return true;
            }
            thread::yield_now();
        }
        false
    }

    /// Sleeps until the loop is woken. It doesn't where an end was rung and its bit not taken out
    /// yet, or is rung before it has looked some times, and it may return for no reason.
    pub fn sleep<R: Wait>(&mut self, rt: &R)
        ensures { (self.new.board ≡ self.old.board) × HasSlept self.old.at self.new.at }
    {
        if !self.finds_a_ring_soon() {
            self.park(rt);
        }
    }

    /// Says that the listener sleeps, and sleeps unless an end was rung before that.
    fn park<R: Wait>(&mut self, rt: &R)
        ensures { (self.new.board ≡ self.old.board) × HasParked self.old.at self.new.at }
    {
        let words = &self.board.words.shared;
        words.store::<StoreWord>(&mut self.seat, ASLEEP, 1);
        if words.load::<LoadWord>(&mut self.seat, NAMES) == 0 {
            self.sleeper.park_as::<Sleep, R>(rt, &mut self.pass);
        }
        words.store::<StoreWord>(&mut self.seat, ASLEEP, 0);
    }
}
