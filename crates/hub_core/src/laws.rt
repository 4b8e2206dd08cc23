//! The laws of histories, of the machines, and of what joins them. Each function does nothing: its
//! contract is the law.

ghost use Rattle.std.specs.Prelude.{ℕ};
ghost use Rattle.hub_core.specs.History.{Pair, History};
ghost use Rattle.hub_core.specs.Legal.{Fits, Legal};
ghost use Rattle.hub_core.specs.Laws.{Headline, Fates};
ghost use Rattle.hub_core.specs.QueueMachine.{QueueLaws};
ghost use Rattle.hub_core.specs.declared.machine.Core.{Core};
ghost use Rattle.hub_core.specs.Shows.{Shows};
ghost use Rattle.hub_core.specs.GateMachine.{GateMachineLaws};
ghost use Rattle.hub_core.specs.Mailbox.{ChainLaws};
ghost use Rattle.hub_core.specs.MailboxOf.{EachShows, GoesOn, KeepsMailboxes, MailboxesShow};
ghost use Rattle.hub_core.specs.MailboxOf.{PairsAreEvents};
ghost use Rattle.hub_core.specs.Facts.{facts};
ghost use Rattle.hub_core.specs.Sound.{Sound};
ghost use Rattle.hub_core.specs.Laws.{NothingLeavesTheSame, SameIsJoined, KeepsTheLine};
ghost use Rattle.hub_core.specs.Laws.{TurnedPutsNothing, NoticeIsLast, InOrder, OneAnswer};

/// What holds of every legal history: `run` answers one, and `Core::step` makes one longer.
/// The function does nothing; the laws are its contract.
pub fn prove_history_laws()
    ensures headline { (h : History) → Legal h → Headline h }
    ensures sound { (h : History) → Legal h → Sound (facts h) }
    ensures keeps_the_line { KeepsTheLine }
    ensures turned { TurnedPutsNothing }
    ensures fates { (h : History) → Legal h → Fates h }
    ensures notice_is_last { NoticeIsLast }
    ensures unchanged { NothingLeavesTheSame }
    ensures same { SameIsJoined }
    ensures one_answer { OneAnswer }
{}

/// What holds of every queue, in the core and among running threads: for every line what was taken,
/// followed by what is held, is what it put, and that is numbered from 0. The function does
/// nothing; the laws are its contract.
pub fn prove_queue_laws()
    ensures { QueueLaws }
{}

/// What holds of every gate machine with rights `R`: the right of a line is at home unless the line
/// is inside or the rights were collected. The function does nothing; the laws are its contract.
pub fn prove_gate_machine_laws<R>()
    ensures { GateMachineLaws R }
{}

/// What holds of every mailbox machine whose gates have rights `R`: line by line, what was taken
/// out of its chain of queues is a prefix of what was put there. The function does nothing; the
/// laws are its contract.
pub fn prove_mailbox_chain_laws<R>()
    ensures { ChainLaws R }
{}

/// The ends of a core that shows a history are mailboxes that show it: queue by queue a gate and
/// what it holds. After a legal history these are the mailboxes that the events of its pairs make:
/// each shows the history, goes on by the events of a pair that fits, and has the queues that the
/// core keeps. And what such a core took is in order, queue by queue. The function does nothing;
/// the laws are its contract.
pub fn prove_mailboxes_show_history()
    ensures shown { (core : Core) (h : History) → Shows core h → MailboxesShow core h }
    ensures shows { (h : History) → Legal h → EachShows h }
    ensures goes_on { (h : History) (p : Pair) → Legal h → Fits h p → (e : ℕ) → GoesOn h p e }
    ensures kept { (core : Core) (h : History) → Shows core h → KeepsMailboxes core h }
    ensures in_order { (core : Core) (h : History) → Shows core h → InOrder h }
{}

/// What each pair of a legal history is to the mailbox of an end: events there, or nothing. The
/// function does nothing; the law is its contract.
pub fn prove_steps_are_mailbox_events()
    ensures { PairsAreEvents }
{}
