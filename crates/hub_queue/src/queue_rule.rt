//! The rule of a queue that threads share, what its passes may do, and the laws that follow.

ghost use Rattle.std.specs.Prelude.{ℕ};
ghost use Rattle.hub_queue.specs.Laws.{RuleShowsQueue, TakenIsPrefix, TakesInTurn, ChainIsPrefix};

use crate::store::PassView;
use crossbeam_queue::protocol::{Join, Lesson, Outcome, Protocol, Split};
use hub_envelope::Envelope;
use std::marker::{Brand, PhantomData};

/// What the queue holds and what its passes know show a state of the queue machine.
pub struct QueueRule;

impl Protocol<Envelope, PassView> for QueueRule {
    ghost use Rattle.hub_queue.specs.SharedQueue.{ShowsQueue, first_view};

    ghost holds = { ShowsQueue };

    ghost first = { first_view };
}

/// The pass of a line pushes.
pub struct Put;

impl Outcome<Envelope, PassView> for Put {
    ghost use Rattle.std.specs.Prelude.{◌≡◌};
    ghost use Rattle.hub_queue.specs.PassSteps.{after_put};

    ghost then = { λ v x w. w ≡ after_put v x };
}

/// The taker's pass pops, and learns what it is that was put where it finds none.
pub struct Take;

impl Outcome<Envelope, PassView> for Take {
    ghost use Rattle.std.specs.Prelude.{◌≡◌};
    ghost use Rattle.hub_queue.specs.PassSteps.{TellsOf, after_take};

    ghost then = { λ v x w. (w ≡ after_take v x) × TellsOf v x };
}

impl Lesson<Envelope, PassView> for Take {
    ghost use Rattle.hub_queue.specs.PassSteps.{Learnt};

    ghost fact = { Learnt };
}

/// The end and the epoch of a queue, which a proof picks where the passes of its lines are made.
pub trait QueueName {
    ghost end: { ℕ };

    ghost epoch: { ℕ };
}

impl QueueName for Brand {
    ghost end = { 0 };

    ghost epoch = { 0 };
}

/// The taker's pass cuts off the pass of the next line.
pub struct CutLine<N: QueueName> {
    name: PhantomData<N>,
}

impl<N: QueueName> Split<PassView> for CutLine<N> {
    ghost use Rattle.hub_queue.specs.PassSteps.{line_cut, taker_left};

    ghost left = { taker_left N.end N.epoch };

    ghost right = { line_cut N.end N.epoch };
}

/// The taker's pass takes in the pass of a line for good.
pub struct TakeIn;

impl Join<PassView> for TakeIn {
    ghost use Rattle.hub_queue.specs.declared.store.PassView.TheVariants.{Spent};
    ghost use Rattle.hub_queue.specs.PassSteps.{taken_in};

    ghost both = { taken_in };

    ghost spent = { Spent };
}

/// The pass of a line counts a push that the queue has refused. The new pass may do nothing.
pub struct CountRefusal;

impl Split<PassView> for CountRefusal {
    ghost use Rattle.hub_queue.specs.PassSteps.{no_more, refusal_counted};

    ghost left = { refusal_counted };

    ghost right = { no_more };
}

/// The pass of a line hands all that it may do to a new pass.
pub struct Lend;

impl Split<PassView> for Lend {
    ghost use Rattle.hub_queue.specs.PassSteps.{lent, lent_left};

    ghost left = { lent_left };

    ghost right = { lent };
}

/// The taker's pass takes in the pass of a line for a while.
pub struct Compare;

impl Join<PassView> for Compare {
    ghost use Rattle.hub_queue.specs.declared.store.PassView.TheVariants.{Spent};
    ghost use Rattle.hub_queue.specs.PassSteps.{joined_pass};

    ghost both = { joined_pass };

    ghost spent = { Spent };
}

impl Lesson<Envelope, PassView> for Compare {
    ghost use Rattle.hub_queue.specs.PassSteps.{Learnt};

    ghost fact = { Learnt };
}

/// The taker's pass gives back the pass of a line.
pub struct GiveBack;

impl Split<PassView> for GiveBack {
    ghost use Rattle.hub_queue.specs.PassSteps.{line_again, taker_again};

    ghost left = { taker_again };

    ghost right = { line_again };
}

/// What holds of the queues of an end, which its taker goes through one after another. It does
/// nothing.
///
/// `rule`: the rule that a queue and its passes keep at every moment of any schedule says that they
/// show a state of the queue machine.
/// `prefix`: so of each queue what was taken of a line is a prefix of what the line has put there.
/// `in_turn`: nothing is taken of a newer queue before the taker stands there.
/// `chain`: so line by line, what was taken out of all queues, joined, is a prefix of what was put
/// there, joined: all of each queue that was left, and what a meeting shows of the one where the
/// taker stands.
pub fn prove_queue_chain_laws()
    ensures rule { RuleShowsQueue ⟦<QueueRule as Protocol<Envelope, PassView>>⟧.holds }
    ensures prefix { TakenIsPrefix ⟦<QueueRule as Protocol<Envelope, PassView>>⟧.holds }
    ensures in_turn { TakesInTurn }
    ensures chain { ChainIsPrefix }
{}
