//! The laws of every gate.

ghost use Rattle.hub_gate.specs.GateLaws.{RuleShowsGate, NoneInAfterRights, NoSeatInAfterRights};
ghost use Rattle.hub_gate.specs.GateLaws.{EachStepChangesTheWord, TheWordShowsTheGate};

use crate::gate::{GateRule, Right};
use crate::view::View;
use atomic_table::TableRule;
use std::snapshot::Snapshot;

/// What holds of every gate, at every moment of any schedule. It does nothing.
///
/// `rule`: the rule that a gate's table keeps between any two steps says that word, slots and seats
/// show a state that the gate machine reaches.
/// `over`: once the rights were given no line is inside and none is let in, in any later state.
/// `seats`: nor has any seat a line inside, at any moment.
/// `steps`: each step changes the word as its event says.
/// `word`: the parts of the word are flags and count.
pub fn prove_gate_laws<T: Right>()
    ensures rule { (key : _) → RuleShowsGate T.tag
        (⟦<GateRule<T> as TableRule<Option<T>, View<T>, Snapshot<Vec<T>>>>⟧.holds key) }
    ensures over { NoneInAfterRights T.tag }
    ensures seats { (key : _) → NoSeatInAfterRights
        (⟦<GateRule<T> as TableRule<Option<T>, View<T>, Snapshot<Vec<T>>>>⟧.holds key) }
    ensures steps { EachStepChangesTheWord T.tag }
    ensures word { TheWordShowsTheGate T.tag }
{}
