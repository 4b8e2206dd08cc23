//! That the order of joining is that of the numbers.

ghost use Rattle.hub_broadcast.specs.Ranks.{KeepsOrder};

/// What holds of the order of a roster whose members were all made with one count of ends.
///
/// Each call leaves the ends of the roster rising, so the order in which the members joined is that
/// of their numbers, and a cast goes to no end twice. The function does nothing; the law is its
/// contract.
pub fn prove_roster_stays_sorted()
    ensures { KeepsOrder }
{}
