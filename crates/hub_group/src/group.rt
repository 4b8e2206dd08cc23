//! Members in the order in which they have joined.
ghost use Rattle.std.specs.Prelude.{◌≡◌, ◌≢◌, ◌≤◌, ◌==◌, All, IfNone, ℕ, length, position};
ghost use Rattle.std.specs.Prelude.{slice_get};
ghost use Rattle.hub_group.specs.Casts.{CastsAtEach};

use crate::member::{CastAnswer, GroupMember};
use hub_fan::FanPoster;
use std::alloc::Global;

/// Members in the order in which they have joined, each under a number of its own.
#[derive(Drop)]
pub struct CastGroup<M> {
    members: Vec<GroupMember<M>>,
    // How many have joined so far: the number of the last one.
    joined: u64,
    ghost drawn: { All (λ m. m.number ≤ joined) members.items },
}

/// Casts at each member. There is room for all answers.
fn post_to_all_but_source<M: Copy + Drop>(
    members: &mut [GroupMember<M>],
    source: u64,
    message: &M,
    answers: &mut [CastAnswer],
)
    requires { length members.old ≤ length answers.old }
    ensures cast { CastsAtEach message.now source members.old members.new answers.new }
    ensures rest { (j : ℕ) → length members.old ≤ j →
        slice_get answers.new j ≡ slice_get answers.old j }
{
    for place in 0..members.len() {
        answers[place] = members[place].post_unless_source(source, message);
    }
}

/// The place of the member of this number.
fn place_of<M: Drop>(members: &[GroupMember<M>], number: u64) -> Option<usize>
    ensures place { result ≡ position (λ m. m.number == number) members.now }
    ensures none { IfNone result (All (λ m. m.number ≢ number) members.now) }
{
    members.iter().position(|m| m.number == number)
}

impl<M: Copy + Drop> CastGroup<M> {
    ghost use Rattle.std.specs.Prelude.{◌≡◌, ◌≢◌, ◌+◌, ◌<◌, ◌≤◌, ℕ, [], ◌∷◌, ◌++◌, All, length};
    ghost use Rattle.std.specs.Prelude.{slice_get, IfOk, IfErr, IfSome, IfNone};
    ghost use Rattle.hub_group.specs.Casts.{CastsAtEach, Leaves};

    /// A group with no member. It takes no memory.
    pub fn new(alloc: Global) -> CastGroup<M>
        ensures { (result.members.items ≡ []) × (result.joined ≡ 0) }
    {
        CastGroup {
            members: Vec::new(alloc),
            joined: 0,
        }
    }

    /// How many members there are.
    pub fn count(&self) -> usize
        ensures { result ≡ length self.now.members.items }
    {
        self.members.len()
    }

    /// Makes who takes from the poster's line the last member, and answers its number, which no
    /// member has had before. Where there is no memory the poster comes back.
    pub fn join(&mut self, poster: FanPoster<M>) -> Result<u64, FanPoster<M>>
        ensures joined { IfOk result (λ number. self.new.members.items
            ≡ self.old.members.items ++ record { number = number; poster = poster } ∷ []) }
        ensures fresh { IfOk result (λ number. (number ≡ self.old.joined + 1)
            × (self.new.joined ≡ number)) }
        ensures above { IfOk result (λ number.
            All (λ m. m.number < number) self.old.members.items) }
        ensures refused { IfErr result (λ p. (p ≡ poster)
            × (self.new.members.items ≡ self.old.members.items)
            × (self.new.joined ≡ self.old.joined)) }
    {
        if self.joined == u64::MAX || self.members.reserve(1).is_err() {
            return Err(poster);
        }
        let number = self.joined + 1;
        self.joined = number;
        self.members.push_reserved(GroupMember { number, poster });
        Ok(number)
    }

    /// Posts a message at each member but the source, once, in the order of joining. The answers
    /// begin with those of all members, the source's among them, in that order.
    pub fn cast(&mut self, source: u64, message: &M, answers: &mut [CastAnswer])
        requires { length self.old.members.items ≤ length answers.old }
        ensures cast { CastsAtEach message.now source
            self.old.members.items self.new.members.items answers.new }
        ensures rest { (j : ℕ) → length self.old.members.items ≤ j →
            slice_get answers.new j ≡ slice_get answers.old j }
        ensures others { self.new.joined ≡ self.old.joined }
    {
        post_to_all_but_source(self.members.as_mut_slice(), source, message, answers);
    }

    /// Takes a member out, and gives its line back: whom to wake for it, or 0. Where no member has
    /// the number, nothing is changed.
    pub fn remove_member(&mut self, member: u64) -> Option<u64>
        ensures left { IfSome result (λ wake.
            Leaves member self.old.members.items self.new.members.items) }
        ensures none { IfNone result ((self.new.members.items ≡ self.old.members.items)
            × All (λ m. m.number ≢ member) self.old.members.items) }
        ensures others { self.new.joined ≡ self.old.joined }
    {
        let Some(place) = place_of(self.members.as_slice(), member) else {
            return None;
        };
        Some(self.members.remove(place).poster.close())
    }
}
