//! A member of a group, and what a cast comes to there.

use hub_fan::FanPoster;
use hub_line::NotPosted;

/// The message was posted.
pub const POSTED: u8 = 0;
/// There was no memory: nothing was posted.
pub const OUT_OF_MEMORY: u8 = 3;
/// The member's taker has closed its line: nothing was posted.
pub const CLOSED: u8 = 6;
/// The member is the source: nothing was posted.
pub const SOURCE: u8 = 11;

/// What a cast comes to at one member. It lies in memory as C has it.
#[repr(C)]
#[derive(Clone, Copy, Debug, PartialEq, Eq, Drop)]
pub struct CastAnswer {
    pub member: u64,
    /// Whom to wake, or 0.
    pub wake: u64,
    pub status: u8,
}

/// A member of a group.
#[derive(Drop)]
pub struct GroupMember<M> {
    pub(crate) number: u64,
    pub(crate) poster: FanPoster<M>,
}

impl<M: Copy + Drop> GroupMember<M> {
    ghost use Rattle.hub_group.specs.Casts.{Casts};

    /// Posts what is cast at a member that isn't its source.
    pub(crate) fn post_unless_source(&mut self, source: u64, message: &M) -> CastAnswer
        ensures { Casts message.now source self.old self.new result }
    {
        let mut answer = CastAnswer {
            member: self.number,
            wake: 0,
            status: SOURCE,
        };
        if self.number == source {
            return answer;
        }
        match self.poster.post(*message) {
            Ok(wake) => {
                answer.wake = wake;
                answer.status = POSTED;
            }
            Err((NotPosted::Closed, _)) => answer.status = CLOSED,
            Err((NotPosted::OutOfMemory, _)) => answer.status = OUT_OF_MEMORY,
        }
        answer
    }
}
