//! What is done with the group that a handle holds.
ghost use Rattle.std.specs.Prelude.{◌≡◌, ◌⊎◌, false};

use crate::resource::{Message, Resource};
use crate::status::{DONE, EMPTY, FULL, NO_MEMORY, WRONG_STATE};
use hub_group::CastAnswer;
use std::mem;

impl Resource {
    ghost use Rattle.std.specs.Prelude.{◌≡◌, ◌⊎◌, false, length};
    ghost use Rattle.hub_ports_c.specs.FanResources.{is_poster};
    ghost use Rattle.hub_ports_c.specs.GroupResources.{AtGroup, CastsAll, Counts, HasNoMember};
    ghost use Rattle.hub_ports_c.specs.GroupResources.{IsCrowded, JoinsGroup, LeavesGroup};
    ghost use Rattle.hub_ports_c.specs.GroupResources.{SameGroup, is_group};

    /// Makes who takes from a poster's line the last member of a group, which has the poster then.
    pub(crate) fn add_group_member(&mut self, poster: &mut Resource, member: &mut u64) -> u8
        ensures joined { result ≡ 0 → AtGroup (JoinsGroup member.new poster.old) self.old self.new }
        ensures no_memory { result ≡ 3 → AtGroup SameGroup self.old self.new }
        ensures other { result ≡ 5 → (self.new ≡ self.old)
            × ((is_group self.old ≡ false) ⊎ (is_poster poster.old ≡ false)) }
        ensures poster { (result ≡ 0) ⊎ (poster.new ≡ poster.old) }
        ensures member { (result ≡ 0) ⊎ (member.new ≡ member.old) }
        ensures statuses { (result ≡ 0) ⊎ ((result ≡ 3) ⊎ (result ≡ 5)) }
    {
        let Resource::Group(group) = self else {
            return WRONG_STATE;
        };
        match mem::replace(poster, Resource::Gone) {
            Resource::Poster(joining) => match group.join(joining) {
                Ok(number) => {
                    *member = number;
                    DONE
                }
                Err(refused) => {
                    *poster = Resource::Poster(refused);
                    NO_MEMORY
                }
            },
            other => {
                *poster = other;
                WRONG_STATE
            }
        }
    }

    /// How many members a group has.
    pub(crate) fn member_count(&self, count: &mut usize) -> u8
        ensures counted { result ≡ 0 → Counts count.new self.now }
        ensures other { result ≡ 5 → (is_group self.now ≡ false) × (count.new ≡ count.old) }
        ensures statuses { (result ≡ 0) ⊎ (result ≡ 5) }
    {
        let Resource::Group(group) = self else {
            return WRONG_STATE;
        };
        *count = group.count();
        DONE
    }

    /// Posts a message at each member of a group but the source.
    pub(crate) fn cast(&mut self, source: u64, message: &Message, answers: &mut [CastAnswer]) -> u8
        ensures cast { result ≡ 0 →
            AtGroup (CastsAll message.now source answers.old answers.new) self.old self.new }
        ensures crowded { result ≡ 10 → AtGroup (IsCrowded (length answers.old)) self.old self.new }
        ensures other { result ≡ 5 → (is_group self.old ≡ false) × (self.new ≡ self.old) }
        ensures answers { (result ≡ 0) ⊎ (answers.new ≡ answers.old) }
        ensures statuses { (result ≡ 0) ⊎ ((result ≡ 5) ⊎ (result ≡ 10)) }
    {
        let Resource::Group(group) = self else {
            return WRONG_STATE;
        };
        if group.count() > answers.len() {
            return FULL;
        }
        group.cast(source, message, answers);
        DONE
    }

    /// Takes a member out of a group.
    pub(crate) fn remove_member(&mut self, member: u64, wake: &mut u64) -> u8
        ensures left { result ≡ 0 → AtGroup (LeavesGroup member) self.old self.new }
        ensures none { result ≡ 1 → AtGroup (HasNoMember member) self.old self.new }
        ensures other { result ≡ 5 → (is_group self.old ≡ false) × (self.new ≡ self.old) }
        ensures wake { (result ≡ 0) ⊎ (wake.new ≡ wake.old) }
        ensures statuses { (result ≡ 0) ⊎ ((result ≡ 1) ⊎ (result ≡ 5)) }
    {
        let Resource::Group(group) = self else {
            return WRONG_STATE;
        };
        match group.remove_member(member) {
            Some(token) => {
                *wake = token;
                DONE
            }
            None => EMPTY,
        }
    }
}
