//! What is done with the fan or the poster that a handle holds.
ghost use Rattle.std.specs.Prelude.{◌≡◌, ◌⊎◌, false};

use crate::resource::{Message, Resource, store_token_and_give_status};
use crate::status::{CLOSED, DISABLED, DONE, EMPTY, ENDED, FULL, NO_MEMORY, WRONG_STATE};
use hub_fan::{ClosedFan, FanDrained, FanTaken, NotOpened, NotPosted};
use std::mem;

impl Resource {
    ghost use Rattle.std.specs.Prelude.{◌≡◌, ◌⊎◌, false, true};
    ghost use Rattle.hub_fan.specs.declared.closing.FanDrained.TheVariants as drained;
    ghost use Rattle.hub_fan.specs.declared.fan.FanTaken.TheVariants as taken;
    ghost use Rattle.hub_ports_c.specs.FanResources.{AtFan, AtFanGrave, AtPoster, ClosesFan};
    ghost use Rattle.hub_ports_c.specs.FanResources.{DrainsOf, FindsALine, FindsNoLine, IsDisabled};
    ghost use Rattle.hub_ports_c.specs.FanResources.{IsFull};
    ghost use Rattle.hub_ports_c.specs.FanResources.{IsPoster};
    ghost use Rattle.hub_ports_c.specs.FanResources.{KeepsAll, OpensLine, PostsNone, PostsToFan};
    ghost use Rattle.hub_ports_c.specs.FanResources.{RefusesOver, SameFan, Starts, TakesOf};
    ghost use Rattle.hub_ports_c.specs.FanResources.{is_fan, is_fan_grave, is_poster};

    /// Opens a line of a fan, whose poster the other one holds then.
    pub(crate) fn open_line(&mut self, poster: &mut Resource, line: &mut u32) -> u8
        ensures opened { result ≡ 0 → AtFan (OpensLine line.new poster.new) self.old self.new }
        ensures no_memory { result ≡ 3 → AtFan SameFan self.old self.new }
        ensures full { result ≡ 10 → AtFan IsFull self.old self.new }
        ensures other { result ≡ 5 → (is_fan self.old ≡ false) × (self.new ≡ self.old) }
        ensures line { (result ≡ 0) ⊎ (line.new ≡ line.old) }
        ensures statuses { (result ≡ 0) ⊎ ((result ≡ 3) ⊎ ((result ≡ 5) ⊎ (result ≡ 10))) }
    {
        let Resource::Fan(fan) = self else {
            return WRONG_STATE;
        };
        match fan.open_line() {
            Ok((number, opened)) => {
                *line = number as u32;
                *poster = Resource::Poster(opened);
                DONE
            }
            Err(NotOpened::Full) => FULL,
            Err(NotOpened::OutOfMemory) => NO_MEMORY,
        }
    }

    /// Posts a message over a line of a fan.
    #[inline(always)]
    pub(crate) fn post_over_line_of_fan(&mut self, message: &Message, wake: &mut u64) -> u8
        ensures posted { result ≡ 0 → AtPoster (PostsToFan message.now) self.old self.new }
        ensures no_memory { result ≡ 3 → AtPoster PostsNone self.old self.new }
        ensures closed { result ≡ 6 → AtPoster RefusesOver self.old self.new }
        ensures other { result ≡ 5 → (is_poster self.old ≡ false) × (self.new ≡ self.old) }
        ensures wake { (result ≡ 0) ⊎ (wake.new ≡ wake.old) }
        ensures statuses { (result ≡ 0) ⊎ ((result ≡ 3) ⊎ ((result ≡ 5) ⊎ (result ≡ 6))) }
    {
        let Resource::Poster(poster) = self else {
            return WRONG_STATE;
        };
        match poster.post(*message) {
            Ok(token) => {
                *wake = token;
                DONE
            }
            Err((NotPosted::Closed, _)) => CLOSED,
            Err((NotPosted::OutOfMemory, _)) => NO_MEMORY,
        }
    }

    /// Gives a line of a fan back.
    pub(crate) fn close_poster(&mut self, wake: &mut u64) -> u8
        ensures closed { result ≡ 0 → IsPoster self.old }
        ensures other { result ≡ 5 → (is_poster self.old ≡ false) × (self.new ≡ self.old)
            × (wake.new ≡ wake.old) }
        ensures statuses { (result ≡ 0) ⊎ (result ≡ 5) }
    {
        match mem::replace(self, Resource::Gone) {
            Resource::Poster(poster) => {
                *wake = poster.close();
                DONE
            }
            other => {
                *self = other;
                WRONG_STATE
            }
        }
    }

    /// Starts a fan.
    pub(crate) fn start_fan(&mut self) -> u8
        ensures started { result ≡ 0 → AtFan Starts self.old self.new }
        ensures other { result ≡ 5 → (is_fan self.old ≡ false) × (self.new ≡ self.old) }
        ensures statuses { (result ≡ 0) ⊎ (result ≡ 5) }
    {
        let Resource::Fan(fan) = self else {
            return WRONG_STATE;
        };
        fan.start();
        DONE
    }

    /// Takes the next message of a fan.
    #[inline(always)]
    pub(crate) fn take_from_fan(&mut self, message: &mut Message, line: &mut u32) -> u8
        ensures took { result ≡ 0 →
            AtFan (TakesOf (taken.Message line.new message.new)) self.old self.new }
        ensures empty { result ≡ 1 → AtFan (TakesOf taken.Empty) self.old self.new }
        ensures ended { result ≡ 2 → AtFan (TakesOf (taken.Ended line.new)) self.old self.new }
        ensures disabled { result ≡ 4 → AtFan IsDisabled self.old self.new }
        ensures other { result ≡ 5 → (is_fan self.old ≡ false) × (self.new ≡ self.old) }
        ensures message { (result ≡ 0) ⊎ (message.new ≡ message.old) }
        ensures line { (result ≡ 0) ⊎ ((result ≡ 2) ⊎ (line.new ≡ line.old)) }
        ensures statuses { (result ≡ 0)
            ⊎ ((result ≡ 1) ⊎ ((result ≡ 2) ⊎ ((result ≡ 4) ⊎ (result ≡ 5)))) }
    {
        let Resource::Fan(fan) = self else {
            return WRONG_STATE;
        };
        match fan.take() {
            FanTaken::Message(number, taken) => {
                *line = number as u32;
                *message = taken;
                DONE
            }
            FanTaken::Empty => EMPTY,
            FanTaken::Ended(number) => {
                *line = number as u32;
                ENDED
            }
            FanTaken::Disabled => DISABLED,
        }
    }

    /// Says by its token whom to wake for a fan, and looks into each line then.
    pub(crate) fn arm_fan(&mut self, token: u64, old: &mut u64) -> u8
        ensures armed { (result ≡ 5) ⊎ AtFan KeepsAll self.old self.new }
        ensures some { result ≡ 0 → AtFan FindsALine self.old self.new }
        ensures none { result ≡ 1 → AtFan FindsNoLine self.old self.new }
        ensures other { result ≡ 5 → (is_fan self.old ≡ false) × (self.new ≡ self.old)
            × (old.new ≡ old.old) }
        ensures statuses { (result ≡ 0) ⊎ ((result ≡ 1) ⊎ (result ≡ 5)) }
    {
        let Resource::Fan(fan) = self else {
            return WRONG_STATE;
        };
        store_token_and_give_status(fan.arm(token), old)
    }

    /// Closes a fan, which leaves its grave.
    pub(crate) fn close_fan(&mut self, own: &mut u64) -> u8
        ensures closed { result ≡ 0 → ClosesFan self.old self.new }
        ensures other { result ≡ 5 → (is_fan self.old ≡ false) × (self.new ≡ self.old)
            × (own.new ≡ own.old) }
        ensures statuses { (result ≡ 0) ⊎ (result ≡ 5) }
    {
        match mem::replace(self, Resource::Gone) {
            Resource::Fan(fan) => {
                let ClosedFan { grave, token } = fan.close();
                *self = Resource::FanGrave(grave);
                *own = token;
                DONE
            }
            other => {
                *self = other;
                WRONG_STATE
            }
        }
    }

    /// Hands back a message that was posted at a closed fan.
    pub(crate) fn take_leftover_message_of_fan(
        &mut self,
        message: &mut Message,
        line: &mut u32,
    ) -> u8
        ensures handed { result ≡ 0 →
            AtFanGrave (DrainsOf (drained.Message line.new message.new)) self.old self.new }
        ensures empty { result ≡ 1 → AtFanGrave (DrainsOf drained.Empty) self.old self.new }
        ensures ended { result ≡ 2 → AtFanGrave (DrainsOf drained.Ended) self.old self.new }
        ensures other { result ≡ 5 → (is_fan_grave self.old ≡ false) × (self.new ≡ self.old) }
        ensures message { (result ≡ 0) ⊎ ((message.new ≡ message.old) × (line.new ≡ line.old)) }
        ensures statuses { (result ≡ 0) ⊎ ((result ≡ 1) ⊎ ((result ≡ 2) ⊎ (result ≡ 5))) }
    {
        let Resource::FanGrave(grave) = self else {
            return WRONG_STATE;
        };
        match grave.take_leftover() {
            FanDrained::Message(number, handed) => {
                *line = number as u32;
                *message = handed;
                DONE
            }
            FanDrained::Empty => EMPTY,
            FanDrained::Ended => ENDED,
        }
    }
}
