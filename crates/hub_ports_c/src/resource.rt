//! What a handle holds, and the messages there.
ghost use Rattle.std.specs.Prelude.{◌≡◌, ◌⊎◌, true, false};

use crate::status::{CLOSED, DISABLED, DONE, EMPTY, ENDED, NO_MEMORY, WRONG_STATE};
use hub_channel::{Armed, ChannelPort, LineGrave, LineTaken, NotPosted, PortGrave, PortTaken};
use hub_fan::{Fan, FanGrave, FanPoster};
use hub_group::CastGroup;
use std::mem;

/// A message, as three words of its host: the address of its body, the body's length, and the
/// address of its list of ports. The library follows none of them.
#[repr(C)]
#[derive(Clone, Copy, Debug, PartialEq, Eq, Drop)]
pub struct Message {
    pub body: u64,
    pub length: u64,
    pub ports: u64,
}

/// What a handle holds.
#[derive(Drop)]
pub enum Resource {
    Port(ChannelPort<Message>),
    /// A port that was closed.
    Grave(LineGrave<Message>),
    Fan(Fan<Message>),
    /// A fan that was closed.
    FanGrave(FanGrave<Message>),
    Poster(FanPoster<Message>),
    Group(CastGroup<Message>),
    /// Nothing, within a call.
    Gone,
}

/// What comes of a look that an armed port or fan was given: its old token, and whether something
/// waits.
pub(crate) fn store_token_and_give_status(armed: Armed, old: &mut u64) -> u8
    ensures waits { result ≡ 0 → armed.waits ≡ true }
    ensures none { result ≡ 1 → armed.waits ≡ false }
    ensures token { old.new ≡ armed.token }
    ensures statuses { (result ≡ 0) ⊎ (result ≡ 1) }
{
    *old = armed.token;
    if armed.waits { DONE } else { EMPTY }
}

impl Resource {
    ghost use Rattle.std.specs.Prelude.{◌≡◌, ◌⊎◌, true, false};
    ghost use Rattle.hub_ports_c.specs.Resources.{is_open_port, is_closed_port, AtPort, AtGrave};
    ghost use Rattle.hub_ports_c.specs.Resources.{ClosesPort, PostsMessage, PostsNothing};
    ghost use Rattle.hub_ports_c.specs.Resources.{RefusesClosed, TakesMessage, TakesNone};
    ghost use Rattle.hub_ports_c.specs.Resources.{TakesLast, Waits};
    ghost use Rattle.hub_ports_c.specs.Resources.{Becomes, FindsNone, FindsSome, HasName};
    ghost use Rattle.hub_ports_c.specs.Resources.{HandsBack, HandsBackNone, HandsBackLast};

    /// Posts a message.
    #[inline(always)]
    pub(crate) fn post_at_port(&mut self, message: &Message, wake: &mut u64) -> u8
        ensures posted { result ≡ 0 → AtPort (PostsMessage message.now) self.old self.new }
        ensures no_memory { result ≡ 3 → AtPort PostsNothing self.old self.new }
        ensures closed { result ≡ 6 → AtPort RefusesClosed self.old self.new }
        ensures other { result ≡ 5 → (is_open_port self.old ≡ false) × (self.new ≡ self.old) }
        ensures wake { (result ≡ 0) ⊎ (wake.new ≡ wake.old) }
        ensures statuses { (result ≡ 0) ⊎ ((result ≡ 3) ⊎ ((result ≡ 5) ⊎ (result ≡ 6))) }
    {
        let Resource::Port(port) = self else {
            return WRONG_STATE;
        };
        match port.post(*message) {
            Ok(token) => {
                *wake = token;
                DONE
            }
            Err((NotPosted::Closed, _)) => CLOSED,
            Err((NotPosted::OutOfMemory, _)) => NO_MEMORY,
        }
    }

    /// Takes a message.
    #[inline(always)]
    pub(crate) fn take_from_port(&mut self, message: &mut Message) -> u8
        ensures took { result ≡ 0 → AtPort (TakesMessage message.new) self.old self.new }
        ensures empty { result ≡ 1 → AtPort TakesNone self.old self.new }
        ensures ended { result ≡ 2 → AtPort TakesLast self.old self.new }
        ensures disabled { result ≡ 4 → AtPort Waits self.old self.new }
        ensures other { result ≡ 5 → (is_open_port self.old ≡ false) × (self.new ≡ self.old) }
        ensures message { (result ≡ 0) ⊎ (message.new ≡ message.old) }
        ensures statuses { (result ≡ 0)
            ⊎ ((result ≡ 1) ⊎ ((result ≡ 2) ⊎ ((result ≡ 4) ⊎ (result ≡ 5)))) }
    {
        let Resource::Port(port) = self else {
            return WRONG_STATE;
        };
        match port.take() {
            PortTaken::Message(taken) => {
                *message = taken;
                DONE
            }
            PortTaken::Empty => EMPTY,
            PortTaken::Ended => ENDED,
            PortTaken::Disabled => DISABLED,
        }
    }

    /// Starts a port.
    pub(crate) fn start_port(&mut self) -> u8
        ensures started { result ≡ 0 → AtPort (Becomes true) self.old self.new }
        ensures other { result ≡ 5 → (is_open_port self.old ≡ false) × (self.new ≡ self.old) }
        ensures statuses { (result ≡ 0) ⊎ (result ≡ 5) }
    {
        let Resource::Port(port) = self else {
            return WRONG_STATE;
        };
        port.start();
        DONE
    }

    /// Says by its token whom to wake for a port, and looks into it then.
    pub(crate) fn arm_port(&mut self, token: u64, old: &mut u64) -> u8
        ensures armed { (result ≡ 5) ⊎ AtPort PostsNothing self.old self.new }
        ensures some { result ≡ 0 → AtPort FindsSome self.old self.new }
        ensures none { result ≡ 1 → AtPort FindsNone self.old self.new }
        ensures other { result ≡ 5 → (is_open_port self.old ≡ false) × (self.new ≡ self.old)
            × (old.new ≡ old.old) }
        ensures statuses { (result ≡ 0) ⊎ ((result ≡ 1) ⊎ (result ≡ 5)) }
    {
        let Resource::Port(port) = self else {
            return WRONG_STATE;
        };
        store_token_and_give_status(port.arm(token), old)
    }

    /// Makes a port that of another owner, disabled, and looks into it then.
    pub(crate) fn adopt_port(&mut self, token: u64, old: &mut u64) -> u8
        ensures adopted { (result ≡ 5) ⊎ AtPort (Becomes false) self.old self.new }
        ensures some { result ≡ 0 → AtPort FindsSome self.old self.new }
        ensures none { result ≡ 1 → AtPort FindsNone self.old self.new }
        ensures other { result ≡ 5 → (is_open_port self.old ≡ false) × (self.new ≡ self.old)
            × (old.new ≡ old.old) }
        ensures statuses { (result ≡ 0) ⊎ ((result ≡ 1) ⊎ (result ≡ 5)) }
    {
        let Resource::Port(port) = self else {
            return WRONG_STATE;
        };
        store_token_and_give_status(port.adopt(token), old)
    }

    /// The name of a port's channel.
    pub(crate) fn channel_name(&self, name: &mut u64) -> u8
        ensures named { result ≡ 0 → HasName name.new self.now }
        ensures other { result ≡ 5 → (is_open_port self.now ≡ false) × (name.new ≡ name.old) }
        ensures statuses { (result ≡ 0) ⊎ (result ≡ 5) }
    {
        let Resource::Port(port) = self else {
            return WRONG_STATE;
        };
        *name = port.channel_name();
        DONE
    }

    /// Closes a port, which leaves its grave.
    pub(crate) fn close_port(&mut self, own: &mut u64, peer: &mut u64) -> u8
        ensures closed { result ≡ 0 → ClosesPort self.old self.new }
        ensures other { result ≡ 5 → (is_open_port self.old ≡ false) × (self.new ≡ self.old)
            × (own.new ≡ own.old) × (peer.new ≡ peer.old) }
        ensures statuses { (result ≡ 0) ⊎ (result ≡ 5) }
    {
        match mem::replace(self, Resource::Gone) {
            Resource::Port(port) => {
                let PortGrave { grave, token, wake } = port.close();
                *self = Resource::Grave(grave);
                *own = token;
                *peer = wake;
                DONE
            }
            other => {
                *self = other;
                WRONG_STATE
            }
        }
    }

    /// Hands back a message that was posted at a closed port.
    pub(crate) fn take_leftover_message(&mut self, message: &mut Message) -> u8
        ensures handed { result ≡ 0 → AtGrave (HandsBack message.new) self.old self.new }
        ensures empty { result ≡ 1 → AtGrave HandsBackNone self.old self.new }
        ensures ended { result ≡ 2 → AtGrave HandsBackLast self.old self.new }
        ensures other { result ≡ 5 → (is_closed_port self.old ≡ false) × (self.new ≡ self.old) }
        ensures message { (result ≡ 0) ⊎ (message.new ≡ message.old) }
        ensures statuses { (result ≡ 0) ⊎ ((result ≡ 1) ⊎ ((result ≡ 2) ⊎ (result ≡ 5))) }
    {
        let Resource::Grave(grave) = self else {
            return WRONG_STATE;
        };
        match grave.take_leftover() {
            LineTaken::Item(taken) => {
                *message = taken;
                DONE
            }
            LineTaken::Empty => EMPTY,
            LineTaken::Ended => ENDED,
        }
    }
}

/// What a handle holds, in its box, where that may be sent to another thread.
pub fn assert_resource_send(resource: Box<Resource>) -> Box<Resource>
    ensures { result ≡ resource }
{
    assert_send(resource)
}

fn assert_send<T: Send>(value: T) -> T
    ensures { result ≡ value }
{
    value
}
