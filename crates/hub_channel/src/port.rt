//! One of the two ports of a channel, with the token by which it says whom to wake.
use hub_line::{LineGrave, LinePoster, LineTaken, LineTaker, NotPosted};
use std::sync::Arc;
use std::sync::atomic::{AtomicU64, Ordering};

/// No token: nobody is to be woken.
pub const NO_TOKEN: u64 = 0;

/// One of the two ports of a channel, for messages of one type.
#[derive(Drop)]
pub struct ChannelPort<M> {
    pub(crate) to: LinePoster<M>,
    pub(crate) from: LineTaker<M>,
    // Whom to wake for this port, and for its peer.
    pub(crate) here: Arc<AtomicU64>,
    pub(crate) there: Arc<AtomicU64>,
    pub(crate) name: u64,
    pub(crate) is_started: bool,
}

/// What comes of arming a port.
#[derive(Clone, Copy, Debug, PartialEq, Eq, Drop)]
pub struct Armed {
    /// The token that the port had, or 0.
    pub token: u64,
    /// Whether something waits: a message, or the end.
    pub waits: bool,
}

/// What is left of a port once it is closed.
#[derive(Drop)]
pub struct PortGrave<M> {
    /// It hands back what was posted at the port and not taken.
    pub grave: LineGrave<M>,
    /// The token that the port had, or 0.
    pub token: u64,
    /// Whom to wake for the peer, or 0.
    pub wake: u64,
}

/// What a take at a port comes to.
#[derive(Drop)]
pub enum PortTaken<M> {
    Message(M),
    /// Nothing is left of what was posted.
    Empty,
    /// Nothing is left, and nothing more will come: the peer is closed.
    Ended,
    /// The port isn't started.
    Disabled,
}

impl<M: Drop> ChannelPort<M> {
    ghost use Rattle.std.specs.Prelude.{◌≡◌, ◌↔◌, [], ◌∷◌, ◌++◌, true, false, OnOk, IfErr, IsFalse};
    ghost use Rattle.hub_line.specs.Ends.{taken, IsOver, IsInOrder, HasEnded, HasLooked};
    ghost use Rattle.hub_line.specs.Ends.{HasNoneLeft, HasSome, SameTaker, SamePoster};
    ghost use Rattle.hub_line.specs.declared.poster.NotPosted.TheVariants.{Closed};
    ghost use Rattle.hub_channel.specs.Ports.{got, sent, Brought, NothingGot, NothingSent};
    ghost use Rattle.hub_channel.specs.Ports.{SameEnds};
    ghost use Rattle.hub_channel.specs.declared.port.PortTaken.TheVariants.{Empty, Ended};
    ghost use Rattle.hub_channel.specs.declared.port.PortTaken.TheVariants.{Disabled};

    /// The number by which the host has named the channel: its two ports have the same.
    pub fn channel_name(&self) -> u64
        ensures { result ≡ self.now.name }
    {
        self.name
    }

    /// Messages may be taken from now on.
    pub fn start(&mut self)
        ensures same { SameEnds self.old self.new × NothingGot self.old self.new
            × NothingSent self.old self.new }
        ensures started { self.new.is_started ≡ true }
    {
        self.is_started = true;
    }

    /// Posts a message at the peer, and answers whom to wake for it, or 0. After an error nothing
    /// was posted, and the message comes back.
    #[inline(always)]
    pub fn post(&mut self, message: M) -> Result<u64, (NotPosted, M)>
        ensures posted { OnOk result (sent self.new ≡ sent self.old ++ message ∷ []) }
        ensures refused { IfErr result (λ e. (e.1 ≡ message) × NothingSent self.old self.new) }
        ensures closed { IfErr result (λ e. (e.0 ≡ Closed) ↔ IsOver self.new.to) }
        ensures others { SameEnds self.old self.new × NothingGot self.old self.new
            × (self.new.is_started ≡ self.old.is_started) }
    {
        self.to.post(message)?;
        Ok(take_wake_token(&self.there))
    }

    /// Takes the next message, where the port is started. `Ended` comes only where the peer is
    /// closed and each message that it has ever posted here was taken.
    #[inline(always)]
    pub fn take(&mut self) -> PortTaken<M>
        ensures took { Brought (got self.old) result (got self.new) }
        ensures empty { result ≡ Empty → HasNoneLeft self.new.from
            × HasLooked self.old.from self.new.from }
        ensures ended { result ≡ Ended → HasEnded self.new.from }
        ensures disabled { (result ≡ Disabled) ↔ (self.old.is_started ≡ false) }
        ensures order { IsInOrder self.new.from }
        ensures others { SameEnds self.old self.new × NothingSent self.old self.new
            × (self.new.is_started ≡ self.old.is_started) }
    {
        if !self.is_started {
            return PortTaken::Disabled;
        }
        match self.from.take() {
            LineTaken::Item(message) => PortTaken::Message(message),
            LineTaken::Empty => PortTaken::Empty,
            LineTaken::Ended => {
                self.to.end_if_closed_by_taker();
                PortTaken::Ended
            }
        }
    }

    /// Says by its token whom to wake for this port, and looks into it then.
    pub fn arm(&mut self, token: u64) -> Armed
        ensures same { SameEnds self.old self.new × NothingGot self.old self.new
            × NothingSent self.old self.new }
        ensures started { self.new.is_started ≡ self.old.is_started }
        ensures some { result.waits ≡ true → HasSome self.new.from }
        ensures none { result.waits ≡ false → HasNoneLeft self.new.from
            × HasLooked self.old.from self.new.from }
    {
        let old = self.here.swap(token, Ordering::SeqCst);
        let waits = self.from.has_item_or_end();
        Armed { token: old, waits }
    }

    /// Makes this the port of another owner, by its token: the port is disabled until that owner
    /// starts it. Then looks into it.
    pub fn adopt(&mut self, token: u64) -> Armed
        ensures same { SameEnds self.old self.new × NothingGot self.old self.new
            × NothingSent self.old self.new }
        ensures disabled { self.new.is_started ≡ false }
        ensures some { result.waits ≡ true → HasSome self.new.from }
        ensures none { result.waits ≡ false → HasNoneLeft self.new.from
            × HasLooked self.old.from self.new.from }
    {
        self.is_started = false;
        self.arm(token)
    }

    /// Closes the port. The peer is told behind all that was posted there, and its posts are
    /// refused from its next call on. What it has posted until then is handed back by the grave.
    pub fn close(self) -> PortGrave<M>
        ensures grave { (taken result.grave.taker ≡ got self)
            × SameTaker self.from result.grave.taker }
    {
        let ChannelPort {
            to,
            from,
            here,
            there,
            name: _,
            is_started: _,
        } = self;
        let grave = from.close();
        drop(to);
        PortGrave {
            grave,
            token: take_wake_token(&here),
            wake: take_wake_token(&there),
        }
    }
}

/// Takes the token out of a word. A word with none is only loaded.
#[inline]
pub fn take_wake_token(word: &AtomicU64) -> u64 {
    if word.load(Ordering::SeqCst) == NO_TOKEN {
        return NO_TOKEN;
    }
    word.swap(NO_TOKEN, Ordering::SeqCst)
}
