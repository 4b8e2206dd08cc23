ghost use Rattle.std.specs.Prelude.{◌≡◌, IfOk, IfErr, OnOk, ◌≤◌, ◌⊎◌, List, true};
ghost use Rattle.hub_life.specs.Word.{event_of};
ghost use Rattle.hub_life.specs.declared.life.Event.{Event};
ghost use Rattle.hub_life.specs.declared.life.State.TheVariants.{Installing, Activating, Activated};
ghost use Rattle.hub_life.specs.declared.life.State.TheVariants.{Redundant};
ghost use Rattle.hub_life.specs.Lifecycle.{Progress, start};
ghost use Rattle.hub_life.specs.Course.{after, after_all, stage_of, IsSound};

use hub_envelope::MAX_EXTENSIONS;
use std::marker::Model;
use thiserror::Error;

/// What may happen to a service worker.
#[derive(Clone, Copy, Debug, PartialEq, Eq, Hash)]
pub enum Event {
    /// The install event is dispatched.
    Install,
    /// The activate event is dispatched.
    Activate,
    /// The handler extends its event by one more promise (`waitUntil`).
    Extend,
    /// The promise of an open extension was fulfilled.
    Settle,
    /// The promise of an open extension was rejected.
    Fail,
    /// The handler returned.
    Returned,
    /// The registration gives the worker up.
    Discard,
    /// The worker is terminated by force.
    Terminate,
}

impl Event {
    /// The event that the word names.
    pub fn named(word: &str) -> Option<Event>
        ensures { result ≡ event_of word.now }
    {
        match word {
            "install" => Some(Event::Install),
            "activate" => Some(Event::Activate),
            "extend" => Some(Event::Extend),
            "settle" => Some(Event::Settle),
            "fail" => Some(Event::Fail),
            "returned" => Some(Event::Returned),
            "discard" => Some(Event::Discard),
            "terminate" => Some(Event::Terminate),
            _ => None,
        }
    }
}

/// The state of a service worker (W3C Service Workers, "Service Worker"). A new one is parsed.
#[derive(Clone, Copy, Debug, PartialEq, Eq, Hash)]
pub enum State {
    Parsed,
    Installing,
    Installed,
    Activating,
    Activated,
    Redundant,
}

/// Why a worker refused an event. Its life is then as it was.
#[derive(Clone, Copy, Debug, PartialEq, Eq, Hash, Drop, Error)]
pub enum LifeError {
    /// The event doesn't happen in this state.
    #[error("wrong state")]
    WrongState,
    /// `MAX_EXTENSIONS` extensions are open.
    #[error("too many extensions")]
    TooManyExtensions,
    /// No extension is open.
    #[error("no extension")]
    NoExtension,
}

/// The life of one service worker: its state and, while it is installing or activating, whether its
/// handler still runs, how many extensions are open, and whether one has failed.
///
/// ```rust
/// let mut life = Life::new();
/// assert_eq!(rt; life.event(Event::Install), Ok(State::Installing));
/// assert_eq!(rt; life.event(Event::Activate), Err(LifeError::WrongState));
/// ```
#[derive(Debug, Drop)]
pub struct Life {
    state: State,
    handling: bool,
    open_extensions: u8,
    failed: bool,
}

impl Model for Life {
    ghost use Rattle.hub_life.specs.Lifecycle.{Progress};

    ghost Value = { Progress };

    ghost view = { λ l. record {
      state = l.state;
      handling = l.handling;
      open_extensions = l.open_extensions;
      failed = l.failed;
    } };
}

impl Life {
    ghost use Rattle.hub_life.specs.Lifecycle.{start, entered, answer, open_more, close_one};
    ghost use Rattle.hub_life.specs.Lifecycle.{finish_handler, settled};

    /// The life of a worker that is just parsed.
    pub fn new() -> Life
        ensures { result ≡ start }
    {
        Life {
            state: State::Parsed,
            handling: false,
            open_extensions: 0,
            failed: false,
        }
    }

    /// The state that the worker is in (W3C Service Workers, "Service Worker", its state).
    pub fn state(&self) -> State
        ensures { result ≡ self.now.state }
    {
        self.state
    }

    /// How many extensions of the event that is being handled are open.
    pub fn open_extension_count(&self) -> u8
        ensures { result ≡ self.now.open_extensions }
    {
        self.open_extensions
    }

    /// Whether the handler of the install or activate event still runs.
    pub fn is_handler_running(&self) -> bool
        ensures { result ≡ self.now.handling }
    {
        self.handling
    }

    /// Whether an extension of the event that is being handled has failed.
    pub fn has_failed_extension(&self) -> bool
        ensures { result ≡ self.now.failed }
    {
        self.failed
    }

    /// Takes an event by the table, and answers the state that it leaves.
    pub fn event(&mut self, event: Event) -> Result<State, LifeError>
        ensures ok { IfOk result (λ state.
            (answer self.old event ≡ Ok self.new) × (state ≡ self.new.state)) }
        ensures err { IfErr result (λ e. (answer self.old event ≡ Err e) × (self.new ≡ self.old)) }
    {
        match (self.state, event) {
            (State::Parsed, Event::Install) => self.enter_state(State::Installing),
            (State::Installed, Event::Activate) => self.enter_state(State::Activating),
            (State::Installing | State::Activating, Event::Extend) => self.open_extension()?,
            (State::Installing | State::Activating, Event::Settle) => self.close_extension(false)?,
            (State::Installing | State::Activating, Event::Fail) => self.close_extension(true)?,
            (State::Installing | State::Activating, Event::Returned) => self.finish_handler()?,
            (State::Installed | State::Activated, Event::Discard) => self.enter_state(
                State::Redundant,
            ),
            (State::Installing, Event::Terminate) => self.enter_state(State::Redundant),
            (State::Activating, Event::Terminate) => self.enter_state(State::Activated),
            (state, Event::Terminate) => self.enter_state(state),
            _ => return Err(LifeError::WrongState),
        }
        Ok(self.state)
    }

    fn enter_state(&mut self, state: State)
        ensures { self.new ≡ entered state }
    {
        self.state = state;
        self.handling = matches!(state, State::Installing | State::Activating);
        self.open_extensions = 0;
        self.failed = false;
    }

    fn open_extension(&mut self) -> Result<(), LifeError>
        ensures ok { OnOk result (open_more self.old ≡ Ok self.new) }
        ensures err { IfErr result (λ e. (open_more self.old ≡ Err e) × (self.new ≡ self.old)) }
    {
        if self.open_extensions >= MAX_EXTENSIONS {
            return Err(LifeError::TooManyExtensions);
        }
        self.open_extensions += 1;
        Ok(())
    }

    fn close_extension(&mut self, fails: bool) -> Result<(), LifeError>
        ensures ok { OnOk result (close_one self.old fails ≡ Ok self.new) }
        ensures err { IfErr result (λ e.
            (close_one self.old fails ≡ Err e) × (self.new ≡ self.old)) }
    {
        if self.open_extensions == 0 {
            return Err(LifeError::NoExtension);
        }
        self.open_extensions -= 1;
        self.failed |= fails;
        self.enter_next_state_if_done();
        Ok(())
    }

    fn finish_handler(&mut self) -> Result<(), LifeError>
        ensures ok { OnOk result (finish_handler self.old ≡ Ok self.new) }
        ensures err { IfErr result (λ e.
            (finish_handler self.old ≡ Err e) × (self.new ≡ self.old)) }
    {
        if !self.handling {
            return Err(LifeError::WrongState);
        }
        self.handling = false;
        self.enter_next_state_if_done();
        Ok(())
    }

    /// Enters the next state once nothing of the event is left to wait for.
    fn enter_next_state_if_done(&mut self)
        ensures { self.new ≡ settled self.old }
    {
        if self.handling || self.open_extensions > 0 {
            return;
        }
        match self.state {
            State::Installing if self.failed => self.enter_state(State::Redundant),
            State::Installing => self.enter_state(State::Installed),
            State::Activating => self.enter_state(State::Activated),
            state => self.enter_state(state),
        }
    }
}

/// The laws of the table that `Life::event` answers by, over all events. It does nothing.
///
/// `sound`: a worker waits for something exactly while it is installing or activating.
/// `forward`: no event leads back to an earlier state.
/// `failed_install`: a worker whose install has failed can become nothing but redundant.
/// `activation`: nothing keeps an activating worker from being activated.
pub fn prove_lifecycle_laws()
    ensures sound { (events : List Event) → IsSound (after_all start events) }
    ensures forward { (p : Progress) (event : Event) →
        stage_of p.state ≤ stage_of (after p event).state }
    ensures failed_install { (p : Progress) (events : List Event) →
        p.state ≡ Installing → p.failed ≡ true
        → ((after_all p events).state ≡ Installing) ⊎ ((after_all p events).state ≡ Redundant) }
    ensures activation { (p : Progress) (event : Event) → p.state ≡ Activating
        → ((after p event).state ≡ Activating) ⊎ ((after p event).state ≡ Activated) }
{}
