use crate::shown::Shown;
use hub_core::{OutOfMemory, Outcome};
use hub_envelope::AgentId;
use hub_life::{Event, Life};
use std::alloc::Global;
use std::marker::Model;

/// The life of a worker agent.
#[derive(Debug, Drop)]
pub struct WorkerLife {
    life: Life,
    /// The agent was found ending, and its life terminated then.
    has_ended: bool,
}

impl WorkerLife {
    ghost use Rattle.std.specs.Prelude.{◌≡◌, Some, None};
    ghost use Rattle.hub_steps.specs.Lives.{begun, ended, event_shown, happened};

    /// A worker that is just parsed.
    fn new() -> WorkerLife
        ensures { Some result ≡ begun None }
    {
        WorkerLife {
            life: Life::new(),
            has_ended: false,
        }
    }

    /// The first time that the agent is found ending its life is terminated.
    fn terminate_once(&mut self)
        ensures { Some self.new ≡ ended (Some self.old) }
    {
        if !self.has_ended {
            self.has_ended = true;
            // No life refuses a termination.
            let _ = self.life.event(Event::Terminate);
        }
    }

    fn apply_event(&mut self, event: Event) -> Shown
        ensures shown { result ≡ event_shown event (Some (Some self.old)) }
        ensures life { Some self.new ≡ happened event (Some self.old) }
    {
        match self.life.event(event) {
            Ok(state) => Shown::State(state),
            Err(error) => Shown::Refused(error),
        }
    }
}

/// The lives of all agents.
#[derive(Debug, Drop)]
pub struct Lives {
    of_agents: Vec<Option<WorkerLife>>,
}

impl Model for Lives {
    ghost use Rattle.hub_steps.specs.Lives.{AllLives};

    ghost Value = { AllLives };

    ghost view = { λ l. l.of_agents.items };
}

impl Lives {
    ghost use Rattle.std.specs.Prelude.{◌≡◌, ◌++◌, ◌∷◌, [], None, OnErr, OnOk, slice_get};
    ghost use Rattle.hub_steps.specs.Lives.{AllLives, begun, change_life, ended, event_shown};
    ghost use Rattle.hub_steps.specs.Lives.{happened};

    /// There is no agent yet.
    pub fn new(alloc: Global) -> Lives
        ensures { result ≡ [] }
    {
        Lives {
            of_agents: Vec::new(alloc),
        }
    }

    /// A new agent has no life yet.
    pub fn add_agent_without_life(&mut self) -> Result<(), OutOfMemory>
        ensures ok { OnOk result (self.new ≡ self.old ++ None ∷ []) }
        ensures err { OnErr result (self.new ≡ self.old) }
    {
        self.of_agents.push(None)?;
        Ok(())
    }

    /// The agent that was added last was not made.
    pub fn remove_last_agent(&mut self)
        ensures { (lives : AllLives) → self.old ≡ lives ++ None ∷ [] → self.new ≡ lives }
    {
        self.of_agents.pop();
    }

    /// The agent made a worker's queue.
    pub fn begin_life(&mut self, agent: AgentId)
        ensures { self.new ≡ change_life begun agent.0 self.old }
    {
        if let Some(found) = self.of_agents.get_mut(agent.0 as usize) {
            if found.is_none() {
                *found = Some(WorkerLife::new());
            }
        }
    }

    /// The agent was found ending.
    pub fn terminate_life(&mut self, agent: AgentId)
        ensures { self.new ≡ change_life ended agent.0 self.old }
    {
        let Some(found) = self.of_agents.get_mut(agent.0 as usize) else {
            return;
        };
        if let Some(worker) = found {
            worker.terminate_once();
        }
    }

    /// Takes an event of the agent's life, and gives what it shows.
    pub fn apply_event(&mut self, agent: AgentId, event: Event) -> Shown
        ensures shown { result ≡ event_shown event (slice_get self.old agent.0) }
        ensures lives { self.new ≡ change_life (happened event) agent.0 self.old }
    {
        let Some(found) = self.of_agents.get_mut(agent.0 as usize) else {
            return Shown::Answer(Outcome::NotNow);
        };
        match found {
            Some(worker) => worker.apply_event(event),
            None => Shown::Answer(Outcome::NotNow),
        }
    }
}
