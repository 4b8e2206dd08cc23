ghost use Rattle.std.specs.Prelude.{◌≡◌, Some};
ghost use Rattle.std.specs.Option.{option_map};
ghost use Rattle.hub_script.specs.Errors.{script_error_text, script_kind_text};

use hub_envelope::OutOfMemory;
use std::alloc::AllocFailed;
use std::error::Error;
use std::fmt;

/// What is wrong with a text line of a script. It is printed as its name.
#[derive(Clone, Copy, Debug, PartialEq, Eq, Drop)]
pub enum ScriptError {
    /// The text line isn't a JSON object of one of the forms, or it doesn't fit what stands before
    /// it: a name declared again, a declaration behind an action, a queue that its agent can't
    /// start or hand on. Or its body or URL is none.
    Syntax,
    /// No field of the object is the keyword of a form.
    UnknownAction,
    /// An agent or a name that isn't declared, is of another kind, or isn't held by the agent.
    UnknownName,
    /// A list of ports that can't be transferred (WHATWG HTML, "DataCloneError").
    DataClone(DataCloneCause),
    /// A limit is passed: the text lines of a script, the agents, the ports in a list, the nesting
    /// or the length of a body.
    TooLarge,
    OutOfMemory,
}

/// Why a list of ports can't be transferred. They are tested in this order.
#[derive(Clone, Copy, Debug, PartialEq, Eq, Drop)]
pub enum DataCloneCause {
    /// The port that posts is in the list.
    Source,
    /// A port is in the list twice.
    Twice,
    /// The agent doesn't hold a port of the list.
    Detached,
}

impl ScriptError {
    /// The name by which it is printed.
    pub fn name(self) -> &'static str
        ensures { result.now ≡ script_error_text self }
    {
        match self {
            ScriptError::Syntax => "Syntax",
            ScriptError::UnknownAction => "UnknownAction",
            ScriptError::UnknownName => "UnknownName",
            ScriptError::DataClone(DataCloneCause::Source) => "DataClone(Source)",
            ScriptError::DataClone(DataCloneCause::Twice) => "DataClone(Twice)",
            ScriptError::DataClone(DataCloneCause::Detached) => "DataClone(Detached)",
            ScriptError::TooLarge => "TooLarge",
            ScriptError::OutOfMemory => "OutOfMemory",
        }
    }

    /// The name of what is wrong with a text line. `None` where memory ran out, which says nothing
    /// of the text.
    pub fn printed_kind(self) -> Option<&'static str>
        ensures { option_map (λ name. name.now) result ≡ script_kind_text self }
    {
        match self {
            ScriptError::OutOfMemory => None,
            bad => Some(bad.name()),
        }
    }
}

impl fmt::Display for ScriptError {
    ghost output = { λ e. Some (script_error_text e) };

    fn fmt<W: fmt::Write>(&self, f: &mut fmt::Formatter<W>) -> fmt::Result {
        f.write_str(self.name())
    }
}

impl Error for ScriptError {}

impl<T: Drop> From<AllocFailed<T>> for ScriptError {
    ghost use Rattle.std.specs.Prelude.{◌≡◌};
    ghost use Rattle.hub_script.specs.declared.error.ScriptError.TheVariants.{OutOfMemory};

    ghost from_gives = { λ _ e. e ≡ OutOfMemory };

    fn from(_error: AllocFailed<T>) -> ScriptError {
        ScriptError::OutOfMemory
    }
}

impl From<OutOfMemory> for ScriptError {
    ghost use Rattle.std.specs.Prelude.{◌≡◌};
    ghost use Rattle.hub_script.specs.declared.error.ScriptError.TheVariants.{OutOfMemory};

    ghost from_gives = { λ _ e. e ≡ OutOfMemory };

    fn from(_error: OutOfMemory) -> ScriptError {
        ScriptError::OutOfMemory
    }
}
