ghost use Rattle.std.specs.Prelude.{◌≡◌};
ghost use Rattle.hub_script.specs.Shapes.{has_name, keyword_of, form_word};
ghost use Rattle.hub_script.specs.JsonData.{data_in};

use crate::values::field_of;
use json::Value;

/// The field that says which form a script line has. Each form has one of them.
#[derive(Clone, Copy, Debug, PartialEq, Eq)]
pub(crate) enum Keyword {
    Agent,
    Channel,
    Member,
    Post,
    Send,
    Cast,
    Start,
    Loaded,
    Close,
    Wait,
    Receive,
    Order,
    Event,
    Hand,
    Fetch,
}

pub(crate) const KEYWORDS: [Keyword; 15] = [
    Keyword::Agent,
    Keyword::Channel,
    Keyword::Member,
    Keyword::Post,
    Keyword::Send,
    Keyword::Cast,
    Keyword::Start,
    Keyword::Loaded,
    Keyword::Close,
    Keyword::Wait,
    Keyword::Receive,
    Keyword::Order,
    Keyword::Event,
    Keyword::Hand,
    Keyword::Fetch,
];

impl Keyword {
    /// The first keyword that the object has as a field.
    pub(crate) fn first_in_fields_of_object(line: &Value<'_>) -> Option<Keyword>
        ensures { result ≡ keyword_of (data_in line.now) }
    {
        KEYWORDS
            .iter()
            .copied()
            .find(|keyword| field_of(line, keyword.word()).is_some())
    }

    /// The field's name.
    pub(crate) fn word(self) -> &'static str
        ensures { result.now ≡ form_word self }
    {
        match self {
            Keyword::Agent => "agent",
            Keyword::Channel => "channel",
            Keyword::Member => "member",
            Keyword::Post => "post",
            Keyword::Send => "send",
            Keyword::Cast => "cast",
            Keyword::Start => "start",
            Keyword::Loaded => "loaded",
            Keyword::Close => "close",
            Keyword::Wait => "wait",
            Keyword::Receive => "receive",
            Keyword::Order => "order",
            Keyword::Event => "event",
            Keyword::Hand => "hand",
            Keyword::Fetch => "fetch",
        }
    }

    /// Whether the form with this keyword has a field of that name.
    pub(crate) fn allows_field(self, name: &str) -> bool
        ensures { result ≡ has_name self name.now }
    {
        name == self.word()
            || match self {
                Keyword::Agent => name == "origin",
                Keyword::Member => name == "at" || name == "on",
                Keyword::Post | Keyword::Send => {
                    name == "body" || name == "transfer" || name == "at"
                }
                Keyword::Cast => name == "body" || name == "at",
                _ => name == "at",
            }
    }
}
