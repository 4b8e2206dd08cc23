ghost use Rattle.std.specs.Prelude.{◌≡◌, ◌↔◌, IsTrue, Some};
ghost use Rattle.hub_trace.specs.Content.{is_notice};
ghost use Rattle.hub_trace.specs.Text.{content_text};

use crate::payload::Payload;
use hub_text::EndListText;
use std::fmt;

/// What a put or a got entry has under its name.
#[derive(Debug, Drop)]
pub enum Content {
    /// A post.
    Payload(Payload),
    /// The notice that nothing more comes by the line. It has no ports and no body.
    Notice,
}

impl Content {
    /// Whether it is a notice.
    pub fn is_notice(&self) -> bool
        ensures { result ≡ is_notice self.now }
    {
        match self {
            Content::Payload(_) => false,
            Content::Notice => true,
        }
    }

    /// Whether both are notices, or carry the same ports and the same body.
    pub fn is_same(&self, other: &Content) -> bool
        ensures { IsTrue result ↔ (self.now ≡ other.now) }
    {
        match (self, other) {
            (Content::Payload(message), Content::Payload(expected)) => message.is_same(expected),
            (Content::Notice, Content::Notice) => true,
            _ => false,
        }
    }
}

/// `LIST BODY`, or `notice`.
impl fmt::Display for Content {
    ghost output = { λ c. Some (content_text c) };

    fn fmt<W: fmt::Write>(&self, f: &mut fmt::Formatter<W>) -> fmt::Result {
        match self {
            Content::Payload(message) => {
                let ports = EndListText(message.ports());
                let body = message.body();
                write!(f, "{ports} {body}")
            }
            Content::Notice => f.write_str("notice"),
        }
    }
}
