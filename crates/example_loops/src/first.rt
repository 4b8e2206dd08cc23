use hub_envelope::{EndId, Envelope, OutOfMemory};
use hub_life::Order;
use hub_loop::Handler;
use std::alloc::Global;
use std::sync::Wait;

/// A handler that keeps the first message, and then asks its own loop to end.
#[derive(Drop)]
pub(crate) struct First {
    alloc: Global,
    order: Order,
    text: Option<String>,
    port: Option<EndId>,
}

impl First {
    /// Nothing was delivered yet.
    pub(crate) fn new(alloc: Global, order: Order) -> First {
        First {
            alloc,
            order,
            text: None,
            port: None,
        }
    }

    /// The text of the first message's body. `None` before it was delivered.
    pub(crate) fn text(&self) -> Option<&str> {
        Some(self.text.as_ref()?.as_str())
    }

    /// The number of the port that came with it, if one did.
    pub(crate) fn port(&self) -> Option<EndId> {
        self.port
    }
}

impl Handler for First {
    ghost use Rattle.std.specs.Prelude.{⊤};

    ghost leaves = { λ _ _ _ _. ⊤ };

    ghost refuses = { λ _ _ _ _. ⊤ };

    fn got<R: Wait>(
        &mut self,
        _rt: &R,
        envelope: &Envelope,
        _missing: &[EndId],
    ) -> Result<(), OutOfMemory> {
        if self.text.is_none() {
            self.text = Some(String::from_str(self.alloc, envelope.body.text())?);
            self.port = envelope.ports.as_slice().first().copied();
        }
        self.order.give();
        Ok(())
    }
}
