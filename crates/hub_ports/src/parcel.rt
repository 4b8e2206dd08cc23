ghost use Rattle.std.specs.Prelude.{◌≡◌, [], Some};

use crate::port::Port;
use hub_envelope::{Body, EndId};
use std::alloc::Global;

/// What is lent to a post: a body and the ports that are sent along. What was accepted is gone from
/// it afterwards, and what was refused is in it again.
///
/// ```rust
/// let mut parcel = Parcel::new(alloc, body, ports);
/// if port.post_parcel(rt, &hub, agent, &mut parcel, &mut closings) == Err(SendRefusal::Moving) {
///     again.push(parcel)?;
/// }
/// ```
#[derive(Drop)]
pub struct Parcel {
    /// What is said. `None` after a post that was accepted.
    pub body: Option<Body>,
    /// The ports, in the order of their list.
    pub ports: Vec<Port>,
    /// After `SendRefusal::Strayed` the numbers of the ports that were not found in flight again.
    pub missing: Vec<EndId>,
}

impl Parcel {
    /// A body, and ports that are to be sent along. It takes no memory.
    pub fn new(alloc: Global, body: Body, ports: Vec<Port>) -> Parcel
        ensures { (result.body ≡ Some body) × (result.ports ≡ ports)
            × (result.missing.items ≡ []) }
    {
        Parcel {
            body: Some(body),
            ports,
            missing: Vec::new(alloc),
        }
    }
}
