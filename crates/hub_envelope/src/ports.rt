ghost use Rattle.std.specs.Prelude.{◌≡◌, ◌≤◌, ◌↔◌, [], length, IsOk, IfOk, IfErr, IsTrue};
ghost use Rattle.std.specs.Cmp.Rules.{comparing};
ghost use Rattle.std.proofs.Common.{rules};
ghost use Rattle.hub_envelope.specs.SameEnds.{are_same_ends};

use crate::OutOfMemory;
use crate::ids::EndId;
use crate::limits::MAX_PORTS;
use std::alloc::Global;
use std::marker::Model;

/// The ports that travel with an envelope, in the order of the transfer list (WHATWG HTML,
/// "Transferable objects"): their numbers, at most `MAX_PORTS` of them.
#[derive(Debug, Drop)]
pub struct Ports {
    ends: Vec<EndId>,
}

impl Model for Ports {
    ghost use Rattle.std.specs.Prelude.{List, length, ◌≤◌};
    ghost use Rattle.hub_envelope.specs.declared.ids.EndId.{EndId};
    ghost use Rattle.hub_envelope.specs.declared.limits.TheConstants.{MAX_PORTS};

    ghost Value = { List EndId };

    ghost view = { λ p. p.ends.items };

    ghost invariant = { λ p. length p.ends.items ≤ MAX_PORTS };
}

impl Ports {
    /// No port. It takes no memory.
    pub fn none(alloc: Global) -> Ports
        ensures { result ≡ [] }
    {
        Ports {
            ends: Vec::new(alloc),
        }
    }

    /// The listed ports. A list of more than `MAX_PORTS` comes back as it was.
    pub fn try_from_vec(ends: Vec<EndId>) -> Result<Ports, Vec<EndId>>
        ensures fits { IsOk result ↔ (length ends.items ≤ MAX_PORTS) }
        ensures ok { IfOk result (λ ports. ports ≡ ends.items) }
        ensures err { IfErr result (λ list. list ≡ ends) }
    {
        if ends.len() <= MAX_PORTS {
            Ok(Ports { ends })
        } else {
            Err(ends)
        }
    }

    /// The numbers of the ports, in list order.
    pub fn as_slice(&self) -> &[EndId]
        ensures listed { result.now ≡ self.now }
        ensures few { length self.now ≤ MAX_PORTS }
    {
        self.ends.as_slice()
    }

    /// The list, taken out of its type. It takes no memory.
    pub fn into_list(self) -> Vec<EndId>
        ensures { result.items ≡ self }
    {
        let Ports { ends } = self;
        ends
    }
}

/// The clone is the same list.
impl Clone for Ports {
    ghost is_clone = { λ ports copy. copy ≡ ports };

    fn clone(&self) -> Result<Ports, OutOfMemory> {
        Ok(Ports {
            ends: self.ends.clone()?,
        })
    }
}

/// Equal lists hold the same numbers in the same order.
impl PartialEq for Ports {
    ghost eq = { are_same_ends };

    ghost laws = { Prim.search (comparing, rules) };

    fn eq(&self, other: &Ports) -> bool
        ensures value { result ≡ are_same_ends self.now other.now }
        ensures same { IsTrue result ↔ (self.now ≡ other.now) }
    {
        self.as_slice() == other.as_slice()
    }
}

impl Eq for Ports {
    ghost laws = { Prim.search (comparing, rules) };
}
