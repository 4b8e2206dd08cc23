//! Broadcast channels: what the core keeps of them, which are the members with their origins and
//! names, and the cast that goes on.

ghost use Rattle.std.specs.Prelude.{◌≡◌, ◌++◌, ◌∷◌, ◌<◌, [], None, slice_get, option_map, is_some};
ghost use Rattle.std.specs.Prelude.{IfOk, MatchResult, OnOk, OnErr, unwrap_or};
ghost use Rattle.std.specs.BTreeMap.{get};
ghost use Rattle.hub_core.specs.KeptRoster.{group_cmp, numbers_of, numbers_in, seated_with};
ghost use Rattle.hub_core.specs.KeptRoster.{is_seated, kept_destinations};
ghost use Rattle.hub_core.specs.KeptRoster.{Joins, SameMembers, Parts, IsFirst};
ghost use Rattle.hub_core.specs.Roster.{group_named, has_body, is_first, cast_to, cast_after};
ghost use Rattle.hub_core.specs.Roster.{source_for};
ghost use Rattle.hub_core.specs.declared.roster.Group.{Group as GroupValue};

use hub_envelope::{AgentId, Body, EndId, OutOfMemory, Text};
use std::alloc::Global;
use std::collections::{BTreeMap, BTreeSet, VecDeque};
use std::marker::Model;

/// What the broadcast channels that reach one another have in common (WHATWG HTML, "Broadcasting
/// to other browsing contexts"): the origin of their agents, and their name.
#[derive(PartialEq, Eq, PartialOrd, Ord, Drop)]
pub struct Group {
    pub(crate) origin: Text,
    pub(crate) name: Text,
}

/// The clone is of the same origin and name.
impl Clone for Group {
    ghost is_clone = { λ group copy. copy ≡ group };

    fn clone(&self) -> Result<Group, OutOfMemory> {
        Ok(Group {
            origin: self.origin.clone()?,
            name: self.name.clone()?,
        })
    }
}

/// The origin of each agent, or none.
#[derive(Drop)]
pub struct Origins {
    origins: Vec<Option<Text>>,
}

impl Model for Origins {
    ghost use Rattle.std.specs.Prelude.{List, Option};
    ghost use Rattle.hub_envelope.specs.declared.text.Text.{Text};

    ghost Value = { List (Option Text) };

    ghost view = { λ o. o.origins.items };
}

/// The members of the roster.
#[derive(Drop)]
pub struct Members {
    origins: Origins,
    /// The group of each member, by the number of its end; of those that have parted too.
    groups: BTreeMap<u32, Group>,
    /// The members of each group that haven't parted, by the numbers of their ends.
    seated: BTreeMap<Group, BTreeSet<u32>>,
}

impl Origins {
    /// The origin of an agent, where it has one.
    fn origin_of_agent(&self, agent: AgentId) -> Option<&Text>
        ensures { unwrap_or (slice_get self.now agent.0) None ≡ option_map (λ x. x.now) result }
    {
        self.origins.get(agent.0 as usize)?.as_ref()
    }
}

impl Members {
    pub(crate) fn new(alloc: Global) -> Members
        ensures origins { result.origins ≡ [] }
        ensures seated { (k : GroupValue) → numbers_of result k ≡ [] }
    {
        Members {
            origins: Origins {
                origins: Vec::new(alloc),
            },
            groups: BTreeMap::new(alloc),
            seated: BTreeMap::new(alloc),
        }
    }

    /// One more agent, of this origin or of none.
    pub(crate) fn add_agent_origin(&mut self, origin: Option<Text>) -> Result<(), OutOfMemory>
        ensures { MatchResult result (λ _. self.new ≡ record self.old {
          origins = self.old.origins ++ origin ∷ [];
        }) (λ _. self.new ≡ self.old) }
    {
        let agents = &mut self.origins;
        agents.origins.push(origin)?;
        Ok(())
    }

    /// Whether an agent has an origin.
    pub(crate) fn agent_has_any_origin(&self, agent: AgentId) -> bool
        ensures { result ≡ is_some (unwrap_or (slice_get self.now.origins agent.0) None) }
    {
        self.origins.origin_of_agent(agent).is_some()
    }

    /// The group of the agent's channels of a name; `None` where the agent has no origin.
    pub(crate) fn group_of_agent_and_name(
        &self,
        agent: AgentId,
        name: Text,
    ) -> Result<Option<Group>, OutOfMemory>
        ensures { let origin = unwrap_or (slice_get self.now.origins agent.0) None in
            IfOk result (λ group. group ≡ group_named origin name) }
    {
        let Some(origin) = self.origins.origin_of_agent(agent) else {
            return Ok(None);
        };
        let origin = origin.clone()?;
        Ok(Some(Group { origin, name }))
    }

    /// The end joins a group, in which it has the greatest number.
    pub(crate) fn join(
        &mut self,
        alloc: Global,
        number: u32,
        group: Group,
    ) -> Result<(), OutOfMemory>
        ensures { MatchResult result (λ _. Joins number group self.old self.new)
            (λ _. SameMembers number self.old self.new) }
    {
        self.groups.insert(number, group.clone()?)?;
        match add_to_group(alloc, &mut self.seated, number, group) {
            Ok(()) => Ok(()),
            Err(error) => {
                self.groups.remove(&number);
                Err(error)
            }
        }
    }

    /// The member parts, where it hasn't.
    pub(crate) fn leave(&mut self, number: u32)
        ensures { Parts number self.old self.new }
    {
        let Some(group) = self.groups.get(&number) else {
            return;
        };
        if let Some(numbers) = self.seated.get_mut(group) {
            numbers.remove(&number);
        }
    }

    /// Whether a member hasn't parted.
    pub(crate) fn has(&self, number: u32) -> bool
        ensures { result ≡ is_seated self.now number }
    {
        let Some(group) = self.groups.get(&number) else {
            return false;
        };
        match self.seated.get(group) {
            Some(numbers) => numbers.contains(&number),
            None => false,
        }
    }

    /// The other members of a member's group that haven't parted, in rising order.
    pub(crate) fn others_of_same_group(
        &self,
        alloc: Global,
        number: u32,
    ) -> Result<Vec<EndId>, OutOfMemory>
        ensures { IfOk result (λ found. found.items ≡ kept_destinations self.now number) }
    {
        let mut others = Vec::new(alloc);
        let Some(group) = self.groups.get(&number) else {
            return Ok(others);
        };
        let Some(numbers) = self.seated.get(group) else {
            return Ok(others);
        };
        for other in numbers {
            if *other != number {
                others.push(EndId(*other))?;
            }
        }
        Ok(others)
    }
}

/// A cast, with the destinations that are left, in order.
#[derive(Drop)]
pub struct Cast {
    source: EndId,
    body: Body,
    left: VecDeque<EndId>,
}

impl Model for Cast {
    ghost use Rattle.hub_core.specs.Roster.{CastNow};

    ghost Value = { CastNow };

    ghost view = { λ c. record { source = c.source; body = c.body; left = c.left.items } };
}

impl Cast {
    /// Whether the cast goes to the end next.
    fn is_next_destination(&self, end: EndId) -> bool
        ensures { result ≡ is_first end.0 self.now.left }
    {
        match self.left.front() {
            Some(first) => *first == end,
            None => false,
        }
    }
}

/// What the core keeps of broadcast channels.
#[derive(Drop)]
pub struct Roster {
    pub(crate) members: Members,
    pub(crate) cast: Option<Cast>,
}

impl Roster {
    /// A roster with no member.
    pub(crate) fn new(alloc: Global) -> Roster
        ensures { IsFirst result }
    {
        Roster {
            members: Members::new(alloc),
            cast: None,
        }
    }

    /// The source of the cast that goes to the end next.
    pub(crate) fn cast_source_if_next_destination(&self, end: EndId) -> Option<EndId>
        ensures { result ≡ source_for self.now.cast end.0 }
    {
        let cast = self.cast.as_ref()?;
        if cast.is_next_destination(end) {
            Some(cast.source)
        } else {
            None
        }
    }

    /// Whether the body is that of the cast.
    pub(crate) fn is_body_of_cast(&self, body: &Body) -> bool
        ensures { result ≡ has_body body.now self.now.cast }
    {
        match &self.cast {
            Some(cast) => *body == cast.body,
            None => false,
        }
    }

    /// A cast goes to these destinations.
    pub(crate) fn begin_cast(&mut self, source: EndId, body: Body, left: VecDeque<EndId>)
        ensures { self.new ≡ record self.old { cast = cast_to source body left.items } }
    {
        self.cast = if left.is_empty() {
            None
        } else {
            Some(Cast { source, body, left })
        };
    }

    /// A poster left the end: where that is the first destination left, it is done with.
    pub(crate) fn advance_cast_if_next(&mut self, end: EndId)
        ensures { self.new ≡ record self.old { cast = cast_after end.0 self.old.cast } }
    {
        let Some(cast) = &mut self.cast else {
            return;
        };
        if !cast.is_next_destination(end) {
            return;
        }
        cast.left.pop_front();
        if cast.left.is_empty() {
            self.cast = None;
        }
    }
}

/// These ends, as what is left of a cast.
pub(crate) fn to_deque(alloc: Global, ends: &[EndId]) -> Result<VecDeque<EndId>, OutOfMemory>
    ensures { IfOk result (λ left. left.items ≡ ends.now) }
{
    let mut left = VecDeque::with_capacity(alloc, ends.len())?;
    for end in ends {
        left.push_back(*end)?;
    }
    Ok(left)
}

/// The end has a seat in its group.
fn add_to_group(
    alloc: Global,
    seated: &mut BTreeMap<Group, BTreeSet<u32>>,
    number: u32,
    group: Group,
) -> Result<(), OutOfMemory>
    ensures ok { OnOk result ((k : GroupValue) → numbers_in (get group_cmp seated.new k)
        ≡ seated_with group number k (numbers_in (get group_cmp seated.old k))) }
    ensures err { OnErr result ((k : GroupValue) → numbers_in (get group_cmp seated.new k)
        ≡ numbers_in (get group_cmp seated.old k)) }
{
    if let Some(numbers) = seated.get_mut(&group) {
        numbers.insert(number)?;
        return Ok(());
    }
    let mut numbers = BTreeSet::new(alloc);
    numbers.insert(number)?;
    seated.insert(group, numbers)?;
    Ok(())
}
