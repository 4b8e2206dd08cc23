ghost use Rattle.std.specs.Prelude.{◌≡◌, ◌<◌, length, map, position, is_some, IfOk, IfSome, Some};
ghost use Rattle.std.specs.Prelude.{[], OnOk, OnErr};
ghost use Rattle.hub_envelope.specs.declared.limits.TheConstants.{MAX_LINES};
ghost use Rattle.hub_clients.specs.Lines.{IsPutBack, IsTakenOut, IsLent, IsGivenBack};
ghost use Rattle.hub_clients.specs.Listings.{ArePostersOf, IsInOrder, IsListed, IsPlaceBehind};
ghost use Rattle.hub_clients.specs.Listings.{IsPlaceOf};

use crate::error::DirectoryError;
use hub_envelope::{EndId, OutOfMemory};
use hub_queue::Poster;
use std::alloc::Global;
use std::marker::Model;

/// A listed queue: its number, and the posters of its lines that are at home.
#[derive(Drop)]
pub struct ListedQueue {
    end: EndId,
    lines: Vec<Option<Poster>>,
}

impl Model for ListedQueue {
    ghost use Rattle.hub_clients.specs.Listings.{ListedSeat, IsInPlace};

    ghost Value = { ListedSeat };

    ghost view = { λ l. record { end = l.end; lines = l.lines.items } };

    ghost invariant = { λ l. IsInPlace (record { end = l.end; lines = l.lines.items }) };
}

/// The first line whose poster is at home.
fn first_line_with_poster_at_home(lines: &[Option<Poster>]) -> Option<usize>
    ensures { result ≡ position is_some lines.now }
{
    lines.iter().position(|line| line.is_some())
}

impl ListedQueue {
    /// A queue with all its lines at home, whose posters these are in order of lines.
    pub fn new(alloc: Global, end: EndId, posters: Vec<Poster>) -> Result<ListedQueue, OutOfMemory>
        requires count { length posters.items ≡ MAX_LINES }
        requires posters { ArePostersOf end posters.items }
        ensures { IfOk result (λ l. l ≡ record { end = end; lines = map Some posters.items }) }
    {
        let lines = posters.into_iter().map(Some).collect(alloc)?;
        Ok(ListedQueue { end, lines })
    }

    /// The number of the queue.
    pub fn queue_id(&self) -> EndId
        ensures { result ≡ self.now.end }
    {
        self.end
    }

    /// Takes out the poster of the least line at home. `None` where each line is out. It costs at
    /// most one look at each line, and takes no memory.
    pub fn take_first_free_poster(&mut self) -> Option<Poster>
        ensures taken { IsTakenOut self.old self.new result }
        ensures own { IfSome result
            (λ p. (p.name.end ≡ self.old.end) × (p.name.line.0 < MAX_LINES)) }
    {
        let line = first_line_with_poster_at_home(&self.lines)?;
        self.lines[line].take()
    }

    /// Puts a poster of this queue back to its own line. It comes back where that line isn't out.
    /// It takes no memory.
    pub fn put_back_poster(&mut self, poster: Poster) -> Result<(), Poster>
        requires { poster.name.end ≡ self.old.end }
        ensures { IsPutBack self.old self.new poster result }
    {
        let line = usize::from(poster.name().line.0);
        match self.lines.get(line) {
            Some(None) => {
                self.lines[line] = Some(poster);
                Ok(())
            }
            _ => Err(poster),
        }
    }
}

/// The listed queues, in the order of their numbers: what a `Directory` holds behind its lock.
///
/// A poster is lent by being taken out of its line, so nobody else can have it until it comes back.
#[derive(Drop)]
pub struct QueueList {
    queues: Vec<ListedQueue>,
}

impl Model for QueueList {
    ghost use Rattle.std.specs.Prelude.{List};
    ghost use Rattle.hub_clients.specs.Listings.{ListedSeat, IsInOrder};

    ghost Value = { List ListedSeat };

    ghost view = { λ l. l.queues.items };

    ghost invariant = { λ l. IsInOrder l.queues.items };
}

/// Where the first queue of that number is listed.
fn place_of_first_queue(queues: &[ListedQueue], end: EndId) -> Option<usize>
    requires { IsInOrder queues.now }
    ensures { IsPlaceOf queues.now end result }
{
    let place = queues.partition_point(|queue| queue.queue_id().0 < end.0);
    let queue = queues.get(place)?;
    if queue.queue_id() == end {
        Some(place)
    } else {
        None
    }
}

/// Where a queue of that number is to be listed.
fn insertion_index(queues: &[ListedQueue], end: EndId) -> usize
    requires { IsInOrder queues.now }
    ensures { IsPlaceBehind queues.now end result }
{
    queues.partition_point(|queue| queue.queue_id().0 <= end.0)
}

impl QueueList {
    /// Nothing is listed. It takes no memory.
    pub fn new(alloc: Global) -> QueueList
        ensures { result ≡ [] }
    {
        QueueList {
            queues: Vec::new(alloc),
        }
    }

    /// Lists a queue, behind those of its own or a lower number. Where its number is the greatest,
    /// as of queues that are listed in the order in which they are made, no other is moved.
    /// `OutOfMemory` where there was no memory for one more; then what is listed is as it was.
    pub fn insert(&mut self, queue: ListedQueue) -> Result<(), OutOfMemory>
        ensures ok { OnOk result (IsListed self.old self.new queue) }
        ensures err { OnErr result (self.new ≡ self.old) }
    {
        let place = insertion_index(&self.queues, queue.queue_id());
        self.queues.insert(place, queue)?;
        Ok(())
    }

    /// Lends the poster of the least line at home of the first queue of that number.
    ///
    /// `NoSuchEnd` exactly where no queue of that number is listed, `NoLine` exactly where all
    /// lines of the queue are out. It costs the logarithm of the queues and a look at each line,
    /// and takes no memory.
    pub fn line_to(&mut self, end: EndId) -> Result<Poster, DirectoryError>
        ensures lent { IsLent self.old self.new end result }
        ensures poster { IfOk result (λ p. (p.name.end ≡ end) × (p.name.line.0 < MAX_LINES)) }
    {
        let Some(place) = place_of_first_queue(&self.queues, end) else {
            return Err(DirectoryError::NoSuchEnd);
        };
        let queue = &mut self.queues[place];
        queue.take_first_free_poster().ok_or(DirectoryError::NoLine)
    }

    /// Puts a poster back to its line at the first queue of its number. The poster comes back where
    /// that line isn't out there. It costs the logarithm of the queues, and takes no memory.
    pub fn give_back_poster(&mut self, poster: Poster) -> Result<(), Poster>
        ensures { IsGivenBack self.old self.new poster result }
    {
        let Some(place) = place_of_first_queue(&self.queues, poster.name().end) else {
            return Err(poster);
        };
        let queue = &mut self.queues[place];
        queue.put_back_poster(poster)
    }
}
