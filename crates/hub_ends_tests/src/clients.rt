//! What the tests make their queues of, and a test in which each allocation may be refused. That a
//! queue comes back from a hand that found no memory is played from step files, by `hub_player`.
mod handing;
mod lent;
mod lines;

use hub_clients::{ClientQueue, Directory, DirectoryError, QueueError, WorkerQueue};
use hub_envelope::EndId;
use hub_queue::Ends;
use hub_test_parts::bell;
use std::alloc::Global;
use std::sync::Wait;

/// A client's queue of the next number.
pub(crate) fn client<R: Wait>(
    rt: &R,
    alloc: Global,
    directory: &Directory,
    ends: &mut Ends,
) -> Option<ClientQueue> {
    directory.client(rt, ends, bell(alloc)?).ok()
}

/// A worker's queue of the next number.
pub(crate) fn worker<R: Wait>(
    rt: &R,
    alloc: Global,
    directory: &Directory,
    ends: &mut Ends,
) -> Option<WorkerQueue> {
    directory.worker(rt, ends, bell(alloc)?).ok()
}

/// Which line to the queue of this number is lent. It is lost at once.
pub(crate) fn lost_line<R: Wait>(
    rt: &R,
    directory: &Directory,
    end: u32,
) -> Result<u8, DirectoryError> {
    match directory.line_to(rt, EndId(end)) {
        Ok(poster) => {
            let line = poster.name().line.0;
            drop(poster);
            Ok(line)
        }
        Err(error) => Err(error),
    }
}

/// Makes a queue of the next number, a client's or a worker's, and loses it.
fn make<R: Wait>(
    rt: &R,
    alloc: Global,
    directory: &Directory,
    ends: &mut Ends,
    is_client: bool,
) -> Result<(), QueueError> {
    let Some(bell) = bell(alloc) else {
        return Err(QueueError::OutOfMemory);
    };
    if is_client {
        drop(directory.client(rt, ends, bell)?);
    } else {
        drop(directory.worker(rt, ends, bell)?);
    }
    Ok(())
}

/// Whether a queue is listed: by a second call where in the first one there was no memory, no
/// number was used and nothing was listed.
fn lists<R: Wait>(
    rt: &R,
    alloc: Global,
    directory: &Directory,
    ends: &mut Ends,
    is_client: bool,
) -> bool {
    let drawn = ends.drawn;
    match make(rt, alloc, directory, ends, is_client) {
        Ok(()) => matches!(lost_line(rt, directory, drawn), Ok(0)),
        Err(error) => {
            error == QueueError::OutOfMemory
                && ends.drawn == drawn
                && matches!(
                    lost_line(rt, directory, drawn),
                    Err(DirectoryError::NoSuchEnd)
                )
                && make(rt, alloc, directory, ends, is_client).is_ok()
                && matches!(lost_line(rt, directory, drawn), Ok(0))
        }
    }
}

#[test]
fn lists_queues_whichever_allocation_is_refused(rt: HostRuntime) {
    let directory = Directory::new(rt.alloc());
    let mut ends = Ends::new();
    let are_listed = lists(&rt, rt.alloc(), &directory, &mut ends, true)
        && lists(&rt, rt.alloc(), &directory, &mut ends, false);
    drop(directory);
    assert!(rt; are_listed);
}
