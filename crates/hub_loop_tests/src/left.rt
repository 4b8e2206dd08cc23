//! What a loop leaves when it ends.
use hub_envelope::{EndId, Envelope, LineId};
use hub_loop::Ended;
use hub_ports::{ClosedPort, Noticed};
use hub_queue::{Posted, Swept};
use hub_test_parts::is_message;

/// The epoch, the number and the text of an envelope.
pub(crate) type Message = (u32, u64, &'static str);

fn are_messages(envelopes: &[Envelope], row: &[Message]) -> bool {
    if envelopes.len() != row.len() {
        return false;
    }
    for (envelope, (epoch, number, text)) in envelopes.iter().zip(row) {
        if envelope.line.0 != 0 || !is_message(envelope, *epoch, *number, text) {
            return false;
        }
    }
    true
}

/// Whether these ends were swept, in order, and this was discarded there.
pub(crate) fn are_swept(swept: &[Swept], rows: &[(u32, &[Message])]) -> bool {
    if swept.len() != rows.len() {
        return false;
    }
    for (swept, (end, row)) in swept.iter().zip(rows) {
        if swept.closed_end_id().0 != *end || !are_messages(swept.envelopes(), row) {
            return false;
        }
    }
    true
}

/// Whether these ports were closed, in order, and the notice of each was put first at this end.
fn are_noticed(ports: &[ClosedPort], rows: &[(u32, u32)]) -> bool {
    if ports.len() != rows.len() {
        return false;
    }
    for (port, (end, peer)) in ports.iter().zip(rows) {
        let put = Posted {
            end: EndId(*peer),
            epoch: 0,
            line: LineId(0),
            number: 0,
        };
        if port.end.0 != *end || port.noticed != Noticed::Put(put) {
            return false;
        }
    }
    true
}

/// Whether a loop has left this: what was swept, and the notices of the ports that were closed.
pub(crate) fn is_left(ended: &Ended, swept: &[(u32, &[Message])], noticed: &[(u32, u32)]) -> bool {
    are_swept(ended.swept.as_slice(), swept) && are_noticed(ended.noticed.as_slice(), noticed)
}
