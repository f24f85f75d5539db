//! The test whether a run is stuck: no open call can be answered any more.
use messages::{
    Blocking, CommandNumber, Entry, Event, Message, NodeInput, ServerInput, SharedMessage,
};
use model::{CallId, Host};
use std::alloc::{AllocError, Global};

/// An open call as its node tried it again: its process, and the request that the try sent, if no lock of its own
/// node blocked it.
#[derive(Clone, Copy)]
struct Try {
    node: u8,
    pid: u16,
    asked: Option<StuckRequest>,
}

/// A request for a token: the file of its token server, its call, and whether the call waits where a lock blocks it.
#[derive(Clone, Copy)]
struct StuckRequest {
    file: u16,
    call: CallId,
    waits: bool,
}

/// Whether the open calls of that many processes can't be answered any more. The entries are looked at since the last
/// one by which a lock may have come or gone. Since then each call was tried again, and a lock of its own node
/// blocked it; or it waits, and a lock of another node blocked it twice; or it asked a token server that is declared
/// failed, which those of these files are. Only a call or a failure could then free one of them, and nobody makes a
/// call. A call that does not wait is denied once a lock that blocks it is reported. `false` also where memory is
/// short for the test.
pub(crate) fn is_stuck(alloc: Global, entries: &[Entry], processes: usize, failed: &[u16]) -> bool {
    let since = since_news(entries);
    match tries_in(alloc, since) {
        Ok(tries) => {
            tries.len() >= processes && tries.iter().all(|one| is_blocked(since, one, failed))
        }
        Err(_) => false,
    }
}

// The entries behind the last one by which a lock may have come or gone.
fn since_news(entries: &[Entry]) -> &[Entry] {
    let mut start = entries.len();
    for entry in entries.iter().rev() {
        if is_news(entry) {
            break;
        }
        start = start.saturating_sub(1);
    }
    entries.get(start..).unwrap_or(&[])
}

// Whether a lock may have come or gone by the entry, or a call may have begun.
fn is_news(entry: &Entry) -> bool {
    if entry.reply().is_some() {
        return true;
    }
    !matches!(
        entry.event(),
        Event::AtNode(_, NodeInput::Retry { .. })
            | Event::AtServer(_, ServerInput::Resend)
            | Event::Deliver(_)
    )
}

// The last try of each process that tried.
fn tries_in(alloc: Global, entries: &[Entry]) -> Result<Vec<Try>, AllocError> {
    let mut tries: Vec<Try> = Vec::new(alloc);
    for entry in entries {
        let Some(next) = try_of(entry) else {
            continue;
        };
        match tries
            .iter_mut()
            .find(|one| one.node == next.node && one.pid == next.pid)
        {
            Some(one) => *one = next,
            None => tries.push(next)?,
        }
    }
    Ok(tries)
}

// The try that the entry makes, if it makes one.
fn try_of(entry: &Entry) -> Option<Try> {
    match entry.event() {
        Event::AtNode(node, NodeInput::Retry { pid }) => Some(Try {
            node: *node,
            pid: *pid,
            asked: entry.sends().iter().find_map(request_of),
        }),
        _ => None,
    }
}

fn request_of(message: &SharedMessage) -> Option<StuckRequest> {
    match message.get() {
        Message::Request {
            file,
            call,
            blocking,
            ..
        } => Some(StuckRequest {
            file: file.get(),
            call: *call,
            waits: *blocking == Blocking::Yes,
        }),
        _ => None,
    }
}

// Whether the call that was tried is blocked for as long as no lock goes.
fn is_blocked(entries: &[Entry], one: &Try, failed: &[u16]) -> bool {
    match &one.asked {
        None => true,
        Some(request) => {
            let has_met = request.waits && has_met_locks(entries, &request.call);
            has_met || failed.contains(&request.file)
        }
    }
}

// Whether locks blocked the call at two commands to one node. The first answer alone may have been one that was sent
// again.
fn has_met_locks(entries: &[Entry], call: &CallId) -> bool {
    let mut last: Option<(Host, CommandNumber)> = None;
    for (holder, number) in entries.iter().filter_map(|entry| conflict_of(entry, call)) {
        if let Some((host, earlier)) = last {
            if host == holder && earlier != number {
                return true;
            }
        }
        last = Some((holder, number));
    }
    false
}

// The node whose lock blocks the call, if the entry sends a conflict for it, and the number of the command.
fn conflict_of(entry: &Entry, about: &CallId) -> Option<(Host, CommandNumber)> {
    entry
        .sends()
        .iter()
        .find_map(|message| match message.get() {
            Message::Conflict {
                holder,
                number,
                call,
                ..
            } if call == about => Some((*holder, *number)),
            _ => None,
        })
}
