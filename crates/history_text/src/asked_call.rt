//! The operations of calls on files, with their replies, as the words of a line say them. A function here that gives
//! a `Result` answers `Bad` with the first word that may not stand there.
use crate::{
    LineError, LineWord, LineWords, Machine, WRONG_REPLY, check_owner, next_mode, next_span,
};
use client_history::ToldLock;
use intervals::span::Span;
use model::Mode;

/// The operation of a call on a file.
#[derive(Clone, Copy)]
pub(crate) enum Operation {
    Set { mode: Mode, span: Span },
    Wait { mode: Mode, span: Span },
    Unlock { span: Span },
    Query { mode: Mode, span: Span },
    /// A close; `is_unused` says that it is of a descriptor by which its owner never set, waited for or gave back a
    /// lock.
    Close { is_unused: bool },
}

/// The first word of a reply.
#[derive(Clone, Copy, PartialEq, Eq)]
pub(crate) enum Reply {
    Done,
    Again,
    Free,
    Blocked,
    Interrupted,
    Refused,
}

/// An operation on a file, the first word of its reply, if there is one, and the lock that the reply names.
#[derive(Clone, Copy)]
pub(crate) struct Asked {
    pub(crate) operation: Operation,
    pub(crate) reply: Option<Reply>,
    pub(crate) told: ToldLock,
}

/// A call on a file: the file's name, what is asked, without the owner of the lock that the reply names, and that one's
/// name, if it is told.
#[derive(Clone, Copy)]
pub(crate) struct AskedCall<'a> {
    pub(crate) file: &'a str,
    pub(crate) asked: Asked,
    pub(crate) owner: Option<LineWord<'a>>,
}

/// Takes the words of a call on a file, behind the word of its operation. Only a call with an end has a reply.
pub(crate) fn next_asked<'a>(
    verb: &LineWord<'_>,
    words: &mut LineWords<'a>,
    has_end: bool,
    machines: &[Machine],
) -> Result<AskedCall<'a>, LineError> {
    if !matches!(verb.text, "set" | "wait" | "unlock" | "query" | "close") {
        return Err(verb.fault("expected `set`, `wait`, `unlock`, `query`, `close` or `exit`"));
    }
    let file = words.next_word()?.text;
    let operation = match next_operation(verb.text, words) {
        Ok(operation) => operation,
        Err(error) => return Err(error),
    };
    let told = ToldLock {
        mode: None,
        span: None,
        owner: None,
    };
    let reply = None;
    let mut asked = Asked {
        operation,
        reply,
        told,
    };
    let mut owner = None;
    if let Some(word) = next_reply(words, has_end)? {
        let reply = reply_of(&word)?;
        if !goes_with(reply, &operation) {
            return Err(word.fault(WRONG_REPLY));
        }
        asked.reply = Some(reply);
        owner = next_lock(&mut asked.told, reply, words, machines)?;
    } else if has_end {
        return Err(words.fault("the reply is missing"));
    }
    words.end()?;
    Ok(AskedCall { file, asked, owner })
}

/// Takes the words behind the word `exit`.
pub(crate) fn end_exit(words: &mut LineWords<'_>, has_end: bool) -> Result<(), LineError> {
    if let Some(word) = next_reply(words, has_end)? {
        if reply_of(&word)? != Reply::Done {
            return Err(word.fault(WRONG_REPLY));
        }
    }
    words.end()
}

// Takes the words behind a file: the operation with them.
fn next_operation(verb: &str, words: &mut LineWords<'_>) -> Result<Operation, LineError> {
    if verb == "close" {
        let is_unused = words.skip_word("unused");
        return Ok(Operation::Close { is_unused });
    }
    let mode = if verb == "unlock" {
        None
    } else {
        Some(next_mode(words)?)
    };
    let span = match next_span(words) {
        Ok(span) => span,
        Err(error) => return Err(error),
    };
    Ok(match (verb, mode) {
        (_, None) => Operation::Unlock { span },
        ("set", Some(mode)) => Operation::Set { mode, span },
        ("wait", Some(mode)) => Operation::Wait { mode, span },
        (_, Some(mode)) => Operation::Query { mode, span },
    })
}

// Takes the `->` and the first word of a reply, if the line goes on.
fn next_reply<'a>(
    words: &mut LineWords<'a>,
    has_end: bool,
) -> Result<Option<LineWord<'a>>, LineError> {
    if !words.has_more() {
        return Ok(None);
    }
    let arrow = words.next_word()?;
    if arrow.text != "->" {
        return Err(arrow.fault("expected `->`"));
    }
    if !has_end {
        return Err(arrow.fault("a call without an end has no reply"));
    }
    let reply = words.next_word()?;
    Ok(Some(reply))
}

// The first word of a reply that the word is.
fn reply_of(word: &LineWord<'_>) -> Result<Reply, LineError> {
    match word.text {
        "done" => Ok(Reply::Done),
        "again" => Ok(Reply::Again),
        "free" => Ok(Reply::Free),
        "blocked" => Ok(Reply::Blocked),
        "interrupted" => Ok(Reply::Interrupted),
        "refused" => Ok(Reply::Refused),
        _ => Err(word.fault(
            "expected `done`, `again`, `free`, `blocked`, `interrupted` or `refused`",
        )),
    }
}

// Whether a call with that operation may have the reply.
fn goes_with(reply: Reply, operation: &Operation) -> bool {
    match (operation, reply) {
        (_, Reply::Refused) => true,
        (Operation::Set { .. }, Reply::Done | Reply::Again | Reply::Interrupted) => true,
        (Operation::Wait { .. }, Reply::Done | Reply::Interrupted) => true,
        (Operation::Query { .. }, Reply::Free | Reply::Blocked) => true,
        (Operation::Unlock { .. } | Operation::Close { .. }, Reply::Done) => true,
        _ => false,
    }
}

// Takes the words behind the first word of a reply: the lock that they name, if they do. Gives the word for its owner,
// if that is told.
fn next_lock<'a>(
    told: &mut ToldLock,
    reply: Reply,
    words: &mut LineWords<'a>,
    machines: &[Machine],
) -> Result<Option<LineWord<'a>>, LineError> {
    if reply == Reply::Refused {
        words.next_word()?;
    }
    if reply != Reply::Again && reply != Reply::Blocked || !words.has_more() {
        return Ok(None);
    }
    told.mode = Some(next_mode(words)?);
    match next_span(words) {
        Ok(span) => told.span = Some(span),
        Err(error) => return Err(error),
    }
    let name = words.next_word()?;
    if name.text == "?" {
        return Ok(None);
    }
    check_owner(&name, machines)?;
    Ok(Some(name))
}
