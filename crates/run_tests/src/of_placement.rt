//! Which histories are legal, and what is one: so what the table of a single machine answers, at values from outside and worked out by
//! hand. (What the history of a journal is, is shown by runs of the program.)
use cluster_core::Item;
use journal_text::replies::reply_of;
use lockscript::Operation;
use message_text::{CallName, HostName, PidField};
use messages::Version;
use model::Host;
use placement::history::History;
use placement::legal::legal;
use std::alloc::Global;
use texts::text::{Text, after, split_field};

// How a history begins, as a listing has it, without places. Processes 1 and 2 of node 1 and process 1 of node 2 have the file open, the
// first of them by two descriptors. It holds its write lock, the description of the second one for read.
const START: &str = "1.1.1 1 spawn -> done
1.1.2 2 spawn -> done
2.1.1 1 spawn -> done
1.1.3 1 open 1 rw -> fd 0
1.1.4 2 open 1 rw -> fd 0
2.1.2 1 open 1 rw -> fd 0
1.1.5 1 set 0 proc write 0 10 -> done
1.1.6 2 set 0 desc read 40 10 -> done
1.1.7 1 dup 0 -> fd 1
";

// How it may end then, and how it never may. A line of `then` comes between, up to the next such line. A wait may be interrupted wherever it
// passes its tests, and nothing else may; it is told of no lock. A lock that is in the way is named whole, and none is in its own owner's
// way. Processes and locks go with their incarnation alone, and locks of a process with each descriptor of their file.
const ENDS: &str = "may 1.1.8 2 set 0 proc write 5 10 -> again write 0 9 p1@1.1
never 1.1.8 2 set 0 proc write 5 10 -> again write 0 14 p1@1.1
never 1.1.8 2 set 0 proc write 5 10 -> again read 0 9 p1@1.1
never 1.1.8 2 set 0 proc write 5 10 -> done
may 1.1.8 1 set 0 proc write 5 10 -> done
may 1.1.8 3 set 0 proc write 5 10 -> no-process
may 1.1.8 256 spawn -> done
may 1.1.8 1 wait 0 proc write 5 10 -> done
may 1.1.8 1 wait 0 proc write 5 10 -> interrupted
never 1.1.8 2 wait 0 proc write 5 10 -> done
may 1.1.8 2 wait 0 proc write 5 10 -> interrupted
never 1.1.8 2 wait 0 proc write 5 10 -> again write 0 9 p1@1.1
never 1.1.8 2 wait 0 proc write 5 10 -> blocked write 0 9 p1@1.1
may 1.1.8 3 wait 0 proc write 5 10 -> no-process
never 1.1.8 3 wait 0 proc write 5 10 -> interrupted
never 1.1.8 2 set 0 proc write 5 10 -> interrupted
never 1.1.8 2 query 0 proc write 5 10 -> interrupted
never 1.1.8 3 spawn -> interrupted
may 1.1.8 2 query 0 proc write 5 10 -> blocked write 0 9 p1@1.1
never 1.1.8 2 query 0 proc write 5 10 -> blocked write 5 9 p1@1.1
never 1.1.8 2 query 0 proc write 5 10 -> again write 0 9 p1@1.1
never 1.1.8 2 query 0 proc write 5 10 -> free
may 1.1.8 1 query 0 proc write 5 10 -> free
never 1.1.8 1 query 0 proc write 5 10 -> blocked write 0 9 p1@1.1
may 2.1.3 1 set 0 proc write 5 10 -> again write 0 9 p1@1.1
never 2.1.3 1 set 0 proc write 40 10 -> done
may 1.1.8 1 spawn -> exists
may 1.1.8 3 spawn -> done
may 1.1.8 3 open 1 rw -> no-process
may 1.1.8 1 dup 0 -> fd 2
may 1.1.8 1 dup 64 -> bad-fd
may 1.1.8 2 fork 3 -> done
may 1.1.8 2 fork 1 -> exists
may 1.1.8 1 unlock 0 proc 5 -6 -> invalid
may 2.1.3 1 close 1 -> bad-fd
may 1.1.8 3 exit -> no-process
then gone 1.1
may 1.1.8 1 open 1 rw -> no-process
never 1.1.8 1 open 1 rw -> fd 2
may 2.1.3 1 set 0 proc write 5 10 -> done
never 2.1.3 1 set 0 proc write 5 10 -> again write 0 9 p1@1.1
may 2.1.3 1 set 0 proc write 40 10 -> done
may 1.1.8 1 spawn -> done
may 2.1.3 1 spawn -> exists
then gone 1.2
may 1.1.8 1 open 1 rw -> fd 2
may 2.1.3 1 set 0 proc write 5 10 -> again write 0 9 p1@1.1
never 2.1.3 1 set 0 proc write 5 10 -> done
never 2.1.3 1 set 0 proc write 40 10 -> done
then 1.1.8 2 fork 3 -> done
may 1.1.9 3 spawn -> exists
may 1.1.9 3 set 0 desc read 40 10 -> done
never 1.1.9 3 set 0 proc write 40 10 -> done
then 1.1.8 1 unlock 0 proc 4 2 -> done
may 1.1.9 2 set 0 proc write 5 10 -> again write 6 9 p1@1.1
never 1.1.9 2 set 0 proc write 5 10 -> again write 0 9 p1@1.1
then 1.1.8 1 close 1 -> done
may 1.1.9 2 set 0 proc write 5 10 -> done
then 1.1.8 1 exit -> done
may 1.1.9 2 set 0 proc write 5 10 -> done
then 1.1.8 2 exit -> done
may 2.1.3 1 set 0 proc write 40 10 -> done
";

// The item that the line writes, too. No answer, here and below, is a refused request for memory.
fn put_line(items: &mut Vec<Item>, line: &str) -> Option<()> {
    let position = u32::try_from(items.len()).ok()?.checked_add(1)?;
    if let Some(gone) = after(line, "gone ") {
        let Host { node, incarnation } = HostName::read(gone)?;
        let item = Item::Gone {
            position,
            node,
            incarnation,
        };
        return items.push(item).ok();
    }
    let (call, reply) = line.split_once(" -> ")?;
    let (id, (pid, op)) = <(CallName, (PidField, Operation))>::read(call)?;
    let reply = reply_of(reply)?;
    let item = Item::Answered {
        position,
        id,
        pid,
        op,
        reply,
    };
    items.push(item).ok()
}

// The items of all the lines.
fn put_lines(items: &mut Vec<Item>, text: &str) -> Option<()> {
    for line in text.lines() {
        put_line(items, line)?;
    }
    Some(())
}

// Whether a history may go on and end with these lines.
fn may_end(alloc: Global, then: &str, last: &str) -> Option<bool> {
    let mut items = Vec::new(alloc);
    put_lines(&mut items, START)?;
    put_lines(&mut items, then)?;
    put_lines(&mut items, last)?;
    legal(alloc, &History::new(Version::Second, items).ok()?).ok()
}

// The same, asked again where a request for memory is refused.
fn may_end_again(alloc: Global, then: &str, last: &str) -> Option<bool> {
    match may_end(alloc, then, last) {
        Some(answer) => Some(answer),
        None => may_end(alloc, then, last),
    }
}

// The first line that says what is not so.
fn first_wrong(alloc: Global, text: &str) -> Option<&str> {
    let mut then = "";
    for line in text.lines() {
        match split_field(line) {
            Some(("then", item)) => then = item,
            Some(("may", item)) if may_end_again(alloc, then, item) == Some(true) => {}
            Some(("never", item)) if may_end_again(alloc, then, item) == Some(false) => {}
            _ => return Some(line),
        }
    }
    None
}

// `scripts/refused-memory` refuses each request of the test once: then the line is asked again.
#[test]
fn allows_what_one_machine_may_answer(rt: HostRuntime) {
    let wrong = first_wrong(rt.alloc(), ENDS);
    assert!(rt; wrong.is_none(), "{wrong:?}");
}
