//! The text of what is told of a world. Each line has one thing, and can be read alone.
ghost use Rattle.std.specs.Prelude.{◌≡◌, ◌++◌, flat_map, string_bytes, IfOk, OnOk};
ghost use Rattle.states.specs.rule.Texts.{asked_text, awaited_line, command_line, command_word, dead_line, epoch_lines, held_line, live_line, node_lines, open_line, open_lines, put_lines, request_line, request_of, row_lines, row_name, row_token_line, served_line, served_lines, server_lines, serves_text, state_text, token_line, waits_text, works_line, IsStateText};

use crate::cluster_state::{ClusterState, KnownDead, ToldEpoch, ToldNode, ToldServer};
use cluster_core::{HeldLock, NodeTokenRun};
use intervals::span::Span;
use message_text::{push_host, push_lock, push_message};
use messages::{FileNumber, GREATEST_NUMBER, Message, Version};
use model::{Level, LockCommand, LockInfo};
use node_core::OpenCall;
use std::alloc::{AllocError, Global};
use std::fmt::Write;
use texts::words::Named;
use token_server::{ActiveRequest, ShownRow, TokenRequest};

/// The text of what is told of a cluster of this version after the entry at this position, 0 before the first one.
pub fn state_text(
    alloc: Global,
    version: Version,
    position: u64,
    state: &ClusterState,
) -> Result<String, AllocError>
    ensures { IfOk result (λ text. IsStateText version position state.now (string_bytes text)) }
{
    let mut out = String::new(alloc);
    writeln!(out, "state after entry {position}")?;
    for node in &state.nodes {
        push_node(&mut out, node)?;
    }
    for epoch in &state.epochs {
        push_epoch(&mut out, *epoch)?;
    }
    for token in &state.tokens {
        push_token(&mut out, token)?;
    }
    push_locks(&mut out, state.locks.as_slice())?;
    for told in &state.nodes {
        push_calls(&mut out, told)?;
    }
    for server in &state.servers {
        push_server(&mut out, version, server)?;
    }
    Ok(out)
}

// Writes the lines of a node: that it is alive, and the incarnations that were declared failed.
fn push_node(out: &mut String, told: &ToldNode) -> Result<(), AllocError>
    ensures { OnOk result (string_bytes out.new ≡ string_bytes out.old ++ node_lines told.now) }
{
    let node = told.node;
    let dead = told.dead;
    push_live(out, node, told.live)?;
    if dead == 0 {
        return Ok(());
    }
    write!(out, "node {node} failed ")?;
    push_host(out, node, dead)?;
    out.push_str("\n")
}

// Writes the line of a node that is alive.
fn push_live(out: &mut String, node: u8, live: Option<u16>) -> Result<(), AllocError>
    ensures { OnOk result (string_bytes out.new ≡ string_bytes out.old ++ live_line node live) }
{
    let Some(incarnation) = live else {
        return Ok(());
    };
    write!(out, "node {node} live ")?;
    push_host(out, node, incarnation)?;
    out.push_str("\n")
}

// Writes the lines of the epochs of a server: the one in which it works, and those that failed.
fn push_epoch(out: &mut String, told: ToldEpoch) -> Result<(), AllocError>
    ensures { OnOk result (string_bytes out.new ≡ string_bytes out.old ++ epoch_lines told) }
{
    let file = told.file;
    push_works(out, told)?;
    let failed = told.failed();
    if failed == 0 {
        return Ok(());
    }
    writeln!(out, "server {file} failed in epoch {failed}")
}

// Writes the line of a server that works.
fn push_works(out: &mut String, told: ToldEpoch) -> Result<(), AllocError>
    ensures { OnOk result (string_bytes out.new ≡ string_bytes out.old ++ works_line told) }
{
    let ToldEpoch { file, epoch, works } = told;
    if !works {
        return Ok(());
    }
    writeln!(out, "server {file} works in epoch {epoch}")
}

// Writes the line of a run of a token.
fn push_token(out: &mut String, token: &NodeTokenRun) -> Result<(), AllocError>
    ensures { OnOk result (string_bytes out.new ≡ string_bytes out.old ++ token_line token.now) }
{
    let file = token.file;
    let level = Level::word(token.level);
    let lo = token.span.lo;
    let hi = token.span.hi;
    out.push_str("token ")?;
    push_host(out, token.node, token.incarnation)?;
    write!(out, " file {file} {level} ")?;
    writeln!(out, "{lo} {hi}")
}

// Writes the lines of locks.
fn push_locks(out: &mut String, locks: &[HeldLock]) -> Result<(), AllocError>
    ensures { OnOk result (string_bytes out.new ≡ string_bytes out.old ++ flat_map held_line locks.now) }
{
    for held in locks {
        push_held(out, held)?;
    }
    Ok(())
}

// Writes the line of a lock.
fn push_held(out: &mut String, held: &HeldLock) -> Result<(), AllocError>
    ensures { OnOk result (string_bytes out.new ≡ string_bytes out.old ++ held_line held.now) }
{
    let file = held.file;
    write!(out, "lock file {file} ")?;
    push_lock(out, &held.lock)?;
    out.push_str("\n")
}

// Writes the lines of the open calls of a node.
fn push_calls(out: &mut String, told: &ToldNode) -> Result<(), AllocError>
    ensures { OnOk result (string_bytes out.new ≡ string_bytes out.old ++ open_lines told.now) }
{
    let Some(incarnation) = told.live else {
        return Ok(());
    };
    for call in &told.calls {
        push_open(out, told.node, incarnation, call)?;
    }
    Ok(())
}

// Writes the line of an open call of a node: its name, its process, and what it asks.
fn push_open(
    out: &mut String,
    node: u8,
    incarnation: u16,
    call: &OpenCall,
) -> Result<(), AllocError>
    ensures { OnOk result (string_bytes out.new ≡ string_bytes out.old ++ open_line node incarnation call.now) }
{
    let number = call.number;
    let pid = call.pid;
    let file = call.file;
    out.push_str("open ")?;
    push_host(out, node, incarnation)?;
    write!(out, ".{number} process {pid}")?;
    write!(out, " file {file} ")?;
    push_asked(out, call)
}

// Writes the end of the line: what the call asks, and about which lock.
fn push_asked(out: &mut String, call: &OpenCall) -> Result<(), AllocError>
    ensures { OnOk result (string_bytes out.new ≡ string_bytes out.old ++ asked_text call.now) }
{
    out.push_str(word_of(call.lock_command))?;
    out.push_str(" ")?;
    let lock = LockInfo {
        owner: call.owner,
        mode: call.mode,
        span: call.span,
    };
    push_lock(out, &lock)?;
    out.push_str("\n")
}

// The word of what a call asks about a lock, as in scripts.
fn word_of(command: LockCommand) -> &'static str
    ensures { result.now ≡ command_word command }
{
    match command {
        LockCommand::Set => "set",
        LockCommand::Wait => "wait",
        LockCommand::Query => "query",
    }
}

// Writes the lines of a server: its requests, its rows, the nodes that it awaits, the incarnations that it knows to
// be dead.
fn push_server(out: &mut String, version: Version, server: &ToldServer) -> Result<(), AllocError>
    ensures { OnOk result (string_bytes out.new ≡ string_bytes out.old ++ server_lines version server.now) }
{
    let file = server.file;
    push_served(out, version, file, server.served.as_slice())?;
    push_requests(out, version, file, "queued", server.queued.as_slice())?;
    push_requests(out, version, file, "waiting", server.waiting.as_slice())?;
    for row in &server.rows {
        push_row(out, version, file, row)?;
    }
    push_awaited(out, file, server.awaited.as_slice())?;
    push_dead(out, file, server.dead.as_slice())
}

// Writes the lines of requests that are served.
fn push_served(
    out: &mut String,
    version: Version,
    file: FileNumber,
    served: &[ActiveRequest],
) -> Result<(), AllocError>
    ensures { OnOk result (string_bytes out.new ≡ string_bytes out.old ++ served_lines version file served.now) }
{
    for held in served {
        push_held_request(out, version, file, held)?;
    }
    Ok(())
}

// Writes the line of one of them.
fn push_held_request(
    out: &mut String,
    version: Version,
    file: FileNumber,
    held: &ActiveRequest,
) -> Result<(), AllocError>
    ensures { OnOk result (string_bytes out.new ≡ string_bytes out.old ++ served_line version file held.now) }
{
    push_serves(out, file)?;
    push_waits(out, held.at)?;
    push_request(out, version, file, &held.request)
}

// Writes which server serves it.
fn push_serves(out: &mut String, file: FileNumber) -> Result<(), AllocError>
    ensures { OnOk result (string_bytes out.new ≡ string_bytes out.old ++ serves_text file) }
{
    let number = file.get();
    write!(out, "server {number} serves, ")
}

// Writes whose answer the server waits for.
fn push_waits(out: &mut String, at: u8) -> Result<(), AllocError>
    ensures { OnOk result (string_bytes out.new ≡ string_bytes out.old ++ waits_text at) }
{
    write!(out, "waits for node {at} to answer: ")
}

// Writes the lines of requests that are queued or wait for a lock to go, as the word says.
fn push_requests(
    out: &mut String,
    version: Version,
    file: FileNumber,
    word: &str,
    requests: &[TokenRequest],
) -> Result<(), AllocError>
    ensures { OnOk result (string_bytes out.new ≡ string_bytes out.old ++ put_lines version file word.now requests.now) }
{
    for request in requests {
        let number = file.get();
        write!(out, "server {number} {word}: ")?;
        push_request(out, version, file, request)?;
    }
    Ok(())
}

// Writes a request to the server of the file, as a message, and the end of the line.
fn push_request(
    out: &mut String,
    version: Version,
    file: FileNumber,
    request: &TokenRequest,
) -> Result<(), AllocError>
    ensures { OnOk result (string_bytes out.new ≡ string_bytes out.old ++ request_line version file request.now) }
{
    let message = Message::Request {
        file,
        call: request.call,
        blocking: request.blocking,
        mode: request.mode,
        wanted: request.wanted,
    };
    push_message(out, version, &message)?;
    out.push_str("\n")
}

// Writes the lines of a row: how many commands the node was given in this epoch, its token, and the command that has
// no answer.
fn push_row(
    out: &mut String,
    version: Version,
    file: FileNumber,
    row: &ShownRow,
) -> Result<(), AllocError>
    ensures { OnOk result (string_bytes out.new ≡ string_bytes out.old ++ row_lines version file row.now) }
{
    let commands = row.number % (u64::from(GREATEST_NUMBER) + 1);
    push_row_name(out, file, row)?;
    writeln!(out, " commands {commands}")?;
    push_row_token(out, file, row, row.token.as_slice())?;
    push_command(out, version, file, row)
}

// Writes the lines of the token of a row's node.
fn push_row_token(
    out: &mut String,
    file: FileNumber,
    row: &ShownRow,
    runs: &[(Span, Level)],
) -> Result<(), AllocError>
    ensures { OnOk result (string_bytes out.new ≡ string_bytes out.old ++ flat_map (row_token_line file row.now) runs.now) }
{
    for run in runs {
        push_run(out, file, row, run)?;
    }
    Ok(())
}

// Writes the line of a run of a token.
fn push_run(
    out: &mut String,
    file: FileNumber,
    row: &ShownRow,
    run: &(Span, Level),
) -> Result<(), AllocError>
    ensures { OnOk result (string_bytes out.new ≡ string_bytes out.old ++ row_token_line file row.now run.now) }
{
    let level = Level::word(run.1);
    let lo = run.0.lo;
    let hi = run.0.hi;
    push_row_name(out, file, row)?;
    writeln!(out, " token {level} {lo} {hi}")
}

// Writes the line of the command that has no answer, if there is one.
fn push_command(
    out: &mut String,
    version: Version,
    file: FileNumber,
    row: &ShownRow,
) -> Result<(), AllocError>
    ensures { OnOk result (string_bytes out.new ≡ string_bytes out.old ++ command_line version file row.now row.now.command) }
{
    let Some(command) = &row.command else {
        return Ok(());
    };
    push_row_name(out, file, row)?;
    out.push_str(" is to answer: ")?;
    push_message(out, version, command)?;
    out.push_str("\n")
}

// Writes `server F row HOST`.
fn push_row_name(out: &mut String, file: FileNumber, row: &ShownRow) -> Result<(), AllocError>
    ensures { OnOk result (string_bytes out.new ≡ string_bytes out.old ++ row_name file row.now) }
{
    let number = file.get();
    write!(out, "server {number} row ")?;
    push_host(out, row.node, row.incarnation)
}

// Writes the lines of the nodes that the server awaits.
fn push_awaited(out: &mut String, file: FileNumber, nodes: &[u8]) -> Result<(), AllocError>
    ensures { OnOk result (string_bytes out.new ≡ string_bytes out.old ++ flat_map (awaited_line file) nodes.now) }
{
    for node in nodes {
        push_awaited_node(out, file, *node)?;
    }
    Ok(())
}

// Writes the line of one of them.
fn push_awaited_node(out: &mut String, file: FileNumber, node: u8) -> Result<(), AllocError>
    ensures { OnOk result (string_bytes out.new ≡ string_bytes out.old ++ awaited_line file node) }
{
    let number = file.get();
    write!(out, "server {number} waits ")?;
    writeln!(out, "for the report of node {node}")
}

// Writes the lines of the incarnations that the server knows to be dead.
fn push_dead(out: &mut String, file: FileNumber, dead: &[KnownDead]) -> Result<(), AllocError>
    ensures { OnOk result (string_bytes out.new ≡ string_bytes out.old ++ flat_map (dead_line file) dead.now) }
{
    for known in dead {
        push_known(out, file, *known)?;
    }
    Ok(())
}

// Writes the line of one of them.
fn push_known(out: &mut String, file: FileNumber, known: KnownDead) -> Result<(), AllocError>
    ensures { OnOk result (string_bytes out.new ≡ string_bytes out.old ++ dead_line file known) }
{
    let number = file.get();
    write!(out, "server {number} knows dead ")?;
    push_host(out, known.node, known.incarnation)?;
    out.push_str("\n")
}
