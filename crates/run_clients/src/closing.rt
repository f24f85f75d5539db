//! The closes of descriptors, exits of processes and failures of nodes, with what they do to locks. A function here
//! that gives a `Result` answers `AllocError` where a request for memory was refused.
ghost use Rattle.std.specs.Prelude.{◌≡◌, ◌↔◌, ◌++◌, true, IsTrue, OnOk};
ghost use Rattle.model.specs.rule.Limits.{IsHost};
ghost use Rattle.model.specs.rule.Owners.{process_owner};
ghost use Rattle.model.specs.rule.Table.{is_running, descriptor, closed_if, exited, exited_if, gone};
ghost use Rattle.fcntl_table.specs.rule.Tables.{table_of};
ghost use Rattle.run_clients.specs.rule.Seen.{closing, exit_deeds, exit_deeds_if, gone_deeds};
ghost use Rattle.run_clients.specs.code.Times.{AreAnchored};

use crate::deed::Deed;
use crate::references::{is_open, is_running, refers};
use client_history::Act;
use fcntl_table::table::FcntlTable;
use model::{Kind, MOST_DESCRIPTORS, MOST_NODES, MOST_PROCESSES, Owner, Process};
use std::alloc::AllocError;

/// Closes the descriptor of the process, which runs, if the process has it.
pub(crate) fn close(
    table: &mut FcntlTable,
    process: Process,
    fd: u8,
    deeds: &mut Vec<Deed>,
) -> Result<(), AllocError>
    requires runs { is_running (table_of table.old) process ≡ true }
    requires anchored { AreAnchored (table_of table.old) }
    ensures table { OnOk result (table_of table.new ≡ closed_if (table_of table.old) process fd (descriptor (table_of table.old) process fd)) }
    ensures deeds { OnOk result (deeds.new.items ≡ deeds.old.items ++ closing (table_of table.old) process fd (descriptor (table_of table.old) process fd)) }
{
    let Some(reference) = refers(table, process, fd) else {
        return Ok(());
    };
    table.close(process, fd);
    deeds.push(Deed {
        file: reference.file,
        owner: process_owner(process),
        act: Act::Drops,
    })?;
    if !is_open(table, process, reference.owner.number) {
        deeds.push(Deed {
            file: reference.file,
            owner: reference.owner,
            act: Act::Drops,
        })?;
    }
    Ok(())
}

// The process as an owner of locks.
fn process_owner(process: Process) -> Owner
    ensures { result ≡ process_owner process }
{
    Owner {
        node: process.node,
        incarnation: process.incarnation,
        kind: Kind::OfProcess,
        number: process.pid,
    }
}

/// Closes each descriptor of the process, which runs, and ends the process.
pub(crate) fn exit(
    table: &mut FcntlTable,
    process: Process,
    deeds: &mut Vec<Deed>,
) -> Result<(), AllocError>
    requires runs { is_running (table_of table.old) process ≡ true }
    requires anchored { AreAnchored (table_of table.old) }
    ensures table { OnOk result (table_of table.new ≡ exited (table_of table.old) process) }
    ensures deeds { OnOk result (deeds.new.items ≡ deeds.old.items ++ exit_deeds (table_of table.old) process) }
{
    for fd in 0..MOST_DESCRIPTORS {
        close(table, process, fd, deeds)?;
    }
    table.exit(process);
    Ok(())
}

/// Ends each process of the node in that incarnation.
pub(crate) fn fail(
    table: &mut FcntlTable,
    node: u8,
    incarnation: u16,
    deeds: &mut Vec<Deed>,
) -> Result<(), AllocError>
    requires anchored { AreAnchored (table_of table.old) }
    ensures table { OnOk result (table_of table.new ≡ gone (table_of table.old) node incarnation) }
    ensures deeds { OnOk result (deeds.new.items ≡ deeds.old.items ++ gone_deeds (table_of table.old) node incarnation) }
{
    if !is_host(node, incarnation) {
        return Ok(());
    }
    for pid in 1..MOST_PROCESSES + 1 {
        let process = Process {
            node,
            incarnation,
            pid,
        };
        exit_if(table, process, deeds)?;
    }
    Ok(())
}

// Whether a node can have that number and incarnation.
fn is_host(node: u8, incarnation: u16) -> bool
    ensures { IsTrue result ↔ IsHost node incarnation }
{
    1 <= node && node <= MOST_NODES && 1 <= incarnation
}

// Ends the process, if it runs.
fn exit_if(
    table: &mut FcntlTable,
    process: Process,
    deeds: &mut Vec<Deed>,
) -> Result<(), AllocError>
    requires anchored { AreAnchored (table_of table.old) }
    ensures table { OnOk result (table_of table.new ≡ exited_if (table_of table.old) process) }
    ensures deeds { OnOk result (deeds.new.items ≡ deeds.old.items ++ exit_deeds_if (table_of table.old) process) }
{
    if is_running(table, process) {
        exit(table, process, deeds)?;
    }
    Ok(())
}
