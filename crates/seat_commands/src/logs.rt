//! The logs of files, and the declarations and starts that they were told of.
ghost use Rattle.std.specs.Prelude.{◌≡◌, ◌≢◌, ◌<◌, ◌↔◌, ◌⊎◌, [], Err, length, map, IfErr, IfOk, IsTrue, OnOk};
ghost use Rattle.std.specs.List.{Contains};
ghost use Rattle.replay.specs.rule.Stores.{HasText, SameFiles};
ghost use Rattle.seat_commands.specs.declared.faults.MergeFault.TheVariants.{NoLog, NoOrder};
ghost use Rattle.seat_commands.specs.rule.Merging.{AreDeclared, AreOf, HaveLogs, IsOfFiles, path_of, told_earlier};
ghost use Rattle.seat_text.specs.declared.read.ReadLog.{ReadLog as Read};
ghost use Rattle.seat_text.specs.rule.Logs.{IsList};

use crate::{MergeFault, MergeLine, faulty};
use merges::{Interval, LoggedChange};
use messages::Shape;
use replay::{Store, text_of};
use seat_text::{ReadList, ReadLog, read_list, read_log};
use std::alloc::{AllocError, Global};

/// The logs of the files of these paths, in their order.
pub(crate) fn logs_of<'a, S: Store>(
    alloc: Global,
    store: &mut S,
    paths: &[&'a str],
) -> Result<Vec<ReadLog>, MergeFault<'a>>
    ensures logs { IfOk result (λ logs. HaveLogs (S.holds store.old) (map (λ path. path.now) paths.now) logs.items) }
    ensures named { IfErr result (λ fault. IsOfFiles fault × (paths.now ≢ [])) }
    ensures files { SameFiles (S.holds store.old) (S.holds store.new) }
{
    let mut logs = Vec::new(alloc);
    for path in paths {
        let text = text_of(alloc, store, *path)?;
        match read_log(alloc, text.as_str()) {
            Ok(log) => logs.push(log)?,
            Err(error) => return Err(MergeFault::BadLog(*path, error)),
        }
    }
    Ok(logs)
}

/// The shape of the cluster of the logs, which is one for all.
pub(crate) fn shape_of<'a>(
    alloc: Global,
    paths: &[&'a str],
    logs: &[ReadLog],
) -> Result<Shape, MergeFault<'a>>
    ensures one { IfOk result (λ shape. AreOf shape logs.now) }
    ensures some { OnOk result (logs.now ≢ []) }
    ensures none { paths.now ≡ [] → result ≡ Err NoLog }
    ensures no_log { result ≡ Err NoLog → (paths.now ≡ []) ⊎ (logs.now ≡ []) }
    ensures order { IfErr result (λ fault. fault ≢ NoOrder) }
{
    let (Some(first), Some(path)) = (logs.first(), paths.first()) else {
        return Err(MergeFault::NoLog);
    };
    let shape = first.head.shape;
    for index in 0..logs.len() {
        if !same_shape(logs[index].head.shape, shape) {
            return Err(other_cluster(alloc, path_at(paths, index, *path), *path));
        }
    }
    Ok(shape)
}

// Whether both shapes are equal.
fn same_shape(shape: Shape, other: Shape) -> bool
    ensures { IsTrue result ↔ (shape ≡ other) }
{
    shape == other
}

// The file of the path is of another cluster than the other one.
fn other_cluster<'a>(alloc: Global, path: &str, other: &str) -> MergeFault<'a>
    ensures { IsOfFiles result }
{
    let text = format!(in alloc; "other cluster {path}: not that of {other}\n");
    MergeFault::Whole(faulty(text))
}

// The path of the log of this index; `other`, where it has none.
fn path_at<'a>(paths: &[&'a str], index: usize, other: &'a str) -> &'a str {
    paths.get(index).copied().unwrap_or(other)
}

/// The declarations and starts of the list that the line names, as the logs were told of them, or else those that the logs were
/// told of.
pub(crate) fn declared_in<'a, S: Store>(
    alloc: Global,
    store: &mut S,
    line: &MergeLine<'a>,
    shape: Shape,
    logs: &[ReadLog],
) -> Result<Vec<LoggedChange>, MergeFault<'a>>
    ensures declared { IfOk result (λ declared. AreDeclared (S.holds store.old) (path_of line.now.members) shape logs.now declared.items) }
    ensures named { logs.now ≢ [] → IfErr result IsOfFiles }
    ensures files { SameFiles (S.holds store.old) (S.holds store.new) }
{
    let paths = line.logs.as_slice();
    let Some(path) = line.members else {
        return told_list(alloc, paths, logs);
    };
    let list = list_of(alloc, store, path)?;
    if list.nodes != shape.nodes() || list.files != shape.files() {
        return Err(other_cluster(alloc, path, path_at(paths, 0, path)));
    }
    compare(alloc, paths, logs, path, list.changes.as_slice())?;
    Ok(list.changes)
}

// The list of the file of this path.
fn list_of<'a, S: Store>(
    alloc: Global,
    store: &mut S,
    path: &'a str,
) -> Result<ReadList, MergeFault<'a>>
    ensures list { IfOk result (λ list. HasText (S.holds store.old path.now) (λ text. IsList text list.nodes list.files list.changes.items)) }
    ensures named { IfErr result IsOfFiles }
    ensures files { SameFiles (S.holds store.old) (S.holds store.new) }
{
    let text = text_of(alloc, store, path)?;
    match read_list(alloc, text.as_str()) {
        Ok(list) => Ok(list),
        Err(error) => Err(MergeFault::BadLog(path, error)),
    }
}

// The declarations and starts that the logs were told of, of which each was told the first ones. A declaration came about before
// an actor was told of it, it isn't known how long before.
fn told_list<'a>(
    alloc: Global,
    paths: &[&'a str],
    logs: &[ReadLog],
) -> Result<Vec<LoggedChange>, MergeFault<'a>>
    ensures told { IfOk result (λ declared. (log : Read) × Contains logs.now log × (declared.items ≡ told_earlier log.changes.items)) }
    ensures named { logs.now ≢ [] → IfErr result IsOfFiles }
{
    let longest = longest_of(logs);
    let Some(log) = logs.get(longest) else {
        return Err(MergeFault::NoLog);
    };
    let path = path_at(paths, longest, "");
    compare(alloc, paths, logs, path, log.changes.as_slice())?;
    Ok(told_earlier(alloc, log.changes.as_slice())?)
}

// The index of the log that was told of most; 0 where there is no log.
fn longest_of(logs: &[ReadLog]) -> usize
    ensures { (result ≡ 0) ⊎ (result < length logs.now) }
{
    let mut longest = 0;
    let mut most = 0;
    for index in 0..logs.len() {
        let count = logs[index].changes.len();
        if most < count {
            longest = index;
            most = count;
        }
    }
    longest
}

// Finds no fault where each log was told of the first ones of the list alone, whenever they came about. The list is of the file
// of this path.
fn compare<'a>(
    alloc: Global,
    paths: &[&'a str],
    logs: &[ReadLog],
    path: &'a str,
    list: &[LoggedChange],
) -> Result<(), MergeFault<'a>>
    ensures { IfErr result IsOfFiles }
{
    for index in 0..logs.len() {
        if !is_front(logs[index].changes.as_slice(), list) {
            let log = path_at(paths, index, path);
            let text = format!(in alloc; "other declarations {log}: not those of {path}\n");
            return Err(MergeFault::Whole(faulty(text)));
        }
    }
    Ok(())
}

// Whether the first ones of the list are these.
fn is_front(changes: &[LoggedChange], list: &[LoggedChange]) -> bool {
    let mut pairs = changes.iter().zip(list.iter());
    changes.len() <= list.len() && pairs.all(|(change, other)| change.event == other.event)
}

// The same declarations and starts, each of which may have come about any time before it had ended.
fn told_earlier(alloc: Global, list: &[LoggedChange]) -> Result<Vec<LoggedChange>, AllocError>
    ensures { IfOk result (λ earlier. earlier.items ≡ told_earlier list.now) }
{
    let mut earlier = Vec::new(alloc);
    for change in list {
        let interval = Interval {
            began: 0,
            ended: change.interval.ended,
        };
        let event = change.event;
        earlier.push(LoggedChange { event, interval })?;
    }
    Ok(earlier)
}
