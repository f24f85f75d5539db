//! Orders of calls, as `judge --order` prints them, and whether given ones explain a history. A function here that
//! gives a `Result` answers `AllocError` where a request for memory was refused.
ghost use Rattle.std.specs.Prelude.{◌≡◌, None, true, All, IfOk};
ghost use Rattle.history_text.specs.rule.Judgements.{HasOneClock, IsExplained};

use crate::{FileCalls, WrittenHistory, in_all_time};
use client_history::explains::explains;
use indexmap::IndexMap;
use std::alloc::{AllocError, Global};
use texts::number::number_of;
use texts::text::{after, split_at_first, split_field};

// The calls of one line, which stand one behind the other: the index of the first one, and which of them was named
// last, from 1; 0 where none was.
#[derive(Clone, Copy)]
struct Place {
    first: usize,
    named: u64,
}

// The places of a file's calls, by their lines, before an order names one.
fn places_of(alloc: Global, file: &FileCalls) -> Result<IndexMap<u64, Place>, AllocError> {
    let mut places = IndexMap::new(alloc);
    for (first, line) in file.lines.iter().enumerate() {
        if !places.contains_key(line) {
            places.insert(*line, Place { first, named: 0 })?;
        }
    }
    Ok(places)
}

/// The words for the file's calls with these indexes, in this order. The word for a call is its line, as `7`, where
/// the call stands behind the one of that line that was named last, or is the first one; else it is as `7.2`, and says
/// which of the calls of the line it is, from 1.
pub(crate) fn words_of(
    alloc: Global,
    file: &FileCalls,
    order: &[usize],
) -> Result<Vec<String>, AllocError> {
    let mut places = places_of(alloc, file)?;
    let mut words = Vec::new(alloc);
    for index in order {
        let line = file.lines.get(*index).copied().unwrap_or(0);
        let mut word = format!(in alloc; "{line}")?;
        if let Some(place) = places.get_mut(&line) {
            let this = (index.saturating_sub(place.first) as u64).saturating_add(1);
            if this != place.named.saturating_add(1) {
                word = format!(in alloc; "{line}.{this}")?;
            }
            place.named = this;
        }
        words.push(word)?;
    }
    Ok(words)
}

/// The orders that the text writes, one for each file of the history, as indexes of calls, with the greatest number
/// for a word that is that of no call; an empty one for a file without a line. A line writes an order as
/// `order F LINE ..`. Empty lines are passed, and those that begin with `#`, `history ` and `stats `. Else the number
/// of the first line of another kind, or of a file that the history doesn't have or that had an order before.
pub(crate) fn orders_of(
    alloc: Global,
    history: &WrittenHistory,
    text: &str,
) -> Result<Result<Vec<Vec<usize>>, u64>, AllocError> {
    let mut files = IndexMap::new(alloc);
    let mut orders = Vec::new(alloc);
    for file in 0..history.files.len() {
        files.insert(history.name_of_file(file), file)?;
        orders.push(Vec::new(alloc))?;
    }
    let mut number = 0u64;
    for line in text.lines() {
        number = number.saturating_add(1);
        if is_passed(line) {
            continue;
        }
        let rest = after(line, "order ").unwrap_or("");
        let (name, words) = split_field(rest).unwrap_or((rest, ""));
        let file = files.get(&name).copied().unwrap_or(usize::MAX);
        match (history.files.get(file), orders.get_mut(file)) {
            (Some(calls), Some(order)) if line.starts_with("order ") && order.is_empty() => {
                if !take_words(alloc, calls, words, order)? {
                    return Ok(Err(number));
                }
            }
            _ => return Ok(Err(number)),
        }
    }
    Ok(Ok(orders))
}

// Whether the line says nothing of an order.
fn is_passed(line: &str) -> bool {
    line.is_empty()
        || line.starts_with('#')
        || line.starts_with("history ")
        || line.starts_with("stats ")
}

// Takes the words of an order of the file's calls, if each is as that of a call.
fn take_words(
    alloc: Global,
    file: &FileCalls,
    words: &str,
    order: &mut Vec<usize>,
) -> Result<bool, AllocError> {
    if words.is_empty() {
        return Ok(true);
    }
    let mut places = places_of(alloc, file)?;
    for word in words.split(' ') {
        let Some((line, part)) = parts_of(word) else {
            return Ok(false);
        };
        let index = next_index(file, &mut places, line, part);
        order.push(index.unwrap_or(usize::MAX))?;
    }
    Ok(true)
}

// The line that the word names, and which of its calls, if it says so.
fn parts_of(word: &str) -> Option<(u64, Option<u64>)> {
    let (line, part) = match split_at_first(word, b'.') {
        Some((line, part)) => (line, Some(number_of(part, 1, u64::MAX)?)),
        None => (word, None),
    };
    Some((number_of(line, 1, u64::MAX)?, part))
}

// The index of the call that the order names next so, if there is one.
fn next_index(
    file: &FileCalls,
    places: &mut IndexMap<u64, Place>,
    line: u64,
    part: Option<u64>,
) -> Option<usize> {
    let place = places.get_mut(&line)?;
    let part = part.unwrap_or(place.named.saturating_add(1));
    place.named = part;
    let behind = usize::try_from(part.checked_sub(1)?).ok()?;
    let index = place.first.checked_add(behind)?;
    if file.lines.get(index).copied() == Some(line) {
        Some(index)
    } else {
        None
    }
}

/// The index of the first file whose order does not explain its calls, if there is one.
pub(crate) fn first_unexplained(
    alloc: Global,
    history: &WrittenHistory,
    orders: &[Vec<usize>],
) -> Result<Option<usize>, AllocError>
    ensures { IfOk result (λ file. file ≡ None → HasOneClock history.now → All IsExplained history.now.files.items) }
{
    for file in 0..history.files.len() {
        let order: &[usize] = match orders.get(file) {
            Some(order) => order.as_slice(),
            None => &[],
        };
        if !is_explained(alloc, history, &history.files[file], order)? {
            return Ok(Some(file));
        }
    }
    Ok(None)
}

// Whether the order explains the calls of a file, each in all the time in which it may have been made.
fn is_explained(
    alloc: Global,
    history: &WrittenHistory,
    file: &FileCalls,
    order: &[usize],
) -> Result<bool, AllocError>
    ensures { IfOk result (λ yes. yes ≡ true → HasOneClock history.now → IsExplained file.now) }
{
    let wider = in_all_time(alloc, history, file)?;
    explains(alloc, wider.calls.as_slice(), order)
}
