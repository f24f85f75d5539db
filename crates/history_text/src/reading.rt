//! The reading of a history from its text.
ghost use Rattle.std.specs.Prelude.{[], IfOk};
ghost use Rattle.history_text.specs.rule.Histories.{IsHistoryOf};
ghost use Rattle.history_text.specs.code.Readings.{HasRead};

use crate::{
    Allowed, Head, HistoryReader, JudgeError, KnownNames, LineError, NO_HEAD, WrittenHistory,
    end_files,
};
use std::alloc::Global;
use texts::text::split_at_first;

/// The history that the text writes, which is the content of the file at this path. Each line ends with a line feed, the last one too; the words of a line have one space
/// between them. Empty lines and lines that begin with `#` are passed. The first other line is `history 1 clock UNIT`, with UNIT
/// `ns`, `us` or `order`; none of the others is. They are, in any order:
///
/// - `machine NAME skew S`, before the first call;
/// - `note ..`, which is passed;
/// - `lost BEGIN END F`: between BEGIN and END the locks of F were lost, as where its server began again;
/// - `call BEGIN END OWNER OP -> REPLY`, or without `-> REPLY` where END is `-`, which says that no reply is known. OP is
///   `set F MODE START LEN`, `wait F MODE START LEN`, `unlock F START LEN`, `query F MODE START LEN`, `close F`, `close F unused` or
///   `exit`. REPLY is `done`, `again`, `again LOCK`, `free`, `blocked`, `blocked LOCK`, `interrupted` or `refused WORD`, as it goes with
///   the call; an `exit` with an end needs none. LOCK is `MODE START LEN OWNER`, with `?` for an OWNER that is not told.
///
/// BEGIN, END and S are whole numbers below 2 to the power of 63, and END is not below BEGIN; START and LEN are as in
/// `struct flock`. OWNER, F, NAME and WORD are words; where machines are declared, OWNER is one with `@` and the name of such a machine
/// behind it. An owner has one `exit` at most, and no call that begins behind its end. There are at most 1,073,725,440 owners.
///
/// A set or a wait without a reply is kept as one that is done, without an end; so are an unlock, a close and an exit. A query without
/// a reply, and calls that were interrupted or refused, are only counted. A `close F unused` is the close of a descriptor by which its
/// owner never set, waited for or gave back a lock; it is as `close F`. An exit stands in each file in which its owner has a call. A
/// line `lost` is passed.
///
/// The rules that are allowed change that so:
///
/// - `wait_drops`: a wait that is done is an unlock of its bytes and a set behind it, two calls with the time of the wait; one that is
///   interrupted is an unlock of its bytes; one without a reply is an unlock and a set, both without an end, in any order.
/// - `close_own_descriptor`: a `close F unused` is only counted.
/// - `no_query`: queries are only counted.
/// - `stale_read_denial`: a set of a read lock with `again` and a query for one with `blocked` are only counted.
/// - `lost_at`: of a line `lost BEGIN END F` each owner with a call in F, but one whose exit ends before BEGIN, has a call there that
///   drops all it has, with that BEGIN and END.
///
/// Contracts say of a history what holds of every one. That it has the calls of the text is tested.
///
/// # Errors
/// `Bad` with the first line that may not stand there, and the first word in it that may not; where all may and the first one is
/// missing, with the line after the last. `NoMemory` where a request for memory was refused before a bad line was seen.
pub(crate) fn read(
    alloc: Global,
    path: &str,
    text: &str,
    allowed: Allowed,
) -> Result<WrittenHistory, JudgeError>
    ensures { IfOk result (IsHistoryOf allowed text.now) }
{
    let mut reader = HistoryReader::new(alloc);
    let count = read_lines(alloc, &mut reader, path, text, allowed)?;
    let HistoryReader {
        head,
        known,
        mut files,
        counts,
    } = reader;
    if !head.is_read {
        let missing = LineError::Bad(0, NO_HEAD);
        return Err(missing.at(alloc, path, count.saturating_add(1), "")?);
    }
    end_files(alloc, &mut files, &known.files, &known.owners, &head.losses)?;
    let Head { machines, .. } = head;
    let KnownNames {
        owners,
        files: names,
    } = known;
    Ok(WrittenHistory {
        machines,
        owners: owners.names,
        names,
        files,
        counts,
    })
}

// Takes all lines of the text. Gives their number.
fn read_lines(
    alloc: Global,
    reader: &mut HistoryReader,
    path: &str,
    text: &str,
    allowed: Allowed,
) -> Result<u64, JudgeError>
    requires { HasRead allowed text.now text.now 0 reader.old }
    ensures { IfOk result (λ count. HasRead allowed text.now [] count reader.new) }
{
    let mut rest = text;
    let mut count = 0;
    while !rest.is_empty() {
        let number = count + 1;
        let Some((line, behind)) = split_at_first(rest, b'\n') else {
            let unfinished = LineError::Bad(0, "no line feed stands at the end of the last line");
            return Err(unfinished.at(alloc, path, number, rest)?);
        };
        match reader.take(alloc, allowed, number, line) {
            Ok(()) => {}
            Err(error) => return Err(error.at(alloc, path, number, line)?),
        }
        rest = behind;
        count = number;
    }
    Ok(count)
}
