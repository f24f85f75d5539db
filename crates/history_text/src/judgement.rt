//! The judgement of a history, as it is printed.
ghost use Rattle.std.specs.Prelude.{IfOk};
ghost use Rattle.history_text.specs.rule.Judgements.{IsJudgement, IsOrdered};

use crate::{
    JudgeError, JudgementOutcome, Judging, Page, files_judged, first_unexplained, orders_of, read,
};
use std::alloc::Global;

/// The judgement of a history: its outcome, and what is printed of it.
#[derive(Drop)]
pub struct Judgement {
    pub outcome: JudgementOutcome,
    pub text: String,
}

/// Judges the history that the text writes, which is the content of the file at this path: whether orders of the
/// calls of each file explain them. Where the clocks of machines may be off, the time of each call is widened by as
/// much at both ends.
///
/// # Errors
/// `Bad` where the text is no history, with the first bad line; `NoMemory` where a request for memory was refused.
pub fn judge_history(
    alloc: Global,
    path: &str,
    text: &str,
    judging: Judging,
) -> Result<Judgement, JudgeError>
    ensures { IfOk result (λ judgement. IsJudgement judging.allowed text.now judgement.outcome) }
{
    let history = read(alloc, path, text, judging.allowed)?;
    let mut found = Vec::new(alloc);
    let outcome = files_judged(alloc, &history, judging, &mut found)?;
    let mut page = Page::new(alloc, path, text, &history, judging)?;
    page.push_judged(outcome, found.as_slice())?;
    let text = page.end()?;
    Ok(Judgement { outcome, text })
}

/// Judges whether given orders explain the calls of each file of the history that the text writes. Another text
/// writes the orders, as `judge_history` prints them. The texts are the contents of the files at these paths.
///
/// # Errors
/// `Bad` where the text is no history, or the other writes no orders of it, with the first bad line; `NoMemory` where
/// a request for memory was refused.
pub fn judge_orders(
    alloc: Global,
    path: &str,
    text: &str,
    orders_path: &str,
    orders: &str,
    judging: Judging,
) -> Result<Judgement, JudgeError>
    ensures { IfOk result (λ judgement. IsOrdered judging.allowed text.now judgement.outcome) }
{
    let history = read(alloc, path, text, judging.allowed)?;
    let orders = match orders_of(alloc, &history, orders)? {
        Ok(orders) => orders,
        Err(line) => return Err(JudgeError::Bad(format!(in alloc;
            "{orders_path}:{line}: expected `order F LINE ..`, once for a file F of the history\n"
        )?)),
    };
    let unexplained = first_unexplained(alloc, &history, orders.as_slice())?;
    let mut page = Page::new(alloc, path, text, &history, judging)?;
    page.push_ordered(unexplained)?;
    let text = page.end()?;
    let outcome = match unexplained {
        Some(_) => JudgementOutcome::No,
        None => JudgementOutcome::Yes,
    };
    Ok(Judgement { outcome, text })
}
