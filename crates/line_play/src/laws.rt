//! A law of all answers together.
ghost use Rattle.line_play.specs.rule.Answers.{AnswersArePlayed};

/// Whatever lines are answered, those that aren't skipped are a script. Their answers have the entries to which it comes, each
/// once and in order, and these entries are a run of the cluster that begins.
pub fn answers_are_a_run()
    ensures { AnswersArePlayed }
{}
