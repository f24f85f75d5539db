//! What holds of merges, each law as the contract of a function that does nothing.
ghost use Rattle.merges.specs.rule.Merges.{RunsAreMerges};
ghost use Rattle.merges.specs.code.Merging.{WhatIsPutServes, WhatIsDoneIsAMerge, WhatIsStuckHasNone, WhatComesOtherwiseHasNone};

/// Each run that no clock contradicts is a merge of its parts.
pub fn runs_are_merges()
    ensures { RunsAreMerges }
{}

/// Whatever may be put serves: where logs have a merge, they have one that begins with what was put, and is as long.
pub fn what_is_put_serves()
    ensures { WhatIsPutServes }
{}

/// Where all of the logs is put, that is a merge of them.
pub fn what_is_done_is_a_merge()
    ensures { WhatIsDoneIsAMerge }
{}

/// Where nothing may be put, and something is left, the logs have no merge.
pub fn what_is_stuck_has_none()
    ensures { WhatIsStuckHasNone }
{}

/// Where the event of an actor's next entry makes another entry, the logs have no merge.
pub fn what_comes_otherwise_has_none()
    ensures { WhatComesOtherwiseHasNone }
{}
