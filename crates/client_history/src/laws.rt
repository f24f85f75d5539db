//! Laws of client histories, each as the contract of a function that does nothing.
ghost use Rattle.client_history.specs.code.Moves.{QuestionsChangeNothing, ChangesStandEarlier, EarlierIsExplained, PassingCallsMoveFirst, MovedIsExplained, ReleasesComeFirst};

/// A call that only asks changes nothing.
pub fn questions_change_nothing()
    ensures { QuestionsChangeNothing }
{}

/// A set that is done, an unlock and a drop may stand before what another owner does.
pub fn changes_stand_earlier()
    ensures { ChangesStandEarlier }
{}

/// An order that explains calls up to a time begins with one that explains them up to an earlier time.
pub fn earlier_is_explained()
    ensures { EarlierIsExplained }
{}

/// A call may come first, before calls that it may pass: those of other owners that let it, and those of its own
/// owner that only ask.
pub fn passing_calls_move_first()
    ensures { PassingCallsMoveFirst }
{}

/// In an order that explains calls up to a time, a call that may pass some calls in front of it may come before them.
/// None of them ended before it began, and, where it is an exit, none is of its owner.
pub fn moved_is_explained()
    ensures { MovedIsExplained }
{}

/// An unlock or a drop may come before calls of other owners, and before calls of its own owner that only ask, except
/// before denials that its owner's locks explain.
pub fn releases_come_first()
    ensures { ReleasesComeFirst }
{}
