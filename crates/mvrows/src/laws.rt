//! What holds of versions, whatever was installed, pruned and settled.

ghost use Rattle.mvrows.specs.Laws.{OpeningIsShown, OpeningIsFirst, ShowsInstalled, HidesInstalled, PruningIsHidden, PruningLeavesOne, PruningKeepsNewest, SettlingIsHidden, SettlingLeavesOne, SettlingLeavesFew, SettlingKeepsNewest, StaysInOrder, StaysBelow, NewestIsOpening, NewestIsInstalled, NewestIsLast};

use std::alloc::Allocator;

/// Every snapshot shows the opening. Its keys are in order, and its versions below each commit.
pub fn opening_is_shown<A: Allocator>()
    ensures shown { OpeningIsShown A }
    ensures first { OpeningIsFirst A }
{}

/// A snapshot from a commit on shows its changes put into what it showed before.
pub fn installed_changes_show<A: Allocator>()
    ensures { ShowsInstalled A }
{}

/// A snapshot below a commit shows what it showed before.
pub fn later_changes_hide<A: Allocator>()
    ensures { HidesInstalled A }
{}

/// A snapshot from the number of a pruning on shows what it showed before; of each key one version at
/// most isn't above that number; and the number of a key's last commit is as before, or was not above
/// that number and is forgotten.
pub fn pruning_is_hidden<A: Allocator>()
    ensures shown { PruningIsHidden A }
    ensures one { PruningLeavesOne A }
    ensures newest { PruningKeepsNewest A }
{}

/// Where the keys of changes are settled, one after another, a snapshot that may still be read shows what
/// it showed before; of each of these keys one version at most isn't above the oldest, and there is at most
/// one more than there are snapshots; and the number of a key's last commit is as before, or was not above
/// the oldest and is forgotten.
pub fn settling_is_hidden<A: Allocator>()
    ensures shown { SettlingIsHidden A }
    ensures one { SettlingLeavesOne A }
    ensures few { SettlingLeavesFew A }
    ensures newest { SettlingKeepsNewest A }
{}

/// Keys stay in order, and versions below the number of a commit to come.
pub fn versions_stay_ordered<A: Allocator>()
    ensures order { StaysInOrder A }
    ensures below { StaysBelow A }
{}

/// The number of a key's last commit is that of the last commit that changes it, or 0 where only the
/// opening has the key.
pub fn newest_is_the_last_change<A: Allocator>()
    ensures opening { NewestIsOpening A }
    ensures installed { NewestIsInstalled A }
    ensures last { NewestIsLast A }
{}
