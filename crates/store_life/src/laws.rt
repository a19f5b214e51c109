//! Laws of the definitions, each the contract of a function that does nothing.

ghost use Rattle.store_life.specs.Calls.{ImportIsACall, CheckIsACall, QueryIsACall};
ghost use Rattle.store_life.specs.Calls.{ListingIsACall, UnchangedIsACall};
ghost use Rattle.store_life.specs.Calls.{MergeBeginIsACall, MergeStepIsACall};
ghost use Rattle.store_life.specs.Calls.{MergePublishIsACall, MergeAbandonIsACall, TrimIsACall};
ghost use Rattle.store_life.specs.Laws.{EachLifeBegins, EachOpeningIsOfALife};
ghost use Rattle.store_life.specs.Laws.{ClosedStoreIsOpened, LivesCompose, EachCrashIsOfALife};
ghost use Rattle.store_life.specs.Laws.{EachLifeKeepsItsImports, KeptAreAcknowledged};
ghost use Rattle.store_life.specs.Laws.{EachLifeIsRepresented, EachLifeIsOpened};
ghost use Rattle.store_life.specs.Laws.{EachLifeKeepsItsPins, OneImport, WhatIsHeldIsAHistory};

use disk_model::Disk;

/// What `Store::import` ensures makes it a call of a life.
pub fn import_is_a_call<D: Disk>()
    // promise: a_confirmed_import_survives
    ensures { ImportIsACall D D.view }
{}

/// What `Store::check` ensures makes it a call that leaves the history unchanged.
pub fn check_is_a_call<D: Disk>()
    // promise: a_check_foretells_the_import, a_confirmed_import_survives
    ensures { CheckIsACall D D.view }
{}

/// So does what `Store::contradictions` ensures: it leaves the history unchanged.
pub fn listing_is_a_call<D: Disk>()
    // promise: a_confirmed_import_survives
    ensures { ListingIsACall D D.view }
{}

/// So does what each question ensures that reads rows: it leaves the history unchanged.
pub fn query_is_a_call<T, D: Disk>()
    // promise: a_confirmed_import_survives
    ensures { QueryIsACall T D D.view }
{}

/// So does what each question ensures that reads no rows; and every call that only borrows the
/// store leaves the history unchanged, too.
pub fn unchanged_is_a_call<D: Disk>()
    // promise: a_confirmed_import_survives
    ensures { UnchangedIsACall D D.view }
{}

/// What `Store::merge_begin` ensures makes it such a call.
pub fn merge_begin_is_a_call<D: Disk>()
    // promise: a_confirmed_import_survives
    ensures { MergeBeginIsACall D D.view }
{}

/// What `Store::merge_step` ensures makes it such a call.
pub fn merge_step_is_a_call<D: Disk>()
    // promise: a_confirmed_import_survives
    ensures { MergeStepIsACall D D.view }
{}

/// What `Store::merge_publish` ensures makes it such a call.
pub fn merge_publish_is_a_call<D: Disk>()
    // promise: a_confirmed_import_survives
    ensures { MergePublishIsACall D D.view }
{}

/// What `Store::merge_abandon` ensures makes it such a call.
pub fn merge_abandon_is_a_call<D: Disk>()
    // promise: a_confirmed_import_survives
    ensures { MergeAbandonIsACall D D.view }
{}

/// What `Store::trim` ensures makes it such a call.
pub fn trim_is_a_call<D: Disk>()
    // promise: a_confirmed_import_survives
    ensures { TrimIsACall D D.view }
{}

/// A life may begin with a store that `Store::create` made or `Store::open` opened.
pub fn each_life_begins<D: Disk>()
    // promise: a_confirmed_import_survives
    ensures { EachLifeBegins D D.view }
{}

/// Each opening by `Store::open` is one of the openings that the definition of a life has.
pub fn each_opening_is_of_a_life<D: Disk>()
    // promise: a_confirmed_import_survives
    ensures { EachOpeningIsOfALife D D.view }
{}

/// A store that was closed by `Store::close` is opened with what it held.
pub fn closed_store_is_opened<D: Disk>()
    // promise: a_store_is_opened_as_it_was_left
    ensures { ClosedStoreIsOpened D D.view }
{}

/// A run of events followed by another is one run of all these events.
pub fn lives_compose<D: Disk>()
    // promise: a_confirmed_import_survives
    ensures { LivesCompose D D.view }
{}

/// A crash while calls are made comes between two of them or interrupts one.
pub fn each_crash_is_of_a_life<D: Disk>()
    // promise: a_confirmed_import_survives
    ensures { EachCrashIsOfALife D D.view }
{}

/// What an acknowledged store holds is a history, to which the laws of histories apply.
pub fn what_is_held_is_a_history<D: Disk>()
    // promise: a_confirmed_import_survives
    ensures { WhatIsHeldIsAHistory D D.view }
{}

/// Over any number of calls, crashes and openings no acknowledged import is lost, and of the others
/// at most one for each crash is kept, completely.
pub fn each_life_keeps_its_imports<D: Disk>()
    // promise: a_confirmed_import_survives
    ensures { EachLifeKeepsItsImports D D.view }
{}

/// Each release whose import was acknowledged is among the releases that are kept, and of others
/// there is at most one for each crash.
pub fn kept_are_acknowledged()
    // promise: a_confirmed_import_survives
    ensures { KeptAreAcknowledged }
{}

/// Every image that a crash may leave represents the history with the releases that are kept, after
/// any number of calls, crashes and openings.
pub fn each_life_is_represented<D: Disk>()
    // promise: a_confirmed_import_survives
    ensures { EachLifeIsRepresented D D.view }
{}

/// So the image is opened with that history.
pub fn each_life_is_opened<D: Disk>()
    // promise: a_confirmed_import_survives
    ensures { EachLifeIsOpened D D.view }
{}

/// A pin shows the same over any number of calls, crashes and openings.
pub fn each_life_keeps_its_pins<D: Disk>()
    // promise: a_pin_shows_the_same_for_ever
    ensures { EachLifeKeepsItsPins D D.view }
{}

/// An import of a release has the same result in two stores that are equal apart from their disks
/// and caches, unless memory runs out or the disk fails.
pub fn one_import<D: Disk>()
    // promise: a_check_foretells_the_import, each_line_gets_one_reply
    ensures { OneImport D }
{}
