//! What pushes give, told from push to push, is found as where each push gives up to its own pop.
//!
//! In a ledger's text a push gives its tag or entry to the transactions up to the pop that takes it
//! back. The parser gives of each tag and key the latest open push alone, from one bound to the next:
//! so what is given is no more than the tags and keys that are open, however often each is pushed.
//! Nothing that is looked up shows a difference, since an earlier push of the same name would add the
//! same tag once more, or an entry behind the one that is found.
//!
//! ```text
//! pushmeta place: "Rome"
//! pushmeta place: "Milan"
//! 2024-01-01 * "Lunch"          each push by itself gives "Milan", then "Rome"; of these the
//! popmeta place:                first is found, and it is the one that is given from push to push
//! popmeta place:
//! ```
//!
//! There is nothing to run here: the functions are laws, whose contracts say what holds of the
//! definitions.
//!
//! # Cost
//!
//! None: these are laws, and nothing here runs.
#![tactic(auto)]

ghost use Rattle.push_laws.specs.Alike.{GiveTheSame, HaveTheirPops, TextsGiveTheSame};

/// Whichever way pushes are told, a transaction has the same tags, the same entry of each key, and
/// all else the same; and so has every other directive.
pub fn pushes_give_the_same()
    ensures { GiveTheSame }
{}

/// What a text says has the same tags and entries as where each of its pushes gives up to its own pop.
pub fn texts_give_the_same()
    ensures { TextsGiveTheSame }
{}

/// A push is matched (no F4) exactly where some pop takes it back.
pub fn pushes_have_their_pops()
    ensures { HaveTheirPops }
{}
