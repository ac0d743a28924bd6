//! Which query the values of the words are.

ghost use Rattle.std.specs.Prelude.{◌≡◌, ◌≤◌, List, IfSome, is_some, codes, option_map};
ghost use Rattle.command_words.specs.Vocabulary.{Use, value_of, HoldsCall, names_in};
ghost use Rattle.adjust_command.specs.Queries.{query_of, query_for, HasRange};
ghost use Rattle.adjust_command.specs.Requests.{adjust_row};

use crate::query::Query;
use command_words::values::Values;

/// Whether a number of sets is given.
pub fn has_most(values: &Values<'_>) -> bool
    ensures { (uses : List Use) → HoldsCall adjust_row uses values.now → result ≡ is_some (value_of uses (codes "most")) }
{
    values.option("most").is_some()
}

/// What is asked: whether a set may be adjusted for, by one of two criteria, or the minimal sets. The back-door criterion needs a set, and a set has no
/// number of sets beside it.
#[tactic(auto, using(crate::proofs::Ranges::range_of_listing, crate::proofs::Ranges::range_of_set, crate::proofs::Ranges::range_of_back_door))]
pub fn query_from(
    set: Option<Vec<Vec<u8>>>,
    back_door: bool,
    counted: bool,
    most: u32,
) -> Option<Query>
    requires range { (1 ≤ most) × (most ≤ 10000) }
    ensures query { option_map query_of result ≡ query_for (option_map names_in set) back_door counted most }
    ensures range { IfSome result (λ q. HasRange (query_of q)) }
{
    match set {
        None if back_door => None,
        None => Some(Query::List(most)),
        Some(_) if counted => None,
        Some(names) if back_door => Some(Query::BackDoor(names)),
        Some(names) => Some(Query::Set(names)),
    }
}
