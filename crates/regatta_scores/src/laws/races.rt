//! Laws of single races.
ghost use Rattle.regatta_scores.specs.RaceLaws.{RacesAreApart, EnterKeepsRaces};
ghost use Rattle.regatta_scores.specs.RaceLaws.{CodedBoatsLeaveTheOrder, TiesShareEqually};
ghost use Rattle.regatta_scores.specs.RaceLaws.{OrdersHaveNoEmptyGroup, PlacesAreSharedOut};

/// A command of one race changes nothing in another race: its finishing order, codes, penalties and
/// redress, who finished, its DNF score and its points before redress stay. Enter changes no
/// finishing order, code, penalty or redress.
pub fn races_are_apart()
    ensures others { RacesAreApart }
    ensures enter { EnterKeepsRaces }
{}

/// No group of a finishing order is empty, whatever the rules and the journal (RRS A3, A7).
pub fn orders_have_no_empty_group()
    ensures { OrdersHaveNoEmptyGroup }
{}

/// When a boat that finished is given a code, she is scored by it. The boats behind her move up one
/// place, and those tied with her share with one fewer. Every other status, place and tie stays
/// (RRS A6.1).
pub fn coded_boats_leave_the_order()
    ensures { CodedBoatsLeaveTheOrder }
{}

/// Boats tied for a place share equally the points of the places that they take up (RRS A7). So if
/// n boats finished, the points for finishing places in a race add up to those of places 1 to n
/// (RRS A4).
pub fn places_are_shared_out()
    ensures ties { TiesShareEqually }
    ensures places { PlacesAreSharedOut }
{}
