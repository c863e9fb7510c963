//! What follows from the definitions of `model`: lemmas, in `proofs/`, and the laws, in `specs/`, each named by a function's contract.
#![tactic(auto)]

ghost use Rattle.laws.specs.Lists.{HistoryLaws, InsertionLaws, RouteLaws};
ghost use Rattle.laws.specs.Matches.{MatchLaws};
ghost use Rattle.laws.specs.Messages.{BlockLaws, FollowLaws, LoadLaw, PrefixLaws, SheetLaws};
ghost use Rattle.laws.specs.Orders.{OrderLaws};
ghost use Rattle.laws.specs.Places.{PlaceLaws};
ghost use Rattle.laws.specs.Required.{RequiredLaws};
ghost use Rattle.laws.specs.Trees.{ImageLaws, PlacementLaws, TreeLaws};

/// Prefixes have a strict total order, and by address, then shorter first is the order of their rows of bits.
pub fn order_is_total()
    ensures { OrderLaws }
{
    // Nothing is run.
}

/// An ascending list of routes is a set of them, at most one hop to a prefix; insert and delete change one prefix.
pub fn list_is_a_set()
    ensures { RouteLaws }
{
    // Nothing is run.
}

/// The order in which a set of routes is inserted does not matter.
pub fn any_order_of_inserts()
    ensures { InsertionLaws }
{
    // Nothing is run.
}

/// Whatever calls were made, the list that they lead to has a plan, ascending routes in range, and nodes enough.
pub fn every_list_is_in_order()
    ensures { HistoryLaws }
{
    // Nothing is run.
}

/// A lookup answers the longest match, and a path count from 1 to the number of strides.
pub fn lookup_is_longest_match()
    ensures { MatchLaws }
{
    // Nothing is run.
}

/// Every prefix lies at one stride, behind one child index for each stride before it.
pub fn prefix_lies_in_one_place()
    ensures { PlaceLaws }
{
    // Nothing is run.
}

/// Which nodes a set of routes requires, and how their number changes with the routes.
pub fn required_nodes()
    ensures { RequiredLaws }
{
    // Nothing is run.
}

/// Prefixes read back from bytes, and what reads is what is written.
pub fn prefixes_read_back()
    ensures { PrefixLaws }
{
    // Nothing is run.
}

/// Sheets read back, and a sheet that reads is what is written of it.
pub fn sheets_read_back()
    ensures { SheetLaws }
{
    // Nothing is run.
}

/// Blocks read back, as a delete of each withdrawn prefix and then an insert of each announced route.
pub fn blocks_read_back()
    ensures { BlockLaws }
{
    // Nothing is run.
}

/// To load a sheet is to open and to insert its routes in order.
pub fn load_is_open_and_insert()
    ensures { LoadLaw }
{
    // Nothing is run.
}

/// Every update of a block is counted, and `follow` reads all of its input and writes a sheet that fits.
pub fn follow_reads_all()
    ensures { FollowLaws }
{
    // Nothing is run.
}

/// On any nodes, the walk finds the longest match of the routes that the tree spells.
pub fn walk_finds_what_is_spelled()
    ensures { TreeLaws }
{
    // Nothing is run.
}

/// The image of a sound placement spells its routes, in exactly the nodes that they require, and the walk answers as the plain list.
pub fn image_spells_its_routes()
    ensures { ImageLaws }
{
    // Nothing is run.
}

/// Opening, inserts, deletes and loads leave a sound placement.
pub fn placements_stay_sound()
    ensures { PlacementLaws }
{
    // Nothing is run.
}
