//! The laws of the orders in which nodes and links are printed.
ghost use Rattle.image_dump.specs.Laws.{NodesHaveOneOrder, LinksHaveOneOrder};

/// Law: the nodes in order are the one list of these nodes that is sorted by number and in which
/// nodes of one number stand as before.
pub fn nodes_have_one_order()
    ensures { NodesHaveOneOrder }
{}

/// Law: the links in order are the one list of these links that is sorted by child number, parent
/// number and raw units, and in which links that tie stand as before.
pub fn links_have_one_order()
    ensures { LinksHaveOneOrder }
{}
