// Steps that the code of several calls shares: the hits of a search, the hits' cells by number, a grant hung in the tree.
// None is an entry point. Each function here may require what its caller has tested or lends, and says so; those of index, queries and
// file_calls, which stand above, require nothing.
#![tactic(auto)]

pub mod hits;
pub mod insertion;
pub mod sorted_cells;
