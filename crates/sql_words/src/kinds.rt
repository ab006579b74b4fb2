//! The kinds of PostgreSQL's keywords, and of the nodes of a tree of SQL.

mod a_to_c;
mod d_to_i;
mod j_to_q;
mod nodes;
mod object_nodes;
mod query_nodes;
mod r_to_s;
mod t_to_z;
mod table_nodes;

/// The kinds of PostgreSQL's keywords, and of the nodes of a tree of SQL: constants under upstream's names.
///
/// A keyword that the engine has a kind for has that kind. The others are numbered from 200 in the order
/// of the words, nodes from 700.
pub struct SqlKind;
