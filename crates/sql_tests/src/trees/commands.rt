//! A tree of each command of PostgreSQL's documentation, part VI, "SQL Commands", by area. Clauses of later versions
//! than 15 have the version's number.

mod alter_table;
mod comments;
mod databases;
mod drops;
mod errors;
mod expressions;
mod foreign;
mod functions;
mod json_calls;
mod maintenance;
mod objects;
mod psql;
mod queries;
mod relations;
mod roles;
mod sessions;
mod tables;
mod transactions;
mod triggers;
