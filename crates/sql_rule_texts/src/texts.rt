//! The rules, by area.

mod expressions;
mod functions;
mod names;
mod objects;
mod queries;
mod relations;
mod roles;
mod sessions;
mod statements;
mod tables;
mod types;
mod words;

use self::expressions::EXPRESSIONS;
use self::functions::FUNCTIONS;
use self::names::NAMES;
use self::objects::OBJECTS;
use self::queries::QUERIES;
use self::relations::RELATIONS;
use self::roles::ROLES;
use self::sessions::SESSIONS;
use self::statements::STATEMENTS;
use self::tables::TABLES;
use self::types::TYPES;
use self::words::WORDS;
use std::alloc::{AllocError, Global};

/// The areas. The classes of words come first; the first rule is that of a statement.
const AREAS: [&str; 12] = [
    WORDS,
    STATEMENTS,
    NAMES,
    TYPES,
    EXPRESSIONS,
    QUERIES,
    TABLES,
    RELATIONS,
    FUNCTIONS,
    OBJECTS,
    ROLES,
    SESSIONS,
];

/// All rules, as `Rules::read` of `rule_tables` takes them.
pub fn text(alloc: Global) -> Result<String, AllocError> {
    let mut text = String::new(alloc);
    for area in AREAS {
        text.push_str(area)?;
    }
    Ok(text)
}
