//! SELECT statements at random.
use std::alloc::{AllocError, Global};
use workload_texts::Random;

/// Statements.
const STATEMENTS: [&str; 8] = [
    "select a, b from t where c like 'x';\n",
    "select distinct first_name, last_name as name, 3 from people;\n",
    "select a from t where a in (1, 2, 3) and not b like 'y' or c is null;\n",
    "select (a, b, (c, d)), null as nothing from wide_table\n    where (a and b) or (c and d) or not (e or f);\n",
    "select id, created_at, updated_at, deleted_at, name, title, body from articles where id in (4711);\n",
    "-- the rest\nselect x from y;\n",
    "select 'a string' as s, 42 as n, null as z from dual where not not a and b and c and d;\n",
    "select a and b or c and d as e from t where a like b and c in (d, e, (f));\n",
];

/// A text of so many statements.
pub(crate) fn text(alloc: Global, seed: u64, count: usize) -> Result<String, AllocError> {
    let mut random = Random::new(seed);
    let mut text = String::new(alloc);
    for _ in 0..count {
        if let Some(statement) = STATEMENTS.get(random.below(STATEMENTS.len())) {
            text.push_str(statement)?;
        }
    }
    Ok(text)
}
