//! The table of contextual keywords.
ghost use Rattle.std.specs.Prelude.{◌≡◌};
ghost use Rattle.squawk_keywords.specs.KeywordPairs.{pairs_of};
ghost use Rattle.sql_words.specs.SqlKinds.{contextual_kinds};

#[rattlefmt::skip]
static CONTEXTUAL: [(&str, u16); 47] = [
    ("absent", 88), ("bypassrls", 89), ("conditional", 90), ("createdb", 91), ("createrole", 92), ("empty", 93),
    ("enforced", 94), ("error", 95), ("format", 96), ("indent", 97), ("json", 98), ("json_array", 99),
    ("json_arrayagg", 100), ("json_exists", 101), ("json_object", 102), ("json_objectagg", 103), ("json_query", 104),
    ("json_scalar", 105), ("json_serialize", 106), ("json_table", 107), ("json_value", 108), ("keep", 109),
    ("keys", 110), ("login", 111), ("nested", 112), ("nobypassrls", 113), ("nocreatedb", 114), ("nocreaterole", 115),
    ("noinherit", 116), ("nologin", 117), ("noreplication", 118), ("nosuperuser", 119), ("objects", 120), ("omit", 121),
    ("path", 122), ("period", 123), ("permissive", 124), ("quotes", 125), ("replication", 126), ("restrictive", 127),
    ("scalar", 128), ("source", 129), ("string", 130), ("superuser", 131), ("target", 132), ("unconditional", 133),
    ("virtual", 134)
];

/// Words that are names to PostgreSQL 15's scanner, and that its grammar compares as texts, or that later versions have
/// as keywords: in their order, with kinds numbered from 88. A tree has none of these kinds.
pub(crate) fn contextual_keywords() -> &'static [(&'static str, u16)]
    ensures { pairs_of result.now ≡ contextual_kinds }
{
    &CONTEXTUAL
}
