//! Schemas, types, domains, collations and text search.

use crate::trees::assert_trees;
use std::test::Fail;

/// Texts, and what is in their files.
static CASES: [(&str, &str); 43] = [
    (
        "create schema if not exists shop authorization ana",
        "CREATE_SCHEMA{create schema if not exists NAME{shop} authorization ROLE_REF{ana}}",
    ),
    (
        "create schema authorization current_user",
        "CREATE_SCHEMA{create schema authorization ROLE_REF{current_user}}",
    ),
    (
        "create schema shop create table book (id int) create view ids as select id from book grant select on ids to clerk",
        "CREATE_SCHEMA{create schema NAME{shop} CREATE_TABLE{create table PATH{NAME{book}} (COLUMN_DEF{NAME{id} TYPE{int}})} CREATE_VIEW{create view PATH{NAME{ids}} as QUERY{SELECT{select TARGET_LIST{TARGET{NAME_REF{id}}} FROM_CLAUSE{from FROM_TABLE{PATH{NAME_REF{book}}}}}}} GRANT{grant PRIVILEGE_LIST{PRIVILEGE{select}} on GRANT_TARGET{PATH{NAME_REF{ids}}} to ROLE_REF{clerk}}}",
    ),
    (
        "alter schema shop rename to store",
        "ALTER_SCHEMA{alter schema NAME_REF{shop} RENAME_TO{rename to NAME{store}}}",
    ),
    (
        "alter schema shop owner to ana",
        "ALTER_SCHEMA{alter schema NAME_REF{shop} OWNER_TO{owner to ROLE_REF{ana}}}",
    ),
    (
        "create type shop.money_pair as (amount numeric, currency text collate \"C\")",
        "CREATE_TYPE{create type PATH{NAME_REF{shop}.NAME{money_pair}} as (COLUMN_DEF{NAME{amount} TYPE{numeric}}, COLUMN_DEF{NAME{currency} TYPE{NAME_REF{text}} COLLATE_CLAUSE{collate PATH{NAME_REF{\"C\"}}}})}",
    ),
    (
        "create type mood as enum ()",
        "CREATE_TYPE{create type PATH{NAME{mood}} as enum ()}",
    ),
    (
        "create type float_span as range (subtype = float8, subtype_diff = float8mi)",
        "CREATE_TYPE{create type PATH{NAME{float_span}} as range OPTION_LIST{(OPTION{NAME_REF{subtype} = TYPE{NAME_REF{float8}}}, OPTION{NAME_REF{subtype_diff} = TYPE{NAME_REF{float8mi}}})}}",
    ),
    (
        "create type isbn (input = isbn_in, output = isbn_out, internallength = 16, passedbyvalue, alignment = char, default = '0')",
        "CREATE_TYPE{create type PATH{NAME{isbn}} OPTION_LIST{(OPTION{NAME_REF{input} = TYPE{NAME_REF{isbn_in}}}, OPTION{NAME_REF{output} = TYPE{NAME_REF{isbn_out}}}, OPTION{NAME_REF{internallength} = LITERAL{16}}, OPTION{NAME_REF{passedbyvalue}}, OPTION{NAME_REF{alignment} = TYPE{char}}, OPTION{NAME_REF{default} = LITERAL{'0'}})}}",
    ),
    (
        "create type to_come",
        "CREATE_TYPE{create type PATH{NAME{to_come}}}",
    ),
    (
        "alter type shop.mood owner to ana",
        "ALTER_TYPE{alter type PATH{NAME_REF{shop}.NAME_REF{mood}} OWNER_TO{owner to ROLE_REF{ana}}}",
    ),
    (
        "alter type mood rename to feeling",
        "ALTER_TYPE{alter type PATH{NAME_REF{mood}} RENAME_TO{rename to NAME{feeling}}}",
    ),
    (
        "alter type mood set schema shop",
        "ALTER_TYPE{alter type PATH{NAME_REF{mood}} SET_SCHEMA{set schema NAME_REF{shop}}}",
    ),
    (
        "alter type money_pair rename attribute amount to sum cascade",
        "ALTER_TYPE{alter type PATH{NAME_REF{money_pair}} rename attribute NAME_REF{amount} to NAME{sum} cascade}",
    ),
    (
        "alter type money_pair add attribute day date cascade, drop attribute if exists currency, alter attribute amount set data type int restrict",
        "ALTER_TYPE{alter type PATH{NAME_REF{money_pair}} TYPE_ACTION{add attribute COLUMN_DEF{NAME{day} TYPE{NAME_REF{date}}} cascade}, TYPE_ACTION{drop attribute if exists NAME_REF{currency}}, TYPE_ACTION{alter attribute NAME_REF{amount} set data type TYPE{int} restrict}}",
    ),
    (
        "alter type mood add value if not exists 'calm' before 'glad'",
        "ALTER_TYPE{alter type PATH{NAME_REF{mood}} add value if not exists LITERAL{'calm'} before LITERAL{'glad'}}",
    ),
    (
        "alter type mood rename value 'calm' to 'quiet'",
        "ALTER_TYPE{alter type PATH{NAME_REF{mood}} rename value LITERAL{'calm'} to LITERAL{'quiet'}}",
    ),
    (
        "alter type isbn set (storage = plain)",
        "ALTER_TYPE{alter type PATH{NAME_REF{isbn}} set OPTION_LIST{(OPTION{NAME_REF{storage} = TYPE{NAME_REF{plain}}})}}",
    ),
    (
        "create domain shop.isbn text collate \"C\" default '' constraint is_there not null check (value ~ '^97[89]')",
        "CREATE_DOMAIN{create domain PATH{NAME_REF{shop}.NAME{isbn}} TYPE{NAME_REF{text}} COLLATE_CLAUSE{collate PATH{NAME_REF{\"C\"}}} DEFAULT_CONSTRAINT{default LITERAL{''}} NOT_NULL_CONSTRAINT{CONSTRAINT_NAME{constraint NAME{is_there}} not null} CHECK_CONSTRAINT{check (BIN_EXPR{NAME_REF{value} CUSTOM_OP{~} LITERAL{'^97[89]'}})}}",
    ),
    (
        "alter domain shop.isbn set default '0'",
        "ALTER_DOMAIN{alter domain PATH{NAME_REF{shop}.NAME_REF{isbn}} set default LITERAL{'0'}}",
    ),
    (
        "alter domain isbn drop default",
        "ALTER_DOMAIN{alter domain PATH{NAME_REF{isbn}} drop default}",
    ),
    (
        "alter domain isbn set not null",
        "ALTER_DOMAIN{alter domain PATH{NAME_REF{isbn}} set not null}",
    ),
    (
        "alter domain isbn add constraint is_long check (value > '1') not valid",
        "ALTER_DOMAIN{alter domain PATH{NAME_REF{isbn}} add CHECK_CONSTRAINT{CONSTRAINT_NAME{constraint NAME{is_long}} check (BIN_EXPR{NAME_REF{value} > LITERAL{'1'}}) NOT_VALID{not valid}}}",
    ),
    (
        "alter domain isbn drop constraint if exists is_long cascade",
        "ALTER_DOMAIN{alter domain PATH{NAME_REF{isbn}} drop constraint if exists NAME_REF{is_long} cascade}",
    ),
    (
        "alter domain isbn rename constraint is_long to is_enough",
        "ALTER_DOMAIN{alter domain PATH{NAME_REF{isbn}} RENAME_CONSTRAINT{rename constraint NAME_REF{is_long} to NAME{is_enough}}}",
    ),
    (
        "alter domain isbn validate constraint is_long",
        "ALTER_DOMAIN{alter domain PATH{NAME_REF{isbn}} validate constraint NAME_REF{is_long}}",
    ),
    (
        "alter domain isbn owner to ana",
        "ALTER_DOMAIN{alter domain PATH{NAME_REF{isbn}} OWNER_TO{owner to ROLE_REF{ana}}}",
    ),
    (
        "alter domain isbn rename to ean",
        "ALTER_DOMAIN{alter domain PATH{NAME_REF{isbn}} RENAME_TO{rename to NAME{ean}}}",
    ),
    (
        "create collation if not exists shop.natural_order (provider = icu, locale = 'pt-PT', deterministic = false)",
        "CREATE_COLLATION{create collation if not exists PATH{NAME_REF{shop}.NAME{natural_order}} OPTION_LIST{(OPTION{NAME_REF{provider} = TYPE{NAME_REF{icu}}}, OPTION{NAME_REF{locale} = LITERAL{'pt-PT'}}, OPTION{NAME_REF{deterministic} = false})}}",
    ),
    (
        "create collation portuguese from pg_catalog.\"pt_PT\"",
        "CREATE_COLLATION{create collation PATH{NAME{portuguese}} from PATH{NAME_REF{pg_catalog}.NAME_REF{\"pt_PT\"}}}",
    ),
    (
        "alter collation shop.natural_order refresh version",
        "ALTER_COLLATION{alter collation PATH{NAME_REF{shop}.NAME_REF{natural_order}} refresh version}",
    ),
    (
        "alter collation natural_order rename to by_nature",
        "ALTER_COLLATION{alter collation PATH{NAME_REF{natural_order}} RENAME_TO{rename to NAME{by_nature}}}",
    ),
    (
        "create text search configuration shop.titles (copy = pg_catalog.english)",
        "CREATE_TEXT_SEARCH{create text search configuration PATH{NAME_REF{shop}.NAME{titles}} OPTION_LIST{(OPTION{NAME_REF{copy} = TYPE{NAME_REF{pg_catalog}.NAME_REF{english}}})}}",
    ),
    (
        "create text search dictionary nouns (template = snowball, language = portuguese)",
        "CREATE_TEXT_SEARCH{create text search dictionary PATH{NAME{nouns}} OPTION_LIST{(OPTION{NAME_REF{template} = TYPE{NAME_REF{snowball}}}, OPTION{NAME_REF{language} = TYPE{NAME_REF{portuguese}}})}}",
    ),
    (
        "create text search parser words (start = words_start)",
        "CREATE_TEXT_SEARCH{create text search parser PATH{NAME{words}} OPTION_LIST{(OPTION{NAME_REF{start} = TYPE{NAME_REF{words_start}}})}}",
    ),
    (
        "create text search template stems (lexize = stems_lexize)",
        "CREATE_TEXT_SEARCH{create text search template PATH{NAME{stems}} OPTION_LIST{(OPTION{NAME_REF{lexize} = TYPE{NAME_REF{stems_lexize}}})}}",
    ),
    (
        "alter text search configuration titles add mapping for asciiword, word with nouns, shop.verbs",
        "ALTER_TEXT_SEARCH{alter text search configuration PATH{NAME_REF{titles}} add mapping for NAME_REF{asciiword}, NAME_REF{word} with PATH{NAME_REF{nouns}}, PATH{NAME_REF{shop}.NAME_REF{verbs}}}",
    ),
    (
        "alter text search configuration titles alter mapping for word replace nouns with verbs",
        "ALTER_TEXT_SEARCH{alter text search configuration PATH{NAME_REF{titles}} alter mapping for NAME_REF{word} replace PATH{NAME_REF{nouns}} with PATH{NAME_REF{verbs}}}",
    ),
    (
        "alter text search configuration titles alter mapping replace nouns with verbs",
        "ALTER_TEXT_SEARCH{alter text search configuration PATH{NAME_REF{titles}} alter mapping replace PATH{NAME_REF{nouns}} with PATH{NAME_REF{verbs}}}",
    ),
    (
        "alter text search configuration titles drop mapping if exists for email",
        "ALTER_TEXT_SEARCH{alter text search configuration PATH{NAME_REF{titles}} drop mapping if exists for NAME_REF{email}}",
    ),
    (
        "alter text search dictionary nouns (stopwords = portuguese, language)",
        "ALTER_TEXT_SEARCH{alter text search dictionary PATH{NAME_REF{nouns}} OPTION_LIST{(OPTION{NAME_REF{stopwords} = TYPE{NAME_REF{portuguese}}}, OPTION{NAME_REF{language}})}}",
    ),
    (
        "alter text search parser words set schema shop",
        "ALTER_TEXT_SEARCH{alter text search parser PATH{NAME_REF{words}} SET_SCHEMA{set schema NAME_REF{shop}}}",
    ),
    (
        "alter text search template stems rename to roots",
        "ALTER_TEXT_SEARCH{alter text search template PATH{NAME_REF{stems}} RENAME_TO{rename to NAME{roots}}}",
    ),
];

#[test]
fn objects_have_trees(rt: HostRuntime) -> Result<(), Fail> {
    assert_trees(&rt, &CASES)
}
