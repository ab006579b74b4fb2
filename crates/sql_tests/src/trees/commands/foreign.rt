//! Extensions, access methods and foreign data.

use crate::trees::assert_trees;
use std::test::Fail;

/// Texts, and what is in their files.
static CASES: [(&str, &str); 19] = [
    (
        "create extension if not exists hstore with schema shop version '1.8' cascade",
        "CREATE_EXTENSION{create extension if not exists NAME{hstore} with schema NAME_REF{shop} version LITERAL{'1.8'} cascade}",
    ),
    (
        "create extension \"uuid-ossp\"",
        "CREATE_EXTENSION{create extension NAME{\"uuid-ossp\"}}",
    ),
    (
        "alter extension hstore update to '1.9'",
        "ALTER_EXTENSION{alter extension NAME_REF{hstore} update to LITERAL{'1.9'}}",
    ),
    (
        "alter extension hstore set schema public",
        "ALTER_EXTENSION{alter extension NAME_REF{hstore} SET_SCHEMA{set schema NAME_REF{public}}}",
    ),
    (
        "alter extension hstore add function fill(anyelement, hstore)",
        "ALTER_EXTENSION{alter extension NAME_REF{hstore} add OBJECT{function FUNCTION_SIGNATURE{PATH{NAME_REF{fill}}PARAM_LIST{(PARAM{TYPE{NAME_REF{anyelement}}}, PARAM{TYPE{NAME_REF{hstore}}})}}}}",
    ),
    (
        "alter extension hstore drop view shop.cheap",
        "ALTER_EXTENSION{alter extension NAME_REF{hstore} drop OBJECT{view PATH{NAME_REF{shop}.NAME_REF{cheap}}}}",
    ),
    (
        "create access method heap2 type table handler heap2_handler",
        "CREATE_ACCESS_METHOD{create access method NAME{heap2} type table handler PATH{NAME_REF{heap2_handler}}}",
    ),
    (
        "create foreign data wrapper old_files handler shop.files_handler no validator options (debug 'true', level '2')",
        "CREATE_FOREIGN_DATA_WRAPPER{create foreign data wrapper NAME{old_files} handler PATH{NAME_REF{shop}.NAME_REF{files_handler}} no validator FOREIGN_OPTIONS{options (OPTION{NAME_REF{debug} LITERAL{'true'}}, OPTION{NAME_REF{level} LITERAL{'2'}})}}",
    ),
    (
        "alter foreign data wrapper old_files validator files_validator options (add depth '1', set level '3', drop debug)",
        "ALTER_FOREIGN_DATA_WRAPPER{alter foreign data wrapper NAME_REF{old_files} validator PATH{NAME_REF{files_validator}} FOREIGN_OPTIONS{options (OPTION{add NAME_REF{depth} LITERAL{'1'}}, OPTION{set NAME_REF{level} LITERAL{'3'}}, OPTION{drop NAME_REF{debug}})}}",
    ),
    (
        "alter foreign data wrapper old_files owner to ana",
        "ALTER_FOREIGN_DATA_WRAPPER{alter foreign data wrapper NAME_REF{old_files} OWNER_TO{owner to ROLE_REF{ana}}}",
    ),
    (
        "create server if not exists branch type 'shop' version '15' foreign data wrapper postgres_fdw options (host 'lisbon')",
        "CREATE_SERVER{create server if not exists NAME{branch} type LITERAL{'shop'} version LITERAL{'15'} foreign data wrapper NAME_REF{postgres_fdw} FOREIGN_OPTIONS{options (OPTION{NAME_REF{host} LITERAL{'lisbon'}})}}",
    ),
    (
        "alter server branch version '16' options (set host 'porto')",
        "ALTER_SERVER{alter server NAME_REF{branch} version LITERAL{'16'} FOREIGN_OPTIONS{options (OPTION{set NAME_REF{host} LITERAL{'porto'}})}}",
    ),
    (
        "alter server branch rename to north",
        "ALTER_SERVER{alter server NAME_REF{branch} RENAME_TO{rename to NAME{north}}}",
    ),
    (
        "create foreign table if not exists shop.refund (id int options (column_name 'no') not null) inherits (audited) server branch options (table_name 'refunds')",
        "CREATE_FOREIGN_TABLE{create foreign table if not exists PATH{NAME_REF{shop}.NAME{refund}} (COLUMN_DEF{NAME{id} TYPE{int} FOREIGN_OPTIONS{options (OPTION{NAME_REF{column_name} LITERAL{'no'}})} NOT_NULL_CONSTRAINT{not null}}) INHERITS{inherits (PATH{NAME_REF{audited}})} server NAME_REF{branch} FOREIGN_OPTIONS{options (OPTION{NAME_REF{table_name} LITERAL{'refunds'}})}}",
    ),
    (
        "create foreign table sale_far partition of sale for values from (1) to (9) server branch",
        "CREATE_FOREIGN_TABLE{create foreign table PATH{NAME{sale_far}} partition of PATH{NAME_REF{sale}} PARTITION_BOUND{for values from (LITERAL{1}) to (LITERAL{9})} server NAME_REF{branch}}",
    ),
    (
        "alter foreign table if exists refund alter column id options (set column_name 'number'), options (fetch_size '50')",
        "ALTER_FOREIGN_TABLE{alter foreign table if exists RELATION{PATH{NAME_REF{refund}}} ALTER_COLUMN{alter column NAME_REF{id} FOREIGN_OPTIONS{options (OPTION{set NAME_REF{column_name} LITERAL{'number'}})}}, FOREIGN_OPTIONS{options (OPTION{NAME_REF{fetch_size} LITERAL{'50'}})}}",
    ),
    (
        "alter foreign table refund rename column id to number",
        "ALTER_FOREIGN_TABLE{alter foreign table RELATION{PATH{NAME_REF{refund}}} RENAME_COLUMN{rename column NAME_REF{id} to NAME{number}}}",
    ),
    (
        "create user mapping if not exists for user server branch options (user 'ana', password 'x')",
        "CREATE_USER_MAPPING{create user mapping if not exists for ROLE_REF{user} server NAME_REF{branch} FOREIGN_OPTIONS{options (OPTION{NAME_REF{user} LITERAL{'ana'}}, OPTION{NAME_REF{password} LITERAL{'x'}})}}",
    ),
    (
        "alter user mapping for ana server branch options (set password 'y')",
        "ALTER_USER_MAPPING{alter user mapping for ROLE_REF{ana} server NAME_REF{branch} FOREIGN_OPTIONS{options (OPTION{set NAME_REF{password} LITERAL{'y'}})}}",
    ),
];

#[test]
fn foreign_objects_have_trees(rt: HostRuntime) -> Result<(), Fail> {
    assert_trees(&rt, &CASES)
}
