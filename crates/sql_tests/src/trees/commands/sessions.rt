//! Parameters, channels, cursors and prepared statements.

use crate::trees::assert_trees;
use std::test::Fail;

/// Texts, and what is in their files.
static CASES: [(&str, &str); 58] = [
    (
        "set search_path to shop, public",
        "SET{set PATH{NAME_REF{search_path}} to NAME_REF{shop}, NAME_REF{public}}",
    ),
    (
        "set session work_mem = '64MB'",
        "SET{set session PATH{NAME_REF{work_mem}} = LITERAL{'64MB'}}",
    ),
    (
        "set local enable_seqscan to off",
        "SET{set local PATH{NAME_REF{enable_seqscan}} to NAME_REF{off}}",
    ),
    (
        "set datestyle to default",
        "SET{set PATH{NAME_REF{datestyle}} to default}",
    ),
    (
        "set shop.rate = -0.5",
        "SET{set PATH{NAME_REF{shop}.NAME_REF{rate}} = LITERAL{-0.5}}",
    ),
    (
        "set datestyle from current",
        "SET{set PATH{NAME_REF{datestyle}} from current}",
    ),
    (
        "set time zone 'Europe/Lisbon'",
        "SET{set time zone LITERAL{'Europe/Lisbon'}}",
    ),
    ("set time zone local", "SET{set time zone local}"),
    ("set time zone -3", "SET{set time zone LITERAL{-3}}"),
    (
        "set local time zone interval '+02:00' hour to minute",
        "SET{set local time zone CAST_EXPR{interval LITERAL{'+02:00'} hour to minute}}",
    ),
    ("set names 'UTF8'", "SET{set names LITERAL{'UTF8'}}"),
    ("set schema 'shop'", "SET{set schema LITERAL{'shop'}}"),
    ("set xml option document", "SET{set xml option document}"),
    ("set role clerk", "SET{set role NAME_REF{clerk}}"),
    ("set local role none", "SET{set local role NAME_REF{none}}"),
    (
        "set session authorization 'clerk'",
        "SET{set session authorization LITERAL{'clerk'}}",
    ),
    (
        "set session authorization default",
        "SET{set session authorization default}",
    ),
    ("reset work_mem", "RESET{reset PATH{NAME_REF{work_mem}}}"),
    ("reset role", "RESET{reset PATH{NAME_REF{role}}}"),
    ("reset all", "RESET{reset all}"),
    ("reset time zone", "RESET{reset time zone}"),
    (
        "reset session authorization",
        "RESET{reset session authorization}",
    ),
    (
        "show shop.rate",
        "SHOW{show PATH{NAME_REF{shop}.NAME_REF{rate}}}",
    ),
    ("show all", "SHOW{show all}"),
    (
        "show transaction isolation level",
        "SHOW{show transaction isolation level}",
    ),
    (
        "alter system set max_wal_size = '2GB'",
        "ALTER_SYSTEM{alter system set PATH{NAME_REF{max_wal_size}} = LITERAL{'2GB'}}",
    ),
    (
        "alter system reset shop.rate",
        "ALTER_SYSTEM{alter system reset PATH{NAME_REF{shop}.NAME_REF{rate}}}",
    ),
    (
        "alter system reset all",
        "ALTER_SYSTEM{alter system reset all}",
    ),
    ("discard plans", "DISCARD{discard plans}"),
    ("discard all", "DISCARD{discard all}"),
    ("checkpoint", "CHECKPOINT{checkpoint}"),
    ("load 'auto_explain'", "LOAD{load LITERAL{'auto_explain'}}"),
    ("listen orders", "LISTEN{listen NAME_REF{orders}}"),
    ("notify orders", "NOTIFY{notify NAME_REF{orders}}"),
    (
        "notify orders, '17'",
        "NOTIFY{notify NAME_REF{orders}, LITERAL{'17'}}",
    ),
    ("unlisten orders", "UNLISTEN{unlisten NAME_REF{orders}}"),
    ("unlisten *", "UNLISTEN{unlisten *}"),
    (
        "declare late no scroll cursor with hold for select * from invoice",
        "DECLARE{declare NAME{late} no scroll cursor with hold for QUERY{SELECT{select TARGET_LIST{TARGET{*}} FROM_CLAUSE{from FROM_TABLE{PATH{NAME_REF{invoice}}}}}}}",
    ),
    (
        "declare late binary insensitive cursor for table invoice",
        "DECLARE{declare NAME{late} binary insensitive cursor for QUERY{TABLE_QUERY{table RELATION{PATH{NAME_REF{invoice}}}}}}",
    ),
    ("fetch late", "FETCH{fetch NAME_REF{late}}"),
    (
        "fetch next from late",
        "FETCH{fetch next from NAME_REF{late}}",
    ),
    ("fetch 10 late", "FETCH{fetch LITERAL{10} NAME_REF{late}}"),
    (
        "fetch forward 5 from late",
        "FETCH{fetch forward LITERAL{5} from NAME_REF{late}}",
    ),
    (
        "fetch absolute -2 in late",
        "FETCH{fetch absolute LITERAL{-2} in NAME_REF{late}}",
    ),
    (
        "fetch backward all late",
        "FETCH{fetch backward all NAME_REF{late}}",
    ),
    // A cursor that is called `next`.
    ("fetch next", "FETCH{fetch NAME_REF{next}}"),
    ("move late", "MOVE{move NAME_REF{late}}"),
    (
        "move relative 3 from late",
        "MOVE{move relative LITERAL{3} from NAME_REF{late}}",
    ),
    ("move all in late", "MOVE{move all in NAME_REF{late}}"),
    ("close late", "CLOSE{close NAME_REF{late}}"),
    ("close all", "CLOSE{close all}"),
    (
        "prepare by_owner (text, int) as select * from account where owner = $1 limit $2",
        "PREPARE{prepare NAME{by_owner} (TYPE{NAME_REF{text}}, TYPE{int}) as QUERY{SELECT{select TARGET_LIST{TARGET{*}} FROM_CLAUSE{from FROM_TABLE{PATH{NAME_REF{account}}}} WHERE_CLAUSE{where BIN_EXPR{NAME_REF{owner} = PARAM_REF{$1}}}} LIMIT_CLAUSE{limit PARAM_REF{$2}}}}",
    ),
    (
        "prepare forget as delete from account",
        "PREPARE{prepare NAME{forget} as DELETE{delete from TARGET_TABLE{RELATION{PATH{NAME_REF{account}}}}}}",
    ),
    (
        "execute by_owner('Ana', 5)",
        "EXECUTE{execute NAME_REF{by_owner}(LITERAL{'Ana'}, LITERAL{5})}",
    ),
    ("execute forget", "EXECUTE{execute NAME_REF{forget}}"),
    (
        "deallocate by_owner",
        "DEALLOCATE{deallocate NAME_REF{by_owner}}",
    ),
    (
        "deallocate prepare by_owner",
        "DEALLOCATE{deallocate prepare NAME_REF{by_owner}}",
    ),
    ("deallocate all", "DEALLOCATE{deallocate all}"),
];

#[test]
fn sessions_have_trees(rt: HostRuntime) -> Result<(), Fail> {
    assert_trees(&rt, &CASES)
}
