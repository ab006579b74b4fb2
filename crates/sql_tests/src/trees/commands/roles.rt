//! Roles and rights.

use crate::trees::assert_trees;
use std::test::Fail;

/// Texts, and what is in their files.
static CASES: [(&str, &str); 44] = [
    (
        "create role clerk login password 'x' valid until '2030-01-01'",
        "CREATE_ROLE{create role NAME{clerk} ROLE_OPTION{login} ROLE_OPTION{password LITERAL{'x'}} ROLE_OPTION{valid until LITERAL{'2030-01-01'}}}",
    ),
    (
        "create user ana with nosuperuser connection limit -1 in role clerk, reader admin boss",
        "CREATE_ROLE{create user NAME{ana} with ROLE_OPTION{nosuperuser} ROLE_OPTION{connection limit LITERAL{-1}} ROLE_OPTION{in role ROLE_REF{clerk}, ROLE_REF{reader}} ROLE_OPTION{admin ROLE_REF{boss}}}",
    ),
    (
        "create group staff role ana inherit sysid 20",
        "CREATE_ROLE{create group NAME{staff} ROLE_OPTION{role ROLE_REF{ana}} ROLE_OPTION{inherit} ROLE_OPTION{sysid LITERAL{20}}}",
    ),
    (
        "create user ben encrypted password 'x' password null user ana",
        "CREATE_ROLE{create user NAME{ben} ROLE_OPTION{encrypted password LITERAL{'x'}} ROLE_OPTION{password null} ROLE_OPTION{user ROLE_REF{ana}}}",
    ),
    (
        "alter role clerk with createdb noinherit",
        "ALTER_ROLE{alter role ROLE_REF{clerk} with ROLE_OPTION{createdb} ROLE_OPTION{noinherit}}",
    ),
    (
        "alter role clerk rename to seller",
        "ALTER_ROLE{alter role ROLE_REF{clerk} rename to NAME{seller}}",
    ),
    (
        "alter role current_user set work_mem to '8MB'",
        "ALTER_ROLE{alter role ROLE_REF{current_user} set PATH{NAME_REF{work_mem}} to LITERAL{'8MB'}}",
    ),
    (
        "alter role all in database books reset all",
        "ALTER_ROLE{alter role all in database NAME_REF{books} reset all}",
    ),
    (
        "alter user ana password 'y'",
        "ALTER_ROLE{alter user ROLE_REF{ana} ROLE_OPTION{password LITERAL{'y'}}}",
    ),
    (
        "alter user ana in database books set search_path from current",
        "ALTER_ROLE{alter user ROLE_REF{ana} in database NAME_REF{books} set PATH{NAME_REF{search_path}} from current}",
    ),
    (
        "alter group staff add user ana, ben",
        "ALTER_ROLE{alter group ROLE_REF{staff} add user ROLE_REF{ana}, ROLE_REF{ben}}",
    ),
    (
        "alter group staff drop user ben",
        "ALTER_ROLE{alter group ROLE_REF{staff} drop user ROLE_REF{ben}}",
    ),
    (
        "alter group staff rename to crew",
        "ALTER_ROLE{alter group ROLE_REF{staff} rename to NAME{crew}}",
    ),
    (
        "drop role if exists clerk, reader",
        "DROP{drop role if exists ROLE_REF{clerk}, ROLE_REF{reader}}",
    ),
    ("drop user ana", "DROP{drop user ROLE_REF{ana}}"),
    ("drop group staff", "DROP{drop group ROLE_REF{staff}}"),
    (
        "drop owned by ana, current_role cascade",
        "DROP_OWNED{drop owned by ROLE_REF{ana}, ROLE_REF{current_role} cascade}",
    ),
    (
        "reassign owned by ana, ben to session_user",
        "REASSIGN{reassign owned by ROLE_REF{ana}, ROLE_REF{ben} to ROLE_REF{session_user}}",
    ),
    (
        "grant insert, references (id) on shop.book, author to group staff with grant option granted by current_user",
        "GRANT{grant PRIVILEGE_LIST{PRIVILEGE{insert}, PRIVILEGE{references COLUMN_LIST{(NAME_REF{id})}}} on GRANT_TARGET{PATH{NAME_REF{shop}.NAME_REF{book}}, PATH{NAME_REF{author}}} to group ROLE_REF{staff} with grant option GRANTED_BY{granted by ROLE_REF{current_user}}}",
    ),
    (
        "grant all privileges on all tables in schema shop, public to clerk",
        "GRANT{grant PRIVILEGE_LIST{all privileges} on GRANT_TARGET{all tables in schema NAME_REF{shop}, NAME_REF{public}} to ROLE_REF{clerk}}",
    ),
    (
        "grant usage on sequence shop.book_id to clerk",
        "GRANT{grant PRIVILEGE_LIST{PRIVILEGE{usage}} on GRANT_TARGET{sequence PATH{NAME_REF{shop}.NAME_REF{book_id}}} to ROLE_REF{clerk}}",
    ),
    (
        "grant connect, temporary on database books to clerk",
        "GRANT{grant PRIVILEGE_LIST{PRIVILEGE{connect}, PRIVILEGE{temporary}} on GRANT_TARGET{database NAME_REF{books}} to ROLE_REF{clerk}}",
    ),
    (
        "grant usage on domain shop.isbn to public",
        "GRANT{grant PRIVILEGE_LIST{PRIVILEGE{usage}} on GRANT_TARGET{domain PATH{NAME_REF{shop}.NAME_REF{isbn}}} to ROLE_REF{public}}",
    ),
    (
        "grant usage on foreign data wrapper postgres_fdw to clerk",
        "GRANT{grant PRIVILEGE_LIST{PRIVILEGE{usage}} on GRANT_TARGET{foreign data wrapper NAME_REF{postgres_fdw}} to ROLE_REF{clerk}}",
    ),
    (
        "grant usage on foreign server branch to clerk",
        "GRANT{grant PRIVILEGE_LIST{PRIVILEGE{usage}} on GRANT_TARGET{foreign server NAME_REF{branch}} to ROLE_REF{clerk}}",
    ),
    (
        "grant execute on function tax(numeric), net to clerk",
        "GRANT{grant PRIVILEGE_LIST{PRIVILEGE{execute}} on GRANT_TARGET{function FUNCTION_SIGNATURE{PATH{NAME_REF{tax}}PARAM_LIST{(PARAM{TYPE{numeric}})}}, FUNCTION_SIGNATURE{PATH{NAME_REF{net}}}} to ROLE_REF{clerk}}",
    ),
    (
        "grant all on all routines in schema shop to clerk",
        "GRANT{grant PRIVILEGE_LIST{all} on GRANT_TARGET{all routines in schema NAME_REF{shop}} to ROLE_REF{clerk}}",
    ),
    (
        "grant usage on language plpgsql to clerk",
        "GRANT{grant PRIVILEGE_LIST{PRIVILEGE{usage}} on GRANT_TARGET{language NAME_REF{plpgsql}} to ROLE_REF{clerk}}",
    ),
    (
        "grant select on large object 12, 13 to clerk",
        "GRANT{grant PRIVILEGE_LIST{PRIVILEGE{select}} on GRANT_TARGET{large object LITERAL{12}, LITERAL{13}} to ROLE_REF{clerk}}",
    ),
    (
        "grant set, alter system on parameter work_mem, shop.rate to clerk",
        "GRANT{grant PRIVILEGE_LIST{PRIVILEGE{set}, PRIVILEGE{alter system}} on GRANT_TARGET{parameter PATH{NAME_REF{work_mem}}, PATH{NAME_REF{shop}.NAME_REF{rate}}} to ROLE_REF{clerk}}",
    ),
    (
        "grant create on schema shop to clerk",
        "GRANT{grant PRIVILEGE_LIST{PRIVILEGE{create}} on GRANT_TARGET{schema NAME_REF{shop}} to ROLE_REF{clerk}}",
    ),
    (
        "grant create on tablespace fast to clerk",
        "GRANT{grant PRIVILEGE_LIST{PRIVILEGE{create}} on GRANT_TARGET{tablespace NAME_REF{fast}} to ROLE_REF{clerk}}",
    ),
    (
        "grant usage on type money_pair to clerk",
        "GRANT{grant PRIVILEGE_LIST{PRIVILEGE{usage}} on GRANT_TARGET{type PATH{NAME_REF{money_pair}}} to ROLE_REF{clerk}}",
    ),
    (
        "grant clerk, reader to ana with admin option granted by boss",
        "GRANT{grant PRIVILEGE_LIST{PRIVILEGE{clerk}, PRIVILEGE{reader}} to ROLE_REF{ana} with MEMBER_OPTION{admin option} GRANTED_BY{granted by ROLE_REF{boss}}}",
    ),
    // PostgreSQL 16.
    (
        "grant clerk to ana with inherit false, set true",
        "GRANT{grant PRIVILEGE_LIST{PRIVILEGE{clerk}} to ROLE_REF{ana} with MEMBER_OPTION{inherit false}, MEMBER_OPTION{set true}}",
    ),
    (
        "revoke update (price) on table book from clerk cascade",
        "REVOKE{revoke PRIVILEGE_LIST{PRIVILEGE{update COLUMN_LIST{(NAME_REF{price})}}} on GRANT_TARGET{table PATH{NAME_REF{book}}} from ROLE_REF{clerk} cascade}",
    ),
    (
        "revoke grant option for all privileges on all sequences in schema shop from clerk granted by current_role restrict",
        "REVOKE{revoke grant option for PRIVILEGE_LIST{all privileges} on GRANT_TARGET{all sequences in schema NAME_REF{shop}} from ROLE_REF{clerk} GRANTED_BY{granted by ROLE_REF{current_role}} restrict}",
    ),
    (
        "revoke execute on procedure restock(in id int) from public",
        "REVOKE{revoke PRIVILEGE_LIST{PRIVILEGE{execute}} on GRANT_TARGET{procedure FUNCTION_SIGNATURE{PATH{NAME_REF{restock}}PARAM_LIST{(PARAM{in NAME{id} TYPE{int}})}}} from ROLE_REF{public}}",
    ),
    (
        "revoke clerk from ana, ben",
        "REVOKE{revoke PRIVILEGE_LIST{PRIVILEGE{clerk}} from ROLE_REF{ana}, ROLE_REF{ben}}",
    ),
    (
        "revoke admin option for clerk from ana granted by boss cascade",
        "REVOKE{revoke admin option for PRIVILEGE_LIST{PRIVILEGE{clerk}} from ROLE_REF{ana} GRANTED_BY{granted by ROLE_REF{boss}} cascade}",
    ),
    // PostgreSQL 16.
    (
        "revoke inherit option for clerk from ana",
        "REVOKE{revoke inherit option for PRIVILEGE_LIST{PRIVILEGE{clerk}} from ROLE_REF{ana}}",
    ),
    (
        "alter default privileges in schema shop grant select on tables to public",
        "ALTER_DEFAULT_PRIVILEGES{alter default privileges in schema NAME_REF{shop} grant PRIVILEGE_LIST{PRIVILEGE{select}} on tables to ROLE_REF{public}}",
    ),
    (
        "alter default privileges for role boss in schema shop revoke grant option for all on routines from clerk cascade",
        "ALTER_DEFAULT_PRIVILEGES{alter default privileges for role ROLE_REF{boss} in schema NAME_REF{shop} revoke grant option for PRIVILEGE_LIST{all} on routines from ROLE_REF{clerk} cascade}",
    ),
    // PostgreSQL 18.
    (
        "alter default privileges grant select on large objects to clerk with grant option",
        "ALTER_DEFAULT_PRIVILEGES{alter default privileges grant PRIVILEGE_LIST{PRIVILEGE{select}} on large objects to ROLE_REF{clerk} with grant option}",
    ),
];

#[test]
fn roles_have_trees(rt: HostRuntime) -> Result<(), Fail> {
    assert_trees(&rt, &CASES)
}
