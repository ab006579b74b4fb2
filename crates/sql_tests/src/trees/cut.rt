//! Statements with their tokens alone: where they end, and which kind begins with which word, by PostgreSQL's
//! documentation, part VI, "SQL Commands".

use crate::trees::{Cases, assert_nodes};
use std::test::Fail;

/// A statement for each first word, and the node of its tokens.
#[rattlefmt::skip]
static FIRST_WORDS: [(&str, &str); 53] = [
    ("select 1;", "SELECT{select 1;}"),
    ("with a as (b) select c;", "SELECT{with a as (b) select c;}"),
    ("values (1);", "SELECT{values (1);}"),
    ("table t;", "SELECT{table t;}"),
    ("insert into t values (1);", "INSERT{insert into t values (1);}"),
    ("update t set a = 1;", "UPDATE{update t set a = 1;}"),
    ("delete from t;", "DELETE{delete from t;}"),
    ("merge into t using u on a when matched then delete;", "MERGE{merge into t using u on a when matched then delete;}"),
    ("create table t ();", "CREATE{create table t ();}"),
    ("alter table t rename to u;", "ALTER{alter table t rename to u;}"),
    ("drop table t;", "DROP{drop table t;}"),
    ("truncate t;", "TRUNCATE{truncate t;}"),
    ("comment on table t is 'a';", "COMMENT_ON{comment on table t is 'a';}"),
    ("security label on table t is 'a';", "SECURITY_LABEL{security label on table t is 'a';}"),
    ("import foreign schema s from server t into u;", "IMPORT_FOREIGN_SCHEMA{import foreign schema s from server t into u;}"),
    ("reassign owned by a to b;", "REASSIGN{reassign owned by a to b;}"),
    ("refresh materialized view v;", "REFRESH{refresh materialized view v;}"),
    ("reindex table t;", "REINDEX{reindex table t;}"),
    ("cluster t;", "CLUSTER{cluster t;}"),
    ("vacuum t;", "VACUUM{vacuum t;}"),
    ("analyze t;", "ANALYZE{analyze t;}"),
    ("analyse t;", "ANALYZE{analyse t;}"),
    ("grant a to b;", "GRANT{grant a to b;}"),
    ("revoke a from b;", "REVOKE{revoke a from b;}"),
    ("begin;", "BEGIN{begin;}"),
    ("start transaction;", "BEGIN{start transaction;}"),
    ("commit;", "COMMIT{commit;}"),
    ("end;", "COMMIT{end;}"),
    ("rollback;", "ROLLBACK{rollback;}"),
    ("abort;", "ROLLBACK{abort;}"),
    ("savepoint a;", "SAVEPOINT{savepoint a;}"),
    ("release a;", "RELEASE_SAVEPOINT{release a;}"),
    ("lock table t;", "LOCK{lock table t;}"),
    ("set a to b;", "SET{set a to b;}"),
    ("reset a;", "RESET{reset a;}"),
    ("show a;", "SHOW{show a;}"),
    ("discard all;", "DISCARD{discard all;}"),
    ("load 'a';", "LOAD{load 'a';}"),
    ("checkpoint;", "CHECKPOINT{checkpoint;}"),
    ("listen a;", "LISTEN{listen a;}"),
    ("notify a;", "NOTIFY{notify a;}"),
    ("unlisten a;", "UNLISTEN{unlisten a;}"),
    ("copy t to 'a';", "COPY{copy t to 'a';}"),
    ("call f();", "CALL{call f();}"),
    ("do 'a';", "DO{do 'a';}"),
    ("explain select 1;", "EXPLAIN{explain select 1;}"),
    ("prepare a as select 1;", "PREPARE{prepare a as select 1;}"),
    ("execute a;", "EXECUTE{execute a;}"),
    ("deallocate a;", "DEALLOCATE{deallocate a;}"),
    ("declare a cursor for select 1;", "DECLARE{declare a cursor for select 1;}"),
    ("fetch a;", "FETCH{fetch a;}"),
    ("move a;", "MOVE{move a;}"),
    ("close a;", "CLOSE{close a;}"),
];

/// Where statements end.
static ENDS: [(&str, &str); 15] = [
    ("", ""),
    (";;", "STATEMENT{;}STATEMENT{;}"),
    ("Vacuum t; foo", "VACUUM{Vacuum t;} STATEMENT{foo}"),
    (
        "comment on table t is 'a;b';",
        "COMMENT_ON{comment on table t is 'a;b';}",
    ),
    ("((table t)); (", "SELECT{((table t));} STATEMENT{(}"),
    ("\\d t;\nvacuum", "PSQL_COMMAND{\\d t;}\nVACUUM{vacuum}"),
    (
        "show a \\g b\nshow \\d\n;",
        "SHOW{show a \\g b}\nSHOW{show \\d\n;}",
    ),
    ("\\g\n\\x", "PSQL_COMMAND{\\g}\nPSQL_COMMAND{\\x}"),
    ("(\\d\n)", "STATEMENT{(\\d\n)}"),
    (
        "\\echo a \\\\ show a; show b;",
        "PSQL_COMMAND{\\echo a \\\\} SHOW{show a;} SHOW{show b;}",
    ),
    ("select (a; b", "SELECT{select (a;} STATEMENT{b}"),
    (
        "create function f() begin atomic case a end; end; c",
        "CREATE{create function f() begin atomic case a end; end;} STATEMENT{c}",
    ),
    (
        "create function f begin atomic select x.end, 1 as end from x; a; end; b",
        "CREATE{create function f begin atomic select x.end, 1 as end from x; a; end;} STATEMENT{b}",
    ),
    (
        "create procedure p(begin atomic) as 'x'; a",
        "CREATE{create procedure p(begin atomic) as 'x';} STATEMENT{a}",
    ),
    (
        "create rule r as on insert to t do (show a; show b); show c;",
        "CREATE{create rule r as on insert to t do (show a; show b);} SHOW{show c;}",
    ),
];

#[test]
fn statements_have_their_tokens(rt: HostRuntime) -> Result<(), Fail> {
    let cases: Cases = &FIRST_WORDS;
    assert_nodes(&rt, false, cases)?;
    assert_nodes(&rt, false, &ENDS)
}
