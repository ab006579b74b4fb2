//! Triggers, event triggers, rules and policies.

use crate::trees::assert_trees;
use std::test::Fail;

/// Texts, and what is in their files.
static CASES: [(&str, &str); 17] = [
    (
        "create or replace trigger stamp after update of price, title or delete on shop.book referencing old table as before new table now for each statement when (old.price is distinct from new.price) execute function shop.stamp(1, 2.5, 'x', price)",
        "CREATE_TRIGGER{create or replace trigger NAME{stamp} after TRIGGER_EVENT{update of NAME_REF{price}, NAME_REF{title}} or TRIGGER_EVENT{delete} on PATH{NAME_REF{shop}.NAME_REF{book}} REFERENCING_CLAUSE{referencing TRANSITION_TABLE{old table as NAME{before}} TRANSITION_TABLE{new table NAME{now}}} for each statement WHEN_CLAUSE{when (IS_EXPR{FIELD_EXPR{NAME_REF{old}.NAME_REF{price}} is distinct from FIELD_EXPR{NAME_REF{new}.NAME_REF{price}}})} execute function PATH{NAME_REF{shop}.NAME_REF{stamp}}ARG_LIST{(LITERAL{1}, LITERAL{2.5}, LITERAL{'x'}, NAME_REF{price})}}",
    ),
    (
        "create trigger into_view instead of insert on cheap for each row execute procedure put()",
        "CREATE_TRIGGER{create trigger NAME{into_view} instead of TRIGGER_EVENT{insert} on PATH{NAME_REF{cheap}} for each row execute procedure PATH{NAME_REF{put}}ARG_LIST{()}}",
    ),
    (
        "create trigger kept before truncate on book execute function refuse()",
        "CREATE_TRIGGER{create trigger NAME{kept} before TRIGGER_EVENT{truncate} on PATH{NAME_REF{book}} execute function PATH{NAME_REF{refuse}}ARG_LIST{()}}",
    ),
    (
        "create constraint trigger balance after insert on book from shop.stock deferrable initially deferred for each row execute function balance()",
        "CREATE_TRIGGER{create constraint trigger NAME{balance} after TRIGGER_EVENT{insert} on PATH{NAME_REF{book}} from PATH{NAME_REF{shop}.NAME_REF{stock}} DEFERRABLE{deferrable} INITIALLY_DEFERRED{initially deferred} for each row execute function PATH{NAME_REF{balance}}ARG_LIST{()}}",
    ),
    (
        "alter trigger stamp on shop.book rename to sign",
        "ALTER_TRIGGER{alter trigger NAME_REF{stamp} on PATH{NAME_REF{shop}.NAME_REF{book}} RENAME_TO{rename to NAME{sign}}}",
    ),
    (
        "alter trigger stamp on book no depends on extension hstore",
        "ALTER_TRIGGER{alter trigger NAME_REF{stamp} on PATH{NAME_REF{book}} DEPENDS_ON{no depends on extension NAME_REF{hstore}}}",
    ),
    (
        "create event trigger no_drops on sql_drop when tag in ('DROP TABLE', 'DROP VIEW') and tag in ('x') execute function refuse()",
        "CREATE_EVENT_TRIGGER{create event trigger NAME{no_drops} on NAME_REF{sql_drop} when EVENT_FILTER{NAME_REF{tag} in (LITERAL{'DROP TABLE'}, LITERAL{'DROP VIEW'})} and EVENT_FILTER{NAME_REF{tag} in (LITERAL{'x'})} execute function PATH{NAME_REF{refuse}}()}",
    ),
    (
        "alter event trigger no_drops disable",
        "ALTER_EVENT_TRIGGER{alter event trigger NAME_REF{no_drops} disable}",
    ),
    (
        "alter event trigger no_drops enable replica",
        "ALTER_EVENT_TRIGGER{alter event trigger NAME_REF{no_drops} enable replica}",
    ),
    (
        "alter event trigger no_drops rename to keep",
        "ALTER_EVENT_TRIGGER{alter event trigger NAME_REF{no_drops} RENAME_TO{rename to NAME{keep}}}",
    ),
    (
        "create or replace rule no_insert as on insert to shop.book where new.price < 0 do instead nothing",
        "CREATE_RULE{create or replace rule NAME{no_insert} as on insert to PATH{NAME_REF{shop}.NAME_REF{book}} WHERE_CLAUSE{where BIN_EXPR{FIELD_EXPR{NAME_REF{new}.NAME_REF{price}} < LITERAL{0}}} do instead nothing}",
    ),
    (
        "create rule told as on update to book do also (insert into log default values; notify orders)",
        "CREATE_RULE{create rule NAME{told} as on update to PATH{NAME_REF{book}} do also (INSERT{insert into PATH{NAME_REF{log}} default values}; NOTIFY{notify NAME_REF{orders}})}",
    ),
    (
        "create rule \"_RETURN\" as on select to cheap do instead table book",
        "CREATE_RULE{create rule NAME{\"_RETURN\"} as on select to PATH{NAME_REF{cheap}} do instead QUERY{TABLE_QUERY{table RELATION{PATH{NAME_REF{book}}}}}}",
    ),
    (
        "alter rule told on shop.book rename to noted",
        "ALTER_RULE{alter rule NAME_REF{told} on PATH{NAME_REF{shop}.NAME_REF{book}} RENAME_TO{rename to NAME{noted}}}",
    ),
    (
        "create policy own_rows on shop.book as restrictive for all to clerk, current_user using (owner = current_user) with check (price > 0)",
        "CREATE_POLICY{create policy NAME{own_rows} on PATH{NAME_REF{shop}.NAME_REF{book}} as restrictive for all to ROLE_REF{clerk}, ROLE_REF{current_user} POLICY_USING{using (BIN_EXPR{NAME_REF{owner} = CALL_EXPR{current_user}})} POLICY_CHECK{with check (BIN_EXPR{NAME_REF{price} > LITERAL{0}})}}",
    ),
    (
        "alter policy own_rows on book to public with check (true)",
        "ALTER_POLICY{alter policy NAME_REF{own_rows} on PATH{NAME_REF{book}} to ROLE_REF{public} POLICY_CHECK{with check (LITERAL{true})}}",
    ),
    (
        "alter policy if exists own_rows on book rename to mine",
        "ALTER_POLICY{alter policy if exists NAME_REF{own_rows} on PATH{NAME_REF{book}} RENAME_TO{rename to NAME{mine}}}",
    ),
];

#[test]
fn triggers_have_trees(rt: HostRuntime) -> Result<(), Fail> {
    assert_trees(&rt, &CASES)
}
