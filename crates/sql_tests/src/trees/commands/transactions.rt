//! Transactions, locks and constraints' times.

use crate::trees::assert_trees;
use std::test::Fail;

/// Texts, and what is in their files.
static CASES: [(&str, &str); 26] = [
    ("abort;", "ROLLBACK{abort;}"),
    ("abort work and chain", "ROLLBACK{abort work and chain}"),
    ("begin;", "BEGIN{begin;}"),
    (
        "begin work isolation level serializable, read only deferrable",
        "BEGIN{begin work TRANSACTION_MODE{isolation level serializable}, TRANSACTION_MODE{read only} TRANSACTION_MODE{deferrable}}",
    ),
    (
        "start transaction isolation level read uncommitted, not deferrable",
        "BEGIN{start transaction TRANSACTION_MODE{isolation level read uncommitted}, TRANSACTION_MODE{not deferrable}}",
    ),
    ("commit;", "COMMIT{commit;}"),
    (
        "commit work and no chain",
        "COMMIT{commit work and no chain}",
    ),
    (
        "end transaction and chain",
        "COMMIT{end transaction and chain}",
    ),
    ("rollback;", "ROLLBACK{rollback;}"),
    (
        "rollback transaction and no chain",
        "ROLLBACK{rollback transaction and no chain}",
    ),
    (
        "prepare transaction 'order 7'",
        "PREPARE_TRANSACTION{prepare transaction LITERAL{'order 7'}}",
    ),
    (
        "commit prepared 'order 7'",
        "COMMIT_PREPARED{commit prepared LITERAL{'order 7'}}",
    ),
    (
        "rollback prepared 'order 7'",
        "ROLLBACK_PREPARED{rollback prepared LITERAL{'order 7'}}",
    ),
    (
        "savepoint before_tax",
        "SAVEPOINT{savepoint NAME{before_tax}}",
    ),
    (
        "rollback work to savepoint before_tax",
        "ROLLBACK{rollback work to savepoint NAME_REF{before_tax}}",
    ),
    (
        "rollback to before_tax",
        "ROLLBACK{rollback to NAME_REF{before_tax}}",
    ),
    (
        "release savepoint before_tax",
        "RELEASE_SAVEPOINT{release savepoint NAME_REF{before_tax}}",
    ),
    // A savepoint that is called `savepoint`.
    (
        "release savepoint",
        "RELEASE_SAVEPOINT{release NAME_REF{savepoint}}",
    ),
    (
        "lock table invoice in row exclusive mode",
        "LOCK{lock table RELATION{PATH{NAME_REF{invoice}}} in row exclusive mode}",
    ),
    (
        "lock only shop.invoice, account * in access exclusive mode nowait",
        "LOCK{lock RELATION{only PATH{NAME_REF{shop}.NAME_REF{invoice}}}, RELATION{PATH{NAME_REF{account}} *} in access exclusive mode nowait}",
    ),
    (
        "lock invoice in share row exclusive mode",
        "LOCK{lock RELATION{PATH{NAME_REF{invoice}}} in share row exclusive mode}",
    ),
    (
        "set constraints all immediate",
        "SET_CONSTRAINTS{set constraints all immediate}",
    ),
    (
        "set constraints invoice_buyer, shop.invoice_total deferred",
        "SET_CONSTRAINTS{set constraints PATH{NAME_REF{invoice_buyer}}, PATH{NAME_REF{shop}.NAME_REF{invoice_total}} deferred}",
    ),
    (
        "set transaction isolation level read committed, read write",
        "SET{set transaction TRANSACTION_MODE{isolation level read committed}, TRANSACTION_MODE{read write}}",
    ),
    (
        "set transaction snapshot '00000003-0000001B-1'",
        "SET{set transaction snapshot LITERAL{'00000003-0000001B-1'}}",
    ),
    (
        "set session characteristics as transaction isolation level repeatable read",
        "SET{set session characteristics as transaction TRANSACTION_MODE{isolation level repeatable read}}",
    ),
];

#[test]
fn transactions_have_trees(rt: HostRuntime) -> Result<(), Fail> {
    assert_trees(&rt, &CASES)
}
