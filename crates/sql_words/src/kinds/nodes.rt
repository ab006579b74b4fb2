//! The kinds of nodes.

use crate::kinds::SqlKind;
use squawk_kinds::SyntaxKind;

impl SqlKind {
    // The root, and a statement that has no kind of its own.
    pub const SOURCE_FILE: SyntaxKind = SyntaxKind(700);

    pub const STATEMENT: SyntaxKind = SyntaxKind(701);

    // A command of psql between statements.
    pub const PSQL_COMMAND: SyntaxKind = SyntaxKind(702);

    // Statements that query or change rows.
    pub const SELECT: SyntaxKind = SyntaxKind(703);

    pub const INSERT: SyntaxKind = SyntaxKind(704);

    pub const UPDATE: SyntaxKind = SyntaxKind(705);

    pub const DELETE: SyntaxKind = SyntaxKind(706);

    pub const MERGE: SyntaxKind = SyntaxKind(707);

    // Statements that define, and those on rights.
    pub const CREATE: SyntaxKind = SyntaxKind(708);

    pub const ALTER: SyntaxKind = SyntaxKind(709);

    pub const DROP: SyntaxKind = SyntaxKind(710);

    pub const TRUNCATE: SyntaxKind = SyntaxKind(711);

    pub const COMMENT_ON: SyntaxKind = SyntaxKind(712);

    pub const SECURITY_LABEL: SyntaxKind = SyntaxKind(713);

    pub const IMPORT_FOREIGN_SCHEMA: SyntaxKind = SyntaxKind(714);

    pub const REASSIGN: SyntaxKind = SyntaxKind(715);

    pub const REFRESH: SyntaxKind = SyntaxKind(716);

    pub const REINDEX: SyntaxKind = SyntaxKind(717);

    pub const CLUSTER: SyntaxKind = SyntaxKind(718);

    pub const VACUUM: SyntaxKind = SyntaxKind(719);

    pub const ANALYZE: SyntaxKind = SyntaxKind(720);

    pub const GRANT: SyntaxKind = SyntaxKind(721);

    pub const REVOKE: SyntaxKind = SyntaxKind(722);

    // Transactions.
    pub const BEGIN: SyntaxKind = SyntaxKind(723);

    pub const COMMIT: SyntaxKind = SyntaxKind(724);

    pub const ROLLBACK: SyntaxKind = SyntaxKind(725);

    pub const SAVEPOINT: SyntaxKind = SyntaxKind(726);

    pub const RELEASE_SAVEPOINT: SyntaxKind = SyntaxKind(727);

    pub const LOCK: SyntaxKind = SyntaxKind(728);

    // Sessions, cursors, prepared statements and the rest.
    pub const SET: SyntaxKind = SyntaxKind(729);

    pub const RESET: SyntaxKind = SyntaxKind(730);

    pub const SHOW: SyntaxKind = SyntaxKind(731);

    pub const DISCARD: SyntaxKind = SyntaxKind(732);

    pub const LOAD: SyntaxKind = SyntaxKind(733);

    pub const CHECKPOINT: SyntaxKind = SyntaxKind(734);

    pub const LISTEN: SyntaxKind = SyntaxKind(735);

    pub const NOTIFY: SyntaxKind = SyntaxKind(736);

    pub const UNLISTEN: SyntaxKind = SyntaxKind(737);

    pub const COPY: SyntaxKind = SyntaxKind(738);

    pub const CALL: SyntaxKind = SyntaxKind(739);

    pub const DO: SyntaxKind = SyntaxKind(740);

    pub const EXPLAIN: SyntaxKind = SyntaxKind(741);

    pub const PREPARE: SyntaxKind = SyntaxKind(742);

    pub const EXECUTE: SyntaxKind = SyntaxKind(743);

    pub const DEALLOCATE: SyntaxKind = SyntaxKind(744);

    pub const DECLARE: SyntaxKind = SyntaxKind(745);

    pub const FETCH: SyntaxKind = SyntaxKind(746);

    pub const MOVE: SyntaxKind = SyntaxKind(747);

    pub const CLOSE: SyntaxKind = SyntaxKind(748);

    // CASE .. END.
    pub const CASE_EXPR: SyntaxKind = SyntaxKind(751);

    // Clauses.
    pub const WITH_CLAUSE: SyntaxKind = SyntaxKind(752);

    pub const INTO_CLAUSE: SyntaxKind = SyntaxKind(754);

    pub const FROM_CLAUSE: SyntaxKind = SyntaxKind(755);

    pub const WHERE_CLAUSE: SyntaxKind = SyntaxKind(756);

    pub const GROUP_BY_CLAUSE: SyntaxKind = SyntaxKind(757);

    pub const HAVING_CLAUSE: SyntaxKind = SyntaxKind(758);

    pub const WINDOW_CLAUSE: SyntaxKind = SyntaxKind(759);

    pub const ORDER_BY_CLAUSE: SyntaxKind = SyntaxKind(760);

    pub const LIMIT_CLAUSE: SyntaxKind = SyntaxKind(761);

    pub const OFFSET_CLAUSE: SyntaxKind = SyntaxKind(762);

    pub const FETCH_CLAUSE: SyntaxKind = SyntaxKind(763);

    pub const LOCKING_CLAUSE: SyntaxKind = SyntaxKind(764);

    pub const VALUES_CLAUSE: SyntaxKind = SyntaxKind(765);

    pub const SET_CLAUSE: SyntaxKind = SyntaxKind(766);

    pub const USING_CLAUSE: SyntaxKind = SyntaxKind(767);

    pub const WHEN_CLAUSE: SyntaxKind = SyntaxKind(768);

    pub const ON_CONFLICT_CLAUSE: SyntaxKind = SyntaxKind(769);

    pub const RETURNING_CLAUSE: SyntaxKind = SyntaxKind(770);
}
