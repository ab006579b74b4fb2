//! The kinds of the keywords from R to S.

use crate::kinds::SqlKind;
use squawk_kinds::SyntaxKind;

impl SqlKind {
    pub const RANGE_KW: SyntaxKind = SyntaxKind(491);

    pub const READ_KW: SyntaxKind = SyntaxKind(492);

    pub const REAL_KW: SyntaxKind = SyntaxKind(493);

    pub const REASSIGN_KW: SyntaxKind = SyntaxKind(494);

    pub const RECHECK_KW: SyntaxKind = SyntaxKind(495);

    pub const RECURSIVE_KW: SyntaxKind = SyntaxKind(496);

    pub const REF_KW: SyntaxKind = SyntaxKind(497);

    pub const REFERENCES_KW: SyntaxKind = SyntaxKind(498);

    pub const REFERENCING_KW: SyntaxKind = SyntaxKind(499);

    pub const REFRESH_KW: SyntaxKind = SyntaxKind(500);

    pub const REINDEX_KW: SyntaxKind = SyntaxKind(501);

    pub const RELATIVE_KW: SyntaxKind = SyntaxKind(502);

    pub const RELEASE_KW: SyntaxKind = SyntaxKind(503);

    pub const RENAME_KW: SyntaxKind = SyntaxKind(504);

    pub const REPEATABLE_KW: SyntaxKind = SyntaxKind(505);

    pub const REPLACE_KW: SyntaxKind = SyntaxKind(506);

    pub const REPLICA_KW: SyntaxKind = SyntaxKind(507);

    pub const RESET_KW: SyntaxKind = SyntaxKind(508);

    pub const RESTART_KW: SyntaxKind = SyntaxKind(509);

    pub const RESTRICT_KW: SyntaxKind = SyntaxKind(510);

    pub const RETURN_KW: SyntaxKind = SyntaxKind(511);

    pub const RETURNING_KW: SyntaxKind = SyntaxKind(512);

    pub const RETURNS_KW: SyntaxKind = SyntaxKind(513);

    pub const REVOKE_KW: SyntaxKind = SyntaxKind(514);

    pub const RIGHT_KW: SyntaxKind = SyntaxKind(515);

    pub const ROLE_KW: SyntaxKind = SyntaxKind(516);

    pub const ROLLBACK_KW: SyntaxKind = SyntaxKind(517);

    pub const ROLLUP_KW: SyntaxKind = SyntaxKind(518);

    pub const ROUTINE_KW: SyntaxKind = SyntaxKind(519);

    pub const ROUTINES_KW: SyntaxKind = SyntaxKind(520);

    pub const ROW_KW: SyntaxKind = SyntaxKind(521);

    pub const ROWS_KW: SyntaxKind = SyntaxKind(522);

    pub const RULE_KW: SyntaxKind = SyntaxKind(523);

    pub const SAVEPOINT_KW: SyntaxKind = SyntaxKind(524);

    pub const SCHEMA_KW: SyntaxKind = SyntaxKind(525);

    pub const SCHEMAS_KW: SyntaxKind = SyntaxKind(526);

    pub const SCROLL_KW: SyntaxKind = SyntaxKind(527);

    pub const SEARCH_KW: SyntaxKind = SyntaxKind(528);

    pub const SECOND_KW: SyntaxKind = SyntaxKind(529);

    pub const SECURITY_KW: SyntaxKind = SyntaxKind(530);

    pub const SELECT_KW: SyntaxKind = SyntaxKind(531);

    pub const SEQUENCE_KW: SyntaxKind = SyntaxKind(532);

    pub const SEQUENCES_KW: SyntaxKind = SyntaxKind(533);

    pub const SERIALIZABLE_KW: SyntaxKind = SyntaxKind(534);

    pub const SERVER_KW: SyntaxKind = SyntaxKind(535);

    pub const SESSION_KW: SyntaxKind = SyntaxKind(536);

    pub const SESSION_USER_KW: SyntaxKind = SyntaxKind(537);

    pub const SET_KW: SyntaxKind = SyntaxKind(538);

    pub const SETOF_KW: SyntaxKind = SyntaxKind(539);

    pub const SETS_KW: SyntaxKind = SyntaxKind(540);

    pub const SHARE_KW: SyntaxKind = SyntaxKind(541);

    pub const SHOW_KW: SyntaxKind = SyntaxKind(542);

    pub const SIMILAR_KW: SyntaxKind = SyntaxKind::SIMILAR_KW;

    pub const SIMPLE_KW: SyntaxKind = SyntaxKind(543);

    pub const SKIP_KW: SyntaxKind = SyntaxKind(544);

    pub const SMALLINT_KW: SyntaxKind = SyntaxKind(545);

    pub const SNAPSHOT_KW: SyntaxKind = SyntaxKind(546);

    pub const SOME_KW: SyntaxKind = SyntaxKind(547);

    pub const SQL_KW: SyntaxKind = SyntaxKind(548);

    pub const STABLE_KW: SyntaxKind = SyntaxKind(549);

    pub const STANDALONE_KW: SyntaxKind = SyntaxKind(550);

    pub const START_KW: SyntaxKind = SyntaxKind(551);

    pub const STATEMENT_KW: SyntaxKind = SyntaxKind(552);

    pub const STATISTICS_KW: SyntaxKind = SyntaxKind(553);

    pub const STDIN_KW: SyntaxKind = SyntaxKind(554);

    pub const STDOUT_KW: SyntaxKind = SyntaxKind(555);

    pub const STORAGE_KW: SyntaxKind = SyntaxKind(556);

    pub const STORED_KW: SyntaxKind = SyntaxKind(557);

    pub const STRICT_KW: SyntaxKind = SyntaxKind(558);

    pub const STRIP_KW: SyntaxKind = SyntaxKind(559);

    pub const SUBSCRIPTION_KW: SyntaxKind = SyntaxKind(560);

    pub const SUBSTRING_KW: SyntaxKind = SyntaxKind(561);

    pub const SUPPORT_KW: SyntaxKind = SyntaxKind(562);

    pub const SYMMETRIC_KW: SyntaxKind = SyntaxKind(563);

    pub const SYSID_KW: SyntaxKind = SyntaxKind(564);

    pub const SYSTEM_KW: SyntaxKind = SyntaxKind(565);
}
