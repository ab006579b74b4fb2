//! The kinds of the keywords from A to C.

use crate::kinds::SqlKind;
use squawk_kinds::SyntaxKind;

impl SqlKind {
    pub const ABORT_KW: SyntaxKind = SyntaxKind(200);

    pub const ABSOLUTE_KW: SyntaxKind = SyntaxKind(201);

    pub const ACCESS_KW: SyntaxKind = SyntaxKind(202);

    pub const ACTION_KW: SyntaxKind = SyntaxKind(203);

    pub const ADD_KW: SyntaxKind = SyntaxKind(204);

    pub const ADMIN_KW: SyntaxKind = SyntaxKind(205);

    pub const AFTER_KW: SyntaxKind = SyntaxKind(206);

    pub const AGGREGATE_KW: SyntaxKind = SyntaxKind(207);

    pub const ALL_KW: SyntaxKind = SyntaxKind(208);

    pub const ALSO_KW: SyntaxKind = SyntaxKind(209);

    pub const ALTER_KW: SyntaxKind = SyntaxKind(210);

    pub const ALWAYS_KW: SyntaxKind = SyntaxKind(211);

    pub const ANALYSE_KW: SyntaxKind = SyntaxKind(212);

    pub const ANALYZE_KW: SyntaxKind = SyntaxKind(213);

    pub const AND_KW: SyntaxKind = SyntaxKind(214);

    pub const ANY_KW: SyntaxKind = SyntaxKind(215);

    pub const ARRAY_KW: SyntaxKind = SyntaxKind::ARRAY_KW;

    pub const AS_KW: SyntaxKind = SyntaxKind(216);

    pub const ASC_KW: SyntaxKind = SyntaxKind(217);

    pub const ASENSITIVE_KW: SyntaxKind = SyntaxKind(218);

    pub const ASSERTION_KW: SyntaxKind = SyntaxKind(219);

    pub const ASSIGNMENT_KW: SyntaxKind = SyntaxKind(220);

    pub const ASYMMETRIC_KW: SyntaxKind = SyntaxKind(221);

    pub const AT_KW: SyntaxKind = SyntaxKind::AT_KW;

    pub const ATOMIC_KW: SyntaxKind = SyntaxKind(222);

    pub const ATTACH_KW: SyntaxKind = SyntaxKind(223);

    pub const ATTRIBUTE_KW: SyntaxKind = SyntaxKind(224);

    pub const AUTHORIZATION_KW: SyntaxKind = SyntaxKind(225);

    pub const BACKWARD_KW: SyntaxKind = SyntaxKind(226);

    pub const BEFORE_KW: SyntaxKind = SyntaxKind(227);

    pub const BEGIN_KW: SyntaxKind = SyntaxKind(228);

    pub const BETWEEN_KW: SyntaxKind = SyntaxKind(229);

    pub const BIGINT_KW: SyntaxKind = SyntaxKind(230);

    pub const BINARY_KW: SyntaxKind = SyntaxKind(231);

    pub const BIT_KW: SyntaxKind = SyntaxKind(232);

    pub const BOOLEAN_KW: SyntaxKind = SyntaxKind(233);

    pub const BOTH_KW: SyntaxKind = SyntaxKind(234);

    pub const BREADTH_KW: SyntaxKind = SyntaxKind(235);

    pub const BY_KW: SyntaxKind = SyntaxKind(236);

    pub const CACHE_KW: SyntaxKind = SyntaxKind(237);

    pub const CALL_KW: SyntaxKind = SyntaxKind(238);

    pub const CALLED_KW: SyntaxKind = SyntaxKind(239);

    pub const CASCADE_KW: SyntaxKind = SyntaxKind(240);

    pub const CASCADED_KW: SyntaxKind = SyntaxKind(241);

    pub const CASE_KW: SyntaxKind = SyntaxKind(242);

    pub const CAST_KW: SyntaxKind = SyntaxKind(243);

    pub const CATALOG_KW: SyntaxKind = SyntaxKind(244);

    pub const CHAIN_KW: SyntaxKind = SyntaxKind(245);

    pub const CHAR_KW: SyntaxKind = SyntaxKind(246);

    pub const CHARACTER_KW: SyntaxKind = SyntaxKind(247);

    pub const CHARACTERISTICS_KW: SyntaxKind = SyntaxKind(248);

    pub const CHECK_KW: SyntaxKind = SyntaxKind(249);

    pub const CHECKPOINT_KW: SyntaxKind = SyntaxKind(250);

    pub const CLASS_KW: SyntaxKind = SyntaxKind(251);

    pub const CLOSE_KW: SyntaxKind = SyntaxKind(252);

    pub const CLUSTER_KW: SyntaxKind = SyntaxKind(253);

    pub const COALESCE_KW: SyntaxKind = SyntaxKind(254);

    pub const COLLATE_KW: SyntaxKind = SyntaxKind(255);

    pub const COLLATION_KW: SyntaxKind = SyntaxKind(256);

    pub const COLUMN_KW: SyntaxKind = SyntaxKind(257);

    pub const COLUMNS_KW: SyntaxKind = SyntaxKind(258);

    pub const COMMENT_KW: SyntaxKind = SyntaxKind(259);

    pub const COMMENTS_KW: SyntaxKind = SyntaxKind(260);

    pub const COMMIT_KW: SyntaxKind = SyntaxKind(261);

    pub const COMMITTED_KW: SyntaxKind = SyntaxKind(262);

    pub const COMPRESSION_KW: SyntaxKind = SyntaxKind(263);

    pub const CONCURRENTLY_KW: SyntaxKind = SyntaxKind(264);

    pub const CONFIGURATION_KW: SyntaxKind = SyntaxKind(265);

    pub const CONFLICT_KW: SyntaxKind = SyntaxKind(266);

    pub const CONNECTION_KW: SyntaxKind = SyntaxKind(267);

    pub const CONSTRAINT_KW: SyntaxKind = SyntaxKind(268);

    pub const CONSTRAINTS_KW: SyntaxKind = SyntaxKind(269);

    pub const CONTENT_KW: SyntaxKind = SyntaxKind(270);

    pub const CONTINUE_KW: SyntaxKind = SyntaxKind(271);

    pub const CONVERSION_KW: SyntaxKind = SyntaxKind(272);

    pub const COPY_KW: SyntaxKind = SyntaxKind(273);

    pub const COST_KW: SyntaxKind = SyntaxKind(274);

    pub const CREATE_KW: SyntaxKind = SyntaxKind(275);

    pub const CROSS_KW: SyntaxKind = SyntaxKind(276);

    pub const CSV_KW: SyntaxKind = SyntaxKind(277);

    pub const CUBE_KW: SyntaxKind = SyntaxKind(278);

    pub const CURRENT_KW: SyntaxKind = SyntaxKind(279);

    pub const CURRENT_CATALOG_KW: SyntaxKind = SyntaxKind(280);

    pub const CURRENT_DATE_KW: SyntaxKind = SyntaxKind(281);

    pub const CURRENT_ROLE_KW: SyntaxKind = SyntaxKind(282);

    pub const CURRENT_SCHEMA_KW: SyntaxKind = SyntaxKind(283);

    pub const CURRENT_TIME_KW: SyntaxKind = SyntaxKind(284);

    pub const CURRENT_TIMESTAMP_KW: SyntaxKind = SyntaxKind(285);

    pub const CURRENT_USER_KW: SyntaxKind = SyntaxKind(286);

    pub const CURSOR_KW: SyntaxKind = SyntaxKind(287);

    pub const CYCLE_KW: SyntaxKind = SyntaxKind(288);
}
