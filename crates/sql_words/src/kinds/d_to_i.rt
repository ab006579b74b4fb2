//! The kinds of the keywords from D to I.

use crate::kinds::SqlKind;
use squawk_kinds::SyntaxKind;

impl SqlKind {
    pub const DATA_KW: SyntaxKind = SyntaxKind(289);

    pub const DATABASE_KW: SyntaxKind = SyntaxKind(290);

    pub const DAY_KW: SyntaxKind = SyntaxKind(291);

    pub const DEALLOCATE_KW: SyntaxKind = SyntaxKind(292);

    pub const DEC_KW: SyntaxKind = SyntaxKind(293);

    pub const DECIMAL_KW: SyntaxKind = SyntaxKind(294);

    pub const DECLARE_KW: SyntaxKind = SyntaxKind(295);

    pub const DEFAULT_KW: SyntaxKind = SyntaxKind(296);

    pub const DEFAULTS_KW: SyntaxKind = SyntaxKind(297);

    pub const DEFERRABLE_KW: SyntaxKind = SyntaxKind(298);

    pub const DEFERRED_KW: SyntaxKind = SyntaxKind(299);

    pub const DEFINER_KW: SyntaxKind = SyntaxKind(300);

    pub const DELETE_KW: SyntaxKind = SyntaxKind(301);

    pub const DELIMITER_KW: SyntaxKind = SyntaxKind(302);

    pub const DELIMITERS_KW: SyntaxKind = SyntaxKind(303);

    pub const DEPENDS_KW: SyntaxKind = SyntaxKind(304);

    pub const DEPTH_KW: SyntaxKind = SyntaxKind(305);

    pub const DESC_KW: SyntaxKind = SyntaxKind(306);

    pub const DETACH_KW: SyntaxKind = SyntaxKind(307);

    pub const DICTIONARY_KW: SyntaxKind = SyntaxKind(308);

    pub const DISABLE_KW: SyntaxKind = SyntaxKind(309);

    pub const DISCARD_KW: SyntaxKind = SyntaxKind(310);

    pub const DISTINCT_KW: SyntaxKind = SyntaxKind::DISTINCT_KW;

    pub const DO_KW: SyntaxKind = SyntaxKind(311);

    pub const DOCUMENT_KW: SyntaxKind = SyntaxKind(312);

    pub const DOMAIN_KW: SyntaxKind = SyntaxKind(313);

    pub const DOUBLE_KW: SyntaxKind = SyntaxKind(314);

    pub const DROP_KW: SyntaxKind = SyntaxKind(315);

    pub const EACH_KW: SyntaxKind = SyntaxKind(316);

    pub const ELSE_KW: SyntaxKind = SyntaxKind(317);

    pub const ENABLE_KW: SyntaxKind = SyntaxKind(318);

    pub const ENCODING_KW: SyntaxKind = SyntaxKind(319);

    pub const ENCRYPTED_KW: SyntaxKind = SyntaxKind(320);

    pub const END_KW: SyntaxKind = SyntaxKind(321);

    pub const ENUM_KW: SyntaxKind = SyntaxKind(322);

    pub const ESCAPE_KW: SyntaxKind = SyntaxKind(323);

    pub const EVENT_KW: SyntaxKind = SyntaxKind(324);

    pub const EXCEPT_KW: SyntaxKind = SyntaxKind(325);

    pub const EXCLUDE_KW: SyntaxKind = SyntaxKind(326);

    pub const EXCLUDING_KW: SyntaxKind = SyntaxKind(327);

    pub const EXCLUSIVE_KW: SyntaxKind = SyntaxKind(328);

    pub const EXECUTE_KW: SyntaxKind = SyntaxKind(329);

    pub const EXISTS_KW: SyntaxKind = SyntaxKind(330);

    pub const EXPLAIN_KW: SyntaxKind = SyntaxKind(331);

    pub const EXPRESSION_KW: SyntaxKind = SyntaxKind(332);

    pub const EXTENSION_KW: SyntaxKind = SyntaxKind(333);

    pub const EXTERNAL_KW: SyntaxKind = SyntaxKind(334);

    pub const EXTRACT_KW: SyntaxKind = SyntaxKind(335);

    pub const FALSE_KW: SyntaxKind = SyntaxKind(336);

    pub const FAMILY_KW: SyntaxKind = SyntaxKind(337);

    pub const FETCH_KW: SyntaxKind = SyntaxKind(338);

    pub const FILTER_KW: SyntaxKind = SyntaxKind(339);

    pub const FINALIZE_KW: SyntaxKind = SyntaxKind(340);

    pub const FIRST_KW: SyntaxKind = SyntaxKind(341);

    pub const FLOAT_KW: SyntaxKind = SyntaxKind(342);

    pub const FOLLOWING_KW: SyntaxKind = SyntaxKind(343);

    pub const FOR_KW: SyntaxKind = SyntaxKind(344);

    pub const FORCE_KW: SyntaxKind = SyntaxKind(345);

    pub const FOREIGN_KW: SyntaxKind = SyntaxKind(346);

    pub const FORWARD_KW: SyntaxKind = SyntaxKind(347);

    pub const FREEZE_KW: SyntaxKind = SyntaxKind(348);

    pub const FROM_KW: SyntaxKind = SyntaxKind::FROM_KW;

    pub const FULL_KW: SyntaxKind = SyntaxKind(349);

    pub const FUNCTION_KW: SyntaxKind = SyntaxKind(350);

    pub const FUNCTIONS_KW: SyntaxKind = SyntaxKind(351);

    pub const GENERATED_KW: SyntaxKind = SyntaxKind(352);

    pub const GLOBAL_KW: SyntaxKind = SyntaxKind(353);

    pub const GRANT_KW: SyntaxKind = SyntaxKind(354);

    pub const GRANTED_KW: SyntaxKind = SyntaxKind(355);

    pub const GREATEST_KW: SyntaxKind = SyntaxKind(356);

    pub const GROUP_KW: SyntaxKind = SyntaxKind(357);

    pub const GROUPING_KW: SyntaxKind = SyntaxKind(358);

    pub const GROUPS_KW: SyntaxKind = SyntaxKind(359);

    pub const HANDLER_KW: SyntaxKind = SyntaxKind(360);

    pub const HAVING_KW: SyntaxKind = SyntaxKind(361);

    pub const HEADER_KW: SyntaxKind = SyntaxKind(362);

    pub const HOLD_KW: SyntaxKind = SyntaxKind(363);

    pub const HOUR_KW: SyntaxKind = SyntaxKind(364);

    pub const IDENTITY_KW: SyntaxKind = SyntaxKind(365);

    pub const IF_KW: SyntaxKind = SyntaxKind(366);

    pub const ILIKE_KW: SyntaxKind = SyntaxKind::ILIKE_KW;

    pub const IMMEDIATE_KW: SyntaxKind = SyntaxKind(367);

    pub const IMMUTABLE_KW: SyntaxKind = SyntaxKind(368);

    pub const IMPLICIT_KW: SyntaxKind = SyntaxKind(369);

    pub const IMPORT_KW: SyntaxKind = SyntaxKind(370);

    pub const IN_KW: SyntaxKind = SyntaxKind::IN_KW;

    pub const INCLUDE_KW: SyntaxKind = SyntaxKind(371);

    pub const INCLUDING_KW: SyntaxKind = SyntaxKind(372);

    pub const INCREMENT_KW: SyntaxKind = SyntaxKind(373);

    pub const INDEX_KW: SyntaxKind = SyntaxKind(374);

    pub const INDEXES_KW: SyntaxKind = SyntaxKind(375);

    pub const INHERIT_KW: SyntaxKind = SyntaxKind(376);

    pub const INHERITS_KW: SyntaxKind = SyntaxKind(377);

    pub const INITIALLY_KW: SyntaxKind = SyntaxKind(378);

    pub const INLINE_KW: SyntaxKind = SyntaxKind(379);

    pub const INNER_KW: SyntaxKind = SyntaxKind(380);

    pub const INOUT_KW: SyntaxKind = SyntaxKind(381);

    pub const INPUT_KW: SyntaxKind = SyntaxKind(382);

    pub const INSENSITIVE_KW: SyntaxKind = SyntaxKind(383);

    pub const INSERT_KW: SyntaxKind = SyntaxKind(384);

    pub const INSTEAD_KW: SyntaxKind = SyntaxKind(385);

    pub const INT_KW: SyntaxKind = SyntaxKind(386);

    pub const INTEGER_KW: SyntaxKind = SyntaxKind(387);

    pub const INTERSECT_KW: SyntaxKind = SyntaxKind(388);

    pub const INTERVAL_KW: SyntaxKind = SyntaxKind(389);

    pub const INTO_KW: SyntaxKind = SyntaxKind(390);

    pub const INVOKER_KW: SyntaxKind = SyntaxKind(391);

    pub const IS_KW: SyntaxKind = SyntaxKind::IS_KW;

    pub const ISNULL_KW: SyntaxKind = SyntaxKind(392);

    pub const ISOLATION_KW: SyntaxKind = SyntaxKind(393);
}
