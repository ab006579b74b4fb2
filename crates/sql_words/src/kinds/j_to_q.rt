//! The kinds of the keywords from J to Q.

use crate::kinds::SqlKind;
use squawk_kinds::SyntaxKind;

impl SqlKind {
    pub const JOIN_KW: SyntaxKind = SyntaxKind(394);

    pub const KEY_KW: SyntaxKind = SyntaxKind(395);

    pub const LABEL_KW: SyntaxKind = SyntaxKind(396);

    pub const LANGUAGE_KW: SyntaxKind = SyntaxKind(397);

    pub const LARGE_KW: SyntaxKind = SyntaxKind(398);

    pub const LAST_KW: SyntaxKind = SyntaxKind(399);

    pub const LATERAL_KW: SyntaxKind = SyntaxKind(400);

    pub const LEADING_KW: SyntaxKind = SyntaxKind(401);

    pub const LEAKPROOF_KW: SyntaxKind = SyntaxKind(402);

    pub const LEAST_KW: SyntaxKind = SyntaxKind(403);

    pub const LEFT_KW: SyntaxKind = SyntaxKind(404);

    pub const LEVEL_KW: SyntaxKind = SyntaxKind(405);

    pub const LIKE_KW: SyntaxKind = SyntaxKind::LIKE_KW;

    pub const LIMIT_KW: SyntaxKind = SyntaxKind(406);

    pub const LISTEN_KW: SyntaxKind = SyntaxKind(407);

    pub const LOAD_KW: SyntaxKind = SyntaxKind(408);

    pub const LOCAL_KW: SyntaxKind = SyntaxKind::LOCAL_KW;

    pub const LOCALTIME_KW: SyntaxKind = SyntaxKind(409);

    pub const LOCALTIMESTAMP_KW: SyntaxKind = SyntaxKind(410);

    pub const LOCATION_KW: SyntaxKind = SyntaxKind(411);

    pub const LOCK_KW: SyntaxKind = SyntaxKind(412);

    pub const LOCKED_KW: SyntaxKind = SyntaxKind(413);

    pub const LOGGED_KW: SyntaxKind = SyntaxKind(414);

    pub const MAPPING_KW: SyntaxKind = SyntaxKind(415);

    pub const MATCH_KW: SyntaxKind = SyntaxKind(416);

    pub const MATCHED_KW: SyntaxKind = SyntaxKind(417);

    pub const MATERIALIZED_KW: SyntaxKind = SyntaxKind(418);

    pub const MAXVALUE_KW: SyntaxKind = SyntaxKind(419);

    pub const MERGE_KW: SyntaxKind = SyntaxKind(420);

    pub const METHOD_KW: SyntaxKind = SyntaxKind(421);

    pub const MINUTE_KW: SyntaxKind = SyntaxKind(422);

    pub const MINVALUE_KW: SyntaxKind = SyntaxKind(423);

    pub const MODE_KW: SyntaxKind = SyntaxKind(424);

    pub const MONTH_KW: SyntaxKind = SyntaxKind(425);

    pub const MOVE_KW: SyntaxKind = SyntaxKind(426);

    pub const NAME_KW: SyntaxKind = SyntaxKind(427);

    pub const NAMES_KW: SyntaxKind = SyntaxKind(428);

    pub const NATIONAL_KW: SyntaxKind = SyntaxKind(429);

    pub const NATURAL_KW: SyntaxKind = SyntaxKind(430);

    pub const NCHAR_KW: SyntaxKind = SyntaxKind(431);

    pub const NEW_KW: SyntaxKind = SyntaxKind(432);

    pub const NEXT_KW: SyntaxKind = SyntaxKind(433);

    pub const NFC_KW: SyntaxKind = SyntaxKind::NFC_KW;

    pub const NFD_KW: SyntaxKind = SyntaxKind::NFD_KW;

    pub const NFKC_KW: SyntaxKind = SyntaxKind::NFKC_KW;

    pub const NFKD_KW: SyntaxKind = SyntaxKind::NFKD_KW;

    pub const NO_KW: SyntaxKind = SyntaxKind(434);

    pub const NONE_KW: SyntaxKind = SyntaxKind(435);

    pub const NORMALIZE_KW: SyntaxKind = SyntaxKind(436);

    pub const NORMALIZED_KW: SyntaxKind = SyntaxKind::NORMALIZED_KW;

    pub const NOT_KW: SyntaxKind = SyntaxKind::NOT_KW;

    pub const NOTHING_KW: SyntaxKind = SyntaxKind(437);

    pub const NOTIFY_KW: SyntaxKind = SyntaxKind(438);

    pub const NOTNULL_KW: SyntaxKind = SyntaxKind(439);

    pub const NOWAIT_KW: SyntaxKind = SyntaxKind(440);

    pub const NULL_KW: SyntaxKind = SyntaxKind(441);

    pub const NULLIF_KW: SyntaxKind = SyntaxKind(442);

    pub const NULLS_KW: SyntaxKind = SyntaxKind(443);

    pub const NUMERIC_KW: SyntaxKind = SyntaxKind(444);

    pub const OBJECT_KW: SyntaxKind = SyntaxKind::OBJECT_KW;

    pub const OF_KW: SyntaxKind = SyntaxKind(445);

    pub const OFF_KW: SyntaxKind = SyntaxKind(446);

    pub const OFFSET_KW: SyntaxKind = SyntaxKind(447);

    pub const OIDS_KW: SyntaxKind = SyntaxKind(448);

    pub const OLD_KW: SyntaxKind = SyntaxKind(449);

    pub const ON_KW: SyntaxKind = SyntaxKind(450);

    pub const ONLY_KW: SyntaxKind = SyntaxKind(451);

    pub const OPERATOR_KW: SyntaxKind = SyntaxKind::OPERATOR_KW;

    pub const OPTION_KW: SyntaxKind = SyntaxKind(452);

    pub const OPTIONS_KW: SyntaxKind = SyntaxKind(453);

    pub const OR_KW: SyntaxKind = SyntaxKind(454);

    pub const ORDER_KW: SyntaxKind = SyntaxKind(455);

    pub const ORDINALITY_KW: SyntaxKind = SyntaxKind(456);

    pub const OTHERS_KW: SyntaxKind = SyntaxKind(457);

    pub const OUT_KW: SyntaxKind = SyntaxKind(458);

    pub const OUTER_KW: SyntaxKind = SyntaxKind(459);

    pub const OVER_KW: SyntaxKind = SyntaxKind(460);

    pub const OVERLAPS_KW: SyntaxKind = SyntaxKind(461);

    pub const OVERLAY_KW: SyntaxKind = SyntaxKind(462);

    pub const OVERRIDING_KW: SyntaxKind = SyntaxKind(463);

    pub const OWNED_KW: SyntaxKind = SyntaxKind(464);

    pub const OWNER_KW: SyntaxKind = SyntaxKind(465);

    pub const PARALLEL_KW: SyntaxKind = SyntaxKind(466);

    pub const PARAMETER_KW: SyntaxKind = SyntaxKind(467);

    pub const PARSER_KW: SyntaxKind = SyntaxKind(468);

    pub const PARTIAL_KW: SyntaxKind = SyntaxKind(469);

    pub const PARTITION_KW: SyntaxKind = SyntaxKind(470);

    pub const PASSING_KW: SyntaxKind = SyntaxKind(471);

    pub const PASSWORD_KW: SyntaxKind = SyntaxKind(472);

    pub const PLACING_KW: SyntaxKind = SyntaxKind(473);

    pub const PLANS_KW: SyntaxKind = SyntaxKind(474);

    pub const POLICY_KW: SyntaxKind = SyntaxKind(475);

    pub const POSITION_KW: SyntaxKind = SyntaxKind(476);

    pub const PRECEDING_KW: SyntaxKind = SyntaxKind(477);

    pub const PRECISION_KW: SyntaxKind = SyntaxKind(478);

    pub const PREPARE_KW: SyntaxKind = SyntaxKind(479);

    pub const PREPARED_KW: SyntaxKind = SyntaxKind(480);

    pub const PRESERVE_KW: SyntaxKind = SyntaxKind(481);

    pub const PRIMARY_KW: SyntaxKind = SyntaxKind(482);

    pub const PRIOR_KW: SyntaxKind = SyntaxKind(483);

    pub const PRIVILEGES_KW: SyntaxKind = SyntaxKind(484);

    pub const PROCEDURAL_KW: SyntaxKind = SyntaxKind(485);

    pub const PROCEDURE_KW: SyntaxKind = SyntaxKind(486);

    pub const PROCEDURES_KW: SyntaxKind = SyntaxKind(487);

    pub const PROGRAM_KW: SyntaxKind = SyntaxKind(488);

    pub const PUBLICATION_KW: SyntaxKind = SyntaxKind(489);

    pub const QUOTE_KW: SyntaxKind = SyntaxKind(490);
}
