//! The kinds of the keywords from T to Z.

use crate::kinds::SqlKind;
use squawk_kinds::SyntaxKind;

impl SqlKind {
    pub const TABLE_KW: SyntaxKind = SyntaxKind(566);

    pub const TABLES_KW: SyntaxKind = SyntaxKind(567);

    pub const TABLESAMPLE_KW: SyntaxKind = SyntaxKind(568);

    pub const TABLESPACE_KW: SyntaxKind = SyntaxKind(569);

    pub const TEMP_KW: SyntaxKind = SyntaxKind(570);

    pub const TEMPLATE_KW: SyntaxKind = SyntaxKind(571);

    pub const TEMPORARY_KW: SyntaxKind = SyntaxKind(572);

    pub const TEXT_KW: SyntaxKind = SyntaxKind(573);

    pub const THEN_KW: SyntaxKind = SyntaxKind(574);

    pub const TIES_KW: SyntaxKind = SyntaxKind(575);

    pub const TIME_KW: SyntaxKind = SyntaxKind::TIME_KW;

    pub const TIMESTAMP_KW: SyntaxKind = SyntaxKind(576);

    pub const TO_KW: SyntaxKind = SyntaxKind::TO_KW;

    pub const TRAILING_KW: SyntaxKind = SyntaxKind(577);

    pub const TRANSACTION_KW: SyntaxKind = SyntaxKind(578);

    pub const TRANSFORM_KW: SyntaxKind = SyntaxKind(579);

    pub const TREAT_KW: SyntaxKind = SyntaxKind(580);

    pub const TRIGGER_KW: SyntaxKind = SyntaxKind(581);

    pub const TRIM_KW: SyntaxKind = SyntaxKind(582);

    pub const TRUE_KW: SyntaxKind = SyntaxKind(583);

    pub const TRUNCATE_KW: SyntaxKind = SyntaxKind(584);

    pub const TRUSTED_KW: SyntaxKind = SyntaxKind(585);

    pub const TYPE_KW: SyntaxKind = SyntaxKind(586);

    pub const TYPES_KW: SyntaxKind = SyntaxKind(587);

    pub const UESCAPE_KW: SyntaxKind = SyntaxKind(588);

    pub const UNBOUNDED_KW: SyntaxKind = SyntaxKind(589);

    pub const UNCOMMITTED_KW: SyntaxKind = SyntaxKind(590);

    pub const UNENCRYPTED_KW: SyntaxKind = SyntaxKind(591);

    pub const UNION_KW: SyntaxKind = SyntaxKind(592);

    pub const UNIQUE_KW: SyntaxKind = SyntaxKind(593);

    pub const UNKNOWN_KW: SyntaxKind = SyntaxKind(594);

    pub const UNLISTEN_KW: SyntaxKind = SyntaxKind(595);

    pub const UNLOGGED_KW: SyntaxKind = SyntaxKind(596);

    pub const UNTIL_KW: SyntaxKind = SyntaxKind(597);

    pub const UPDATE_KW: SyntaxKind = SyntaxKind(598);

    pub const USER_KW: SyntaxKind = SyntaxKind(599);

    pub const USING_KW: SyntaxKind = SyntaxKind(600);

    pub const VACUUM_KW: SyntaxKind = SyntaxKind(601);

    pub const VALID_KW: SyntaxKind = SyntaxKind(602);

    pub const VALIDATE_KW: SyntaxKind = SyntaxKind(603);

    pub const VALIDATOR_KW: SyntaxKind = SyntaxKind(604);

    pub const VALUE_KW: SyntaxKind = SyntaxKind::VALUE_KW;

    pub const VALUES_KW: SyntaxKind = SyntaxKind(605);

    pub const VARCHAR_KW: SyntaxKind = SyntaxKind(606);

    pub const VARIADIC_KW: SyntaxKind = SyntaxKind(607);

    pub const VARYING_KW: SyntaxKind = SyntaxKind(608);

    pub const VERBOSE_KW: SyntaxKind = SyntaxKind(609);

    pub const VERSION_KW: SyntaxKind = SyntaxKind(610);

    pub const VIEW_KW: SyntaxKind = SyntaxKind(611);

    pub const VIEWS_KW: SyntaxKind = SyntaxKind(612);

    pub const VOLATILE_KW: SyntaxKind = SyntaxKind(613);

    pub const WHEN_KW: SyntaxKind = SyntaxKind(614);

    pub const WHERE_KW: SyntaxKind = SyntaxKind(615);

    pub const WHITESPACE_KW: SyntaxKind = SyntaxKind(616);

    pub const WINDOW_KW: SyntaxKind = SyntaxKind(617);

    pub const WITH_KW: SyntaxKind = SyntaxKind(618);

    pub const WITHIN_KW: SyntaxKind = SyntaxKind(619);

    pub const WITHOUT_KW: SyntaxKind = SyntaxKind(620);

    pub const WORK_KW: SyntaxKind = SyntaxKind(621);

    pub const WRAPPER_KW: SyntaxKind = SyntaxKind(622);

    pub const WRITE_KW: SyntaxKind = SyntaxKind(623);

    pub const XML_KW: SyntaxKind = SyntaxKind(624);

    pub const XMLATTRIBUTES_KW: SyntaxKind = SyntaxKind(625);

    pub const XMLCONCAT_KW: SyntaxKind = SyntaxKind(626);

    pub const XMLELEMENT_KW: SyntaxKind = SyntaxKind(627);

    pub const XMLEXISTS_KW: SyntaxKind = SyntaxKind(628);

    pub const XMLFOREST_KW: SyntaxKind = SyntaxKind(629);

    pub const XMLNAMESPACES_KW: SyntaxKind = SyntaxKind(630);

    pub const XMLPARSE_KW: SyntaxKind = SyntaxKind(631);

    pub const XMLPI_KW: SyntaxKind = SyntaxKind(632);

    pub const XMLROOT_KW: SyntaxKind = SyntaxKind(633);

    pub const XMLSERIALIZE_KW: SyntaxKind = SyntaxKind(634);

    pub const XMLTABLE_KW: SyntaxKind = SyntaxKind(635);

    pub const YEAR_KW: SyntaxKind = SyntaxKind(636);

    pub const YES_KW: SyntaxKind = SyntaxKind(637);

    pub const ZONE_KW: SyntaxKind = SyntaxKind::ZONE_KW;
}
