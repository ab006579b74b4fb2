//! The kinds of nodes in expressions, queries and statements that change rows.

use crate::kinds::SqlKind;
use squawk_kinds::SyntaxKind;

impl SqlKind {
    // Names, types and literals.
    pub const NAME: SyntaxKind = SyntaxKind(774);

    pub const NAME_REF: SyntaxKind = SyntaxKind(775);

    pub const PATH: SyntaxKind = SyntaxKind(776);

    pub const COLUMN_LIST: SyntaxKind = SyntaxKind(777);

    pub const ROLE_REF: SyntaxKind = SyntaxKind(778);

    pub const OP: SyntaxKind = SyntaxKind(779);

    pub const LITERAL: SyntaxKind = SyntaxKind(780);

    pub const TYPE: SyntaxKind = SyntaxKind(781);

    pub const TYPE_ARGS: SyntaxKind = SyntaxKind(782);

    // Expressions.
    pub const DEFAULT_EXPR: SyntaxKind = SyntaxKind(783);

    pub const BIN_EXPR: SyntaxKind = SyntaxKind(784);

    pub const PREFIX_EXPR: SyntaxKind = SyntaxKind(785);

    pub const IS_EXPR: SyntaxKind = SyntaxKind(786);

    pub const BETWEEN_EXPR: SyntaxKind = SyntaxKind(787);

    pub const IN_EXPR: SyntaxKind = SyntaxKind(788);

    pub const LIKE_EXPR: SyntaxKind = SyntaxKind(789);

    pub const ROW_EXPR: SyntaxKind = SyntaxKind(790);

    pub const OVERLAPS_EXPR: SyntaxKind = SyntaxKind(791);

    pub const AT_LOCAL_EXPR: SyntaxKind = SyntaxKind(792);

    pub const COLLATE_EXPR: SyntaxKind = SyntaxKind(793);

    pub const CAST_EXPR: SyntaxKind = SyntaxKind(794);

    pub const SOME_OF: SyntaxKind = SyntaxKind(795);

    pub const SUBQUERY: SyntaxKind = SyntaxKind(796);

    pub const ROW_VALUES: SyntaxKind = SyntaxKind(797);

    pub const FIELD_EXPR: SyntaxKind = SyntaxKind(798);

    pub const INDEX_EXPR: SyntaxKind = SyntaxKind(799);

    pub const SLICE_EXPR: SyntaxKind = SyntaxKind(800);

    pub const PAREN_EXPR: SyntaxKind = SyntaxKind(801);

    pub const PARAM_REF: SyntaxKind = SyntaxKind(802);

    pub const CALL_EXPR: SyntaxKind = SyntaxKind(803);

    pub const EXISTS_EXPR: SyntaxKind = SyntaxKind(804);

    pub const ARRAY_EXPR: SyntaxKind = SyntaxKind(805);

    // Parts of expressions.
    pub const ELSE_CLAUSE: SyntaxKind = SyntaxKind(806);

    pub const ARRAY_ITEMS: SyntaxKind = SyntaxKind(807);

    pub const ARG_LIST: SyntaxKind = SyntaxKind(808);

    pub const NAMED_ARG: SyntaxKind = SyntaxKind(809);

    pub const WITHIN_CLAUSE: SyntaxKind = SyntaxKind(810);

    pub const FILTER_CLAUSE: SyntaxKind = SyntaxKind(811);

    pub const OVER_CLAUSE: SyntaxKind = SyntaxKind(812);

    pub const XML_ATTRIBUTES: SyntaxKind = SyntaxKind(813);

    pub const XML_ATTRIBUTE: SyntaxKind = SyntaxKind(814);

    pub const XML_PASSING: SyntaxKind = SyntaxKind(815);

    pub const XML_NAMESPACE: SyntaxKind = SyntaxKind(816);

    pub const XML_COLUMN: SyntaxKind = SyntaxKind(817);

    // Queries.
    pub const QUERY: SyntaxKind = SyntaxKind(818);

    pub const TABLE_QUERY: SyntaxKind = SyntaxKind(819);

    pub const PAREN_QUERY: SyntaxKind = SyntaxKind(820);

    pub const COMPOUND_SELECT: SyntaxKind = SyntaxKind(821);

    pub const DISTINCT_ON: SyntaxKind = SyntaxKind(822);

    pub const TARGET_LIST: SyntaxKind = SyntaxKind(823);

    pub const TARGET: SyntaxKind = SyntaxKind(824);

    pub const EMPTY_GROUP: SyntaxKind = SyntaxKind(825);

    pub const GROUP_CALL: SyntaxKind = SyntaxKind(826);

    pub const GROUPING_SETS: SyntaxKind = SyntaxKind(827);

    pub const WINDOW_DEF: SyntaxKind = SyntaxKind(828);

    pub const WINDOW_SPEC: SyntaxKind = SyntaxKind(829);

    pub const PARTITION_BY: SyntaxKind = SyntaxKind(830);

    pub const FRAME_CLAUSE: SyntaxKind = SyntaxKind(831);

    pub const FRAME_BOUND: SyntaxKind = SyntaxKind(832);

    pub const SORT_ITEM: SyntaxKind = SyntaxKind(833);

    // WITH.
    pub const WITH_TABLE: SyntaxKind = SyntaxKind(834);

    pub const SEARCH_CLAUSE: SyntaxKind = SyntaxKind(835);

    pub const CYCLE_CLAUSE: SyntaxKind = SyntaxKind(836);

    // Tables of FROM.
    pub const JOIN_EXPR: SyntaxKind = SyntaxKind(837);

    pub const JOIN_USING: SyntaxKind = SyntaxKind(838);

    pub const JOIN_ON: SyntaxKind = SyntaxKind(839);

    pub const FROM_SUBQUERY: SyntaxKind = SyntaxKind(840);

    pub const LATERAL_FUNCTION: SyntaxKind = SyntaxKind(841);

    pub const FROM_TABLE: SyntaxKind = SyntaxKind(842);

    pub const TABLE_FUNCTION: SyntaxKind = SyntaxKind(843);

    pub const PAREN_JOIN: SyntaxKind = SyntaxKind(844);

    pub const ALIAS: SyntaxKind = SyntaxKind(845);

    pub const COLUMN_DEF: SyntaxKind = SyntaxKind(846);

    pub const TABLESAMPLE_CLAUSE: SyntaxKind = SyntaxKind(847);

    pub const RELATION: SyntaxKind = SyntaxKind(848);

    // Statements that change rows.
    pub const TARGET_TABLE: SyntaxKind = SyntaxKind(849);

    pub const SET_COLUMN: SyntaxKind = SyntaxKind(850);

    pub const CONFLICT_TARGET: SyntaxKind = SyntaxKind(851);

    pub const RETURNING_NAMES: SyntaxKind = SyntaxKind(852);

    pub const SET_ITEM: SyntaxKind = SyntaxKind(853);

    pub const MERGE_WHEN: SyntaxKind = SyntaxKind(854);

    pub const MERGE_INSERT: SyntaxKind = SyntaxKind(855);

    // JSON.
    pub const JSON_KEY_VALUE: SyntaxKind = SyntaxKind(1047);

    pub const JSON_RETURNING_CLAUSE: SyntaxKind = SyntaxKind(1048);

    pub const JSON_NULL_CLAUSE: SyntaxKind = SyntaxKind(1049);

    pub const JSON_QUOTES_CLAUSE: SyntaxKind = SyntaxKind(1050);

    pub const JSON_KEYS_UNIQUE_CLAUSE: SyntaxKind = SyntaxKind(1051);

    pub const JSON_WRAPPER_BEHAVIOR_CLAUSE: SyntaxKind = SyntaxKind(1052);

    pub const JSON_PASSING_CLAUSE: SyntaxKind = SyntaxKind(1053);

    pub const JSON_BEHAVIOR_CLAUSE: SyntaxKind = SyntaxKind(1054);

    pub const JSON_FORMAT_CLAUSE: SyntaxKind = SyntaxKind(1055);

    pub const JSON_PASSING_ARG: SyntaxKind = SyntaxKind(1056);

    pub const JSON_TABLE_COLUMN_LIST: SyntaxKind = SyntaxKind(1057);

    pub const JSON_TABLE_COLUMN: SyntaxKind = SyntaxKind(1058);
}
