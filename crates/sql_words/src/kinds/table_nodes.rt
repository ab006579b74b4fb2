//! The kinds of nodes in statements that define tables and indexes.

use crate::kinds::SqlKind;
use squawk_kinds::SyntaxKind;

impl SqlKind {
    // CREATE TABLE.
    pub const CREATE_TABLE: SyntaxKind = SyntaxKind(856);

    pub const CREATE_TABLE_AS: SyntaxKind = SyntaxKind(857);

    pub const ACCESS_METHOD: SyntaxKind = SyntaxKind(858);

    pub const ON_COMMIT: SyntaxKind = SyntaxKind(859);

    pub const TABLESPACE: SyntaxKind = SyntaxKind(860);

    pub const WITH_DATA: SyntaxKind = SyntaxKind(861);

    pub const INHERITS: SyntaxKind = SyntaxKind(862);

    // Partitions and columns.
    pub const PARTITION_ITEM: SyntaxKind = SyntaxKind(863);

    pub const PARTITION_BOUND: SyntaxKind = SyntaxKind(864);

    pub const STORAGE: SyntaxKind = SyntaxKind(865);

    pub const COMPRESSION: SyntaxKind = SyntaxKind(866);

    pub const COLUMN_OPTIONS: SyntaxKind = SyntaxKind(867);

    pub const LIKE_CLAUSE: SyntaxKind = SyntaxKind(868);

    pub const LIKE_OPTION: SyntaxKind = SyntaxKind(869);

    // Constraints.
    pub const CONSTRAINT_NAME: SyntaxKind = SyntaxKind(870);

    pub const NOT_NULL_CONSTRAINT: SyntaxKind = SyntaxKind(871);

    pub const NULL_CONSTRAINT: SyntaxKind = SyntaxKind(872);

    pub const UNIQUE_CONSTRAINT: SyntaxKind = SyntaxKind(873);

    pub const PRIMARY_KEY_CONSTRAINT: SyntaxKind = SyntaxKind(874);

    pub const CHECK_CONSTRAINT: SyntaxKind = SyntaxKind(875);

    pub const DEFAULT_CONSTRAINT: SyntaxKind = SyntaxKind(876);

    pub const IDENTITY_CONSTRAINT: SyntaxKind = SyntaxKind(877);

    pub const GENERATED_CONSTRAINT: SyntaxKind = SyntaxKind(878);

    pub const REFERENCES_CONSTRAINT: SyntaxKind = SyntaxKind(879);

    pub const DEFERRABLE: SyntaxKind = SyntaxKind(880);

    pub const NOT_DEFERRABLE: SyntaxKind = SyntaxKind(881);

    pub const INITIALLY_DEFERRED: SyntaxKind = SyntaxKind(882);

    pub const INITIALLY_IMMEDIATE: SyntaxKind = SyntaxKind(883);

    pub const ON_UPDATE: SyntaxKind = SyntaxKind(884);

    pub const ON_DELETE: SyntaxKind = SyntaxKind(885);

    pub const EXCLUDE_CONSTRAINT: SyntaxKind = SyntaxKind(886);

    pub const FOREIGN_KEY_CONSTRAINT: SyntaxKind = SyntaxKind(887);

    pub const NOT_VALID: SyntaxKind = SyntaxKind(888);

    pub const NO_INHERIT: SyntaxKind = SyntaxKind(889);

    pub const INCLUDE_CLAUSE: SyntaxKind = SyntaxKind(890);

    pub const EXCLUDE_ITEM: SyntaxKind = SyntaxKind(891);

    // Options.
    pub const COLLATE_CLAUSE: SyntaxKind = SyntaxKind(892);

    pub const OPTION_LIST: SyntaxKind = SyntaxKind(893);

    pub const OPTION: SyntaxKind = SyntaxKind(894);

    pub const FOREIGN_OPTIONS: SyntaxKind = SyntaxKind(895);

    // ALTER TABLE and its actions.
    pub const ALTER_TABLE: SyntaxKind = SyntaxKind(896);

    pub const RENAME_TO: SyntaxKind = SyntaxKind(897);

    pub const RENAME_COLUMN: SyntaxKind = SyntaxKind(898);

    pub const RENAME_CONSTRAINT: SyntaxKind = SyntaxKind(899);

    pub const SET_SCHEMA: SyntaxKind = SyntaxKind(900);

    pub const OWNER_TO: SyntaxKind = SyntaxKind(901);

    pub const ATTACH_PARTITION: SyntaxKind = SyntaxKind(902);

    pub const DETACH_PARTITION: SyntaxKind = SyntaxKind(903);

    pub const ADD_COLUMN: SyntaxKind = SyntaxKind(904);

    pub const ADD_CONSTRAINT: SyntaxKind = SyntaxKind(905);

    pub const ALTER_CONSTRAINT: SyntaxKind = SyntaxKind(906);

    pub const ALTER_COLUMN: SyntaxKind = SyntaxKind(907);

    pub const VALIDATE_CONSTRAINT: SyntaxKind = SyntaxKind(908);

    pub const DROP_CONSTRAINT: SyntaxKind = SyntaxKind(909);

    pub const DROP_COLUMN: SyntaxKind = SyntaxKind(910);

    pub const SET_WITHOUT: SyntaxKind = SyntaxKind(911);

    pub const SET_LOGGED: SyntaxKind = SyntaxKind(912);

    pub const SET_ACCESS_METHOD: SyntaxKind = SyntaxKind(913);

    pub const SET_TABLESPACE: SyntaxKind = SyntaxKind(914);

    pub const SET_OPTIONS: SyntaxKind = SyntaxKind(915);

    pub const RESET_OPTIONS: SyntaxKind = SyntaxKind(916);

    pub const CLUSTER_ON: SyntaxKind = SyntaxKind(917);

    pub const TRIGGER_ACTION: SyntaxKind = SyntaxKind(918);

    pub const RULE_ACTION: SyntaxKind = SyntaxKind(919);

    pub const ROW_SECURITY: SyntaxKind = SyntaxKind(920);

    pub const INHERIT: SyntaxKind = SyntaxKind(921);

    pub const NO_INHERIT_TABLE: SyntaxKind = SyntaxKind(922);

    pub const OF_TYPE: SyntaxKind = SyntaxKind(923);

    pub const NOT_OF: SyntaxKind = SyntaxKind(924);

    pub const REPLICA_IDENTITY: SyntaxKind = SyntaxKind(925);

    // Actions on columns.
    pub const SET_DEFAULT: SyntaxKind = SyntaxKind(926);

    pub const SET_NOT_NULL: SyntaxKind = SyntaxKind(927);

    pub const SET_STORAGE: SyntaxKind = SyntaxKind(928);

    pub const SET_EXPRESSION: SyntaxKind = SyntaxKind(929);

    pub const SET_COMPRESSION: SyntaxKind = SyntaxKind(930);

    pub const DROP_DEFAULT: SyntaxKind = SyntaxKind(931);

    pub const DROP_NOT_NULL: SyntaxKind = SyntaxKind(932);

    pub const DROP_EXPRESSION: SyntaxKind = SyntaxKind(933);

    pub const DROP_IDENTITY: SyntaxKind = SyntaxKind(934);

    pub const ADD_IDENTITY: SyntaxKind = SyntaxKind(935);

    pub const ALTER_IDENTITY: SyntaxKind = SyntaxKind(936);

    pub const SET_TYPE: SyntaxKind = SyntaxKind(937);

    pub const SET_STATISTICS: SyntaxKind = SyntaxKind(938);

    pub const SEQUENCE_OPTION: SyntaxKind = SyntaxKind(939);

    pub const ALTER_ALL: SyntaxKind = SyntaxKind(940);

    // Indexes.
    pub const CREATE_INDEX: SyntaxKind = SyntaxKind(941);

    pub const INDEX_ITEM: SyntaxKind = SyntaxKind(942);

    pub const OPERATOR_CLASS: SyntaxKind = SyntaxKind(943);

    pub const ALTER_INDEX: SyntaxKind = SyntaxKind(944);

    pub const DEPENDS_ON: SyntaxKind = SyntaxKind(945);

    // Constraints.
    pub const ENFORCED: SyntaxKind = SyntaxKind(1059);

    pub const NOT_ENFORCED: SyntaxKind = SyntaxKind(1060);
}
