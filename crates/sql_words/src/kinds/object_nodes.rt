//! The kinds of nodes in statements that define other objects, and in those on rights and sessions.

use crate::kinds::SqlKind;
use squawk_kinds::SyntaxKind;

impl SqlKind {
    // Views, sequences and statistics.
    pub const CREATE_VIEW: SyntaxKind = SyntaxKind(946);

    pub const ALTER_VIEW: SyntaxKind = SyntaxKind(947);

    pub const CREATE_MATERIALIZED_VIEW: SyntaxKind = SyntaxKind(948);

    pub const ALTER_MATERIALIZED_VIEW: SyntaxKind = SyntaxKind(949);

    pub const CREATE_SEQUENCE: SyntaxKind = SyntaxKind(950);

    pub const ALTER_SEQUENCE: SyntaxKind = SyntaxKind(951);

    pub const CREATE_STATISTICS: SyntaxKind = SyntaxKind(952);

    pub const ALTER_STATISTICS: SyntaxKind = SyntaxKind(953);

    // Functions, aggregates and operators.
    pub const CREATE_FUNCTION: SyntaxKind = SyntaxKind(954);

    pub const CREATE_PROCEDURE: SyntaxKind = SyntaxKind(955);

    pub const PARAM_LIST: SyntaxKind = SyntaxKind(956);

    pub const PARAM: SyntaxKind = SyntaxKind(957);

    pub const RETURNS_CLAUSE: SyntaxKind = SyntaxKind(958);

    pub const FUNCTION_OPTION: SyntaxKind = SyntaxKind(959);

    pub const SET_OPTION: SyntaxKind = SyntaxKind(960);

    pub const RESET_OPTION: SyntaxKind = SyntaxKind(961);

    pub const FUNCTION_BODY: SyntaxKind = SyntaxKind(962);

    pub const RETURN: SyntaxKind = SyntaxKind(963);

    pub const ALTER_FUNCTION: SyntaxKind = SyntaxKind(964);

    pub const FUNCTION_SIGNATURE: SyntaxKind = SyntaxKind(965);

    pub const CREATE_AGGREGATE: SyntaxKind = SyntaxKind(966);

    pub const ALTER_AGGREGATE: SyntaxKind = SyntaxKind(967);

    pub const CREATE_OPERATOR: SyntaxKind = SyntaxKind(968);

    pub const OPERATOR_SIGNATURE: SyntaxKind = SyntaxKind(969);

    pub const OPERAND_TYPES: SyntaxKind = SyntaxKind(970);

    pub const ALTER_OPERATOR: SyntaxKind = SyntaxKind(971);

    pub const CREATE_OPERATOR_CLASS: SyntaxKind = SyntaxKind(972);

    pub const CLASS_ITEM: SyntaxKind = SyntaxKind(973);

    pub const CREATE_OPERATOR_FAMILY: SyntaxKind = SyntaxKind(974);

    pub const ALTER_OPERATOR_CLASS: SyntaxKind = SyntaxKind(975);

    pub const ALTER_OPERATOR_FAMILY: SyntaxKind = SyntaxKind(976);

    pub const CREATE_CAST: SyntaxKind = SyntaxKind(977);

    pub const CREATE_CONVERSION: SyntaxKind = SyntaxKind(978);

    pub const ALTER_CONVERSION: SyntaxKind = SyntaxKind(979);

    pub const CREATE_TRANSFORM: SyntaxKind = SyntaxKind(980);

    pub const CREATE_LANGUAGE: SyntaxKind = SyntaxKind(981);

    pub const ALTER_LANGUAGE: SyntaxKind = SyntaxKind(982);

    // Triggers, rules and policies.
    pub const CREATE_TRIGGER: SyntaxKind = SyntaxKind(983);

    pub const TRIGGER_EVENT: SyntaxKind = SyntaxKind(984);

    pub const REFERENCING_CLAUSE: SyntaxKind = SyntaxKind(985);

    pub const TRANSITION_TABLE: SyntaxKind = SyntaxKind(986);

    pub const ALTER_TRIGGER: SyntaxKind = SyntaxKind(987);

    pub const CREATE_EVENT_TRIGGER: SyntaxKind = SyntaxKind(988);

    pub const EVENT_FILTER: SyntaxKind = SyntaxKind(989);

    pub const ALTER_EVENT_TRIGGER: SyntaxKind = SyntaxKind(990);

    pub const CREATE_RULE: SyntaxKind = SyntaxKind(991);

    pub const ALTER_RULE: SyntaxKind = SyntaxKind(992);

    pub const CREATE_POLICY: SyntaxKind = SyntaxKind(993);

    pub const POLICY_USING: SyntaxKind = SyntaxKind(994);

    pub const POLICY_CHECK: SyntaxKind = SyntaxKind(995);

    pub const ALTER_POLICY: SyntaxKind = SyntaxKind(996);

    // Schemas, types and the like.
    pub const CREATE_SCHEMA: SyntaxKind = SyntaxKind(997);

    pub const ALTER_SCHEMA: SyntaxKind = SyntaxKind(998);

    pub const CREATE_TYPE: SyntaxKind = SyntaxKind(999);

    pub const ALTER_TYPE: SyntaxKind = SyntaxKind(1000);

    pub const TYPE_ACTION: SyntaxKind = SyntaxKind(1001);

    pub const CREATE_DOMAIN: SyntaxKind = SyntaxKind(1002);

    pub const ALTER_DOMAIN: SyntaxKind = SyntaxKind(1003);

    pub const CREATE_COLLATION: SyntaxKind = SyntaxKind(1004);

    pub const ALTER_COLLATION: SyntaxKind = SyntaxKind(1005);

    pub const CREATE_TEXT_SEARCH: SyntaxKind = SyntaxKind(1006);

    pub const ALTER_TEXT_SEARCH: SyntaxKind = SyntaxKind(1007);

    // Extensions and foreign data.
    pub const CREATE_EXTENSION: SyntaxKind = SyntaxKind(1008);

    pub const ALTER_EXTENSION: SyntaxKind = SyntaxKind(1009);

    pub const CREATE_ACCESS_METHOD: SyntaxKind = SyntaxKind(1010);

    pub const CREATE_FOREIGN_DATA_WRAPPER: SyntaxKind = SyntaxKind(1011);

    pub const ALTER_FOREIGN_DATA_WRAPPER: SyntaxKind = SyntaxKind(1012);

    pub const CREATE_SERVER: SyntaxKind = SyntaxKind(1013);

    pub const ALTER_SERVER: SyntaxKind = SyntaxKind(1014);

    pub const CREATE_FOREIGN_TABLE: SyntaxKind = SyntaxKind(1015);

    pub const ALTER_FOREIGN_TABLE: SyntaxKind = SyntaxKind(1016);

    pub const CREATE_USER_MAPPING: SyntaxKind = SyntaxKind(1017);

    pub const ALTER_USER_MAPPING: SyntaxKind = SyntaxKind(1018);

    // Replication, tablespaces and databases.
    pub const CREATE_PUBLICATION: SyntaxKind = SyntaxKind(1019);

    pub const PUBLICATION_ITEM: SyntaxKind = SyntaxKind(1020);

    pub const ALTER_PUBLICATION: SyntaxKind = SyntaxKind(1021);

    pub const CREATE_SUBSCRIPTION: SyntaxKind = SyntaxKind(1022);

    pub const ALTER_SUBSCRIPTION: SyntaxKind = SyntaxKind(1023);

    pub const CREATE_TABLESPACE: SyntaxKind = SyntaxKind(1024);

    pub const ALTER_TABLESPACE: SyntaxKind = SyntaxKind(1025);

    pub const CREATE_DATABASE: SyntaxKind = SyntaxKind(1026);

    pub const DATABASE_OPTION: SyntaxKind = SyntaxKind(1027);

    pub const ALTER_DATABASE: SyntaxKind = SyntaxKind(1028);

    pub const ALTER_LARGE_OBJECT: SyntaxKind = SyntaxKind(1029);

    // Roles and rights.
    pub const CREATE_ROLE: SyntaxKind = SyntaxKind(1030);

    pub const ROLE_OPTION: SyntaxKind = SyntaxKind(1031);

    pub const ALTER_ROLE: SyntaxKind = SyntaxKind(1032);

    pub const MEMBER_OPTION: SyntaxKind = SyntaxKind(1033);

    pub const GRANTED_BY: SyntaxKind = SyntaxKind(1034);

    pub const PRIVILEGE_LIST: SyntaxKind = SyntaxKind(1035);

    pub const PRIVILEGE: SyntaxKind = SyntaxKind(1036);

    pub const GRANT_TARGET: SyntaxKind = SyntaxKind(1037);

    pub const ALTER_DEFAULT_PRIVILEGES: SyntaxKind = SyntaxKind(1038);

    pub const DROP_OWNED: SyntaxKind = SyntaxKind(1039);

    // Objects that a statement names, transactions and sessions.
    pub const OBJECT: SyntaxKind = SyntaxKind(1040);

    pub const TRANSACTION_MODE: SyntaxKind = SyntaxKind(1041);

    pub const SET_CONSTRAINTS: SyntaxKind = SyntaxKind(1042);

    pub const ALTER_SYSTEM: SyntaxKind = SyntaxKind(1043);

    pub const COMMIT_PREPARED: SyntaxKind = SyntaxKind(1044);

    pub const ROLLBACK_PREPARED: SyntaxKind = SyntaxKind(1045);

    pub const PREPARE_TRANSACTION: SyntaxKind = SyntaxKind(1046);
}
