//! The places of the reserved words. The definitions have the same names in `specs/WordPlaces.antt`.

pub const ABS: u32 = 0;

pub const ACYCLIC: u32 = 1;

pub const ALL: u32 = 2;

pub const AND: u32 = 3;

pub const ANY: u32 = 4;

pub const AS: u32 = 5;

pub const ASC: u32 = 6;

pub const ASCENDING: u32 = 7;

pub const BOOL: u32 = 8;

pub const BOOLEAN: u32 = 9;

pub const BY: u32 = 10;

pub const CARDINALITY: u32 = 11;

pub const CHAR_LENGTH: u32 = 12;

pub const CLOSE: u32 = 13;

pub const COALESCE: u32 = 14;

pub const COLLECT_LIST: u32 = 15;

pub const COLUMNS: u32 = 16;

pub const COMMIT: u32 = 17;

pub const COUNT: u32 = 18;

pub const CREATE: u32 = 19;

pub const DATE: u32 = 20;

pub const DELETE: u32 = 21;

pub const DESC: u32 = 22;

pub const DESCENDING: u32 = 23;

pub const DESTINATION: u32 = 24;

pub const DETACH: u32 = 25;

pub const DIFFERENT: u32 = 26;

pub const DIRECTED: u32 = 27;

pub const DISTINCT: u32 = 28;

pub const DROP: u32 = 29;

pub const EDGES: u32 = 30;

pub const ELEMENTS: u32 = 31;

pub const EXCEPT: u32 = 32;

pub const EXISTS: u32 = 33;

pub const FALSE: u32 = 34;

pub const FILTER: u32 = 35;

pub const FIRST: u32 = 36;

pub const FOR: u32 = 37;

pub const FROM: u32 = 38;

pub const GRAPH: u32 = 39;

pub const GRAPH_TABLE: u32 = 40;

pub const GROUP: u32 = 41;

pub const GROUPS: u32 = 42;

pub const IF: u32 = 43;

pub const IN: u32 = 44;

pub const INSERT: u32 = 45;

pub const INT: u32 = 46;

pub const INT64: u32 = 47;

pub const INTEGER: u32 = 48;

pub const INTERSECT: u32 = 49;

pub const IS: u32 = 50;

pub const LABELED: u32 = 51;

pub const LAST: u32 = 52;

pub const LET: u32 = 53;

pub const LIMIT: u32 = 54;

pub const LIST: u32 = 55;

pub const MATCH: u32 = 56;

pub const MAX: u32 = 57;

pub const MIN: u32 = 58;

pub const MOD: u32 = 59;

pub const NEXT: u32 = 60;

pub const NODETACH: u32 = 61;

pub const NOT: u32 = 62;

pub const NULL: u32 = 63;

pub const NULLS: u32 = 64;

pub const OF: u32 = 65;

pub const OFFSET: u32 = 66;

pub const ONLY: u32 = 67;

pub const OPTIONAL: u32 = 68;

pub const OR: u32 = 69;

pub const ORDER: u32 = 70;

pub const ORDINALITY: u32 = 71;

pub const OTHERWISE: u32 = 72;

pub const PATH: u32 = 73;

pub const PATHS: u32 = 74;

pub const PATH_LENGTH: u32 = 75;

pub const PROPERTY: u32 = 76;

pub const READ: u32 = 77;

pub const REMOVE: u32 = 78;

pub const REPEATABLE: u32 = 79;

pub const RESET: u32 = 80;

pub const RETURN: u32 = 81;

pub const ROLLBACK: u32 = 82;

pub const SELECT: u32 = 83;

pub const SESSION: u32 = 84;

pub const SET: u32 = 85;

pub const SHORTEST: u32 = 86;

pub const SIMPLE: u32 = 87;

pub const SKIP: u32 = 88;

pub const SOURCE: u32 = 89;

pub const START: u32 = 90;

pub const STRING: u32 = 91;

pub const SUM: u32 = 92;

pub const TRAIL: u32 = 93;

pub const TRANSACTION: u32 = 94;

pub const TRUE: u32 = 95;

pub const TYPE: u32 = 96;

pub const TYPED: u32 = 97;

pub const UNION: u32 = 98;

pub const UNKNOWN: u32 = 99;

pub const VALUE: u32 = 100;

pub const WALK: u32 = 101;

pub const WHERE: u32 = 102;

pub const WITH: u32 = 103;

pub const WRITE: u32 = 104;

pub const XOR: u32 = 105;
