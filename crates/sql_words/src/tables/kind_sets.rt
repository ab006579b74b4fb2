//! Sets of the kinds of keywords. Written by `tables.py`.

use squawk_kinds::TokenSet;

/// The kinds of keywords.
#[rattlefmt::skip]
pub const KEYWORDS: TokenSet = TokenSet([
    0, 16637951, 0, 18446744073709551360, 18446744073709551615, 18446744073709551615, 18446744073709551615,
    18446744073709551615, 18446744073709551615, 4611686018427387903
]);

/// The kinds of contextual keywords.
#[rattlefmt::skip]
pub const CONTEXTUAL: TokenSet = TokenSet([
    0, 18446744073692774400, 127, 0, 0, 0, 0, 0, 0, 0
]);

/// The kinds of the keywords of the category `Reserved`.
#[rattlefmt::skip]
pub const RESERVED: TokenSet = TokenSet([
    0, 9207938, 0, 9370869323300667392, 2343003205694656514, 288232729878003746, 9367487225035685968, 1125917120266444,
    4631952251144372225, 7423876333698
]);

/// The kinds of the keywords of the category `ColName`.
#[rattlefmt::skip]
pub const COL_NAME: TokenSet = TokenSet([
    0, 8, 0, 4665732924807577600, 412316860416, 2305843352815305728, 1448083202060582956, 35185714283520,
    562958677574144, 1152358556264038481
]);

/// The kinds of the keywords of the category `TypeFuncName`.
#[rattlefmt::skip]
pub const TYPE_FUNC_NAME: TokenSet = TokenSet([
    0, 6291521, 0, 558345748480, 135266561, 1152921505412153344, 36099165764191488, 10240, 72057594037927944, 8589934592
]);
