//! COMMENT and SECURITY LABEL, on each kind of object.

use crate::trees::assert_trees;
use std::test::Fail;

/// Texts, and what is in their files.
static CASES: [(&str, &str); 23] = [
    (
        "comment on table shop.book is 'Books on sale.'",
        "COMMENT_ON{comment on OBJECT{table PATH{NAME_REF{shop}.NAME_REF{book}}} is LITERAL{'Books on sale.'}}",
    ),
    (
        "comment on access method heap2 is 'x'",
        "COMMENT_ON{comment on OBJECT{access method NAME_REF{heap2}} is LITERAL{'x'}}",
    ),
    (
        "comment on aggregate mean(int, real) is null",
        "COMMENT_ON{comment on OBJECT{aggregate FUNCTION_SIGNATURE{PATH{NAME_REF{mean}}PARAM_LIST{(PARAM{TYPE{int}}, PARAM{TYPE{real}})}}} is null}",
    ),
    (
        "comment on aggregate tally(*) is null",
        "COMMENT_ON{comment on OBJECT{aggregate FUNCTION_SIGNATURE{PATH{NAME_REF{tally}}PARAM_LIST{(*)}}} is null}",
    ),
    (
        "comment on cast (text as isbn) is null",
        "COMMENT_ON{comment on OBJECT{cast (TYPE{NAME_REF{text}} as TYPE{NAME_REF{isbn}})} is null}",
    ),
    (
        "comment on collation shop.natural_order is null",
        "COMMENT_ON{comment on OBJECT{collation PATH{NAME_REF{shop}.NAME_REF{natural_order}}} is null}",
    ),
    (
        "comment on constraint has_price on shop.book is null",
        "COMMENT_ON{comment on OBJECT{constraint NAME_REF{has_price} on PATH{NAME_REF{shop}.NAME_REF{book}}} is null}",
    ),
    (
        "comment on constraint is_isbn on domain isbn is null",
        "COMMENT_ON{comment on OBJECT{constraint NAME_REF{is_isbn} on domain PATH{NAME_REF{isbn}}} is null}",
    ),
    (
        "comment on domain isbn is null",
        "COMMENT_ON{comment on OBJECT{domain TYPE{NAME_REF{isbn}}} is null}",
    ),
    (
        "comment on event trigger no_drops is null",
        "COMMENT_ON{comment on OBJECT{event trigger NAME_REF{no_drops}} is null}",
    ),
    (
        "comment on function tax(price numeric) is null",
        "COMMENT_ON{comment on OBJECT{function FUNCTION_SIGNATURE{PATH{NAME_REF{tax}}PARAM_LIST{(PARAM{NAME{price} TYPE{numeric}})}}} is null}",
    ),
    (
        "comment on large object 12 is null",
        "COMMENT_ON{comment on OBJECT{large object LITERAL{12}} is null}",
    ),
    (
        "comment on operator shop.## (int, int) is null",
        "COMMENT_ON{comment on OBJECT{operator OPERATOR_SIGNATURE{OP{NAME_REF{shop}.CUSTOM_OP{##}} OPERAND_TYPES{(TYPE{int}, TYPE{int})}}} is null}",
    ),
    (
        "comment on operator - (none, isbn) is null",
        "COMMENT_ON{comment on OBJECT{operator OPERATOR_SIGNATURE{OP{-} OPERAND_TYPES{(none, TYPE{NAME_REF{isbn}})}}} is null}",
    ),
    (
        "comment on operator class isbn_ops using btree is null",
        "COMMENT_ON{comment on OBJECT{operator class PATH{NAME_REF{isbn_ops}} using NAME_REF{btree}} is null}",
    ),
    (
        "comment on policy own_rows on book is null",
        "COMMENT_ON{comment on OBJECT{policy NAME_REF{own_rows} on PATH{NAME_REF{book}}} is null}",
    ),
    (
        "comment on role clerk is null",
        "COMMENT_ON{comment on OBJECT{role NAME_REF{clerk}} is null}",
    ),
    (
        "comment on rule no_insert on book is null",
        "COMMENT_ON{comment on OBJECT{rule NAME_REF{no_insert} on PATH{NAME_REF{book}}} is null}",
    ),
    (
        "comment on text search parser words is null",
        "COMMENT_ON{comment on OBJECT{text search parser PATH{NAME_REF{words}}} is null}",
    ),
    (
        "comment on transform for hstore language plpython3u is null",
        "COMMENT_ON{comment on OBJECT{transform for TYPE{NAME_REF{hstore}} language NAME_REF{plpython3u}} is null}",
    ),
    (
        "comment on trigger stamp on book is null",
        "COMMENT_ON{comment on OBJECT{trigger NAME_REF{stamp} on PATH{NAME_REF{book}}} is null}",
    ),
    (
        "security label for selinux on table book is 'shop_t'",
        "SECURITY_LABEL{security label for NAME_REF{selinux} on OBJECT{table PATH{NAME_REF{book}}} is LITERAL{'shop_t'}}",
    ),
    (
        "security label on column shop.book.price is null",
        "SECURITY_LABEL{security label on OBJECT{column PATH{NAME_REF{shop}.NAME_REF{book}.NAME_REF{price}}} is null}",
    ),
];

#[test]
fn comments_have_trees(rt: HostRuntime) -> Result<(), Fail> {
    assert_trees(&rt, &CASES)
}
