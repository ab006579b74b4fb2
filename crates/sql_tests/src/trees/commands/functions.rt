//! Functions, aggregates, operators, casts, conversions, transforms and languages.

use crate::trees::assert_trees;
use std::test::Fail;

/// Texts, and what is in their files.
static CASES: [(&str, &str); 39] = [
    (
        "create or replace function shop.tax(in price numeric(9, 2), inout rate real = 0.23, variadic codes text[]) returns numeric language sql immutable strict leakproof security definer parallel safe cost 10 set search_path = shop, pg_temp as $$select 1$$",
        "CREATE_FUNCTION{create or replace function PATH{NAME_REF{shop}.NAME{tax}}PARAM_LIST{(PARAM{in NAME{price} TYPE{numericTYPE_ARGS{(LITERAL{9}, LITERAL{2})}}}, PARAM{inout NAME{rate} TYPE{real} = LITERAL{0.23}}, PARAM{variadic NAME{codes} TYPE{NAME_REF{text}[]}})} RETURNS_CLAUSE{returns TYPE{numeric}} FUNCTION_OPTION{language NAME_REF{sql}} FUNCTION_OPTION{immutable} FUNCTION_OPTION{strict} FUNCTION_OPTION{leakproof} FUNCTION_OPTION{security definer} FUNCTION_OPTION{parallel safe} FUNCTION_OPTION{cost LITERAL{10}} SET_OPTION{set PATH{NAME_REF{search_path}} = NAME_REF{shop}, NAME_REF{pg_temp}} FUNCTION_OPTION{as LITERAL{$$select 1$$}}}",
    ),
    (
        "create function late() returns table (id int, day date) stable rows 50 called on null input not leakproof external security invoker language 'sql' as 'select 1, current_date'",
        "CREATE_FUNCTION{create function PATH{NAME{late}}PARAM_LIST{()} RETURNS_CLAUSE{returns table (PARAM{NAME{id} TYPE{int}}, PARAM{NAME{day} TYPE{NAME_REF{date}}})} FUNCTION_OPTION{stable} FUNCTION_OPTION{rows LITERAL{50}} FUNCTION_OPTION{called on null input} FUNCTION_OPTION{not leakproof} FUNCTION_OPTION{external security invoker} FUNCTION_OPTION{language LITERAL{'sql'}} FUNCTION_OPTION{as LITERAL{'select 1, current_date'}}}",
    ),
    (
        "create function fill(internal, code out shop.book.isbn%type) returns setof shop.book as 'lib/fill', 'fill_rows' language c window transform for type hstore, for type jsonb support fill_support returns null on null input volatile",
        "CREATE_FUNCTION{create function PATH{NAME{fill}}PARAM_LIST{(PARAM{TYPE{NAME_REF{internal}}}, PARAM{NAME{code} out TYPE{NAME_REF{shop}.NAME_REF{book}.NAME_REF{isbn}%type}})} RETURNS_CLAUSE{returns TYPE{setof NAME_REF{shop}.NAME_REF{book}}} FUNCTION_OPTION{as LITERAL{'lib/fill'}, LITERAL{'fill_rows'}} FUNCTION_OPTION{language NAME_REF{c}} FUNCTION_OPTION{window} FUNCTION_OPTION{transform for type TYPE{NAME_REF{hstore}}, for type TYPE{NAME_REF{jsonb}}} FUNCTION_OPTION{support PATH{NAME_REF{fill_support}}} FUNCTION_OPTION{returns null on null input} FUNCTION_OPTION{volatile}}",
    ),
    (
        "create function net(numeric) returns numeric return $1 / 1.23",
        "CREATE_FUNCTION{create function PATH{NAME{net}}PARAM_LIST{(PARAM{TYPE{numeric}})} RETURNS_CLAUSE{returns TYPE{numeric}} FUNCTION_BODY{return BIN_EXPR{PARAM_REF{$1} / LITERAL{1.23}}}}",
    ),
    (
        "create function next_book() returns int language sql begin atomic insert into book default values; select max(id) from book; end;",
        "CREATE_FUNCTION{create function PATH{NAME{next_book}}PARAM_LIST{()} RETURNS_CLAUSE{returns TYPE{int}} FUNCTION_OPTION{language NAME_REF{sql}} FUNCTION_BODY{begin atomic INSERT{insert into PATH{NAME_REF{book}} default values}; QUERY{SELECT{select TARGET_LIST{TARGET{CALL_EXPR{NAME_REF{max}ARG_LIST{(NAME_REF{id})}}}} FROM_CLAUSE{from FROM_TABLE{PATH{NAME_REF{book}}}}}}; end};}",
    ),
    (
        "create procedure shop.restock(book int, number int default 1) language sql begin atomic update stock set left_over = number; return 1; end",
        "CREATE_PROCEDURE{create procedure PATH{NAME_REF{shop}.NAME{restock}}PARAM_LIST{(PARAM{NAME{book} TYPE{int}}, PARAM{NAME{number} TYPE{int} default LITERAL{1}})} FUNCTION_OPTION{language NAME_REF{sql}} FUNCTION_BODY{begin atomic UPDATE{update TARGET_TABLE{RELATION{PATH{NAME_REF{stock}}}} SET_CLAUSE{set SET_ITEM{SET_COLUMN{NAME_REF{left_over}} = NAME_REF{number}}}}; RETURN{return LITERAL{1}}; end}}",
    ),
    (
        "alter function shop.tax(numeric, real) stable cost 20 set work_mem to '8MB' restrict",
        "ALTER_FUNCTION{alter function FUNCTION_SIGNATURE{PATH{NAME_REF{shop}.NAME_REF{tax}}PARAM_LIST{(PARAM{TYPE{numeric}}, PARAM{TYPE{real}})}} FUNCTION_OPTION{stable} FUNCTION_OPTION{cost LITERAL{20}} SET_OPTION{set PATH{NAME_REF{work_mem}} to LITERAL{'8MB'}} restrict}",
    ),
    (
        "alter function tax reset all",
        "ALTER_FUNCTION{alter function FUNCTION_SIGNATURE{PATH{NAME_REF{tax}}} RESET_OPTION{reset all}}",
    ),
    (
        "alter function tax(numeric) rename to vat",
        "ALTER_FUNCTION{alter function FUNCTION_SIGNATURE{PATH{NAME_REF{tax}}PARAM_LIST{(PARAM{TYPE{numeric}})}} RENAME_TO{rename to NAME{vat}}}",
    ),
    (
        "alter function tax() depends on extension hstore",
        "ALTER_FUNCTION{alter function FUNCTION_SIGNATURE{PATH{NAME_REF{tax}}PARAM_LIST{()}} DEPENDS_ON{depends on extension NAME_REF{hstore}}}",
    ),
    (
        "alter procedure restock(in book int) set schema archive",
        "ALTER_FUNCTION{alter procedure FUNCTION_SIGNATURE{PATH{NAME_REF{restock}}PARAM_LIST{(PARAM{in NAME{book} TYPE{int}})}} SET_SCHEMA{set schema NAME_REF{archive}}}",
    ),
    (
        "alter routine restock owner to ana",
        "ALTER_FUNCTION{alter routine FUNCTION_SIGNATURE{PATH{NAME_REF{restock}}} OWNER_TO{owner to ROLE_REF{ana}}}",
    ),
    (
        "create or replace aggregate shop.mean(price numeric) (sfunc = mean_step, stype = numeric[], initcond = '0,0', hypothetical, sortop = <)",
        "CREATE_AGGREGATE{create or replace aggregate PATH{NAME_REF{shop}.NAME{mean}}PARAM_LIST{(PARAM{NAME{price} TYPE{numeric}})} OPTION_LIST{(OPTION{NAME_REF{sfunc} = TYPE{NAME_REF{mean_step}}}, OPTION{NAME_REF{stype} = TYPE{numeric[]}}, OPTION{NAME_REF{initcond} = LITERAL{'0,0'}}, OPTION{NAME_REF{hypothetical}}, OPTION{NAME_REF{sortop} = OP{<}})}}",
    ),
    (
        "create aggregate tally(*) (sfunc = int8inc, stype = bigint)",
        "CREATE_AGGREGATE{create aggregate PATH{NAME{tally}}PARAM_LIST{(*)} OPTION_LIST{(OPTION{NAME_REF{sfunc} = TYPE{NAME_REF{int8inc}}}, OPTION{NAME_REF{stype} = TYPE{bigint}})}}",
    ),
    (
        "create aggregate nth(int order by value anyelement) (sfunc = nth_step, stype = internal)",
        "CREATE_AGGREGATE{create aggregate PATH{NAME{nth}}PARAM_LIST{(PARAM{TYPE{int}} order by PARAM{NAME{value} TYPE{NAME_REF{anyelement}}})} OPTION_LIST{(OPTION{NAME_REF{sfunc} = TYPE{NAME_REF{nth_step}}}, OPTION{NAME_REF{stype} = TYPE{NAME_REF{internal}}})}}",
    ),
    // The form of old versions.
    (
        "create aggregate total (basetype = int, sfunc = int4pl, stype = int)",
        "CREATE_AGGREGATE{create aggregate PATH{NAME{total}} OPTION_LIST{(OPTION{NAME_REF{basetype} = TYPE{int}}, OPTION{NAME_REF{sfunc} = TYPE{NAME_REF{int4pl}}}, OPTION{NAME_REF{stype} = TYPE{int}})}}",
    ),
    (
        "alter aggregate shop.mean(numeric) rename to average",
        "ALTER_AGGREGATE{alter aggregate FUNCTION_SIGNATURE{PATH{NAME_REF{shop}.NAME_REF{mean}}PARAM_LIST{(PARAM{TYPE{numeric}})}} RENAME_TO{rename to NAME{average}}}",
    ),
    (
        "alter aggregate tally(*) owner to ana",
        "ALTER_AGGREGATE{alter aggregate FUNCTION_SIGNATURE{PATH{NAME_REF{tally}}PARAM_LIST{(*)}} OWNER_TO{owner to ROLE_REF{ana}}}",
    ),
    (
        "alter aggregate nth(order by anyelement) set schema shop",
        "ALTER_AGGREGATE{alter aggregate FUNCTION_SIGNATURE{PATH{NAME_REF{nth}}PARAM_LIST{(order by PARAM{TYPE{NAME_REF{anyelement}}})}} SET_SCHEMA{set schema NAME_REF{shop}}}",
    ),
    (
        "create operator shop.## (leftarg = box, function = shop.box_meet, commutator = ##, negator = operator(shop.!#), hashes)",
        "CREATE_OPERATOR{create operator OP{NAME_REF{shop}.CUSTOM_OP{##}} OPTION_LIST{(OPTION{NAME_REF{leftarg} = TYPE{NAME_REF{box}}}, OPTION{NAME_REF{function} = TYPE{NAME_REF{shop}.NAME_REF{box_meet}}}, OPTION{NAME_REF{commutator} = OP{CUSTOM_OP{##}}}, OPTION{NAME_REF{negator} = operator(OP{NAME_REF{shop}.CUSTOM_OP{!#}})}, OPTION{NAME_REF{hashes}})}}",
    ),
    (
        "alter operator ## (box, box) owner to ana",
        "ALTER_OPERATOR{alter operator OPERATOR_SIGNATURE{OP{CUSTOM_OP{##}} OPERAND_TYPES{(TYPE{NAME_REF{box}}, TYPE{NAME_REF{box}})}} OWNER_TO{owner to ROLE_REF{ana}}}",
    ),
    (
        "alter operator shop.- (none, bit varying(8)) set schema public",
        "ALTER_OPERATOR{alter operator OPERATOR_SIGNATURE{OP{NAME_REF{shop}.-} OPERAND_TYPES{(none, TYPE{bit varyingTYPE_ARGS{(LITERAL{8})}})}} SET_SCHEMA{set schema NAME_REF{public}}}",
    ),
    (
        "alter operator && (int[], int[]) set (restrict = contsel, join = none)",
        "ALTER_OPERATOR{alter operator OPERATOR_SIGNATURE{OP{CUSTOM_OP{&&}} OPERAND_TYPES{(TYPE{int[]}, TYPE{int[]})}} set (OPTION{NAME_REF{restrict} = TYPE{NAME_REF{contsel}}}, OPTION{NAME_REF{join} = none})}",
    ),
    (
        "create operator class shop.isbn_ops default for type isbn using gist family code_ops as operator 1 <, operator 2 shop.<-> (isbn, text) for order by code_order, operator 3 = for search, function 1 (isbn) isbn_cmp(isbn, isbn), storage text",
        "CREATE_OPERATOR_CLASS{create operator class PATH{NAME_REF{shop}.NAME{isbn_ops}} default for type TYPE{NAME_REF{isbn}} using NAME_REF{gist} family PATH{NAME_REF{code_ops}} as CLASS_ITEM{operator LITERAL{1} OP{<}}, CLASS_ITEM{operator LITERAL{2} OP{NAME_REF{shop}.CUSTOM_OP{<->}} OPERAND_TYPES{(TYPE{NAME_REF{isbn}}, TYPE{NAME_REF{text}})} for order by PATH{NAME_REF{code_order}}}, CLASS_ITEM{operator LITERAL{3} OP{=} for search}, CLASS_ITEM{function LITERAL{1} (TYPE{NAME_REF{isbn}}) FUNCTION_SIGNATURE{PATH{NAME_REF{isbn_cmp}}PARAM_LIST{(PARAM{TYPE{NAME_REF{isbn}}}, PARAM{TYPE{NAME_REF{isbn}}})}}}, CLASS_ITEM{storage TYPE{NAME_REF{text}}}}",
    ),
    (
        "alter operator class isbn_ops using gist rename to ean_ops",
        "ALTER_OPERATOR_CLASS{alter operator class PATH{NAME_REF{isbn_ops}} using NAME_REF{gist} RENAME_TO{rename to NAME{ean_ops}}}",
    ),
    (
        "create operator family shop.code_ops using btree",
        "CREATE_OPERATOR_FAMILY{create operator family PATH{NAME_REF{shop}.NAME{code_ops}} using NAME_REF{btree}}",
    ),
    (
        "alter operator family code_ops using btree add operator 1 < (int, bigint), function 1 (int, bigint) code_cmp(int, bigint)",
        "ALTER_OPERATOR_FAMILY{alter operator family PATH{NAME_REF{code_ops}} using NAME_REF{btree} add CLASS_ITEM{operator LITERAL{1} OP{<} OPERAND_TYPES{(TYPE{int}, TYPE{bigint})}}, CLASS_ITEM{function LITERAL{1} (TYPE{int}, TYPE{bigint}) FUNCTION_SIGNATURE{PATH{NAME_REF{code_cmp}}PARAM_LIST{(PARAM{TYPE{int}}, PARAM{TYPE{bigint}})}}}}",
    ),
    (
        "alter operator family code_ops using btree drop operator 1 (int, bigint), function 1 (int, bigint)",
        "ALTER_OPERATOR_FAMILY{alter operator family PATH{NAME_REF{code_ops}} using NAME_REF{btree} drop CLASS_ITEM{operator LITERAL{1} (TYPE{int}, TYPE{bigint})}, CLASS_ITEM{function LITERAL{1} (TYPE{int}, TYPE{bigint})}}",
    ),
    (
        "alter operator family code_ops using btree owner to ana",
        "ALTER_OPERATOR_FAMILY{alter operator family PATH{NAME_REF{code_ops}} using NAME_REF{btree} OWNER_TO{owner to ROLE_REF{ana}}}",
    ),
    (
        "create cast (bigint as shop.isbn) with function to_isbn(bigint, int) as assignment",
        "CREATE_CAST{create cast (TYPE{bigint} as TYPE{NAME_REF{shop}.NAME_REF{isbn}}) with function FUNCTION_SIGNATURE{PATH{NAME_REF{to_isbn}}PARAM_LIST{(PARAM{TYPE{bigint}}, PARAM{TYPE{int}})}} as assignment}",
    ),
    (
        "create cast (text as isbn) without function as implicit",
        "CREATE_CAST{create cast (TYPE{NAME_REF{text}} as TYPE{NAME_REF{isbn}}) without function as implicit}",
    ),
    (
        "create cast (isbn as text) with inout",
        "CREATE_CAST{create cast (TYPE{NAME_REF{isbn}} as TYPE{NAME_REF{text}}) with inout}",
    ),
    (
        "create default conversion shop.from_old for 'LATIN1' to 'UTF8' from shop.old_to_utf8",
        "CREATE_CONVERSION{create default conversion PATH{NAME_REF{shop}.NAME{from_old}} for LITERAL{'LATIN1'} to LITERAL{'UTF8'} from PATH{NAME_REF{shop}.NAME_REF{old_to_utf8}}}",
    ),
    (
        "alter conversion from_old rename to from_latin",
        "ALTER_CONVERSION{alter conversion PATH{NAME_REF{from_old}} RENAME_TO{rename to NAME{from_latin}}}",
    ),
    (
        "create or replace transform for hstore language plpython3u (from sql with function to_dict(internal), to sql with function from_dict(internal))",
        "CREATE_TRANSFORM{create or replace transform for TYPE{NAME_REF{hstore}} language NAME_REF{plpython3u} (from sql with function FUNCTION_SIGNATURE{PATH{NAME_REF{to_dict}}PARAM_LIST{(PARAM{TYPE{NAME_REF{internal}}})}}, to sql with function FUNCTION_SIGNATURE{PATH{NAME_REF{from_dict}}PARAM_LIST{(PARAM{TYPE{NAME_REF{internal}}})}})}",
    ),
    (
        "create or replace trusted procedural language plsample handler pl.call inline pl_inline validator pl_check",
        "CREATE_LANGUAGE{create or replace trusted procedural language NAME{plsample} handler PATH{NAME_REF{pl}.NAME_REF{call}} inline PATH{NAME_REF{pl_inline}} validator PATH{NAME_REF{pl_check}}}",
    ),
    (
        "create language plsample",
        "CREATE_LANGUAGE{create language NAME{plsample}}",
    ),
    (
        "alter procedural language plsample rename to plother",
        "ALTER_LANGUAGE{alter procedural language NAME_REF{plsample} RENAME_TO{rename to NAME{plother}}}",
    ),
    (
        "alter language plsample owner to ana",
        "ALTER_LANGUAGE{alter language NAME_REF{plsample} OWNER_TO{owner to ROLE_REF{ana}}}",
    ),
];

#[test]
fn functions_have_trees(rt: HostRuntime) -> Result<(), Fail> {
    assert_trees(&rt, &CASES)
}
