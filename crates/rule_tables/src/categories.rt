//! Classes of keywords by a vocabulary.
ghost use Rattle.std.specs.Prelude.{◌≡◌, IsSomeAnd, codes};
ghost use Rattle.rule_tables.specs.Vocabulary.{IsUnreserved, named};

use crate::sets::without;
use squawk_kinds::{TokenSet, Vocabulary};

/// Classes of keywords by the categories of a vocabulary, with the names that PostgreSQL has for them: `keyword`, which
/// has all, `reserved`, `col_name`, `type_func_name`, and `unreserved`, which has those that are in no other category.
pub fn keyword_classes<V: Vocabulary>(words: &V) -> [(&'static str, TokenSet); 5]
    ensures keyword { named result (codes "keyword") ≡ Some (V.all_keywords words.now) }
    ensures reserved { named result (codes "reserved") ≡ Some (V.reserved_keywords words.now) }
    ensures col_name { named result (codes "col_name") ≡ Some (V.col_name_keyword_first words.now) }
    ensures type_func_name { named result (codes "type_func_name") ≡ Some (V.type_func_name_keywords words.now) }
    ensures unreserved { IsSomeAnd (named result (codes "unreserved")) (IsUnreserved (V.all_keywords words.now) (V.reserved_keywords words.now) (V.col_name_keyword_first words.now) (V.type_func_name_keywords words.now)) }
{
    [
        ("keyword", words.all_keywords()),
        ("reserved", words.reserved_keywords()),
        ("col_name", words.col_name_keyword_first()),
        ("type_func_name", words.type_func_name_keywords()),
        ("unreserved", unreserved(words)),
    ]
}

/// The keywords that are in no category.
fn unreserved<V: Vocabulary>(words: &V) -> TokenSet
    ensures { IsUnreserved (V.all_keywords words.now) (V.reserved_keywords words.now) (V.col_name_keyword_first words.now) (V.type_func_name_keywords words.now) result }
{
    let all = without(words.all_keywords(), words.reserved_keywords());
    let others = without(all, words.col_name_keyword_first());
    without(others, words.type_func_name_keywords())
}
