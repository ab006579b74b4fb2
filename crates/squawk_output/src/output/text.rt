//! Owned texts of errors.
ghost use Rattle.std.specs.Prelude.{◌≡◌, string_bytes, encode_utf8_all};
ghost use Rattle.std.specs.Str.{chars};

use std::marker::Model;

/// An owned text, which contracts see as its characters.
#[derive(Debug, Drop)]
pub struct Text {
    text: String,
}

impl Model for Text {
    ghost use Rattle.std.specs.Prelude.{List, ℕ, string_bytes};
    ghost use Rattle.std.specs.Str.{chars};

    ghost Value = { List ℕ };

    ghost view = { λ t. chars (string_bytes t.text) };
}

impl Text {
    /// The text of a string.
    pub fn new(text: String) -> Text
        ensures { result ≡ chars (string_bytes text) }
    {
        Text { text }
    }

    /// The characters of the text.
    pub fn as_str(&self) -> &str
        ensures chars { chars result.now ≡ self.now }
        ensures bytes { result.now ≡ encode_utf8_all self.now }
    {
        self.text.as_str()
    }
}

impl PartialEq for Text {
    ghost use Rattle.std.specs.Prelude.{nat_eq};
    ghost use Rattle.std.specs.Cmp.{partial_equiv_from_equiv};
    ghost use Rattle.std.specs.Cmp.Lexicographic.{pointwise, nat_list_eq_equiv};

    ghost eq = { pointwise nat_eq };

    ghost laws = { partial_equiv_from_equiv nat_list_eq_equiv };

    fn eq(&self, other: &Text) -> bool {
        self.text == other.text
    }
}

impl Eq for Text {
    ghost use Rattle.std.specs.Cmp.Lexicographic.{nat_list_eq_equiv};

    ghost laws = { nat_list_eq_equiv };
}
