//! The classes of bytes.
ghost use Rattle.std.specs.Prelude.{◌≡◌};
ghost use Rattle.sql_lexer.specs.Bytes as spec;

/// What a byte begins, and where in an identifier it stands.
#[derive(Clone, Copy)]
enum Class {
    /// One of several tokens.
    Other,
    /// White space.
    Space,
    /// A token of one byte, whatever stands behind it.
    Alone,
    /// From here on: an identifier goes on with it.
    Dollar,
    /// From here on: the tag of a dollar quote goes on with it, too.
    Digit,
    /// Both begin with it, too.
    Letter,
}

const O: Class = Class::Other;

const S: Class = Class::Space;

const A: Class = Class::Alone;

const D: Class = Class::Dollar;

const N: Class = Class::Digit;

const L: Class = Class::Letter;

static CLASSES: [Class; 256] = [
    A, A, A, A, A, A, A, A, A, S, S, S, S, S, A, A, A, A, A, A, A, A, A, A, A, A, A, A, A, A, A, A,
    S, A, O, A, D, A, A, O, A, A, A, A, A, O, O, O, N, N, N, N, N, N, N, N, N, N, A, A, A, A, A, A,
    A, L, L, L, L, L, L, L, L, L, L, L, L, L, L, L, L, L, L, L, L, L, L, L, L, L, L, A, O, A, A, L,
    A, L, L, L, L, L, L, L, L, L, L, L, L, L, L, L, L, L, L, L, L, L, L, L, L, L, L, A, A, A, A, A,
    L, L, L, L, L, L, L, L, L, L, L, L, L, L, L, L, L, L, L, L, L, L, L, L, L, L, L, L, L, L, L, L,
    L, L, L, L, L, L, L, L, L, L, L, L, L, L, L, L, L, L, L, L, L, L, L, L, L, L, L, L, L, L, L, L,
    L, L, L, L, L, L, L, L, L, L, L, L, L, L, L, L, L, L, L, L, L, L, L, L, L, L, L, L, L, L, L, L,
    L, L, L, L, L, L, L, L, L, L, L, L, L, L, L, L, L, L, L, L, L, L, L, L, L, L, L, L, L, L, L, L,
];

/// Tab, newline, vertical tab, form feed, carriage return and space.
#[inline(always)]
pub(crate) fn is_space(b: u8) -> bool
    ensures { result ≡ spec.is_space b }
{
    CLASSES[b as usize] as u8 == Class::Space as u8
}

/// Whether a byte is a token, whatever stands behind it.
#[inline(always)]
pub(crate) fn stands_alone(b: u8) -> bool
    ensures { result ≡ spec.stands_alone b }
{
    CLASSES[b as usize] as u8 == Class::Alone as u8
}

/// A line ends at a newline or a carriage return.
#[inline(always)]
pub(crate) fn is_line_end(b: u8) -> bool
    ensures { result ≡ spec.is_line_end b }
{
    matches!(b, b'\n' | b'\r')
}

/// Whether an identifier begins with this byte.
#[inline(always)]
pub(crate) fn is_name_start(b: u8) -> bool
    ensures { result ≡ spec.is_name_start b }
{
    CLASSES[b as usize] as u8 == Class::Letter as u8
}

/// Whether the tag of a dollar quote goes on with this byte.
#[inline(always)]
pub(crate) fn is_tag_part(b: u8) -> bool
    ensures { result ≡ spec.is_tag_part b }
{
    CLASSES[b as usize] as u8 >= Class::Digit as u8
}

/// Whether an identifier goes on with this byte.
#[inline(always)]
pub(crate) fn is_name_part(b: u8) -> bool
    ensures { result ≡ spec.is_name_part b }
{
    CLASSES[b as usize] as u8 >= Class::Dollar as u8
}
