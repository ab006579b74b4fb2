//! Prints the line of a fault, without allocating.
ghost use Rattle.std.specs.Prelude.{◌≡◌, ◌+◌, ◌<◌, [], ◌∷◌, false, true};
ghost use Rattle.std.specs.Fmt.{decimal};
ghost use Rattle.std.specs.Io.KnownBytes.{Appends};
ghost use Rattle.squawk_answer.specs.Fault.{number_text, printed_line};
ghost use Rattle.squawk_answer.specs.Watched.{after_write};
ghost use Rattle.squawk_answer.specs.Writes.{AppendsPart};

use crate::fault::Fault;
use crate::watch::Watch;
use std::io::Write;

/// Prints the line of a fault, or a prefix of it if a write fails. Returns whether it printed all.
#[tactic(auto, using(crate::proofs::Parts::part_second))]
pub fn print_line<W: Write>(watch: &mut Watch, writer: &mut W, fault: Fault) -> bool
    ensures all { result ≡ true → Appends (W.contents writer.old) (W.contents writer.new) (printed_line fault) }
    ensures part { result ≡ false → AppendsPart (W.contents writer.old) (W.contents writer.new) (printed_line fault) }
    ensures watched { watch.new ≡ after_write watch.old result }
{
    let (text, number) = fault.parts();
    if !watch.write_all(writer, text.as_bytes()) {
        return false;
    }
    if !print_number(watch, writer, number) {
        return false;
    }
    watch.write_all(writer, b"\n")
}

/// Prints a number, if there is one.
fn print_number<W: Write>(watch: &mut Watch, writer: &mut W, number: Option<usize>) -> bool
    ensures all { result ≡ true → Appends (W.contents writer.old) (W.contents writer.new) (number_text number) }
    ensures part { result ≡ false → AppendsPart (W.contents writer.old) (W.contents writer.new) (number_text number) }
    ensures watched { watch.new ≡ after_write watch.old result }
{
    match number {
        Some(n) => print_decimal(watch, writer, n),
        None => true,
    }
}

/// Prints a number in decimal.
#[tactic(auto, using(crate::proofs::Parts::part_second, std::proofs::lemmas::Fmt::decimal_digit, std::proofs::lemmas::Fmt::decimal_step))]
fn print_decimal<W: Write>(watch: &mut Watch, writer: &mut W, n: usize) -> bool
    ensures all { result ≡ true → Appends (W.contents writer.old) (W.contents writer.new) (decimal n) }
    ensures part { result ≡ false → AppendsPart (W.contents writer.old) (W.contents writer.new) (decimal n) }
    ensures watched { watch.new ≡ after_write watch.old result }
{
    if n < 10 {
        return print_digit(watch, writer, n);
    }
    if !print_decimal(watch, writer, n / 10) {
        return false;
    }
    print_digit(watch, writer, n % 10)
}

/// Prints a digit.
fn print_digit<W: Write>(watch: &mut Watch, writer: &mut W, digit: usize) -> bool
    requires { digit < 10 }
    ensures all { result ≡ true → Appends (W.contents writer.old) (W.contents writer.new) ((48 + digit) ∷ []) }
    ensures part { result ≡ false → AppendsPart (W.contents writer.old) (W.contents writer.new) ((48 + digit) ∷ []) }
    ensures watched { watch.new ≡ after_write watch.old result }
{
    watch.write_all(writer, &[b'0' + digit as u8])
}
