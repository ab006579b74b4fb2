//! Steps as numbers.
ghost use Rattle.std.specs.Prelude.{◌≡◌, ◌+◌, ◌<◌, ◌≤◌, ◌^◌, ◌↔◌, ◌∷◌, ◌++◌, List, [], IsTrue, encode_utf8_all, length};
ghost use Rattle.std.specs.Str.{chars};
ghost use Rattle.squawk_output.specs.Steps.{errors_in};
ghost use Rattle.squawk_table.specs.Sent.{sent_list, texts_of};
ghost use Rattle.squawk_table.specs.Shape.{Fits};
ghost use Rattle.squawk_table.specs.SinkViews.{owned_step_of};
ghost use Rattle.squawk_table.specs.declared.shortcuts.str_step.OwnedStep.{OwnedStep};
ghost use Rattle.caliperdock_c.specs.Overlays.{over};
ghost use Rattle.caliperdock_c.specs.Steps.{HaveNumbers, numbered_steps};
ghost use Rattle.caliperdock_c.specs.declared.steps.CStep.{CStep};

use squawk_parser::{LexedStr, Output, StrStep, StrSteps};

/// A step as numbers: 0 a token of a kind and its bytes from `start` to `end`; 1 the beginning of a
/// node of a kind; 2 the end of a node; 3 the error of number `start`, at byte `end`. Of 1 and 2 both
/// are the byte where they stand.
#[repr(C)]
#[derive(Clone, Copy)]
pub struct CStep {
    pub tag: u16,
    pub kind: u16,
    pub start: u32,
    pub end: u32,
}

/// How many steps there are, and whether their texts are all of the source.
#[derive(Clone, Copy)]
pub struct Written {
    pub count: u64,
    pub all: bool,
}

/// Writes as many of the steps that are sent for an output as there is room for.
// Not inlined, so that the iterator's fields are in registers.
#[inline(never)]
pub fn write_steps(table: &LexedStr<'_>, output: &Output, room: &mut [CStep]) -> Written
    requires fits { Fits table.now output.now.steps }
    requires short { length table.now.text ≤ 4294967295 }
    requires few { length output.now.steps ≤ 4294967295 }
    requires errors { errors_in output.now.steps ≤ 2147483648 }
    ensures count { result.count ≡ length (sent_list table.now output.now.steps) }
    ensures all { IsTrue result.all ↔ (texts_of (sent_list table.now output.now.steps) ≡ chars table.now.text) }
    ensures steps { room.new ≡ over (numbered_steps 0 0 (sent_list table.now output.now.steps)) room.old }
{
    let _raw_count = table.len();
    let mut steps = table.str_steps(output);
    let written = write_front(&mut steps, room);
    let count = count_rest(&mut steps, written);
    Written {
        count: count as u64,
        all: steps.eaten_all(),
    }
}

/// Writes steps while there is room, and tells how many it wrote.
#[inline(always)]
fn write_front(steps: &mut StrSteps<'_>, room: &mut [CStep]) -> usize
    requires { HaveNumbers 0 0 steps.old.steps }
    ensures count { result + length steps.new.steps ≡ length steps.old.steps }
    ensures all { steps.new.eaten_all ≡ steps.old.eaten_all }
    ensures steps { room.new ≡ over (numbered_steps 0 0 steps.old.steps) room.old }
{
    let mut place = Place { at: 0, errors: 0 };
    let mut count = 0;
    while count < room.len() {
        match steps.next() {
            Some(step) => room[count] = place.advance(&step),
            None => break,
        }
        count += 1;
    }
    count
}

/// Sends the steps behind those written, and tells how many there are with them.
fn count_rest(steps: &mut StrSteps<'_>, written: usize) -> usize
    requires { written + length steps.old.steps < 2 ^ 64 }
    ensures count { result ≡ written + length steps.old.steps }
    ensures none { steps.new.steps ≡ [] }
    ensures all { steps.new.eaten_all ≡ steps.old.eaten_all }
{
    let mut count = written;
    while steps.next().is_some() {
        count += 1;
    }
    count
}

/// How many bytes and errors there were.
#[derive(Clone, Copy)]
struct Place {
    at: u32,
    errors: u32,
}

impl Place {
    /// The numbers of a step that stands here, and goes past it.
    #[inline(always)]
    fn advance(&mut self, step: &StrStep<'_>) -> CStep
        requires { HaveNumbers self.old.at self.old.errors (owned_step_of step.now ∷ []) }
        ensures number { (steps : List OwnedStep) → numbered_steps self.old.at self.old.errors (owned_step_of step.now ∷ steps)
            ≡ result ∷ numbered_steps self.new.at self.new.errors steps }
        ensures behind { (steps : List OwnedStep) → HaveNumbers self.old.at self.old.errors (owned_step_of step.now ∷ steps)
            → HaveNumbers self.new.at self.new.errors steps }
    {
        match step {
            StrStep::Token { kind, text } => {
                let start = self.at;
                let end = start + byte_len(text) as u32;
                self.at = end;
                CStep {
                    tag: 0,
                    kind: kind.0,
                    start,
                    end,
                }
            }
            StrStep::Enter { kind } => CStep {
                tag: 1,
                kind: kind.0,
                start: self.at,
                end: self.at,
            },
            StrStep::Exit => CStep {
                tag: 2,
                kind: 0,
                start: self.at,
                end: self.at,
            },
            StrStep::Error { msg: _, pos } => {
                let number = self.errors;
                self.errors = number + 1;
                CStep {
                    tag: 3,
                    kind: 0,
                    start: number,
                    end: *pos as u32,
                }
            }
        }
    }
}

/// How many bytes a text has.
#[inline(always)]
fn byte_len(text: &str) -> usize
    ensures { result ≡ length (encode_utf8_all (chars text.now)) }
{
    text.len()
}
