//! Recording of one event: the limits are tested first, then memory is allocated. What is inlined runs at
//! each event.
ghost use Rattle.std.specs.Prelude.{◌≡◌, ◌+◌, ◌<◌, ◌∷◌, [], string_bytes, IsTrue, IsSome, Some, IsOk, IsErr, IfOk, List, ℕ, not};
ghost use Rattle.std.specs.Str.{chars};
ghost use Rattle.squawk_table.specs.Shape.{AreOneToken};
ghost use Rattle.squawk_output.specs.Steps.{Error};
ghost use Rattle.squawk_output.specs.Draft.{errors_of};
ghost use Rattle.squawk_output.specs.Edits.{with_token};
ghost use Rattle.squawk_parser.specs.Recorded.{Puts};
ghost use Rattle.squawk_parser.specs.State.{HasNotFailed, IsSound, Keeps, Records, ahead};
ghost use Rattle.squawk_parser.specs.declared.parser.parse_error.ParseError.TheVariants.{OutOfMemory, TooManyEvents};

use crate::parser::Parser;
use crate::parser::parse_error::ParseError;
use squawk_kinds::SyntaxKind;
use squawk_output::Text;
use std::alloc::AllocError;

/// Makes a parser fail that hadn't, if its log couldn't grow.
pub(super) fn fail_if_refused(first_reason: &mut Option<ParseError>, grown: Result<(), AllocError>)
    ensures ok { IsOk grown → first_reason.new ≡ first_reason.old }
    ensures err { IsErr grown → first_reason.new ≡ Some OutOfMemory }
{
    if let Err(AllocError) = grown {
        *first_reason = Some(ParseError::OutOfMemory);
    }
}

impl Parser<'_> {
    /// The id of the next marker: the number of entries of the log.
    #[inline(always)]
    pub(super) fn next_id(&self) -> u32
        ensures id { result ≡ self.now.draft.entries }
        ensures sound { IsSound self.now }
    {
        self.log.next_id()
    }

    /// Eats the next `n_input_tokens` tokens, each of which is joint with the next, as one token of this kind.
    #[inline(always)]
    pub(super) fn do_bump(&mut self, kind: SyntaxKind, n_input_tokens: u8)
        requires { AreOneToken n_input_tokens (ahead self.old 0) }
        ensures keeps { Keeps self.old self.new }
        ensures position { self.new.position ≡ self.old.position + n_input_tokens }
        ensures records { Records self.old self.new (with_token self.old.draft kind n_input_tokens) }
    {
        if self.has_room() {
            fail_if_refused(&mut self.first_reason, self.log.token(kind, n_input_tokens));
        }
        self.position += n_input_tokens as usize;
        self.witness_sound();
    }

    /// Records an error, if the allocation of its text succeeded.
    pub(super) fn put_error(&mut self, text: Result<String, AllocError>)
        requires goes { HasNotFailed self.old }
        requires room { self.old.draft.recorded < self.old.max_events }
        requires errors { errors_of self.old.draft.items < self.old.max_errors }
        ensures { (msg : List ℕ) → IfOk text (λ s. chars (string_bytes s) ≡ msg) → Puts (Error msg ∷ []) self.old self.new }
    {
        let text = match text {
            Ok(text) => Text::new(text),
            Err(refused) => return fail_if_refused(&mut self.first_reason, Err(refused)),
        };
        fail_if_refused(&mut self.first_reason, self.log.error(text));
    }

    /// Whether one more event may be recorded. At the limit the parser fails.
    #[inline(always)]
    pub(super) fn has_room(&mut self) -> bool
        ensures keeps { Keeps self.old self.new }
        ensures position { self.new.position ≡ self.old.position }
        ensures draft { self.new.draft ≡ self.old.draft }
        ensures room { IsTrue result → (self.new ≡ self.old) × HasNotFailed self.old × (self.old.draft.recorded < self.old.max_events) }
        ensures full { IsTrue (not result) → Records self.old self.new self.old.draft × IsSome self.new.first_reason }
        ensures refused { IsTrue (not result) → HasNotFailed self.old → (self.old.draft.recorded ≡ self.old.max_events) × (self.new.first_reason ≡ Some TooManyEvents) }
    {
        if self.first_reason.is_some() {
            return false;
        }
        if self.log.recorded() == self.log_limits.events {
            self.first_reason = Some(ParseError::TooManyEvents);
            return false;
        }
        true
    }

    /// Whether one more error may be recorded. At a limit the parser fails.
    pub(super) fn has_room_for_error(&mut self) -> bool
        ensures keeps { Keeps self.old self.new }
        ensures room { IsTrue result → (self.new ≡ self.old) × HasNotFailed self.old × (self.old.draft.recorded < self.old.max_events) × (errors_of self.old.draft.items < self.old.max_errors) }
        ensures full { IsTrue (not result) → (msg : List ℕ) → Puts (Error msg ∷ []) self.old self.new }
    {
        if !self.has_room() {
            return false;
        }
        if self.log.errors() == self.log_limits.errors {
            self.first_reason = Some(ParseError::TooManyErrors);
            self.witness_sound();
            return false;
        }
        true
    }
}
