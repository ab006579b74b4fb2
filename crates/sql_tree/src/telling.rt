//! What is told of a script, on the way through it.
ghost use Rattle.std.specs.Prelude.{◌≡◌, ◌≢◌, ◌≤◌, ℕ, List, [], ◌∷◌, ◌++◌, IfErr, IfOk, OnOk, length, map, true};

use crate::listing::asked;
use crate::options::Listing;
use crate::printer::Printer;
use crate::sql::Sql;
use crate::stop::Stop;
use sql_grammar::{ScriptPart, ScriptParts};
use sql_lexer::ScriptPlace;
use sql_reader::{Next, ScriptReader, ScriptText};
use sql_report::{ErrorLines, LineColumn, Place, StatementLines, Walk, statements};
use sql_words::SqlKind;
use std::alloc::{AllocError, Global};
use std::io::{Read, Write};
use std::mem;

/// A text is read by parts of so many bytes, which stay in a processor's cache.
const BYTES_IN_PART: usize = 16 * 1024;

/// A part begins here at last, so that its end fits `usize`. No script is as long.
const LAST_START: usize = usize::MAX - u32::MAX as usize;

/// What is told of a script, on the way through it.
#[derive(Drop)]
pub struct Telling<'s> {
    alloc: Global,
    sql: &'s Sql,
    listing: Listing,
    errors: ErrorLines<'s>,
    lines: StatementLines<'s, 's>,
    walk: Walk<'s>,
    statement_count: usize,
}

impl<'s> Telling<'s> {
    ghost use Rattle.std.specs.Prelude.{◌≡◌, ◌≢◌, ◌≤◌, ◌<◌, ◌^◌, ◌+◌, ℕ, List, [], ◌∷◌, ◌++◌, IfErr, IfOk, OnOk, Option, length, map, string_bytes, true};
    ghost use Rattle.std.specs.Io.KnownBytes.{Appends, Consumes, IsAtEnd};
    ghost use Rattle.squawk_kinds.specs.EngineNames.{names_of};
    ghost use Rattle.squawk_table.specs.Sent.{bytes_of, sent_list};
    ghost use Rattle.squawk_table.specs.Shape.{Fits};
    ghost use Rattle.squawk_table.specs.declared.shortcuts.str_step.OwnedStep.{OwnedStep};
    ghost use Rattle.squawk_table.specs.declared.shortcuts.str_step.OwnedStep.TheVariants.{Enter, Exit};
    ghost use Rattle.squawk_tokens.specs.LexicalErrors.{LexicalError, shifted};
    ghost use Rattle.sql_reader.specs.declared.script_text.Next.TheVariants.{End};
    ghost use Rattle.sql_grammar.specs.Kinds.{SOURCE_FILE};
    ghost use Rattle.sql_grammar.specs.Parts.{moved_by};
    ghost use Rattle.sql_grammar.specs.ReadParts.{AreBefore};
    ghost use Rattle.sql_report.specs.Places.{IsPartOfWindow, IsSameWindow};
    ghost use Rattle.sql_tree.specs.OnTheWay.{HasListed, HasTold, IfOutput, IfUnread, IsBefore, IsTelling, IsTextIn, TellsMore, AfterScript, AfterText};
    ghost use Rattle.sql_tree.specs.Reports.{IsPrinted};
    ghost use Rattle.sql_tree.specs.declared.sql.Sql.{Sql};
    ghost use Rattle.sql_tree.specs.declared.options.Listing.{Listing};
    ghost use Rattle.sql_tree.specs.declared.unread.Unread.TheVariants.{OutOfMemory};

    /// Nothing was told yet of a script that is called by a name.
    pub fn new(
        alloc: Global,
        sql: &'s Sql,
        listing: Listing,
        name: &'s str,
    ) -> Result<Telling<'s>, AllocError>
        ensures is { IfOk result (IsTelling sql.now listing name.now) }
        ensures begins { IfOk result (λ t. (script : List ℕ) → HasTold script [] [] [] (Enter SOURCE_FILE ∷ []) t) }
    {
        Ok(Telling {
            alloc,
            sql,
            listing,
            errors: ErrorLines::new(alloc, name),
            lines: StatementLines::new(alloc, sql.names()),
            walk: Walk::new(alloc, sql.names(), asked(listing), SqlKind::SOURCE_FILE)?,
            statement_count: 0,
        })
    }

    /// Reads the script to its end and tells of it, text by text.
    pub fn read<R: Read + Drop, W: Write + Drop, E: Write + Drop>(
        &mut self,
        reader: R,
        printer: &mut Printer<W, E>,
    ) -> Result<(), Stop>
        ensures tells { (sql : Sql) (listing : Listing) (name : List ℕ) → IsTelling sql listing name self.old
            → ((script : List ℕ) → HasTold script [] [] [] (Enter SOURCE_FILE ∷ []) self.old)
            → AfterScript (R.remaining reader) sql listing name (W.contents printer.old.out) (W.contents printer.new.out)
            (E.contents printer.old.errors) (E.contents printer.new.errors) self.new result }
        ensures failed { IfErr result (λ stop. IfOutput stop (printer.new.has_failed ≡ true)) }
    {
        let mut script = ScriptReader::new(self.alloc, reader);
        let mut before = LineColumn::start();
        for _ in 0..u64::MAX {
            script.read()?;
            let text = script.text();
            let (count, place) = self.text(before, &text, printer)?;
            match text.next {
                Next::More => {}
                Next::End => return Ok(()),
                Next::Fault(error) => return Err(error.into()),
            }
            before.pass(text.leaving(count));
            script.go_on(count, place);
        }
        Err(AllocError.into())
    }

    /// Tells of a text, part by part, before which the script has a line and a column. Returns how many of its bytes are read, and
    /// where the script stands after them.
    fn text<W: Write + Drop, E: Write + Drop>(
        &mut self,
        before: LineColumn,
        text: &ScriptText<'_>,
        printer: &mut Printer<W, E>,
    ) -> Result<(usize, ScriptPlace), Stop>
        ensures within { IfOk result (λ both. both.0 ≤ length text.now.text.now) }
        ensures tells { (sql : Sql) (listing : Listing) (name read left out errs : List ℕ) → IsTelling sql listing name self.old → IsTextIn read left before text.now
            → (text.now.next ≡ End → left ≡ []) → IsBefore sql read (text.now.text.now ++ left) text.now.place out errs self.old
            → AfterText sql listing name read left text.now out errs (W.contents printer.old.out) (W.contents printer.new.out)
            (E.contents printer.old.errors) (E.contents printer.new.errors) self.new result }
        ensures failed { IfErr result (λ stop. IfOutput stop (printer.new.has_failed ≡ true)) }
    {
        let mut place = Place::new(text.window, before);
        let mut parts = ScriptParts::new(self.alloc, text.text, text.place, is_end(text.next))?;
        while let Some(part) = parts.next_part(
            BYTES_IN_PART,
            &self.sql.vocabulary,
            &self.sql.rules,
        )? {
            let in_window = text.start.saturating_add(part.start);
            let start = text.passed.saturating_add(in_window);
            self.part(&mut place, &part, in_window, start, printer)?;
        }
        let count = parts.position().min(text.text.len());
        Ok((count, parts.place().unwrap_or(text.place)))
    }

    /// Tells of a part, which begins at a byte of the window and at one of the script.
    fn part<W: Write + Drop, E: Write + Drop>(
        &mut self,
        place: &mut Place<'_>,
        part: &ScriptPart<'_>,
        in_window: usize,
        start: usize,
        printer: &mut Printer<W, E>,
    ) -> Result<(), Stop>
        requires fits { Fits part.now.table part.now.output.steps }
        requires short { length part.now.table.text ≤ 4294967295 }
        ensures is { OnOk result ((sql : Sql) (listing : Listing) (name : List ℕ) → IsTelling sql listing name self.old → IsTelling sql listing name self.new) }
        ensures window { IsSameWindow place.old place.new }
        ensures tells { OnOk result ((more more_errs : List ℕ) × (Appends (W.contents printer.old.out) (W.contents printer.new.out) more
            × (Appends (E.contents printer.old.errors) (E.contents printer.new.errors) more_errs
            × TellsMore place.old start in_window part.now more more_errs self.old self.new))) }
        ensures unread { IfErr result (λ stop. IfUnread stop (λ reason. (reason ≡ OutOfMemory) × ((printer.new.out ≡ printer.old.out) × (printer.new.errors ≡ printer.old.errors)))) }
        ensures failed { IfErr result (λ stop. IfOutput stop (printer.new.has_failed ≡ true)) }
    {
        self.errors
            .part(place, &part.table, &part.output, in_window)?;
        let listed = self.listed(place, part, in_window, start.min(LAST_START))?;
        printer.print(listed.as_bytes())?;
        printer.print_errors(&self.errors.lines)?;
        self.errors.lines.clear();
        Ok(())
    }

    /// What is listed of a part. Its statements are counted, but not where only errors are told.
    fn listed(
        &mut self,
        place: &mut Place<'_>,
        part: &ScriptPart<'_>,
        in_window: usize,
        start: usize,
    ) -> Result<String, AllocError>
        requires fits { Fits part.now.table part.now.output.steps }
        requires short { start + length part.now.table.text < 2 ^ 64 }
        ensures window { IsSameWindow place.old place.new }
        ensures errors { self.new.errors ≡ self.old.errors }
        ensures is { OnOk result ((sql : Sql) (listing : Listing) (name : List ℕ) → IsTelling sql listing name self.old → IsTelling sql listing name self.new) }
        ensures lists { IfOk result (λ list. (sql : Sql) (listing : Listing) (name script passed rest out : List ℕ) (done inner : List OwnedStep) (kind : ℕ)
            → IsTelling sql listing name self.old → IsPartOfWindow script passed rest place.old start in_window (length part.now.table.text)
            → sent_list part.now.table part.now.output.steps ≡ Enter kind ∷ inner ++ Exit ∷ [] → bytes_of done ≡ start → HasListed script out done self.old
            → HasListed script (out ++ string_bytes list) (done ++ map (moved_by start) inner) self.new) }
    {
        self.walk.part(&part.table, &part.output, start)?;
        let drawn = self.walk.take_drawn();
        if let Listing::Quiet = self.listing {
            return Ok(drawn);
        }
        let found = statements(self.alloc, &part.table, &part.output)?;
        self.statement_count = self.statement_count.saturating_add(found.len());
        if let Listing::Statements = self.listing {
            self.lines.part(place, in_window, start, &found)?;
            return Ok(mem::replace(&mut self.lines.lines, String::new(self.alloc)));
        }
        Ok(drawn)
    }

    /// Leaves the root, and prints what is still to be listed. Returns how many statements and errors were told.
    pub fn finish<W: Write + Drop, E: Write + Drop>(
        self,
        printer: &mut Printer<W, E>,
    ) -> Result<(usize, usize), Stop>
        ensures finishes { IfOk result (λ counts. (more : List ℕ) × (Appends (W.contents printer.old.out) (W.contents printer.new.out) more
            × ((sql : Sql) (listing : Listing) (name script out errs : List ℕ) (lexical : List LexicalError) (done : List OwnedStep) → IsTelling sql listing name self.entry
            → HasTold script out errs lexical done self.entry → IsPrinted sql listing name script (out ++ more) errs lexical done counts.0 counts.1))) }
        ensures errors { printer.new.errors ≡ printer.old.errors }
        ensures unread { IfErr result (λ stop. IfUnread stop (λ reason. (reason ≡ OutOfMemory) × (printer.new.out ≡ printer.old.out))) }
        ensures failed { IfErr result (λ stop. IfOutput stop (printer.new.has_failed ≡ true)) }
    {
        let counts = (self.statement_count, self.errors.count);
        let drawn = self.walk.finish()?;
        printer.print(drawn.as_bytes())?;
        Ok(counts)
    }
}

/// Whether a script ends with a text before this.
fn is_end(next: Next) -> bool
    ensures { (result ≡ true → next ≡ Next.End) × (next ≡ Next.End → result ≡ true) }
{
    match next {
        Next::End => true,
        Next::More | Next::Fault(_) => false,
    }
}
