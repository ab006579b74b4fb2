//! SQL texts at random.

use sql_lexer::tokenize;
use std::alloc::{AllocError, Global};
use workload_texts::{Maker, Piece, Random, file_size, text};

/// How many statements the texts are made of at random.
const STATEMENTS: usize = 1024;

/// Statements. `#` stands for a name, `?` for a constant, and `~` for a comment, with the end of its line.
const TEMPLATES: [&str; 20] = [
    "select #, # from # where # = ?;\n",
    "select *\nfrom # as t\n    join # as u on t.# = u.#\n\
        where t.# > ? and (u.# is null or u.# <> ?)\norder by #, # desc limit 10;\n\n",
    "~select #, count(*), sum(case when # >= ? then # else ? end) as #\n\
        from # group by # having count(*) > ?;\n",
    "select # from # where # in (select # from # where # like ?)\nunion all\n\
        select ?::text from #;\n",
    "with w as (\n    select #, # from # where # = ?\n), x as (select * from w)\n\
        select w.#, x.# from w left join x using (#);\n",
    "insert into # (#, #, #) values (?, ?, ?);\n",
    "insert into # (#, #) values\n    (?, ?),\n    (?, ?),\n    (?, ?)\n\
        on conflict (#) do update set # = excluded.# returning #;\n",
    "update # set # = ?, # = # + ? where # = $1;\n",
    "delete from # using # where # = # and # < now() - interval '18 months';\n",
    "~create table if not exists # (\n    # bigint primary key,\n    \
        # text not null default ?,\n    # numeric(12, 2) check (# > ?),\n    \
        # timestamp with time zone\n);\n\n",
    "create index concurrently # on # using btree (#, lower(#)) where # is not null;\n",
    "alter table # add column # integer, drop constraint #;\n~",
    "create view # as\nselect #, # from # where # between ? and ?;\n",
    "create or replace function #(a integer, b text) returns integer language plpgsql as $$\n\
        begin\n    update # set # = a where # = b;\n    return 1;\nend;\n$$;\n\n",
    "create function #(a integer) returns integer language sql\nbegin atomic\n    \
        select # from # where # = a;\n    select case when a > ? then 1 else 2 end;\nend;\n\n",
    "create rule # as on insert to # do also (\n    insert into # values (?);\n    \
        delete from # where # = ?\n);\n",
    "begin;\nset local search_path = #, public;\ngrant select, insert on # to #;\ncommit;\n",
    "comment on column #.# is ?;\n",
    "/* # and #, /* # */ behind */\n\
        select # ->> 'key', # @> ?, -#, #[1] from # where not # ~* ? or \"Order\" is distinct from #;\n",
    "\\echo # done\nselect coalesce(#, E'a\\n', B'101', x'1f', U&'d\\0061', 1.5e-3) from #;\n",
];

/// A constant.
fn constant(maker: &mut Maker<'_>, piece: &mut Piece) -> Result<(), AllocError> {
    match maker.random.below(5) {
        0 | 1 => maker.string(piece, 40),
        2 | 3 => maker.number(piece),
        _ => piece.text.push_str("null"),
    }
}

/// A statement, with the raw tokens that the lexer finds.
fn statement(alloc: Global, maker: &mut Maker<'_>, template: &str) -> Result<Piece, AllocError> {
    let mut piece = Piece::new(alloc);
    for c in template.chars() {
        match c {
            '#' => maker.name(&mut piece)?,
            '?' => constant(maker, &mut piece)?,
            '~' => maker.comment(&mut piece)?,
            _ => piece.text.push(c)?,
        }
    }
    match tokenize(alloc, piece.text.as_str()) {
        Ok(tokens) => piece.tokens = tokens,
        Err(_) => return Err(AllocError),
    }
    Ok(piece)
}

/// Statements by these templates at random.
fn statements(alloc: Global, maker: &mut Maker<'_>) -> Result<Vec<Piece>, AllocError> {
    let mut pieces = Vec::with_capacity(alloc, STATEMENTS)?;
    for _ in 0..STATEMENTS {
        if let Some(template) = TEMPLATES.get(maker.random.below(TEMPLATES.len())) {
            pieces.push(statement(alloc, maker, template)?)?;
        }
    }
    Ok(pieces)
}

/// Rows of a dump.
fn rows(alloc: Global, maker: &mut Maker<'_>) -> Result<Vec<Piece>, AllocError> {
    let mut pieces = Vec::with_capacity(alloc, STATEMENTS)?;
    for _ in 0..STATEMENTS {
        pieces.push(maker.row(alloc)?)?;
    }
    Ok(pieces)
}

/// A text of SQL statements at random.
#[derive(Drop)]
pub struct Texts<'n> {
    maker: Maker<'n>,
    statements: Vec<Piece>,
}

impl<'n> Texts<'n> {
    /// The texts of a seed.
    pub fn new(alloc: Global, seed: u64) -> Result<Texts<'static>, AllocError> {
        let mut maker = Maker {
            random: Random::new(seed),
            names: &[],
        };
        let statements = statements(alloc, &mut maker)?;
        Ok(Texts { maker, statements })
    }

    /// A file, most times small.
    pub fn file(&mut self, alloc: Global) -> Result<String, AllocError> {
        let size = file_size(&mut self.maker);
        self.of_size(alloc, size)
    }

    /// A text of statements with about so many raw tokens.
    pub fn of_size(&mut self, alloc: Global, tokens: usize) -> Result<String, AllocError> {
        Ok(text(alloc, &mut self.maker, &self.statements, tokens)?.text)
    }

    /// A dump with about so many raw tokens.
    pub fn dump(&mut self, alloc: Global, tokens: usize) -> Result<String, AllocError> {
        let rows = rows(alloc, &mut self.maker)?;
        Ok(text(alloc, &mut self.maker, &rows, tokens)?.text)
    }

    /// An offset in a text of so many bytes, or at its end.
    pub fn offset(&mut self, len: usize) -> usize {
        self.maker.random.below(len.saturating_add(1))
    }
}
