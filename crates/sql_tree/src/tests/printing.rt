//! What goes to the standard output and the standard error output for texts, one after another.

use crate::inputs::tell_all;
use crate::options::Listing;
use crate::printer::Printer;
use crate::sql::Sql;
use crate::texts::Texts;
use std::io;
use std::io::{ErrorKind, Read, Write};
use std::process::Abort;
use std::test::Fail;

/// How texts are read.
#[derive(Clone, Copy)]
struct Ways {
    /// A read gives so many bytes at most.
    size: usize,
    /// Each read is interrupted whose number is a multiple of this.
    interrupted: usize,
    /// Why reading fails after all bytes.
    fault: Option<ErrorKind>,
}

/// All bytes at once.
const AT_ONCE: Ways = Ways {
    size: usize::MAX,
    interrupted: 0,
    fault: None,
};

/// A reader of bytes.
#[derive(Drop)]
struct Few {
    bytes: &'static [u8],
    ways: Ways,
    reads: usize,
}

impl Read for Few {
    fn read(&mut self, buf: &mut [u8]) -> io::Result<usize> {
        self.reads = self.reads.wrapping_add(1);
        if self.reads.is_multiple_of(self.ways.interrupted) {
            return Err(io::Error::from(ErrorKind::Interrupted));
        }
        if let (true, Some(kind)) = (self.bytes.is_empty(), self.ways.fault) {
            return Err(io::Error::from(kind));
        }
        let count = self.ways.size.min(buf.len()).min(self.bytes.len());
        let (front, rest) = self.bytes.split_at(count);
        buf[..count].copy_from_slice(front);
        self.bytes = rest;
        Ok(count)
    }
}

/// Texts by their names.
#[derive(Drop)]
struct Fixed {
    texts: &'static [(&'static str, &'static [u8])],
    ways: Ways,
}

impl Texts for Fixed {
    type Reader = Few;

    ghost gives = { λ _ _ _. Unit {0} };

    fn open(&self, name: &str) -> io::Result<Few> {
        for (known, bytes) in self.texts {
            if *known == name {
                return Ok(Few {
                    bytes,
                    ways: self.ways,
                    reads: 0,
                });
            }
        }
        Err(io::Error::from(ErrorKind::NotFound))
    }
}

static TEXTS: [(&str, &[u8]); 6] = [
    ("a", b"select 1;\nselect 2;\n"),
    ("b", b"select f(1;"),
    // No text of UTF-8 has the byte 255.
    ("c", b"select \xff"),
    ("e", b"select 1;\nselect 2;\nselect \xff"),
    ("f", b"select 1x;\nselect 2;\nsele"),
    ("g", b"commit;\n\xff"),
];

/// Names of texts, and what is printed of them.
struct Run {
    listing: Listing,
    names: &'static [&'static str],
    out: &'static str,
    errors: &'static str,
    status: u8,
}

static RUNS: [Run; 11] = [
    // A text alone has no heading.
    Run {
        listing: Listing::Statements,
        names: &["a"],
        out: "0..9 1:1 QUERY\n10..19 2:1 QUERY\n",
        errors: "files: 1, statements: 2, errors: 0\n",
        status: 0,
    },
    Run {
        listing: Listing::Statements,
        names: &["a", "b"],
        out: "a:\n0..9 1:1 QUERY\n10..19 2:1 QUERY\nb:\n0..11 1:1 QUERY\n",
        errors: "b:1:11: expected )\nselect f(1;\n          ^\n\
                 files: 2, statements: 3, errors: 1\n",
        status: 1,
    },
    // Texts stand in the order of their names, and may be told twice.
    Run {
        listing: Listing::Statements,
        names: &["b", "a", "b"],
        out: "b:\n0..11 1:1 QUERY\na:\n0..9 1:1 QUERY\n10..19 2:1 QUERY\nb:\n0..11 1:1 QUERY\n",
        errors: "b:1:11: expected )\nselect f(1;\n          ^\n\
                 b:1:11: expected )\nselect f(1;\n          ^\n\
                 files: 3, statements: 4, errors: 2\n",
        status: 1,
    },
    // The others are told where some can't be read. No heading stands for those that can't be opened.
    Run {
        listing: Listing::Statements,
        names: &["c", "d", "a"],
        out: "c:\na:\n0..9 1:1 QUERY\n10..19 2:1 QUERY\n",
        errors: "c: invalid UTF-8 at byte 7\nd: entity not found\n\
                 files: 1, statements: 2, errors: 0\n",
        status: 3,
    },
    // What stands before a byte that is no UTF-8 is told.
    Run {
        listing: Listing::Statements,
        names: &["e", "b"],
        out: "e:\n0..9 1:1 QUERY\n10..19 2:1 QUERY\nb:\n0..11 1:1 QUERY\n",
        errors: "e: invalid UTF-8 at byte 27\nb:1:11: expected )\nselect f(1;\n          ^\n\
                 files: 1, statements: 3, errors: 1\n",
        status: 3,
    },
    Run {
        listing: Listing::Tree,
        names: &["g"],
        out: "SOURCE_FILE@0..7\n  COMMIT@0..7\n    COMMIT_KW@0..6 \"commit\"\n    SEMICOLON@6..7 \";\"\n",
        errors: "g: invalid UTF-8 at byte 8\nfiles: 0, statements: 1, errors: 0\n",
        status: 3,
    },
    Run {
        listing: Listing::Json,
        names: &["g"],
        out: "{\"kind\":\"COMMIT\",\"start\":0,\"children\":[\
              {\"kind\":\"COMMIT_KW\",\"start\":0,\"end\":6},{\"kind\":\"SEMICOLON\",\"start\":6,\"end\":7}],\
              \"end\":7,\"errors\":[]}\n",
        errors: "g: invalid UTF-8 at byte 8\nfiles: 0, statements: 1, errors: 0\n",
        status: 3,
    },
    // Raw tokens are told of a whole text alone.
    Run {
        listing: Listing::Tokens,
        names: &["e"],
        out: "",
        errors: "e: invalid UTF-8 at byte 27\nfiles: 0, statements: 0, errors: 0\n",
        status: 3,
    },
    // A text that can't be read counts for more than errors do.
    Run {
        listing: Listing::Statements,
        names: &["d", "b"],
        out: "b:\n0..11 1:1 QUERY\n",
        errors: "d: entity not found\nb:1:11: expected )\nselect f(1;\n          ^\n\
                 files: 1, statements: 1, errors: 1\n",
        status: 3,
    },
    // Where only errors are told there is no last line.
    Run {
        listing: Listing::Quiet,
        names: &["a", "b"],
        out: "",
        errors: "b:1:11: expected )\nselect f(1;\n          ^\n",
        status: 1,
    },
    Run {
        listing: Listing::Quiet,
        names: &["a"],
        out: "",
        errors: "",
        status: 0,
    },
];

/// Runs in which reading fails after the last byte.
static FAULT_RUNS: [Run; 3] = [
    // What stands before the end of a statement's line is told, and its errors.
    Run {
        listing: Listing::Statements,
        names: &["a", "b", "f", "d"],
        out: "a:\n0..9 1:1 QUERY\n10..19 2:1 QUERY\nb:\nf:\n0..10 1:1 QUERY\n11..20 2:1 QUERY\n",
        errors: "a: can't be read\nb: can't be read\n\
                 f:1:9: trailing junk after numeric literal\nselect 1x;\n        ^\nf: can't be read\n\
                 d: entity not found\nfiles: 0, statements: 4, errors: 1\n",
        status: 3,
    },
    Run {
        listing: Listing::Quiet,
        names: &["f"],
        out: "",
        errors: "f:1:9: trailing junk after numeric literal\nselect 1x;\n        ^\nf: can't be read\n",
        status: 3,
    },
    Run {
        listing: Listing::Tokens,
        names: &["a"],
        out: "",
        errors: "a: can't be read\nfiles: 0, statements: 0, errors: 0\n",
        status: 3,
    },
];

/// Asserts what is printed in runs, where texts are read so.
fn assert_runs(
    rt: &(impl Abort + AllocGlobal),
    sql: &Sql,
    runs: &[Run],
    ways: Ways,
) -> Result<(), Fail> {
    let alloc = rt.alloc();
    let texts = Fixed {
        texts: &TEXTS,
        ways,
    };
    for run in runs {
        let mut printer = Printer::new(Vec::<u8>::new(alloc), Vec::<u8>::new(alloc));
        let status = tell_all(alloc, sql, run.listing, &texts, run.names, &mut printer)?;
        assert_eq!(rt; status, run.status);
        assert_eq!(rt; printer.out.as_slice(), run.out.as_bytes());
        assert_eq!(rt; printer.errors.as_slice(), run.errors.as_bytes());
    }
    Ok(())
}

#[test]
fn tells_texts(rt: HostRuntime) -> Result<(), Fail> {
    let sql = Sql::new(rt.alloc())?;
    // At once, a byte at a time, and where each second or third read is interrupted.
    for (size, interrupted) in [(usize::MAX, 0), (1, 0), (usize::MAX, 2), (1, 3)] {
        let ways = Ways {
            size,
            interrupted,
            fault: None,
        };
        assert_runs(&rt, &sql, &RUNS, ways)?;
    }
    Ok(())
}

#[test]
fn tells_what_stands_before_a_fault(rt: HostRuntime) -> Result<(), Fail> {
    let sql = Sql::new(rt.alloc())?;
    for size in [usize::MAX, 1, 12] {
        let ways = Ways {
            size,
            interrupted: 0,
            fault: Some(ErrorKind::ConnectionReset),
        };
        assert_runs(&rt, &sql, &FAULT_RUNS, ways)?;
    }
    Ok(())
}

/// Refuses each write.
#[derive(Drop)]
struct Refusing;

impl Write for Refusing {
    fn write(&mut self, _bytes: &[u8]) -> io::Result<usize> {
        Err(io::Error::from(ErrorKind::ConnectionReset))
    }

    fn flush(&mut self) -> io::Result<()> {
        Ok(())
    }
}

/// The kind of an error; none where there is none.
fn kind(status: io::Result<u8>) -> Option<ErrorKind> {
    match status {
        Ok(_) => None,
        Err(error) => Some(error.kind()),
    }
}

#[test]
fn gives_the_errors_of_writers(rt: HostRuntime) -> Result<(), Fail> {
    let alloc = rt.alloc();
    let sql = Sql::new(alloc)?;
    let texts = Fixed {
        texts: &TEXTS,
        ways: AT_ONCE,
    };
    let refused = Some(ErrorKind::ConnectionReset);
    // Nothing more is told after a write that fails.
    let mut printer = Printer::new(Refusing, Vec::<u8>::new(alloc));
    let status = tell_all(
        alloc,
        &sql,
        Listing::Tree,
        &texts,
        &["a", "d"],
        &mut printer,
    );
    assert_eq!(rt; kind(status), refused);
    assert_eq!(rt; printer.errors.as_slice(), &b""[..]);
    // The last line fails, or the line of a text that can't be read.
    for names in [&["a"], &["d"]] {
        let mut printer = Printer::new(Vec::<u8>::new(alloc), Refusing);
        let status = tell_all(
            alloc,
            &sql,
            Listing::Statements,
            &texts,
            names,
            &mut printer,
        );
        assert_eq!(rt; kind(status), refused);
    }
    // Where nothing is written, nothing fails.
    let mut printer = Printer::new(Refusing, Refusing);
    let status = tell_all(alloc, &sql, Listing::Quiet, &texts, &["a"], &mut printer);
    assert_eq!(rt; kind(status), None);
    Ok(())
}
