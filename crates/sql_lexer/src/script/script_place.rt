//! Where a script goes on in another text.
ghost use Rattle.std.specs.Prelude.{◌≡◌, ◌≤◌};
ghost use Rattle.sql_lexer.specs.ScriptLexing.{place_of, script_place};
ghost use Rattle.sql_lexer.specs.ScriptPlaces.{waiting_at};

use crate::script::places::{Place, place_behind_data};
use crate::statements::Statement;

/// A place between two statements of a script, or between two lines of data, so that a text may begin there.
#[derive(Clone, Copy)]
pub enum ScriptPlace {
    /// The script begins.
    Front,
    /// Something stands before.
    Inside {
        /// How many COPY statements wait for their data. If one does, a line of data begins, else SQL.
        waiting: u32,
    },
}

impl ScriptPlace {
    /// The place that a text begins with.
    pub(crate) fn place(self) -> Place
        ensures is { result ≡ place_of self }
        ensures waits { waiting_at result ≤ 4294967295 }
    {
        match self {
            ScriptPlace::Front => Place::Front,
            ScriptPlace::Inside { waiting } => place_behind_data(waiting as usize),
        }
    }

    /// Where a script stands at a place, if another text may begin there.
    pub(crate) fn at(place: Place) -> Option<ScriptPlace>
        ensures { result ≡ script_place place }
    {
        match place {
            Place::Front => Some(ScriptPlace::Front),
            Place::Sql(Statement::Start) => Some(ScriptPlace::Inside { waiting: 0 }),
            Place::Data {
                left: 0,
                statement: Statement::Start,
                waiting,
            } if waiting < u32::MAX as usize => Some(ScriptPlace::Inside {
                waiting: waiting as u32 + 1,
            }),
            _ => None,
        }
    }
}
