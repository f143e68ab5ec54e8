// Records: the parts of a file.
ghost use Rattle.std.specs.Prelude.{◌≡◌};
ghost use Rattle.planfile.specs.Files.{record_length};

use plan::handlers::Handler;

/// A record of a file.
#[derive(Clone, Copy)]
pub enum Record {
    /// The next handler.
    Handler(Handler),
    /// A join of the handler of the first number before that of the second.
    Join { first: u8, second: u8 },
    /// The code of the next core.
    Core { core: u8, code: u8 },
    /// The end of the file.
    End,
}

// The kinds of records.
pub(crate) const HANDLER: u8 = 1;

pub(crate) const JOIN: u8 = 2;

pub(crate) const CORE: u8 = 3;

pub(crate) const END: u8 = 4;

// How many bytes a record of this kind has, its kind byte among them.
pub(crate) fn record_length(kind: u8) -> usize
    ensures { result ≡ record_length kind }
{
    match kind {
        HANDLER => 10,
        JOIN | CORE => 3,
        _ => 1,
    }
}
