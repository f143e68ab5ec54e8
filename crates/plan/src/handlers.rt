// Handlers, as a plan holds them and hands them out.

/// The numbers of a handler: it is released at `offset` and then once in each `period`, each time for `shortest` to
/// `longest` units of work on the core of this number, to be done by the next release.
#[derive(Clone, Copy, PartialEq, Debug)]
pub struct Handler {
    pub period: u16,
    pub offset: u16,
    pub shortest: u16,
    pub longest: u16,
    pub core: u8,
}
