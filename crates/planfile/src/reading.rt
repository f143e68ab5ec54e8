// Readers of a file's bytes.
ghost use Rattle.std.specs.Prelude.{◌≤◌, length};

mod stepping;
pub mod whole;

/// A reader of a file's bytes: how many it has read, and what of the records so far decides which may follow.
#[derive(Drop)]
pub struct Reader<'b> {
    bytes: &'b [u8],
    place: usize,
    kind: u8,
    first: u8,
    second: u8,
    cores: u8,
    ghost inside: { place ≤ length bytes.now },
    ghost few: { cores ≤ 8 },
}
