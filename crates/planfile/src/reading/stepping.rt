// Reading a file, record by record.
ghost use Rattle.std.specs.Prelude.{◌≡◌, Some, None, Ok, Err, drop, MatchOption, MatchResult};
ghost use Rattle.plan.specs.Calls.{refuses};
ghost use Rattle.planfile.specs.declared.faults.Flaw.TheVariants.{UnknownKind, OutOfOrder};
ghost use Rattle.planfile.specs.Files.{record_length};
ghost use Rattle.planfile.specs.Tests.{outset, past, flaw, kind_here, record_here, Unknown, KindMisplaced, EndsInside, BodyMisplaced, RecordIs, NextIs};
ghost use Rattle.planfile.specs.Readers.{standing, Moves};

use crate::faults::{Cause, Fault, Flaw};
use crate::reading::Reader;
use crate::records::{CORE, END, HANDLER, JOIN, Record};
use plan::handlers::Handler;

// The record that the bytes begin with, of a kind that there is, and the bytes behind it, if they do not end inside it.
fn decode(bytes: &[u8]) -> Option<(Record, &[u8])>
    requires known { ¬ Unknown bytes.now outset }
    ensures { MatchOption result (EndsInside bytes.now outset)
        (λ found.
        (¬ EndsInside bytes.now outset) × (found.0 ≡ record_here bytes.now outset)
        × (found.1.now ≡ drop (record_length (kind_here bytes.now outset)) bytes.now)) }
{
    match bytes {
        [HANDLER, p0, p1, o0, o1, s0, s1, l0, l1, core, rest @ ..] => {
            let handler = Handler {
                period: u16::from_be_bytes([*p0, *p1]),
                offset: u16::from_be_bytes([*o0, *o1]),
                shortest: u16::from_be_bytes([*s0, *s1]),
                longest: u16::from_be_bytes([*l0, *l1]),
                core: *core,
            };
            Some((Record::Handler(handler), rest))
        }
        [JOIN, first, second, rest @ ..] => {
            let (first, second) = (*first, *second);
            Some((Record::Join { first, second }, rest))
        }
        [CORE, core, code, rest @ ..] => {
            let (core, code) = (*core, *code);
            Some((Record::Core { core, code }, rest))
        }
        [END, rest @ ..] => Some((Record::End, rest)),
        _ => None,
    }
}

impl<'b> Reader<'b> {
    /// A reader that has read nothing.
    pub fn new(bytes: &'b [u8]) -> Reader<'b>
        ensures bytes { result.bytes.now ≡ bytes.now }
        ensures outset { standing result ≡ outset }
    {
        Reader {
            bytes,
            place: 0,
            kind: 0,
            first: 0,
            second: 0,
            cores: 0,
        }
    }

    // Tests the kind of the next record.
    fn test_kind(&self, kind: u8) -> Result<(), Flaw>
        requires { kind ≡ kind_here self.now.bytes.now (standing self.now) }
        ensures { let bytes = self.now.bytes.now in let s = standing self.now in refuses (Unknown bytes s) UnknownKind (refuses (KindMisplaced bytes s) OutOfOrder (λ r. r ≡ Ok tt)) result }
    {
        if kind == 0 || kind > END {
            return Err(Flaw::UnknownKind);
        }
        if kind < self.kind
            || (kind == CORE && self.cores >= 8)
            || (kind == END && self.cores < 8)
        {
            return Err(Flaw::OutOfOrder);
        }
        Ok(())
    }

    // Tests where the next record stands among the joins and the cores.
    fn test_body(&self, next: Record) -> Result<(), Flaw>
        requires { next ≡ record_here self.now.bytes.now (standing self.now) }
        ensures { refuses (BodyMisplaced self.now.bytes.now (standing self.now)) OutOfOrder (λ r. r ≡ Ok tt) result }
    {
        match next {
            Record::Join { first, second }
                if self.kind == JOIN && (first, second) <= (self.first, self.second) => {
                Err(Flaw::OutOfOrder)
            }
            Record::Core { core, .. } if core != self.cores + 1 => Err(Flaw::OutOfOrder),
            _ => Ok(()),
        }
    }

    // The bytes that are left.
    fn left(&self) -> &'b [u8]
        ensures { result.now ≡ drop self.now.place self.now.bytes.now }
    {
        &self.bytes[self.place..]
    }

    // The next record, of a kind that there is, and the bytes behind it, if they do not end inside it.
    fn decode_next(&self) -> Option<(Record, &'b [u8])>
        requires known { ¬ Unknown self.now.bytes.now (standing self.now) }
        ensures { let bytes = self.now.bytes.now in
            let s = standing self.now in
            MatchOption result (EndsInside bytes s)
            (λ found.
            (¬ EndsInside bytes s) × (found.0 ≡ record_here bytes s)
            × (found.1.now ≡ drop (past bytes s).place bytes)) }
    {
        decode(self.left())
    }

    // The next record, which passes every test, and the bytes behind it.
    fn look(&self) -> Result<(Record, &'b [u8]), Flaw>
        ensures { let bytes = self.now.bytes.now in
            let s = standing self.now in
            let is = RecordIs bytes s in
            MatchResult result
            (λ found. is (Ok (Some found.0)) × (found.1.now ≡ drop (past bytes s).place bytes))
            (λ why. is (Err (flaw s why))) }
    {
        let [kind, ..] = self.left() else {
            return Err(Flaw::Cut);
        };
        self.test_kind(*kind)?;
        let (record, rest) = self.decode_next().ok_or(Flaw::Cut)?;
        self.test_body(record)?;
        Ok((record, rest))
    }

    // The next record and the bytes behind it, if no end record came; none behind the end record.
    fn look_on(&self) -> Result<Option<(Record, &'b [u8])>, Flaw>
        ensures { let bytes = self.now.bytes.now in
            let s = standing self.now in
            let is = NextIs bytes s in
            MatchResult result
            (λ next.
            MatchOption next (is (Ok None))
            (λ found. is (Ok (Some found.0)) × (found.1.now ≡ drop (past bytes s).place bytes)))
            (λ why. is (Err (flaw s why))) }
    {
        if self.kind != END {
            return Ok(Some(self.look()?));
        }
        if self.place < self.bytes.len() {
            return Err(Flaw::OutOfOrder);
        }
        Ok(None)
    }

    // Goes past the next record, to the place behind it.
    fn pass(&mut self, next: Record, place: usize)
        requires next { NextIs self.old.bytes.now (standing self.old) (Ok (Some next)) }
        requires place { place ≡ (past self.old.bytes.now (standing self.old)).place }
        ensures past { standing self.new ≡ past self.old.bytes.now (standing self.old) }
        ensures bytes { self.new.bytes.now ≡ self.old.bytes.now }
    {
        self.place = place;
        match next {
            Record::Handler(_) => self.kind = HANDLER,
            Record::Join { first, second } => {
                self.kind = JOIN;
                self.first = first;
                self.second = second;
            }
            Record::Core { .. } => {
                self.kind = CORE;
                self.cores += 1;
            }
            Record::End => self.kind = END,
        }
    }

    /// The next record, if it passes every test of a record; none behind the end record, where the bytes end there too.
    /// A record that is refused stays the next, and so does a byte behind the end record.
    pub fn next_record(&mut self) -> Result<Option<Record>, Fault>
        ensures next { NextIs self.old.bytes.now (standing self.old) result }
        ensures moves { Moves result self.old self.new }
    {
        let found = self.look_on().map_err(|why| Fault {
            cause: Cause::File(why),
            place: self.place,
        })?;
        let Some((next, rest)) = found else {
            return Ok(None);
        };
        self.pass(next, self.bytes.len() - rest.len());
        Ok(Some(next))
    }
}
