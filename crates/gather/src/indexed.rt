// Tables of rows that a caller lends, with an index that it lends too.
ghost use Rattle.std.specs.Prelude.{◌≡◌, ◌<◌, ◌≤◌, length, take, Decides, IfSome, MatchOption};
ghost use Rattle.std.specs.List.{Contains as Has};
ghost use Rattle.gather.specs.Levels.{Once};
ghost use Rattle.gather.specs.Filing.{place, FitsIndex, Housed, Headed, Linked, Ahead};

use crate::Element;
use crate::tables::{Inserted, Table};

/// Rows that a caller lends, with an index: the elements are the first `count` of them, and the
/// others are what they were. Whether an element stands there is found in about as many steps as
/// rows are filed at its place, whatever the number of rows.
#[derive(Drop)]
pub struct Indexed<'a, T: Element> {
    rows: &'a mut [T],
    heads: &'a mut [u16],
    homes: &'a mut [u16],
    next: &'a mut [u16],
    count: usize,
    ghost few: { count ≤ length rows.now },
    ghost apart: { Once (take count rows.now) },
    ghost fits: { FitsIndex rows.now heads.now homes.now next.now },
    ghost housed: { Housed T.filed (length heads.now) homes.now count rows.now },
    ghost headed: { Headed heads.now homes.now count },
    ghost linked: { Linked next.now homes.now count },
}

// The most places of an index, and one more than the most rows: a link is a row's number and one.
const MOST: usize = 65_536;

impl<'a, T: Element> Indexed<'a, T> {
    /// A table of these rows, with no element. What the index holds does not matter. `None` if
    /// there are more than 65,535 rows, no head or more than 65,536 of them, or fewer homes or
    /// links than rows.
    pub fn new(
        rows: &'a mut [T],
        heads: &'a mut [u16],
        homes: &'a mut [u16],
        next: &'a mut [u16],
    ) -> Option<Indexed<'a, T>>
        ensures fits { MatchOption result
            (¬ FitsIndex rows.old heads.old homes.old next.old)
            (λ _. FitsIndex rows.old heads.old homes.old next.old) }
        ensures none { IfSome result (λ table. table.count ≡ 0) }
        ensures whole { IfSome result (λ table. table.rows.now ≡ rows.old) }
        ensures lent { IfSome result (λ table. table.rows.ghost_name ≡ rows.entry.ghost_name) }
    {
        if rows.len() >= MOST || heads.is_empty() || heads.len() > MOST {
            return None;
        }
        if homes.len() < rows.len() || next.len() < rows.len() {
            return None;
        }
        Some(Indexed {
            rows,
            heads,
            homes,
            next,
            count: 0,
        })
    }

    // Where an element is filed: the codes are shared out in order, over any number of places.
    fn home(&self, element: &T) -> u16
        ensures is { result ≡ place (T.filed element.now) (length self.now.heads.now) }
        ensures within { result < length self.now.heads.now }
    {
        (element.code() as u32 * self.heads.len() as u32 / 65_536) as u16
    }

    // The link to the last row that is filed there, or 0.
    fn last(&self, home: u16) -> u16
        requires { home < length self.now.heads.now }
        ensures { Ahead self.now.homes.now self.now.count home result }
    {
        let link = self.heads[home as usize];
        // A head may be stale: it is believed only if it leads to an element that is filed there.
        if link == 0 || link as usize > self.count || self.homes[link as usize - 1] != home {
            return 0;
        }
        link
    }

    // Whether the element is one of the rows to which the link leads.
    fn holds(&self, last: u16, element: &T) -> bool
        requires { Ahead self.now.homes.now self.now.count
            (place (T.filed element.now) (length self.now.heads.now)) last }
        ensures { Decides result (Has (take self.now.count self.now.rows.now) element.now) }
    {
        // Taken whole: of an element lent through a `&` to what holds a `&mut` there is no proof.
        let rows = &*self.rows;
        let mut link = last;
        while link > 0 {
            let row = link as usize - 1;
            if rows[row] == *element {
                return true;
            }
            link = self.next[row];
        }
        false
    }
}

impl<T: Element> Table for Indexed<'_, T> {
    type Item = T;

    ghost use Rattle.gather.specs.Indexes.{Emptied, Extended, few_elements};
    ghost use Rattle.gather.specs.Indexes.{extended_still, extended_further};

    ghost members = { λ s. take s.count s.rows.now };

    ghost room = { λ s. length s.rows.now };

    ghost emptied = { Emptied };

    ghost extended = { Extended };

    ghost once = { λ s. s.apart };

    ghost fits = { few_elements };

    ghost still = { extended_still };

    ghost further = { extended_further };

    fn rows(&self) -> &[T] {
        &self.rows[..self.count]
    }

    // The index is left as it stands: what it says of rows past the count is not believed.
    fn clear(&mut self) {
        self.count = 0;
    }

    fn insert(&mut self, element: &T) -> Inserted {
        let home = self.home(element);
        let last = self.last(home);
        if self.holds(last, element) {
            return Inserted::There;
        }
        if self.count == self.rows.len() {
            return Inserted::Full;
        }
        self.rows[self.count] = *element;
        self.homes[self.count] = home;
        self.next[self.count] = last;
        self.heads[home as usize] = self.count as u16 + 1;
        self.count += 1;
        Inserted::New
    }
}
