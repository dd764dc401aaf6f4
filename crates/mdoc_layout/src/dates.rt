//! Dates of pages, as mandoc prints them.
ghost use Rattle.std.specs.Prelude.{◌≡◌, ◌+◌, ◌≤◌, ◌++◌, length};
ghost use Rattle.mdoc_layout.specs.Dates as specs;

use super::lookup::{before_nul, named_in};
use super::page::Page;
use nr_units::Name;
use nr_vectors::slice_vec::SliceVec;

/// Months, by their first three letters.
static MONTHS: [([u8; 15], [u8; 9]); 12] = [
    (*b"Jan\0\0\0\0\0\0\0\0\0\0\0\0", *b"January\0\0"),
    (*b"Feb\0\0\0\0\0\0\0\0\0\0\0\0", *b"February\0"),
    (*b"Mar\0\0\0\0\0\0\0\0\0\0\0\0", *b"March\0\0\0\0"),
    (*b"Apr\0\0\0\0\0\0\0\0\0\0\0\0", *b"April\0\0\0\0"),
    (*b"May\0\0\0\0\0\0\0\0\0\0\0\0", *b"May\0\0\0\0\0\0"),
    (*b"Jun\0\0\0\0\0\0\0\0\0\0\0\0", *b"June\0\0\0\0\0"),
    (*b"Jul\0\0\0\0\0\0\0\0\0\0\0\0", *b"July\0\0\0\0\0"),
    (*b"Aug\0\0\0\0\0\0\0\0\0\0\0\0", *b"August\0\0\0"),
    (*b"Sep\0\0\0\0\0\0\0\0\0\0\0\0", *b"September"),
    (*b"Oct\0\0\0\0\0\0\0\0\0\0\0\0", *b"October\0\0"),
    (*b"Nov\0\0\0\0\0\0\0\0\0\0\0\0", *b"November\0"),
    (*b"Dec\0\0\0\0\0\0\0\0\0\0\0\0", *b"December\0"),
];

/// The month that its first three letters stand for.
fn month_named(word: Name) -> Option<[u8; 9]>
    ensures { result ≡ specs.month_named word }
{
    named_in(&MONTHS, word.as_bytes())
}

/// A day without a zero before it.
fn day_said(day: &[u8]) -> &[u8]
    ensures value { result.now ≡ specs.day_said day.now }
    ensures few { length result.now ≤ length day.now }
{
    match day {
        [b'0', ..] => &day[1..],
        _ => day,
    }
}

/// What stands between the day of a date and its year.
fn after_day(day: &[u8]) -> &'static [u8]
    ensures value { result.now ≡ specs.after_day day.now }
    ensures few { length result.now ≤ 2 }
{
    let len = day.len();
    if len > 0 && day[len - 1] != b',' {
        b", "
    } else {
        b" "
    }
}

impl Page {
    /// The month of a whole date.
    fn put_month(&self, out: &mut SliceVec<'_, u8>)
        requires { length out.old.items + 32 ≤ out.old.capacity }
        ensures items { out.new.items ≡ out.old.items
            ++ specs.month_said (specs.month_named self.now.month) self.now.month }
        ensures few { length out.new.items ≤ length out.old.items + 32 }
        ensures room { out.new.capacity ≡ out.old.capacity }
    {
        match month_named(self.month) {
            Some(name) => out.extend(before_nul(&name)),
            None => out.extend(self.month.as_bytes()),
        }
    }

    /// A date without a year.
    fn put_date_begun(&self, out: &mut SliceVec<'_, u8>)
        requires { length out.old.items + 65 ≤ out.old.capacity }
        ensures items { out.new.items ≡ out.old.items ++ specs.date_begun self.now }
        ensures few { length out.new.items ≤ length out.old.items + 65 }
        ensures room { out.new.capacity ≡ out.old.capacity }
    {
        out.extend(self.month.as_bytes());
        if !self.day.is_empty() {
            out.push(b' ');
            out.extend(self.day.as_bytes());
        }
    }

    /// The page's date.
    pub(crate) fn put_date(&self, out: &mut SliceVec<'_, u8>)
        requires { length out.old.items + 100 ≤ out.old.capacity }
        ensures items { out.new.items ≡ out.old.items ++ specs.date self.now }
        ensures few { length out.new.items ≤ length out.old.items + 100 }
        ensures room { out.new.capacity ≡ out.old.capacity }
    {
        if self.year.is_empty() {
            return self.put_date_begun(out);
        }
        let day = day_said(self.day.as_bytes());
        self.put_month(out);
        out.push(b' ');
        out.extend(day);
        out.extend(after_day(day));
        out.extend(self.year.as_bytes());
    }
}
