// What the walk keeps of what it has found so far.
ghost use Rattle.std.specs.Prelude.{◌+◌, ◌≤◌};
ghost use Rattle.range.specs.Range.{end_of, page_size};

use crate::Kind;
use range::{PAGE_SIZE, Range};

// The last address, how many tables, the first linear page, how many pages, and the range from the first page to the last. Addresses rise and a
// region is one range, so a region holds every page where it holds that range.
#[derive(Clone, Copy)]
pub struct Progress {
    pub last: u64,
    pub tables: u64,
    pub first: u32,
    pub count: u32,
    pub pages: Range,
    // The pages begin at or below the last address, and end with the page there at the latest.
    pub ghost from: { pages.base ≤ last },
    pub ghost to: { end_of pages ≤ last + page_size },
}

impl Progress {
    ghost use Rattle.std.specs.Prelude.{◌≡◌, ◌≤◌, ◌<◌};
    ghost use Rattle.pages.specs.declared.Kind.TheVariants.{Page};
    ghost use Rattle.pages.specs.Memory.{Memory};
    ghost use Rattle.pages.specs.Tables.{level_size};
    ghost use Rattle.pages.specs.Rules.{most_tables, start_of, after_table, after_page, after, follows};
    ghost use Rattle.pages.specs.Inner.{state_of, pages_to, Above, Room};

    // The base alone: a table, and no page.
    pub(crate) fn from_base(t: u64) -> Progress
        ensures { (m : Memory) → state_of m result ≡ start_of m t }
    {
        Progress {
            last: t,
            tables: 1,
            first: 0,
            count: 0,
            pages: Range { base: t, size: 0 },
        }
    }

    // Rule 19: the first page, or the one after the last. That there was a page is `count`, which is answered anyway; an Option of the first would say it
    // a second time.
    #[tactic(auto, unfolding(crate::specs::Rules::follows))]
    pub(crate) fn page_follows(self, l: u64) -> bool
        ensures { result ≡ follows self.first self.count l }
    {
        let first = self.first as u64;
        self.count == 0 || first <= l && l - first == self.count as u64
    }

    // The range from the first page to a page at a.
    pub(crate) fn pages_to(self, a: u64) -> Range
        requires { Above self a }
        ensures { result ≡ pages_to self a }
    {
        let base = if self.count == 0 { a } else { self.pages.base };
        Range {
            base,
            size: a - base + PAGE_SIZE,
        }
    }

    // What was found after one table more.
    fn with_table(self, a: u64) -> Progress
        requires above { Above self a }
        requires room { self.tables < most_tables }
        ensures { (m : Memory) → state_of m result ≡ after_table (state_of m self) a }
    {
        let pages = self.pages;
        Progress {
            last: a,
            tables: self.tables + 1,
            first: self.first,
            count: self.count,
            pages,
        }
    }

    // What was found after one page more: the first one gives the first linear page.
    fn with_page(self, l: u64, a: u64) -> Progress
        requires above { Above self a }
        requires room { self.count ≤ l }
        requires in_level { l < level_size Page }
        ensures { (m : Memory) → state_of m result ≡ after_page (state_of m self) l a }
    {
        let first = if self.count == 0 {
            l as u32
        } else {
            self.first
        };
        let pages = self.pages_to(a);
        Progress {
            last: a,
            tables: self.tables,
            first,
            count: self.count + 1,
            pages,
        }
    }

    // What was found after an entry that breaks no rule.
    pub(crate) fn with_entry(self, kind: Kind, l: u64, a: u64) -> Progress
        requires above { Above self a }
        requires room { Room kind self l }
        requires in_level { l < level_size Page }
        ensures { (m : Memory) → state_of m result ≡ after kind (state_of m self) l a }
    {
        match kind {
            Kind::Pointer => self.with_table(a),
            Kind::Directory => self.with_table(a),
            Kind::Page => self.with_page(l, a),
        }
    }
}
