// The walk: the base, then the entries of each level by rising number. Nothing is stored: each entry is found again from the tables.
ghost use Rattle.std.specs.Prelude.{◌≡◌, ◌+◌, ◌*◌, ◌≤◌, ◌<◌};
ghost use Rattle.rules.specs.Rules.{first_failing};
ghost use Rattle.rules.specs.Refusal.{numbered, failing};
ghost use Rattle.pages.specs.declared.Kind.TheVariants.{Directory, Page};
ghost use Rattle.pages.specs.Memory.{memory_of};
ghost use Rattle.pages.specs.Tables.{entries, level_size, found_one, found_from, found_in, found};
ghost use Rattle.pages.specs.Rules.{base_rules, table_rules, own_rules, entry_rules, walk_of};
ghost use Rattle.pages.specs.Inner.{state_of, Above, extent, told, entry_in, Tried};

use crate::entry::{address, present, reserved_clear};
use crate::placement::{is_allowed, is_protected, is_table_protected};
use crate::progress::Progress;
use crate::tables::{ENTRIES, POINTERS, Tables};
use crate::window::Window;
use crate::{Kind, Mapped, MemoryRanges};
use range::PAGE_SIZE;
use rules::{Refusal, require};

const MOST_TABLES: u64 = 40;

const DIRECTORIES: u64 = POINTERS * ENTRIES;

// That a page or a table lies above what was found (`Above`) is asked where it is needed: it ties an address to the progress, and is no value's own.
//
// What the walk is given: the tables in the window, the ranges of memory that the rules name, and the reserved ranges as numbers, as the C interface lends them.
#[derive(Clone, Copy)]
pub struct Walker<'a> {
    pub tables: Tables<'a>,
    pub memory: MemoryRanges,
    pub reserved: &'a [u64],
}

impl<'a> Walker<'a> {
    // A table's own rules, 18 and 20.
    fn judge_table(&self, p: Progress, a: u64) -> Result<(), Refusal>
        ensures { failing result ≡ first_failing (table_rules (told self.now) (state_of (told self.now) p) a) }
    {
        require(p.tables < MOST_TABLES, Refusal::TablePages)?;
        require(is_table_protected(self.memory, a), Refusal::NotProtected)
    }

    // A page's own rules, 19 and 20.
    fn judge_page(&self, p: Progress, l: u64, a: u64) -> Result<(), Refusal>
        requires { Above p a }
        ensures { failing result ≡ first_failing (own_rules Page (told self.now) (state_of (told self.now) p) l a) }
    {
        require(p.page_follows(l), Refusal::LinearGap)?;
        require(
            is_protected(self.memory, p.pages_to(a)),
            Refusal::NotProtected,
        )
    }

    // The rules of a kind alone.
    fn judge_own(&self, kind: Kind, p: Progress, l: u64, a: u64) -> Result<(), Refusal>
        requires { Above p a }
        ensures { failing result ≡ first_failing (own_rules kind (told self.now) (state_of (told self.now) p) l a) }
    {
        match kind {
            Kind::Pointer => self.judge_table(p, a),
            Kind::Directory => self.judge_table(p, a),
            Kind::Page => self.judge_page(p, l, a),
        }
    }

    // The rules of an entry that is present. A page's range is formed only above the last address.
    fn judge_entry(&self, kind: Kind, p: Progress, l: u64, e: u64) -> Result<(), Refusal>
        ensures { failing result ≡ first_failing (entry_rules kind (extent self.now.tables.window) (told self.now) (state_of (told self.now) p) l e) }
    {
        require(reserved_clear(kind, e), Refusal::EntryBits)?;
        let a = address(e);
        require(self.tables.window.has_page(a), Refusal::OutsideWindow)?;
        require(p.last < a, Refusal::NotAscending)?;
        require(
            is_allowed(self.memory, self.reserved, a),
            Refusal::ForbiddenRange,
        )?;
        self.judge_own(kind, p, l, a)
    }

    // The rules of the base.
    fn judge_base(&self) -> Result<(), Refusal>
        ensures { failing result ≡ first_failing (base_rules (extent self.now.tables.window) (told self.now) self.now.tables.base) }
    {
        let base = self.tables.base;
        require(base % PAGE_SIZE == 0, Refusal::EntryBits)?;
        require(self.tables.window.has_page(base), Refusal::OutsideWindow)?;
        require(
            is_allowed(self.memory, self.reserved, base),
            Refusal::ForbiddenRange,
        )?;
        require(is_table_protected(self.memory, base), Refusal::NotProtected)
    }

    // One entry of a level.
    fn step(&self, kind: Kind, p: Progress, l: u64, e: u64) -> Result<Progress, Refusal>
        requires { l < level_size Page }
        ensures { Tried (extent self.now.tables.window) (told self.now) p result (found_one kind l e) }
    {
        if !present(e) {
            return Ok(p);
        }
        self.judge_entry(kind, p, l, e)?;
        Ok(p.with_entry(kind, l, address(e)))
    }

    // n entries of a level, from number l on.
    fn span(&self, kind: Kind, p: Progress, l: u64, n: u64) -> Result<Progress, Refusal>
        requires { l + n ≤ level_size Page }
        ensures { Tried (extent self.now.tables.window) (told self.now) p result (found_from kind (entry_in kind self.now.tables) l n) }
    {
        let mut progress = p;
        for i in 0..n {
            let e = self.tables.entry(kind, l + i);
            progress = self.step(kind, progress, l + i, e)?;
        }
        Ok(progress)
    }

    // The pages of the directory entry d. There are none where the entry is not present.
    fn table(&self, p: Progress, d: u64) -> Result<Progress, Refusal>
        requires { d < level_size Directory }
        ensures { Tried (extent self.now.tables.window) (told self.now) p result (found_from Page (entry_in Page self.now.tables) (entries * d) entries) }
    {
        if !present(self.tables.directory(d)) {
            return Ok(p);
        }
        self.span(Kind::Page, p, ENTRIES * d, ENTRIES)
    }

    // All pages.
    fn pages(&self, p: Progress) -> Result<Progress, Refusal>
        ensures { Tried (extent self.now.tables.window) (told self.now) p result (found_in Page self.now.tables.window.bytes.now self.now.tables.window.base self.now.tables.base) }
    {
        let mut progress = p;
        for d in 0..DIRECTORIES {
            progress = self.table(progress, d)?;
        }
        Ok(progress)
    }

    // All entries of a level.
    #[tactic(auto, unfolding(crate::specs::Tables::found_in))]
    fn level(&self, kind: Kind, p: Progress) -> Result<Progress, Refusal>
        ensures { Tried (extent self.now.tables.window) (told self.now) p result (found_in kind self.now.tables.window.bytes.now self.now.tables.window.base self.now.tables.base) }
    {
        match kind {
            Kind::Pointer => self.span(kind, p, 0, POINTERS),
            Kind::Directory => self.span(kind, p, 0, DIRECTORIES),
            Kind::Page => self.pages(p),
        }
    }

    // All entries: all directory entries come before the first page.
    fn levels(&self, p: Progress) -> Result<Progress, Refusal>
        ensures { Tried (extent self.now.tables.window) (told self.now) p result (found self.now.tables.window.bytes.now self.now.tables.window.base self.now.tables.base) }
    {
        let pointers = self.level(Kind::Pointer, p)?;
        let directories = self.level(Kind::Directory, pointers)?;
        self.level(Kind::Page, directories)
    }
}

// The walk of the window w from the table base t.
pub fn walk(w: &[u8], m: MemoryRanges, reserved: &[u64], t: u64) -> Result<Mapped, Refusal>
    ensures { numbered result ≡ walk_of w.now (memory_of m reserved.now) t }
{
    let window = Window {
        bytes: w,
        base: m.window,
    };
    let tables = Tables { window, base: t };
    let walker = Walker {
        tables,
        memory: m,
        reserved,
    };
    walker.judge_base()?;
    let end = walker.levels(Progress::from_base(t))?;
    Ok(Mapped {
        first: end.first,
        count: end.count,
    })
}
