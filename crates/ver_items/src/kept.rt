//! Items that are kept to be read again.

ghost use Rattle.std.specs.Prelude.{◌≡◌, ◌<◌, ◌^◌, ◌++◌, [], length, nat_lt, true, false, IfOk, IfSome, OnErr, OnOk};
ghost use Rattle.ver_items.specs.Sections.{items};
ghost use Rattle.ver_items.specs.SectionSteps.{section_in};

use crate::item::{Item, Tokens};
use crate::items::Items;
use std::alloc::Global;
use std::marker::Model;
use ver_syntax::Row;
use vg_num::Memory;

/// Items of a module, one after another. Contracts see the list of them.
#[derive(Drop)]
pub struct KeptItems {
    /// The tokens of all items.
    rows: Vec<Row>,
    /// How many tokens each item has.
    counts: Vec<u32>,
    /// No more tokens than these are kept.
    most: usize,
}

impl Model for KeptItems {
    ghost use Rattle.std.specs.Prelude.{List};
    ghost use Rattle.ver_items.specs.Kept.{AreCounts, items_by};
    ghost use Rattle.ver_items.specs.Sections.{Section as SectionSpec};

    ghost Value = { List SectionSpec };

    ghost view = { λ kept. items_by kept.counts.items kept.rows.items };

    ghost invariant = { λ kept. AreCounts kept.counts.items kept.rows.items };
}

impl KeptItems {
    /// No items, with room for so many tokens, and no more. Answers `Memory` where there is none.
    pub fn with_room(alloc: Global, tokens: usize) -> Result<KeptItems, Memory>
        ensures { IfOk result (λ kept. kept ≡ []) }
    {
        let rows = Vec::with_capacity(alloc, tokens)?;
        Ok(KeptItems {
            rows,
            counts: Vec::new(alloc),
            most: tokens,
        })
    }

    /// Puts an item last, by its tokens, if they are not too many beside those of the others. Whether it is put there.
    /// Answers `Memory` where there is no room. Nothing changes where it is not put there.
    pub fn push(&mut self, item: &[Row]) -> Result<bool, Memory>
        requires { 0 < length item.now }
        ensures last { IfOk result (λ put. put ≡ true → self.new ≡ self.old ++ section_in item.now) }
        ensures over { IfOk result (λ put. put ≡ false → self.new ≡ self.old) }
        ensures unchanged { OnErr result (self.new ≡ self.old) }
    {
        let Ok(count) = u32::try_from(item.len()) else {
            return Ok(false);
        };
        let before = self.rows.len();
        if self.most.saturating_sub(before) < item.len() {
            return Ok(false);
        }
        if self.rows.extend_from_slice(item).is_err() || self.counts.push(count).is_err() {
            self.rows.truncate(before);
            return Err(Memory);
        }
        Ok(true)
    }
}

/// The items of a text once more: those that were kept, and then others. Contracts see the list of those that are left.
#[derive(Drop)]
pub struct ItemsAgain<'a> {
    rows: &'a [Row],
    counts: &'a [u32],
    others: Items<'a>,
}

impl<'a> Model for ItemsAgain<'a> {
    ghost use Rattle.std.specs.Prelude.{List, ◌++◌};
    ghost use Rattle.ver_items.specs.Kept.{AreCounts, items_by};
    ghost use Rattle.ver_items.specs.Sections.{Section as SectionSpec};

    ghost Value = { List SectionSpec };

    ghost view = { λ left. items_by left.counts.now left.rows.now ++ left.others };

    ghost invariant = { λ left. AreCounts left.counts.now left.rows.now };
}

impl<'a> ItemsAgain<'a> {
    /// The items of a text, if they were kept; else they are cut again.
    pub fn new(text: &'a [u8], kept: Option<&'a KeptItems>) -> ItemsAgain<'a>
        requires few { length text.now < 2 ^ 32 }
        requires kept { IfSome kept (λ k. k.now ≡ items text.now) }
        ensures { result ≡ items text.now }
    {
        match kept {
            Some(kept) => ItemsAgain {
                rows: &kept.rows,
                counts: &kept.counts,
                others: Items::new(&[]),
            },
            None => ItemsAgain {
                rows: &[],
                counts: &[],
                others: Items::new(text),
            },
        }
    }

    /// Reads the tokens of the next item, up to its `;`, in place of those of another. Whether there is one. Answers
    /// `Memory` where there is no room.
    pub fn read(&mut self, item: &mut Item<'a>) -> Result<bool, Memory>
        ensures next { OnOk result (self.old ≡ section_in item.new ++ self.new) }
        ensures more { IfOk result (λ more. more ≡ nat_lt 0 (length item.new)) }
        ensures end { IfOk result (λ more. more ≡ false → self.old ≡ []) }
    {
        let Some((count, counts)) = self.counts.split_first() else {
            let more = self.others.read(item)?;
            return Ok(more);
        };
        let (rows, left) = self.rows.split_at(*count as usize);
        item.others = Some(Tokens::Held(rows));
        self.rows = left;
        self.counts = counts;
        Ok(true)
    }
}
