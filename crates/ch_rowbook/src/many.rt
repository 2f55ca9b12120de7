//! Several rows at once: all are laid before the first is shown.
ghost use Rattle.std.specs.Prelude.{◌≡◌, ◌<◌, ◌≤◌, ℕ, All, IfOk, length, map};
ghost use Rattle.std.specs.Arc.{arc_value};
ghost use Rattle.ch_overlay.specs.Change.{puts};
ghost use Rattle.ch_overlay.specs.Records.{IsSoundRow, recorded_row};
ghost use Rattle.ch_rowbook.specs.Showing.{GetsNoVersion, IsNextOf, IsShowable, laid_row, of_node};
ghost use Rattle.ch_rowbook.specs.declared.error.BookError.TheVariants.{Slot};

use crate::book::Book;
use crate::error::BookError;
use crate::laid::Laid;
use crate::pen::Pen;
use ch_overlay::Row;
use std::alloc::Global;
use std::sync::{Arc, Wait};

impl<B: Book> Pen<B> {
    /// Each node has a version, below the next one.
    pub fn known(&self)
        ensures count { length self.now.versions ≡ B.book.nodes }
        ensures below { All (λ v. v < self.now.next) self.now.versions }
    {
        let _ = &self.seat;
    }

    /// Lays rows, each of a node in range, first to last. No current row changes, on a refusal neither, and the next
    /// version is what it was or the one behind a record of the book, so the pen can be used again.
    ///
    /// `Slot` where the list gives one of the records a place below the next version, which is the one behind the record
    /// laid before it, or the last place that there is. Takes memory for the list and for the records, all of it before
    /// the first is laid, and waits while another thread makes room for records.
    pub fn lay_all<R: Wait>(
        &mut self,
        rt: &R,
        alloc: Global,
        rows: &[(u32, Arc<Row>)],
    ) -> Result<Vec<Laid<B>>, BookError>
        requires within { All (λ a. a.0 < B.book.nodes) rows.now }
        requires rows { All (λ a. IsSoundRow B.book.bound a.0 (arc_value a.1)) rows.now }
        ensures versions { self.new.versions ≡ self.old.versions }
        ensures rows { self.new.rows ≡ self.old.rows }
        ensures later { self.old.next ≤ self.new.next }
        ensures next { IsNextOf B.book.list self.old.next self.new.next }
        ensures laid { IfOk result (λ all. map (λ l. of_node l.node (recorded_row l.token.value)) all.items ≡ map (λ a. of_node a.0 (arc_value a.1)) rows.now) }
        ensures slot { result ≡ Err Slot → (k : ℕ) × (k < length rows.now) × GetsNoVersion B.book.list self.old.next (laid_row (map (λ a. of_node a.0 (arc_value a.1)) rows.now)) k }
        ensures showable { IfOk result (λ all. IsShowable self.new.versions self.new.next (map (λ l. l.token.index) all.items)) }
    {
        self.known();
        let mut all = Vec::with_capacity(alloc, rows.len())?;
        self.shelf.reserve(rows.len())?;
        for at in 0..rows.len() {
            let row = Arc::try_clone(&rows[at].1)?;
            let laid = self.lay(rt, rows[at].0, row)?;
            all.push(laid)?;
        }
        Ok(all)
    }

    /// Makes records that this pen laid the current ones of their nodes, first to last. Their versions rise, from above
    /// all current ones.
    ///
    /// It is one store for each. Takes no memory, and can't fail.
    pub fn show_all(&mut self, laid: &[Laid<B>])
        requires { IsShowable self.old.versions self.old.next (map (λ l. l.token.index) laid.now) }
        ensures versions { self.new.versions ≡ puts self.old.versions (map (λ l. (l.node, l.token.index)) laid.now) }
        ensures rows { self.new.rows ≡ puts self.old.rows (map (λ l. of_node l.node (recorded_row l.token.value)) laid.now) }
        ensures next { self.new.next ≡ self.old.next }
    {
        self.known();
        for at in 0..laid.len() {
            self.show_one(&laid[at]);
        }
    }
}
