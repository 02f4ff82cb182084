// The search for marks: depth first, over rows and columns in turn, which turns the cells of the way it found on its way back out.
ghost use Rattle.std.specs.Prelude.{◌≡◌, ◌<◌, length, slice_index, slice_index_or, IsTrue, false};

use super::marks::{BROKEN, MARKED, Marking};

// A table under search, and which of its rows and columns are open: those that the search has not visited.
#[derive(Drop)]
pub(crate) struct Search<'a> {
    pub open_rows: &'a mut [bool],
    pub open_columns: &'a mut [bool],
    pub table: Marking<'a>,
    ghost tall: { length table.lacks.now ≡ length open_rows.now },
    ghost wide: { length table.wants.now ≡ length open_columns.now },
}

impl Search<'_> {
    ghost use Rattle.cells.specs.Searching.{FreeIn, VisitsRow, VisitsColumn, IsWanted, PlacesRow, Places};

    // Of the open columns whose cell in row i is broken and has no mark, the first that wants most, if any wants one.
    fn most_wanting(&self, i: usize) -> Option<usize>
        requires { i < length self.now.open_rows.now }
        ensures { FreeIn self.now i result }
    {
        let n = self.open_columns.len();
        // best and most by hand: `filter` with `min_by_key` of a `Reverse` was proved too, and the longest searches took an eighth longer
        let mut best = None;
        let mut most = 0;
        for (j, &want) in self.table.wants.iter().enumerate() {
            if want > most && self.table.marks[i * n + j] == BROKEN && self.open_columns[j] {
                best = Some(j);
                most = want;
            }
        }
        best
    }

    // Visits row i, which is open: finds it one more mark, or shows that there is none to be had.
    #[cycle(visit)]
    fn visit_row(&mut self, i: usize) -> bool
        requires { (i < length self.old.open_rows.now) × IsTrue (slice_index_or self.old.open_rows.now i false) }
        ensures { VisitsRow self.old self.new i result }
    {
        let n = self.open_columns.len();
        self.open_rows[i] = false;
        if let Some(j) = self.most_wanting(i) {
            self.table.wants[j] -= 1;
            self.table.marks[i * n + j] = MARKED;
            return true;
        }
        for j in 0..n {
            if self.open_columns[j]
                && self.table.marks[i * n + j] == BROKEN
                && self.visit_column(j)
            {
                self.table.marks[i * n + j] = MARKED;
                return true;
            }
        }
        false
    }

    // Visits column j, which is open and wants no mark: has it give up a mark whose row finds another, or shows that there is none such.
    #[cycle(visit)]
    fn visit_column(&mut self, j: usize) -> bool
        requires { (j < length self.old.open_columns.now) × IsTrue (slice_index_or self.old.open_columns.now j false)
            × (slice_index self.old.table.wants.now j ≡ 0) }
        ensures { VisitsColumn self.old self.new j result }
    {
        let n = self.open_columns.len();
        self.open_columns[j] = false;
        for i in 0..self.open_rows.len() {
            if self.open_rows[i] && self.table.marks[i * n + j] == MARKED && self.visit_row(i) {
                self.table.marks[i * n + j] = BROKEN;
                return true;
            }
        }
        false
    }

    // Gives row i every mark that it lacks.
    fn place_row(&mut self, i: usize)
        requires { IsWanted self.old × (i < length self.old.open_rows.now) }
        ensures { PlacesRow self.old self.new i }
    {
        for _ in 0..self.table.lacks[i] {
            self.open_rows.fill(true);
            self.open_columns.fill(true);
            self.visit_row(i);
        }
        self.table.lacks[i] = 0;
    }

    // Gives every row and every column the marks that it wants. Only broken cells are marked.
    pub(crate) fn place(&mut self)
        requires { IsWanted self.old }
        ensures { Places self.old self.new }
    {
        for i in 0..self.table.lacks.len() {
            self.place_row(i);
        }
    }
}
