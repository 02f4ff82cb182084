// Marks dealt row by row to the columns that want most. Where no cell is whole this places them all; what it cannot place is left to
// the search, so that nothing here promises more than that every total is kept.
ghost use Rattle.std.specs.Prelude.{◌<◌, length, IfSome};
ghost use Rattle.cells.specs.Marking.{KeepsTotals};

use super::marks::{BROKEN, MARKED, Marking};

// The largest level above 1 at which at least k columns want that many marks or more, if there is one.
fn level(counts: &[u64], k: u64) -> Option<u64>
    ensures { IfSome result (λ t. (1 < t) × (t < length counts.now)) }
{
    let mut left = k;
    for (t, &count) in counts.iter().enumerate().skip(2).rev() {
        if count >= left {
            return Some(t as u64);
        }
        left -= count;
    }
    None
}

impl Marking<'_> {
    // Sets counts[k] to how many columns want k marks and have a broken cell without one in row i.
    fn count_wants(&self, i: usize, counts: &mut [u64])
        requires { i < length self.now.lacks.now }
    {
        let base = i * self.wants.len();
        let row = &self.marks[base..base + self.wants.len()];
        counts.fill(0);
        for (&want, &mark) in self.wants.iter().zip(row) {
            let k = want as usize;
            if mark == BROKEN && k < counts.len() {
                counts[k] += 1;
            }
        }
    }

    // Marks the broken cells of row i whose columns want at least `least`, until the row lacks none.
    fn take(&mut self, i: usize, least: u64)
        requires { (i < length self.old.lacks.now) × (0 < least) }
        ensures { KeepsTotals self.old self.new }
    {
        let n = self.wants.len();
        // by index: a turn reads and writes all three slices
        for j in 0..n {
            if self.wants[j] >= least && self.marks[i * n + j] == BROKEN && self.lacks[i] > 0 {
                self.marks[i * n + j] = MARKED;
                self.wants[j] -= 1;
                self.lacks[i] -= 1;
            }
        }
    }

    // Deals row i the marks that it lacks, to the columns that want most.
    fn deal_row(&mut self, i: usize, counts: &mut [u64])
        requires { i < length self.old.lacks.now }
        ensures { KeepsTotals self.old self.new }
    {
        self.count_wants(i, counts);
        let l = level(counts, self.lacks[i]).unwrap_or(1);
        self.take(i, l + 1);
        self.take(i, l);
    }

    // Deals every row's marks.
    pub(crate) fn deal(&mut self, counts: &mut [u64])
        ensures { KeepsTotals self.old self.new }
    {
        for i in 0..self.lacks.len() {
            self.deal_row(i, counts);
        }
    }
}
