// The floors of the table, which of its cells are broken, and the marks that each row lacks and each column wants. Remainders are added
// up as whole multiples of w and what is left below w, so that no sum passes a word.
ghost use Rattle.std.specs.Prelude.{◌≡◌, ◌+◌, ◌-◌, ◌*◌, ◌<◌, ◌≤◌, min, length};
ghost use Rattle.cells.specs.Naturals.{Unsigned, Naturals};
ghost use Rattle.cells.specs.Rows.{Carried, RowAsks};
ghost use Rattle.cells.specs.Floors.{Given};
ghost use Rattle.cells.specs.Marking.{FloorsRow, HasRoom, Floors};

use super::marks::{BROKEN, Marking, WHOLE};
use share::weights::Rate;

// The debits as unsigned numbers; their sum.
pub(crate) fn naturals(vd: &[i64], debits: &mut [u64]) -> u64
    requires { Unsigned vd.now debits.old }
    ensures { Naturals vd.now debits.old debits.new (length vd.now) result }
{
    let mut sum = 0;
    // by index: of what a zipped `iter_mut` writes a proof learns nothing
    for (j, &v) in vd.iter().enumerate() {
        let debit = v as u64;
        debits[j] = debit;
        sum += debit;
    }
    sum
}

// What a cell is whose floor leaves this over.
fn state(rest: u64) -> u64
    ensures { result ≡ min 1 rest }
{
    if rest == 0 { WHOLE } else { BROKEN }
}

// Adds a remainder to what is left below w; how often w is whole in the sum, not at all or once, is taken out of it and returned.
fn add(left: &mut u64, rest: u64, w: u64) -> u64
    requires { (left.old + rest < w + w) × (w ≤ 100000000000000000) }
    ensures { Carried (left.old + rest) w result × (left.new ≡ left.old + rest - result * w) }
{
    *left += rest;
    if *left < w {
        return 0;
    }
    *left -= w;
    1
}

impl Marking<'_> {
    // The floors of row i, whose credit is v, and which of its cells are broken. The remainders are added to the columns' sums, `wants`
    // times w and `lefts`; those of the row are what it lacks, in whole multiples of w. A column's sum is one number in two slices, since
    // after the floors `wants` goes on alone. Four of the parameters are what `floors` is lent: a struct of them would be made there and
    // taken apart here.
    fn floor_row(
        &mut self,
        i: usize,
        v: i64,
        debits: &[u64],
        w: u64,
        cells: &mut [i64],
        lefts: &mut [u64],
    )
        requires { (i < length self.old.lacks.now)
            × RowAsks v debits.now w cells.old self.old.marks.now self.old.wants.now lefts.old (i * length debits.now) }
        ensures { FloorsRow self.old i v debits.now w cells.old lefts.old self.new cells.new lefts.new }
    {
        let base = i * debits.len();
        let rate = Rate::of(v, w);
        let mut lacks = 0;
        let mut left = 0;
        // by index, as in `naturals`
        for (j, &x) in debits.iter().enumerate() {
            let cell = rate.at(x);
            cells[base + j] = cell.quot;
            self.marks[base + j] = state(cell.rem);
            self.wants[j] += add(&mut lefts[j], cell.rem, w);
            lacks += add(&mut left, cell.rem, w);
        }
        self.lacks[i] = lacks;
    }

    // All floors. wants and lefts come in as zeros.
    pub(crate) fn floors(
        &mut self,
        vc: &[i64],
        debits: &[u64],
        w: u64,
        cells: &mut [i64],
        lefts: &mut [u64],
    )
        requires { Given vc.now debits.now w × HasRoom self.old vc.now debits.now cells.old lefts.old }
        ensures { Floors vc.now debits.now w cells.new self.old self.new }
    {
        // by index: of what is written into a part that `chunks_exact_mut` lends a proof learns nothing
        for (i, &v) in vc.iter().enumerate() {
            self.floor_row(i, v, debits, w, cells, lefts);
        }
    }
}

// A table goes by `Rate`; that the calls of `AnyRate` answer is seen here.
#[cfg(test)]
mod tests {
    use share::weights::AnyRate;
    use wide::Divided;

    // −14 over 3 is −5, and 1 is left.
    #[test]
    fn any_rate() -> Result<(), Divided<i64>> {
        let rate = AnyRate::of(-7, 3);
        let share = rate.at(2);
        if share.quot == -5 && share.rem == 1 {
            Ok(())
        } else {
            Err(share)
        }
    }
}
