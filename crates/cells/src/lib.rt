// The table of cells (paper 01, "The table of cells"): who bills whom, to the cent.
// First every cell is the floor of its exact value. The cents that rows and columns then lack are marks on broken cells: `deal` places
// them row by row, `search` the few that are left, and it always can (specs/Cut.antt).
#![tactic(auto)]

mod deal;
mod floors;
mod marks;
mod search;

ghost use Rattle.std.specs.Prelude.{◌≡◌, ◌-◌, ◌*◌, ◌≤◌, length, pos};
ghost use Rattle.rules.specs.Table.{Table};
ghost use Rattle.cells.specs.Finish.{Fillable, PostAsks, Posted};

use marks::{MARKED, Marking};
use rules::{PAYEES, USERS};
use search::Search;

// The cent that a cell's mark adds to its floor.
fn cent(mark: u64) -> i64
    requires { mark ≤ 2 }
    ensures { result ≡ pos (mark - 1) }
{
    i64::from(mark == MARKED)
}

// Adds the marks to the floors. Not by `ints::add_by`: what that asks stays open, and the kit counts no answer of ours to it.
fn post(cells: &mut [i64], table: &Marking)
    requires { PostAsks cells.old table.now.marks.now }
    ensures { Posted cells.old table.now.marks.now cells.new (length cells.old) }
{
    // by index: of what a zipped `iter_mut` writes a proof learns nothing
    for (i, &mark) in table.marks.iter().enumerate() {
        cells[i] += cent(mark);
    }
}

// Writes the table of the payees' credits vc and the users' debits vd, payee by payee, users in order. Which broken cells take the
// odd cents is free within paper 01, and so is what the work slice holds afterwards.
pub fn fill(vc: &[i64], vd: &[i64], cells: &mut [i64], work: &mut [u64])
    requires { Fillable vc.now vd.now × (length cells.old ≡ length vc.now * length vd.now)
        × (length vc.now * length vd.now ≤ length work.old) }
    ensures { Table vc.now vd.now cells.new }
{
    let m = vc.len();
    let n = vd.len();
    // of users one array for each number, and none of structs: each step is lent those that it reads, and `wants` goes on without `lefts`
    let mut debits = [0; USERS];
    let mut lacks = [0; PAYEES];
    let mut wants = [0; USERS];
    let mut lefts = [0; USERS];
    let mut counts = [0; PAYEES + 1];
    let mut rows = [false; PAYEES];
    let mut columns = [false; USERS];
    let debits = &mut debits[..n];
    let w = floors::naturals(vd, debits);
    let mut table = Marking {
        marks: &mut work[..m * n],
        lacks: &mut lacks[..m],
        wants: &mut wants[..n],
    };
    table.floors(vc, debits, w, cells, &mut lefts[..n]);
    table.deal(&mut counts[..m + 1]);
    let mut search = Search {
        open_rows: &mut rows[..m],
        open_columns: &mut columns[..n],
        table,
    };
    search.place();
    post(cells, &search.table);
}
