// What the cells of a table are, and what its rows and columns still need.
ghost use Rattle.std.specs.Prelude.{◌≡◌, ◌*◌, length};

// A cell is whole; broken, so that its exact value is above its floor; or broken and marked, to take the cent above.
// Numbers, and no enum: they stand in the work slice, which the caller lends as numbers.
pub(crate) const WHOLE: u64 = 0;

pub(crate) const BROKEN: u64 = 1;

pub(crate) const MARKED: u64 = 2;

// A table while its marks are placed, in lent slices.
#[derive(Drop)]
pub(crate) struct Marking<'a> {
    // what each cell is, row by row: one flat slice, as the caller lends it, cell j of row i at i * columns + j
    pub marks: &'a mut [u64],
    // how many marks each row lacks
    pub lacks: &'a mut [u64],
    // how many marks each column wants
    pub wants: &'a mut [u64],
    // a cell for each row and column
    ghost grid: { length marks.now ≡ length lacks.now * length wants.now },
}
