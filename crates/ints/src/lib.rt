// The toolkit on whole numbers: its laws are in specs/, and its code is the test of a limit on both sides and loops that add over a slice.
#![tactic(auto)]

ghost use Rattle.std.specs.Prelude.{◌≡◌, ℤ, map};
ghost use Rattle.std.specs.Fn.{FnReturnsAt};
ghost use Rattle.ints.specs.Range.{outside};
ghost use Rattle.ints.specs.Sums.{sum_ℤ};
ghost use Rattle.ints.specs.Adding.{Summable, Addable, sums};

// Whether x lies outside low..=high.
pub fn outside(low: i64, high: i64, x: i64) -> bool
    ensures { result ≡ outside low high x }
{
    !(low..=high).contains(&x)
}

// The sum of the entries. By `total_by` it would not prove: all that it asks of a call is one goal, in which the search knows the closure
// but not that these amounts are the entries themselves, and a `grind` that is given this (`using`) does not know the closure.
pub fn total(amounts: &[i64]) -> i64
    requires { Summable amounts.now }
    ensures { result ≡ sum_ℤ amounts.now }
{
    let mut sum = 0;
    for x in amounts {
        sum += *x;
    }
    sum
}

// The sum of one amount of each line: `amount` gives that of a line, which is `of` it.
pub fn total_by<T, F: Fn(&T) -> i64>(lines: &[T], amount: F) -> i64
    ghost of: { T → ℤ }
    requires callable { F.IsAlwaysCallable amount }
    requires gives { (x : T) (r : ℤ) → FnReturnsAt F.Fn amount x r → r ≡ of x }
    requires fits { Summable (map of lines.now) }
    ensures { result ≡ sum_ℤ (map of lines.now) }
{
    let mut sum = 0;
    for x in lines {
        sum += amount(x);
    }
    sum
}

// Adds one amount of each line to its entry: `amount` gives that of a line, which is `of` it.
pub fn add_by<T, F: Fn(&T) -> i64>(lines: &[T], out: &mut [i64], amount: F)
    ghost of: { T → ℤ }
    requires callable { F.IsAlwaysCallable amount }
    requires gives { (x : T) (r : ℤ) → FnReturnsAt F.Fn amount x r → r ≡ of x }
    requires fits { Addable of out.old lines.now }
    ensures { out.new ≡ sums of out.old lines.now }
{
    // by index: of what a zipped `iter_mut` writes a proof learns nothing
    for (i, x) in lines.iter().enumerate() {
        out[i] += amount(x);
    }
}
