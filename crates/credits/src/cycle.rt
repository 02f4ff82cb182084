// The cycle of the yearly adjustments, July to June.
ghost use Rattle.std.specs.Prelude.{◌≡◌, false};
ghost use Rattle.rules.specs.Calendar.{impossible_month, cycle_month, cycle_of, settled_to};
ghost use Rattle.rules.specs.Ranges.{MonthAfter};

// Cycle month: July 1 to June 12. A possible month is above 0, where % is mm.
#[tactic(auto, using(crate::proofs::Months::cycle_month_at, crate::proofs::Months::twelve))]
pub(crate) fn cycle_month(month: i64) -> i64
    requires { impossible_month month ≡ false }
    ensures { result ≡ cycle_month month }
{
    match month % 100 {
        1 => 7,
        2 => 8,
        3 => 9,
        4 => 10,
        5 => 11,
        6 => 12,
        7 => 1,
        8 => 2,
        9 => 3,
        10 => 4,
        11 => 5,
        12 => 6,
        // as in the definition; no month of a year comes here
        _ => 0,
    }
}

// The year of the July that begins the month's cycle.
fn cycle(month: i64) -> i64
    requires { impossible_month month ≡ false }
    ensures { result ≡ cycle_of month }
{
    let year = month / 100;
    if month % 100 < 7 { year - 1 } else { year }
}

// The cycle month that adjustments are settled to when the month closes, `last` being the last closed month, 0 for none, as the
// ledger has it.
pub(crate) fn settled_to(last: i64, month: i64) -> i64
    requires { MonthAfter last month }
    ensures { result ≡ settled_to last month }
{
    if last == 0 {
        return cycle_month(month) - 1;
    }
    if cycle(last) == cycle(month) {
        return cycle_month(last);
    }
    0
}
