// The lines of a month file as records: where a line's values, in the order of its columns, become its fields.
#![tactic(auto)]

ghost use Rattle.std.specs.Prelude.{◌≡◌, List, ℤ};
ghost use Rattle.rules.specs.Lines.{agent_of, user_of, point_of};
ghost use Rattle.records.specs.Columns.{month_line_of};

use rules::{Agent, MonthLine, Point, User};

// A line of N values. A trait of ours and no `From<[i64; N]>`, which only the crate of the structs could give them.
pub trait Line<const N: usize>: Copy {
    ghost of: { List ℤ → Self };

    fn of(values: [i64; N]) -> Self
        ensures { result ≡ of values.entry };
}

impl Line<2> for MonthLine {
    ghost of = { month_line_of };

    fn of(values: [i64; 2]) -> Self
        ensures { result ≡ month_line_of values }
    {
        let [month, ons] = values;
        MonthLine { month, ons }
    }
}

impl Line<7> for Agent {
    ghost of = { agent_of };

    fn of(values: [i64; 7]) -> Self
        ensures { result ≡ agent_of values }
    {
        let [number, pb, pv, afs, rfs, pa, ret] = values;
        Agent {
            number,
            pb,
            pv,
            afs,
            rfs,
            pa,
            ret,
        }
    }
}

impl Line<4> for User {
    ghost of = { user_of };

    fn of(values: [i64; 4]) -> Self
        ensures { result ≡ user_of values }
    {
        let [number, kind, ret, ong] = values;
        User {
            number,
            kind,
            ret,
            ong,
        }
    }
}

impl Line<9> for Point {
    ghost of = { point_of };

    fn of(values: [i64; 9]) -> Self
        ensures { result ≡ point_of values }
    {
        let [user, tp, tf, dp, df, mp, mf, vp, vf] = values;
        Point {
            user,
            tp,
            tf,
            dp,
            df,
            mp,
            mf,
            vp,
            vf,
        }
    }
}
