// The report of `consulta`: every amount of a closed month.
ghost use Rattle.statement.specs.Statement.{States};
ghost use Rattle.rules.specs.Lines.{lines_of};

use crate::books::Books;
use crate::line::{Line, write_line, write_lines};
use crate::months::{Month, PAYEES, POINTS, USERS};
use crate::payees::{Payee, each_row};
use crate::report::{Report, Stop};
use rules::{MonthLines, Refusal};
use statement::{PayeeRow, PointRow, UserRow};
use std::fmt::Write;
use std::{fmt, io};

pub(crate) struct Amounts;

impl Report for Amounts {
    const PROGRAM: &'static str = "consulta";

    const COLUMNS: &'static str = "month,item,payee,user,point,cents";

    fn month<R: io::Print>(rt: &R, books: &mut Books, month: Month<'_>) -> Result<(), Stop> {
        let mut rows = Rows::new();
        let balance = rows.state_and_close(books, month.lines)?;
        let mut head = Line::new();
        let yyyymm = month.lines.line.month;
        write!(head, "{yyyymm},").map_err(io::Error::from)?;
        let printer = Printer {
            rt,
            month,
            rows: &rows,
            head,
        };
        Ok(printer.amounts(balance, books)?)
    }
}

// A row for each point, each user and each payee, ONS last.
#[derive(Drop)]
struct Rows {
    points: [PointRow; POINTS],
    users: [UserRow; USERS],
    payees: [PayeeRow; PAYEES],
}

impl Rows {
    fn new() -> Rows {
        Rows {
            points: [PointRow::default(); POINTS],
            users: [UserRow::default(); USERS],
            payees: [PayeeRow::default(); PAYEES],
        }
    }

    // States a month with the credits that are held: its balance.
    fn state(&mut self, books: &Books, month: MonthLines<'_>) -> Result<i64, Refusal>
        ensures { States books.now.ledger books.now.held (lines_of month.entry)
            self.old.points self.old.users self.old.payees result
            self.new.points self.new.users self.new.payees }
    {
        statement::state(
            books.ledger,
            &books.held,
            month,
            &mut self.points,
            &mut self.users,
            &mut self.payees,
        )
    }

    // States a month with the credits held before it, and closes it.
    fn state_and_close(
        &mut self,
        books: &mut Books,
        month: MonthLines<'_>,
    ) -> Result<i64, Refusal> {
        let balance = self.state(books, month)?;
        books.close(month)?;
        Ok(balance)
    }
}

// Whose an amount is.
#[derive(Clone, Copy)]
enum Of {
    // of this user, and the number of the point
    Point(i64, usize),
    User(usize),
    Payee(Payee),
    Month,
}

// The columns payee, user and point, each empty where it does not apply.
impl fmt::Display for Of {
    fn fmt<W: fmt::Write>(&self, f: &mut fmt::Formatter<W>) -> fmt::Result {
        match self {
            Of::Point(user, point) => write!(f, ",{user},{point}"),
            Of::User(user) => write!(f, ",{user},"),
            Of::Payee(payee) => write!(f, "{payee},,"),
            Of::Month => write!(f, ",,"),
        }
    }
}

#[derive(Drop)]
struct Printer<'a, R> {
    rt: &'a R,
    month: Month<'a>,
    rows: &'a Rows,
    // the month, with which every line begins
    head: Line,
}

impl<R: io::Print> Printer<'_, R> {
    fn rows(&self, of: Of, amounts: &[(&str, i64)]) -> io::Result<()> {
        let mut columns = Line::new();
        write!(columns, "{of}")?;
        let columns = columns.as_str();
        for (item, cents) in amounts {
            let mut line = self.head;
            writeln!(line, "{item},{columns},{cents}")?;
            write_line(self.rt, &line)?;
        }
        Ok(())
    }

    fn points(&self) -> io::Result<()> {
        let points = self.month.lines.points;
        for (number, (point, r)) in (1..=points.len()).zip(points.iter().zip(&self.rows.points)) {
            let amounts = [("use", r.use_charge), ("overrun", r.overrun)];
            self.rows(Of::Point(point.user, number), &amounts)?;
        }
        Ok(())
    }

    fn users(&self) -> io::Result<()> {
        for (user, r) in (1..=self.month.lines.users.len()).zip(&self.rows.users) {
            let amounts = [
                ("EUST", r.eust),
                ("overruns", r.overruns),
                ("ret", r.ret),
                ("VME", r.vme),
                ("CPV", r.cpv),
                ("held_before", r.held_before),
                ("n", r.n),
                ("VD", r.vd),
                ("held_after", r.held_after),
                ("ong", r.ong),
            ];
            self.rows(Of::User(user), &amounts)?;
        }
        Ok(())
    }

    fn agents(&self) -> io::Result<()> {
        for (agent, r) in (1..=self.month.lines.agents.len()).zip(&self.rows.payees) {
            let amounts = [
                ("VMST", r.vmst),
                ("VMPA", r.vmpa),
                ("VMANT", r.vmant),
                ("ret", r.ret),
                ("VC", r.vc),
            ];
            self.rows(Of::Payee(Payee::Agent(agent)), &amounts)?;
        }
        Ok(())
    }

    // ONS's shared part, and its credit with every direct charge.
    fn ons(&self) -> io::Result<()> {
        let r = self.rows.payees[self.month.lines.agents.len()];
        let amounts = [("ons", r.shared), ("VC", r.vc)];
        self.rows(Of::Payee(Payee::Ons), &amounts)
    }

    fn row_of_cells(&self, payee: Payee, cents: &[i64]) -> io::Result<()> {
        let mut head = self.head;
        write!(head, "cell,{payee},")?;
        write_lines(self.rt, head, ",,", cents)
    }

    fn cells(&self, books: &Books) -> io::Result<()> {
        each_row(books, self.month, |payee: Payee, cents: &[i64]| {
            self.row_of_cells(payee, cents)
        })
    }

    fn amounts(&self, balance: i64, books: &Books) -> io::Result<()> {
        self.points()?;
        self.users()?;
        self.agents()?;
        self.ons()?;
        self.rows(Of::Month, &[("SMSE", balance)])?;
        self.cells(books)
    }
}
