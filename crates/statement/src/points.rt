// The rows of the points of an accepted month.
ghost use Rattle.std.specs.Prelude.{◌≡◌, false, map, length};
ghost use Rattle.rules.specs.Lines.{bad_point};
ghost use Rattle.statement.specs.Statement.{point_row};
ghost use Rattle.statement.specs.Writes.{InRange};

use crate::PointRow;
use charges::point::PointInRange;
use rules::{Kind, Point, User};

// Use charge and overrun of a point.
fn row(users: &[User], p: Point) -> PointRow
    requires { bad_point p ≡ false }
    ensures { result ≡ point_row users.now p }
{
    let kind = Kind::try_from(refusals::points::kind_of(users, p.user)).ok();
    let point = PointInRange { point: p };
    PointRow {
        use_charge: point.use_charge(),
        overrun: point.overrun(kind),
    }
}

// Writes a row for each point.
pub(crate) fn rows(users: &[User], points: &[Point], out: &mut [PointRow])
    requires { InRange points.now × (length out.old ≡ length points.now) }
    ensures { out.new ≡ map (point_row users.now) points.now }
{
    // by index: of what a zipped `iter_mut` writes a proof learns nothing
    for (i, p) in points.iter().enumerate() {
        out[i] = row(users, *p);
    }
}
