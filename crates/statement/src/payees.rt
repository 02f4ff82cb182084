// The rows of the payees: the agents, and then ONS.
ghost use Rattle.std.specs.Prelude.{◌+◌, ◌≡◌, pos, length};
ghost use Rattle.ints.specs.Range.{Within};
ghost use Rattle.rules.specs.Most.{most_direct};
ghost use Rattle.statement.specs.Statement.{agent_rows_of};
ghost use Rattle.statement.specs.Columns.{StatesPayees};

use crate::PayeeRow;
use credits::agent::Due;
use credits::payees::Payees;
use rules::AGENTS;

// Writes a row for each agent, from its line and the columns.
fn rows(payees: &Payees, vmant: &[i64], vc: &[i64], out: &mut [PayeeRow])
    requires { (length vmant.now ≡ length payees.now.agents.now)
        × (length vc.now ≡ length payees.now.agents.now)
        × (length out.old ≡ length payees.now.agents.now) }
    ensures { out.new ≡ agent_rows_of payees.now.last payees.now.line.month vmant.now vc.now payees.now.agents.now }
{
    let due = Due::of(payees.last, payees.line.month);
    // by index: of what a zipped `iter_mut` writes a proof learns nothing
    for (i, agent) in payees.agents.iter().enumerate() {
        out[i] = PayeeRow {
            vmst: credits::agent::vmst(*agent),
            vmpa: due.vmpa(agent.pa),
            vmant: vmant[i],
            ret: agent.ret,
            vc: vc[i],
            shared: vc[i],
        };
    }
}

// Writes the rows of a month that breaks no limit, `direct` being the sum of its users' direct charges. Answers the balance.
pub(crate) fn state_payees(payees: &Payees, direct: i64, out: &mut [PayeeRow]) -> i64
    requires { Within (pos 0) (pos most_direct) direct × (length out.old ≡ length payees.now.agents.now + 1) }
    ensures { StatesPayees payees.now.debits payees.now.last payees.now.line payees.now.agents.now direct result out.new }
{
    // room for the most agents: nothing is allocated
    let n = payees.agents.len();
    let mut pb = [0; AGENTS];
    let mut all_vmant = [0; AGENTS];
    let mut all_vc = [0; AGENTS];
    let vmant = &mut all_vmant[..n];
    let vc = &mut all_vc[..n];
    let balance = payees.agent_credits(&mut pb[..n], vmant, vc);
    rows(payees, vmant, vc, &mut out[..n]);
    out[n] = PayeeRow {
        vc: payees.line.ons + direct,
        shared: payees.line.ons,
        ..PayeeRow::default()
    };
    balance
}
