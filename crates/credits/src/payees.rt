// The credits of a month's payees.
ghost use Rattle.std.specs.Prelude.{◌+◌, ◌≤◌, ◌≡◌, ℤ, pos, ◌-ℤ◌, length};
ghost use Rattle.ints.specs.Adding.{Addable, sums};
ghost use Rattle.ints.specs.Bridge.{abs};
ghost use Rattle.ints.specs.Range.{Within};
ghost use Rattle.rules.specs.Most.{most_debits, most_own};
ghost use Rattle.rules.specs.Credits.{own_credits_from, VCsFrom};
ghost use Rattle.rules.specs.Ranges.{Amount};
ghost use Rattle.credits.specs.Payable.{Payable, AgentCredits};

use crate::agent::Due;
use rules::{AGENTS, Agent, MonthLine};

// What the credits are worked out from: the total of the users' debits, the last closed month, 0 for none, the month line and the agents.
#[derive(Clone, Copy)]
pub struct Payees<'a> {
    pub debits: i64,
    pub last: i64,
    pub line: MonthLine,
    pub agents: &'a [Agent],
    pub ghost payable: { Payable debits last line agents.now },
}

// Balance SMSE: what the users owe, less what the agents receive of their own, less ons.
fn smse(debits: i64, own: i64, ons: i64) -> i64
    requires { Within (pos 0) (pos most_debits) debits × (abs own ≤ most_own) × Amount ons }
    ensures { result ≡ debits -ℤ own -ℤ ons }
{
    debits - own - ons
}

// Adds each part to its entry. Apart from `agent_credits`: what `add_by` asks can be found by the kit, but not answered by us.
fn add_each(parts: &[i64], out: &mut [i64])
    requires { Addable (λ (x : ℤ). x) out.old parts.now }
    ensures { out.new ≡ sums (λ (x : ℤ). x) out.old parts.now }
{
    ints::add_by(parts, out, |part| *part);
}

impl Payees<'_> {
    // Writes VMST + VMPA + ret of each agent.
    fn own_credits(&self, out: &mut [i64])
        requires { length out.old ≡ length self.now.agents.now }
        ensures { out.new ≡ own_credits_from self.now.last self.now.line self.now.agents.now }
    {
        let due = Due::of(self.last, self.line.month);
        // by index: of what a zipped `iter_mut` writes a proof learns nothing
        for (i, agent) in self.agents.iter().enumerate() {
            out[i] = due.own_credit(*agent);
        }
    }

    // Writes the agents' credits: their own, and their parts of the balance over pb, which it writes too. Answers the balance.
    // A column for each amount, since `share::fill` takes and writes columns.
    pub fn agent_credits(&self, pb: &mut [i64], vmant: &mut [i64], vc: &mut [i64]) -> i64
        requires { (length pb.old ≡ length self.now.agents.now)
            × (length vmant.old ≡ length self.now.agents.now)
            × (length vc.old ≡ length self.now.agents.now) }
        ensures { AgentCredits self.now.debits self.now.last self.now.line self.now.agents.now result pb.new vmant.new vc.new }
    {
        self.own_credits(vc);
        let balance = smse(self.debits, ints::total(vc), self.line.ons);
        crate::columns::pbs(self.agents, pb);
        share::fill(balance, crate::columns::pb_total(self.agents), pb, vmant);
        add_each(vmant, vc);
        balance
    }

    // Writes the credit of every payee: the agents in order, and then ONS, with ons.
    pub fn vcs(&self, vc: &mut [i64])
        requires { length vc.old ≡ length self.now.agents.now + 1 }
        ensures { vc.new ≡ VCsFrom self.now.debits self.now.last self.now.line self.now.agents.now }
    {
        // room for the most agents: nothing is allocated
        let n = self.agents.len();
        let mut pb = [0; AGENTS];
        let mut vmant = [0; AGENTS];
        self.agent_credits(&mut pb[..n], &mut vmant[..n], &mut vc[..n]);
        vc[n] = self.line.ons;
    }
}
