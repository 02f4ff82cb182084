// What one agent receives before the balance is shared.
ghost use Rattle.std.specs.Prelude.{◌≡◌, pos};
ghost use Rattle.ints.specs.Floor.{floor};
ghost use Rattle.rules.specs.declared.Agent.{Agent};
ghost use Rattle.rules.specs.Credits.{VMPA, VMST, own_credit};
ghost use Rattle.rules.specs.Calendar.{cycle_month, settled_to};
ghost use Rattle.rules.specs.Ranges.{Correction, AmountsFit, MonthAfter, Twelfths};

use rules::Agent;

// Which twelfths of a yearly adjustment fall due: those after the cycle month `after`, to which it is settled, up to the month's, `upto`.
#[derive(Clone, Copy)]
pub struct Due {
    pub after: i64,
    pub upto: i64,
    pub ghost twelfths: { Twelfths after upto },
}

// Twelfths rounded down: `/` cuts towards zero.
#[tactic(auto, using(crate::proofs::Euclid::floor_is_euclid))]
fn floor_12(x: i64) -> i64
    ensures { result ≡ floor x (pos 12) }
{
    x.div_euclid(12)
}

// VMST = pb − pv + afs − rfs.
pub fn vmst(agent: Agent) -> i64
    requires { AmountsFit agent }
    ensures { result ≡ VMST agent }
{
    agent.pb - agent.pv + agent.afs - agent.rfs
}

impl Due {
    // When the month closes, `last` being the last closed month, 0 for none, as the ledger has it.
    pub fn of(last: i64, month: i64) -> Due
        requires { MonthAfter last month }
        ensures after { result.after ≡ settled_to last month }
        ensures upto { result.upto ≡ cycle_month month }
    {
        Due {
            after: crate::cycle::settled_to(last, month),
            upto: crate::cycle::cycle_month(month),
        }
    }

    // VMPA: what falls due of a yearly adjustment.
    pub fn vmpa(self, pa: i64) -> i64
        requires { Correction pa }
        ensures { (a : Agent) → a.pa ≡ pa → result ≡ VMPA self.after self.upto a }
    {
        floor_12(pa * self.upto) - floor_12(pa * self.after)
    }

    // VMST + VMPA + ret.
    pub(crate) fn own_credit(self, agent: Agent) -> i64
        requires { AmountsFit agent }
        ensures { result ≡ own_credit self.after self.upto agent }
    {
        vmst(agent) + self.vmpa(agent.pa) + agent.ret
    }
}
