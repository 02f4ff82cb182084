// Columns of the agent lines, and their sums.
ghost use Rattle.std.specs.Prelude.{◌≡◌, length};
ghost use Rattle.ints.specs.Adding.{Summable};
ghost use Rattle.ints.specs.Sums.{sum_ℤ};
ghost use Rattle.rules.specs.Charges.{pvs};
ghost use Rattle.rules.specs.Credits.{pbs};

use rules::Agent;

// The sum of all pb, of refusal 8.
pub fn pb_total(agents: &[Agent]) -> i64
    requires { Summable (pbs agents.now) }
    ensures { result ≡ sum_ℤ (pbs agents.now) }
{
    ints::total_by(agents, |agent| agent.pb)
}

// The sum of all pv, of refusal 9 and the compensation.
pub fn pv_total(agents: &[Agent]) -> i64
    requires { Summable (pvs agents.now) }
    ensures { result ≡ sum_ℤ (pvs agents.now) }
{
    ints::total_by(agents, |agent| agent.pv)
}

// Writes all pb, the weights of the balance.
pub(crate) fn pbs(agents: &[Agent], out: &mut [i64])
    requires { length out.old ≡ length agents.now }
    ensures { out.new ≡ pbs agents.now }
{
    // by index: of what a zipped `iter_mut` writes a proof learns nothing
    for (i, agent) in agents.iter().enumerate() {
        out[i] = agent.pb;
    }
}
