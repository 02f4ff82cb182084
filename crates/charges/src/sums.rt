// Refusals 8, 9 and 10: the sums of a month whose lines have passed.
ghost use Rattle.std.specs.Prelude.{◌≡◌};
ghost use Rattle.rules.specs.Refusals.{weight_tests, debit_test};
ghost use Rattle.rules.specs.Answers.{verdict_of};

use rules::Refusal;

// 8 and 9, by the sums of pb, of pv and of EUST.
pub fn weights_verdict(pb: i64, pv: i64, uses: i64) -> Result<(), Refusal>
    ensures { verdict_of result ≡ weight_tests pb pv uses }
{
    if pb == 0 {
        return Err(Refusal::NoPayments);
    }
    if pv > 0 && uses == 0 {
        return Err(Refusal::NoUse);
    }
    Ok(())
}

// 10, by the sum of the debits.
pub fn debits_verdict(total: i64) -> Result<(), Refusal>
    ensures { verdict_of result ≡ debit_test total }
{
    if total == 0 {
        return Err(Refusal::NoDebit);
    }
    Ok(())
}
