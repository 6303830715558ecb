// A request for columns of Tensor Memory.
#![tactic(auto)]

ghost use Rattle.std.specs.Prelude.{◌≡◌};
ghost use Rattle.reasons.specs.Reasons.{answered};
ghost use Rattle.request.specs.Request.{request_reason};

use reasons::Reason;

// Refuses a request that is not legal.
pub fn check(columns: u32) -> Result<(), Reason>
    ensures { answered result ≡ request_reason columns }
{
    if (32..=512).contains(&columns) && columns.count_ones() == 1 {
        Ok(())
    } else {
        Err(Reason::Columns)
    }
}
