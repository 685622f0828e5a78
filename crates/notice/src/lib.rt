#![tactic(auto)]

// The code and the reason of each notice.
mod kind;

ghost use Rattle.std.specs.Prelude.{◌≡◌, ◌<◌, ◌↔◌, [], IsSome, MatchOption};
ghost use Rattle.notice.specs.Table.{code_of, reason_of};

pub use kind::{Code, NoNotice};
use std::convert::TryFrom;

// The code of a notice; None for a number that is no notice.
#[tactic(auto, unfolding(crate::specs::Table::table))]
pub fn code(number: u8) -> Option<&'static str>
    ensures known { IsSome result ↔ (0 < number) × (number < 22) }
    ensures value { MatchOption result (code_of number ≡ []) (λ s. s.now ≡ code_of number) }
{
    Some(Code::try_from(number).ok()?.words())
}

// The reason of a notice, likewise.
#[tactic(auto, unfolding(crate::specs::Table::table))]
pub fn reason(number: u8) -> Option<&'static str>
    ensures known { IsSome result ↔ (0 < number) × (number < 22) }
    ensures value { MatchOption result (reason_of number ≡ []) (λ s. s.now ≡ reason_of number) }
{
    Some(Code::try_from(number).ok()?.reason())
}
