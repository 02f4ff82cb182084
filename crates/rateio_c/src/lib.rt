// What a holding's own billing program calls from C (paper 01, "The month file", last paragraph). include/rateio.h says it in C's words.
#![tactic(auto)]

ghost use Rattle.std.specs.Prelude.{◌≡◌};
ghost use Rattle.format.specs.Machine.{check_of};
ghost use Rattle.share.specs.Answer.{sharing, seen_by_c};

use monthfile::check::{NotFiles, file_check};

// The part of p between the weight sums `before` and `through` of w, or −10^18 less the place of the refusal.
#[unsafe(no_mangle)]
pub extern "C" fn rateio_share(p: i64, before: i64, through: i64, w: i64) -> i64
    ensures { result ≡ seen_by_c (sharing p before through w) }
{
    share::seen_by_c(share::part(p, before, through, w))
}

// −1 for a text of one or more month files on end, else the place of its refusal 11; −2 for a text over 10^15 bytes.
#[unsafe(no_mangle)]
pub extern "C" fn rateio_check(text: &[u8]) -> i64
    ensures { result ≡ check_of text.now }
{
    match file_check(text) {
        Ok(()) => -1,
        Err(NotFiles::At(place)) => place as i64,
        Err(NotFiles::TooLong) => -2,
    }
}
