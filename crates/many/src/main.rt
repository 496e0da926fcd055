// The library's answers for a fixed family of small cases, through its public calls, each of which
// is lent the case's letter map. It prints a running checksum, to be compared with that of `second`,
// which shares no code with the library and whose main file says what the cases are and what is
// mixed in, in which order. A refusal that is none of the expected is mixed in as 2, its number, its
// place, and what would come of that call is left out.
#![tactic(auto)]

mod calls;
mod lent;
mod mixing;
mod readings;

use calls::mix_case;
use cases::{CASES, Checksum, FIRST_STATE, next_case};
use std::io;

fn main(rt: HostRuntime) -> io::Result<()> {
    let mut x = FIRST_STATE;
    let mut sum = Checksum::default();
    for c in 1..=CASES {
        mix_case(&mut sum, &next_case(&mut x));
        if c % 100 == 0 {
            println!(rt; "cases {c} {}", sum.h)?;
        }
    }
    Ok(())
}
