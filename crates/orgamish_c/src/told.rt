// The five lent numbers: the place, and four values.
ghost use Rattle.orgamish_c.specs.Told.{Passed, values_told};

use orgamish::Refusal;

// How many numbers are lent.
pub const TOLD: usize = 5;

// The values that a call tells, and the result 0; or the place of its refusal, and the result its number.
pub fn pass(told: &mut [u64; TOLD], outcome: Result<[u64; 4], Refusal>) -> u16
    ensures { Passed (values_told outcome) result told.new }
{
    match outcome {
        Ok(values) => {
            *told = [0, values[0], values[1], values[2], values[3]];
            0
        }
        Err(refusal) => {
            *told = [u64::from(refusal.place), 0, 0, 0, 0];
            refusal.reason.number()
        }
    }
}
