//! The steps that a turn works.
#![tactic(auto)]

ghost use Rattle.std.specs.Prelude.{◌≡◌};

use std::hint::spin_loop;

// After so many steps the processor pauses. A pause is the one thing in the loop that the compiler does not count at once.
const PAUSE: u32 = 128;

/// So many steps of a loop; the answer is how many. Linear time in the steps, which a pause of the processor after each 128th sees to.
pub fn work_for(steps: u32) -> u32
    ensures { result ≡ steps }
{
    let mut done = 0;
    for _ in 0..steps {
        done += 1;
        if done % PAUSE == 0 {
            spin_loop();
        }
    }
    done
}
