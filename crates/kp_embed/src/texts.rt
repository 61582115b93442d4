//! The text of what a call answers.
ghost use Rattle.std.specs.Prelude.{◌≡◌, ◌++◌, ℕ, List, drop, length, min, take};
ghost use Rattle.kp_handles.specs.Numbers.{IsName};

use kp_handles::write_name;

/// Writes the name of what a call answered, as far as there is room, and answers how many bytes it wrote.
#[unsafe(no_mangle)]
pub extern "C" fn kp_text(number: u32, to: &mut [u8]) -> usize
    ensures { (name : List ℕ) × IsName number name × (result ≡ min (length name) (length to.old))
        × (to.new ≡ take result name ++ drop result to.old) }
{
    write_name(number, to)
}
