//! The call of C that reads a configuration's text, a function of daa_numbers. It alone takes
//! memory, so it stands in an archive of its own, beside that of daa_c.
#![tactic(auto)]

ghost use Rattle.std.specs.Prelude.{◌≡◌, ◌≢◌, pos, drop};
ghost use Rattle.daa_config.specs.ConfigOf.{config_of};
ghost use Rattle.daa_numbers.specs.Codes.{answer_of};
ghost use Rattle.daa_numbers.specs.Numbers.{IsReadAs};

use daa_numbers::DaaConfig;
use std::alloc::Global;

/// Fills in the numbers of a configuration's text, or answers its fault. Where the text has fewer
/// than four levels or asks for no recovery, what is left over of the struct stays as it was.
#[unsafe(no_mangle)]
pub extern "C" fn daa_read(alloc: Global, text: &[u8], config: &mut DaaConfig) -> i32
    ensures read { result ≡ pos 0 → IsReadAs text.now config.new }
    ensures kept { result ≢ pos 0 → config.new ≡ config.old }
    ensures past_kept { drop config.new.count config.new.levels
        ≡ drop config.new.count config.old.levels }
    ensures cylinder_kept { config.new.recovery ≡ 0
        → config.new.cylinder ≡ config.old.cylinder }
    ensures refused { result ≢ pos 0 → result ≢ pos 20 → answer_of (config_of text.now) ≡ result }
{
    daa_numbers::read(alloc, text, config)
}
