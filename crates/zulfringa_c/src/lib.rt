// The checker as a static library for an editor written in C: its one entry, as include/zulfringa.h declares it.
#![tactic(auto)]

ghost use Rattle.zulfringa.specs.Stamps.{Stamped};

// 0 for false, 1 for true, or 10 more than the refusal's number.
#[unsafe(no_mangle)]
pub extern "C" fn zulfringa_check(text: &[u8]) -> u8
    ensures { Stamped text.now result }
{
    zulfringa::zulfringa_check(text)
}
