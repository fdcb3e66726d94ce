//! A caller's stack.

ghost use Rattle.std.specs.Prelude.{◌≡◌, ◌≤◌, ◌<◌, true, false};
ghost use Rattle.ffi_memory.specs.Stack.{stack_of_nesting, stack_given};

/// The stack that a text needs apart from its brackets, in bytes.
const BASE: usize = 65_536;
/// The stack that each open bracket needs, in bytes.
const EACH: usize = 1_152;
/// The stack that there is if a caller says nothing, in bytes.
const UNTOLD: usize = 524_288;
/// The greatest nesting for which `BASE + EACH * nesting` is a `usize`.
const GREATEST: usize = 16_012_798_675_095_039;

/// Whether a stack of so many bytes suffices for so many brackets that are open at once, by measurement. 0 means 512 KB.
pub fn suffices(stack: usize, nesting: usize) -> bool
    ensures enough { result ≡ true → stack_of_nesting nesting ≤ stack_given stack }
    ensures short { result ≡ false → stack_given stack < stack_of_nesting nesting }
{
    if GREATEST < nesting {
        return false;
    }
    let wanted = BASE + EACH * nesting;
    if given(stack) < wanted {
        return false;
    }
    true
}

/// The stack that there is if a caller gives this number.
fn given(stack: usize) -> usize
    ensures { result ≡ stack_given stack }
{
    if stack == 0 { UNTOLD } else { stack }
}
